// The order of two records (document 01, "How a chart is laid out").
ghost use Rattle.std.specs.Prelude.{◌≡◌};
ghost use Rattle.record.specs.Order.{Squared, leads, earlier, precedes};

use crate::{Record, is_left};
use points::Turn;

#[tactic(auto, unfolding(crate::specs::Order::square_length))]
fn square_length_of(r: Record) -> u64
    ensures { Squared r result }
{
    let w = r.dom.x.abs_diff(r.other.x);
    let h = r.dom.y.abs_diff(r.other.y);
    points::product(w, w) + points::product(h, h)
}

// Which of two records of one half at one end leads. Lengths are looked at only in line.
#[tactic(auto, unfolding(crate::specs::Order::leads, points::specs::Turning::turn_of, plane::specs::Turns::turns_left, plane::specs::Turns::turns_right, plane::specs::Turns::straight))]
fn is_leading(r: Record, e: Record) -> bool
    ensures { result ≡ leads r e }
{
    match points::turn_of(r.dom, r.other, e.other) {
        Turn::Left => true,
        Turn::Straight => square_length_of(r) < square_length_of(e),
        Turn::Right => false,
    }
}

#[tactic(auto, unfolding(crate::specs::Order::earlier))]
fn is_earlier_here(r: Record, e: Record) -> bool
    ensures { result ≡ earlier r e }
{
    if is_left(r) {
        return is_left(e) && is_leading(r, e);
    }
    is_left(e) || is_leading(r, e)
}

// Whether r comes strictly before e in a chart. No `Ord`: the mark does not count here, and in `==` it does.
#[tactic(auto, unfolding(crate::specs::Order::precedes))]
pub fn is_earlier(r: Record, e: Record) -> bool
    ensures { result ≡ precedes r e }
{
    points::is_before(r.dom, e.dom) || points::is_same(r.dom, e.dom) && is_earlier_here(r, e)
}
