// Points: the order of two, the turn of three.
#![tactic(auto)]

ghost use Rattle.std.specs.Prelude.{◌≡◌};
ghost use Rattle.plane.specs.Points.{before, same};
ghost use Rattle.plane.specs.Turns.{plus, minus, turns_left, turns_right, straight};
ghost use Rattle.points.specs.Turning.{Product, TurnSum, turn_of};

use plane::Point;
use std::cmp::Ordering;

// ---- two points: by name what `<` and `==` answer. Every comparison of two points, in the crates above, is by these, of
// which promises' `same-is-before` and `same-is-same` are.

pub fn is_before(p: Point, q: Point) -> bool
    ensures { result ≡ before p q }
{
    p < q
}

pub fn is_same(p: Point, q: Point) -> bool
    ensures { result ≡ same p q }
{
    p == q
}

// ---- three points, which callers take from different segments, so that no type holds them

#[derive(Clone, Copy, Debug, PartialEq, Eq)]
pub enum Turn {
    Left,
    Straight,
    Right,
}

// The one place where two coordinates are multiplied: a product reaches 65,535 squared, beyond signed 32 bits, so 64.
pub fn product(a: u16, b: u16) -> u64
    ensures { Product a b result }
{
    (a as u64) * (b as u64)
}

// What is added and what is taken away in the determinant: two sums of other products.
fn plus_of(p: Point, q: Point, r: Point) -> u64
    ensures { TurnSum (plus p q r) result }
{
    product(p.x, q.y) + product(q.x, r.y) + product(r.x, p.y)
}

fn minus_of(p: Point, q: Point, r: Point) -> u64
    ensures { TurnSum (minus p q r) result }
{
    product(p.y, q.x) + product(q.y, r.x) + product(r.y, p.x)
}

// How the way from p to q turns onto the way from p to r.
#[tactic(auto, unfolding(crate::specs::Turning::turn_of, plane::specs::Turns::turns_left, plane::specs::Turns::turns_right))]
pub fn turn_of(p: Point, q: Point, r: Point) -> Turn
    ensures { result ≡ turn_of p q r }
{
    match minus_of(p, q, r).cmp(&plus_of(p, q, r)) {
        Ordering::Less => Turn::Left,
        Ordering::Equal => Turn::Straight,
        Ordering::Greater => Turn::Right,
    }
}

// The three answers one by one, for callers that ask for a single one: `same-turns-left`, `same-turns-right` and
// `same-is-straight` are of these.
#[tactic(auto, unfolding(crate::specs::Turning::turn_of, plane::specs::Turns::turns_left, plane::specs::Turns::turns_right))]
pub fn turns_left(p: Point, q: Point, r: Point) -> bool
    ensures { result ≡ turns_left p q r }
{
    turn_of(p, q, r) == Turn::Left
}

#[tactic(auto, unfolding(crate::specs::Turning::turn_of, plane::specs::Turns::turns_left, plane::specs::Turns::turns_right))]
pub fn turns_right(p: Point, q: Point, r: Point) -> bool
    ensures { result ≡ turns_right p q r }
{
    turn_of(p, q, r) == Turn::Right
}

#[tactic(auto, unfolding(crate::specs::Turning::turn_of, plane::specs::Turns::turns_left, plane::specs::Turns::turns_right, plane::specs::Turns::straight))]
pub fn is_straight(p: Point, q: Point, r: Point) -> bool
    ensures { result ≡ straight p q r }
{
    turn_of(p, q, r) == Turn::Straight
}
