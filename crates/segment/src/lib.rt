// A segment: which of a record's ends is its smaller one, and what it is to a point, to a column and to another
// segment. Every function here is a test on values; the loops over a chart are the crates above.
#![tactic(auto)]

ghost use Rattle.std.specs.Prelude.{◌≡◌, ◌*◌, ◌≤◌, cond, Some, None};
ghost use Rattle.record.specs.Order.{left};
ghost use Rattle.plane.specs.Points.{is_segment};
ghost use Rattle.plane.specs.Turns.{largest_product};
ghost use Rattle.plane.specs.Touching.{within, splits, touches};
ghost use Rattle.plane.specs.Columns.{vertical, covers, reaches, counted_for, below_point, higher, holds, ends_at};
ghost use Rattle.segment.specs.Segments.{segment, is_record, Rise};

use plane::{Point, Segment};
use record::Record;

// ---- out of a record

#[tactic(auto, unfolding(crate::specs::Segments::segment))]
pub fn segment_of(r: Record) -> Segment
    ensures { result ≡ segment r }
{
    if record::is_left(r) {
        Segment {
            a: r.dom,
            b: r.other,
        }
    } else {
        Segment {
            a: r.other,
            b: r.dom,
        }
    }
}

// The segment of a left half, which stands for it; none of a right half, so that each segment is taken once.
pub fn segment_of_left(r: Record) -> Option<Segment>
    ensures { result ≡ cond (left r) (Some (segment r)) None }
{
    record::is_left(r).then(|| segment_of(r))
}

// `is_record` and `is_segment` say by name what `==` answers: promises' `same-is-record` and `same-is-segment` are of
// them.

#[tactic(auto, unfolding(crate::specs::Segments::is_record))]
pub fn is_record(e: Record, r: Record) -> bool
    ensures { result ≡ is_record e r }
{
    r == e
}

pub fn is_segment(s: Segment, t: Segment) -> bool
    ensures { result ≡ is_segment s t }
{
    t == s
}

// ---- a column

pub fn is_vertical(s: Segment) -> bool
    ensures { result ≡ vertical s }
{
    s.a.x == s.b.x
}

// Whether s goes on to the right of column x.
fn is_covering(x: u16, s: Segment) -> bool
    ensures { result ≡ covers x s }
{
    s.a.x <= x && x < s.b.x
}

// Whether s comes to column x from the left: a line of its own, told apart by its ends.
fn is_reaching(x: u16, s: Segment) -> bool
    ensures { result ≡ reaches x s }
{
    s.a.x < x && x <= s.b.x
}

// ---- a point

#[tactic(auto, unfolding(plane::specs::Columns::ends_at))]
pub fn is_end(p: Point, s: Segment) -> bool
    ensures { result ≡ ends_at p s }
{
    points::is_same(s.a, p) || points::is_same(s.b, p)
}

// Whether p lies inside s, and is none of its ends.
#[tactic(auto, unfolding(plane::specs::Touching::within))]
fn is_within(s: Segment, p: Point) -> bool
    ensures { result ≡ within s p }
{
    points::is_before(s.a, p) && points::is_before(p, s.b) && points::is_straight(s.a, s.b, p)
}

// Whether p lies on s, ends included.
#[tactic(auto, unfolding(plane::specs::Columns::holds))]
pub fn is_on(p: Point, s: Segment) -> bool
    ensures { result ≡ holds p s }
{
    is_end(p, s) || is_within(s, p)
}

// Whether t lies strictly below p, at the column of p.
#[tactic(auto, unfolding(plane::specs::Columns::below_point))]
pub fn is_below_point(p: Point, t: Segment) -> bool
    ensures { result ≡ below_point p t }
{
    is_covering(p.x, t) && points::turns_left(t.a, t.b, p)
}

// ---- two segments

// Whether the ends of t lie on different sides of the line of s, and not on it.
#[tactic(auto, unfolding(plane::specs::Touching::splits))]
fn is_split(s: Segment, t: Segment) -> bool
    ensures { result ≡ splits s t }
{
    points::turns_left(s.a, s.b, t.a) && points::turns_right(s.a, s.b, t.b)
        || points::turns_right(s.a, s.b, t.a) && points::turns_left(s.a, s.b, t.b)
}

#[tactic(auto, unfolding(plane::specs::Touching::touches))]
pub fn is_touching(s: Segment, t: Segment) -> bool
    ensures { result ≡ touches s t }
{
    is_split(s, t) && is_split(t, s)
        || is_within(s, t.a)
        || is_within(s, t.b)
        || is_within(t, s.a)
        || is_within(t, s.b)
}

// Whether t is counted for the mark of s.
#[tactic(auto, unfolding(plane::specs::Columns::counted_for))]
pub fn is_counted_for(s: Segment, t: Segment) -> bool
    ensures { result ≡ counted_for s t }
{
    if is_vertical(s) {
        return is_reaching(s.a.x, t) && !points::turns_right(t.a, t.b, s.a);
    }
    is_covering(s.a.x, t)
        && (points::turns_left(t.a, t.b, s.a)
            || points::is_straight(t.a, t.b, s.a) && !points::turns_left(s.a, s.b, t.b))
}

// ---- which of two is the higher

// The height of s at column x, times its breadth.
fn rise_of(x: u16, s: Segment) -> u64
    ensures { Rise x s result }
{
    let onward = s.b.x.saturating_sub(x);
    let behind = x.saturating_sub(s.a.x);
    points::product(s.a.y, onward) + points::product(s.b.y, behind)
}

// A rise by another segment's breadth, so that the two compare. Three coordinates multiplied stay below 2 to the 50.
fn level_of(rise: u64, breadth: u16) -> u64
    requires { rise ≤ 2 * largest_product }
    ensures { result ≡ rise * breadth }
{
    rise * (breadth as u64)
}

// Whether s is higher than t at column x, or just right of a point where both start.
#[tactic(auto, unfolding(plane::specs::Columns::higher))]
pub fn is_higher(x: u16, s: Segment, t: Segment) -> bool
    ensures { result ≡ higher x s t }
{
    let low = level_of(rise_of(x, t), s.b.x.saturating_sub(s.a.x));
    let high = level_of(rise_of(x, s), t.b.x.saturating_sub(t.a.x));
    low < high || points::is_same(s.a, t.a) && points::turns_left(t.a, t.b, s.b)
}
