// The sides of a segment in the result of two charts (document 01, "Joining two charts"): what is kept under or, and,
// or and-not, and how it is marked. The arrays need be no charts.
#![tactic(auto)]

ghost use Rattle.std.specs.Prelude.{◌≡◌};
ghost use Rattle.record.specs.Records.{records};
ghost use Rattle.region.specs.TwoSides.{upper_side};
ghost use Rattle.combined.specs.Kept.{upper_sides, keeps};
ghost use Rattle.sides.specs.Operations.{joined_by, joining, both, side_of};
ghost use Rattle.sides.specs.Kept.{kept_first, kept_second, kept_of, side_mark, side_marked};

use among::has_segment;
use parts::Which;
use plane::Segment;
use record::Record;
use segment::segment_of;

// What is made of two charts: the first or the second, both, the first and not the second.
#[derive(Clone, Copy, Debug, PartialEq, Eq)]
pub enum Op {
    Union,
    Intersection,
    Difference,
}

// Two chart arrays, and what is made of them.
#[derive(Clone, Copy, Debug, PartialEq)]
pub struct Pair<'a> {
    pub op: Op,
    pub a: &'a [i16],
    pub b: &'a [i16],
}

// ---- what is kept

// Whether a point lies in the result, by where it lies. A `match` over the three operations, which are all that there
// are, has a line for each, as `joined_by` has: closures that are handed in are no plainer.
pub fn joins(op: Op, first: bool, second: bool) -> bool
    ensures { result ≡ joined_by op first second }
{
    match op {
        Op::Union => first || second,
        Op::Intersection => first && second,
        Op::Difference => first && !second,
    }
}

// Whether the upper side of t, or the left of a vertical one, lies in the chart.
#[tactic(auto, unfolding(grid::specs::Coordinates::up))]
fn is_upper_in(s: &[i16], t: Segment) -> bool
    ensures { result ≡ upper_side (records s.now) t }
{
    among::counted_mark(s, t) == record::MARKED
}

impl<'a> Pair<'a> {
    // The array of the one or the other, as it lies where the pair has it.
    pub fn of(self, which: Which) -> &'a [i16]
        ensures numbers { result.now ≡ side_of which self.entry.a.now self.entry.b.now }
        ensures part { result ≡ side_of which self.entry.a self.entry.b }
    {
        match which {
            Which::First => self.a,
            Which::Second => self.b,
        }
    }

    // Whether the upper side of t lies in the result.
    fn is_upper_joined(self, t: Segment) -> bool
        ensures { result ≡ joining self.entry.op (upper_sides (both self.entry.a.now self.entry.b.now) t) }
    {
        joins(self.op, is_upper_in(self.a, t), is_upper_in(self.b, t))
    }

    // Whether the two sides of t differ in the result. The other side lies in a chart as the upper one does, but the
    // reverse where the chart has t.
    fn is_edge(self, t: Segment) -> bool
        ensures { result ≡ keeps (joining self.entry.op) (both self.entry.a.now self.entry.b.now) t }
    {
        let first = is_upper_in(self.a, t);
        let second = is_upper_in(self.b, t);
        let upper = joins(self.op, first, second);
        let lower = joins(
            self.op,
            first != has_segment(self.a, t),
            second != has_segment(self.b, t),
        );
        upper != lower
    }

    // Whether a record of the one chart is kept.
    pub fn is_kept(self, which: Which, r: Record) -> bool
        ensures { result ≡ kept_of which self.entry.op self.entry.a.now self.entry.b.now r }
    {
        match which {
            Which::First => is_kept_first(self.op, self.a, self.b, r),
            Which::Second => is_kept_second(self.op, self.a, self.b, r),
        }
    }

    // The mark of t in the result.
    #[tactic(auto, unfolding(grid::specs::Coordinates::up))]
    fn mark_of(self, t: Segment) -> u16
        ensures { result ≡ side_mark self.entry.op self.entry.a.now self.entry.b.now t }
    {
        if self.is_upper_joined(t) {
            return record::MARKED;
        }
        record::UNMARKED
    }

    // The record as it stands in the result.
    pub fn marked_afresh(self, r: Record) -> Record
        ensures { result ≡ side_marked self.entry.op self.entry.a.now self.entry.b.now r }
    {
        marked_afresh(self.op, self.a, self.b, r)
    }
}

// ---- the records of arrays by themselves: `Pair`'s methods go through these, of which the theorems
// `same-is-kept-first`, `same-is-kept-second` and `same-marked-afresh` are

// Whether a record of the first chart is kept.
#[tactic(auto, unfolding(crate::specs::Kept::kept_first))]
pub fn is_kept_first(op: Op, a: &[i16], b: &[i16], r: Record) -> bool
    ensures { result ≡ kept_first op a.now b.now r }
{
    Pair { op, a, b }.is_edge(segment_of(r))
}

// Of the second chart only what the first has not.
#[tactic(auto, unfolding(crate::specs::Kept::kept_second, crate::specs::Kept::kept_first))]
pub fn is_kept_second(op: Op, a: &[i16], b: &[i16], r: Record) -> bool
    ensures { result ≡ kept_second op a.now b.now r }
{
    let t = segment_of(r);
    !has_segment(a, t) && Pair { op, a, b }.is_edge(t)
}

// The record as it stands in the result.
#[tactic(auto, unfolding(crate::specs::Kept::side_marked))]
pub fn marked_afresh(op: Op, a: &[i16], b: &[i16], r: Record) -> Record
    ensures { result ≡ side_marked op a.now b.now r }
{
    Record {
        mark: Pair { op, a, b }.mark_of(segment_of(r)),
        ..r
    }
}
