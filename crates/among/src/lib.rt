// One record, segment or point among the records of an array: whether it is there, whether one touches it, how many end
// at it, how many are counted for its mark. The array need be no chart. A segment is counted once, by its left half.
#![tactic(auto)]

ghost use Rattle.std.specs.Prelude.{◌≡◌, cond, Some, None};
ghost use Rattle.counts.specs.Scan.{Found, first_place, any_place, count_places};
ghost use Rattle.plane.specs.Points.{is_segment};
ghost use Rattle.plane.specs.Touching.{touches};
ghost use Rattle.plane.specs.Columns.{ends_at, counted_for};
ghost use Rattle.record.specs.Order.{left};
ghost use Rattle.record.specs.Records.{record_at, record_count, records};
ghost use Rattle.segment.specs.Segments.{segment, of_segment, is_record};
ghost use Rattle.among.specs.Among.{has, has_segment, touched, end_count, counted_mark};

use plane::{Point, Segment};
use record::{Record, record_at, record_count};

// ---- a record

fn first_same(s: &[i16], e: Record) -> Option<usize>
    ensures { result ≡ first_place (is_record e) (record_at s.now) (record_count s.now) }
{
    (0..record_count(s)).find(|&i| segment::is_record(e, record_at(s, i)))
}

// The place of the record, with its mark; the number of records where it is not there. No Option, since callers hold
// what the clause `Found` says: a place, with its range, whether the record is there or not.
#[tactic(auto, using(counts::proofs::PlaceLaws::first_place_found))]
pub fn place_of(s: &[i16], e: Record) -> usize
    ensures { Found (is_record e) (record_at s.now) 0 (record_count s.now) result }
{
    first_same(s, e).unwrap_or(record_count(s))
}

// Whether the record is there, with its mark.
#[tactic(auto, using(counts::proofs::PlaceLaws::any_first_place))]
pub fn has_record(s: &[i16], e: Record) -> bool
    ensures { result ≡ has (records s.now) e }
{
    first_same(s, e).is_some()
}

// ---- a segment, by its left half

// Here and below a line for each test, and a clause that names it: `is_some_and`, `find`, `any` and `filter` are the
// functions that are handed one, and one more of our own would save no line.
fn is_same_half(t: Segment, e: Record) -> bool
    ensures { result ≡ of_segment (is_segment t) e }
{
    segment::segment_of_left(e).is_some_and(|g| segment::is_segment(t, g))
}

// A function of its own: the check knows the chain by its own clause, and `any_place_is` what it says of all records.
fn is_any_same(s: &[i16], t: Segment) -> bool
    ensures { result ≡ any_place (of_segment (is_segment t)) (record_at s.now) (record_count s.now) }
{
    (0..record_count(s)).any(|i| is_same_half(t, record_at(s, i)))
}

// Whether the segment is there, whatever its mark.
#[tactic(auto, using(counts::proofs::PlaceLaws::any_place_is))]
pub fn has_segment(s: &[i16], t: Segment) -> bool
    ensures { result ≡ has_segment (records s.now) t }
{
    is_any_same(s, t)
}

// ---- a segment that touches

fn is_touching_half(t: Segment, e: Record) -> bool
    ensures { result ≡ of_segment (touches t) e }
{
    segment::segment_of_left(e).is_some_and(|g| segment::is_touching(t, g))
}

fn is_any_touching(s: &[i16], t: Segment) -> bool
    ensures { result ≡ any_place (of_segment (touches t)) (record_at s.now) (record_count s.now) }
{
    (0..record_count(s)).any(|i| is_touching_half(t, record_at(s, i)))
}

// Whether a segment of the array touches this one.
#[tactic(auto, using(counts::proofs::PlaceLaws::any_place_is))]
pub fn is_touched(s: &[i16], t: Segment) -> bool
    ensures { result ≡ touched (records s.now) t }
{
    is_any_touching(s, t)
}

// ---- ends at a point

fn is_ending_half(p: Point, e: Record) -> bool
    ensures { result ≡ of_segment (ends_at p) e }
{
    segment::segment_of_left(e).is_some_and(|g| segment::is_end(p, g))
}

fn count_ends(s: &[i16], p: Point) -> usize
    ensures { result ≡ count_places (of_segment (ends_at p)) (record_at s.now) (record_count s.now) }
{
    let n = record_count(s);
    (0..n)
        .filter(|&i| is_ending_half(p, record_at(s, i)))
        .count()
}

// How many segments end at the point.
#[tactic(auto, using(counts::proofs::PlaceLaws::count_places_is))]
pub fn end_count(s: &[i16], p: Point) -> usize
    ensures { result ≡ end_count (records s.now) p }
{
    count_ends(s, p)
}

// ---- the counted mark

fn is_counted_half(t: Segment, e: Record) -> bool
    ensures { result ≡ of_segment (counted_for t) e }
{
    segment::segment_of_left(e).is_some_and(|g| segment::is_counted_for(t, g))
}

fn count_for(s: &[i16], t: Segment) -> usize
    ensures { result ≡ count_places (of_segment (counted_for t)) (record_at s.now) (record_count s.now) }
{
    (0..record_count(s))
        .filter(|&i| is_counted_half(t, record_at(s, i)))
        .count()
}

// The mark of a segment by document 01's count over the array's own segments.
#[tactic(auto, using(counts::proofs::PlaceLaws::count_places_is), unfolding(grid::specs::Coordinates::up))]
pub fn counted_mark(s: &[i16], t: Segment) -> u16
    ensures { result ≡ counted_mark (records s.now) t }
{
    if count_for(s, t) % 2 == 1 {
        return record::MARKED;
    }
    record::UNMARKED
}
