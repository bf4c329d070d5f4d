// The segment nearest below a point of a chart, and where the point lies by that segment's mark alone. Each judges the
// chart first and hands a refusal on; callers check nothing.
#![tactic(auto)]

ghost use Rattle.std.specs.Prelude.{◌≡◌};
ghost use Rattle.counts.specs.Count.{odd};
ghost use Rattle.counts.specs.Scan.{first_place};
ghost use Rattle.grid.specs.Coordinates.{point_of};
ghost use Rattle.record.specs.Records.{record_at, record_count, records};
ghost use Rattle.region.specs.Boundaries.{counted, below, higher_below};
ghost use Rattle.question.specs.Places.{placed};
ghost use Rattle.nearest.specs.Nearests.{nearest_of, nearest_below};
ghost use Rattle.nearest.specs.Passes.{Highest};

use chart::{Chart, ChartRefusal};
use plane::{Point, Segment};
use question::{Place, place_by};
use record::{MARKED, Record, record_at, record_count};

// ---- the nearest below

// Whether e is counted below p and is higher there than t.
fn is_higher_below(p: Point, t: Segment, e: Record) -> bool
    ensures { result ≡ higher_below p t e }
{
    question::is_below(p, e) && segment::is_higher(p.x, segment::segment_of(e), t)
}

// The first that is counted: a call of `find`, whose clause names its test, as chart's searches are.
fn first_below(s: &[i16], p: Point) -> Option<usize>
    ensures { result ≡ first_place (counted p) (record_at s.now) (record_count s.now) }
{
    (0..record_count(s)).find(|&i| question::is_below(p, record_at(s, i)))
}

// The first of the highest below p, the number of records where there is none. Each is compared with the highest so far
// alone: in a sound chart, where which of two is higher is an order, that is the first that is nearest. No Option: the
// clause `Highest` says the number of records, and `same-highest-below` is of it.
#[tactic(auto, using(crate::proofs::Sets::climbing))]
pub fn highest_below(s: &[i16], p: Point) -> usize
    ensures { Highest s.now p result }
{
    let n = record_count(s);
    let first = first_below(s, p).unwrap_or(n);
    let mut top = first;
    for i in first..n {
        let t = segment::segment_of(record_at(s, top));
        if is_higher_below(p, t, record_at(s, i)) {
            top = i;
        }
    }
    top
}

#[tactic(auto, using(crate::proofs::Sets::highest))]
fn nearest_of(chart: &Chart, p: Point) -> Option<usize>
    ensures { result ≡ nearest_of chart.now.now (record_count chart.now.now) p }
{
    let i = highest_below(chart.numbers(), p);
    if i < chart.record_count() {
        Some(i)
    } else {
        None
    }
}

// The index of the record whose segment is the nearest straight below a point; none where there is nothing below.
#[tactic(auto, unfolding(crate::specs::Nearests::nearest_below))]
pub fn nearest_below(chart: &[i16], x: i16, y: i16) -> Result<Option<usize>, ChartRefusal>
    ensures { result ≡ nearest_below chart.now (point_of x y) }
{
    let chart = Chart::new(chart)?;
    Ok(nearest_of(&chart, grid::point_of(x, y)))
}

// ---- where a point lies, by the mark of the nearest below

// What `is_odd_below` answers, without the count. By `highest_below` itself: of `nearest_of`'s Option, by `is_some_and`
// or by a `match`, the proof did not close.
#[tactic(auto, using(crate::proofs::Sets::marked), unfolding(grid::specs::Coordinates::up))]
fn is_marked_below(chart: &Chart, p: Point) -> bool
    ensures { result ≡ odd (below (records chart.now.now) p) }
{
    let s = chart.numbers();
    let i = highest_below(s, p);
    if i == chart.record_count() {
        return false;
    }
    record_at(s, i).mark == MARKED
}

// What `point` answers, told by the side mark of the nearest boundary below alone.
#[tactic(auto, unfolding(question::specs::Places::placed, question::specs::Places::place_of))]
pub fn inside_by_mark(chart: &[i16], x: i16, y: i16) -> Result<Place, ChartRefusal>
    ensures { result ≡ placed chart.now (point_of x y) }
{
    let chart = Chart::new(chart)?;
    let p = grid::point_of(x, y);
    Ok(place_by(
        question::is_edge(chart.numbers(), p),
        is_marked_below(&chart, p),
    ))
}
