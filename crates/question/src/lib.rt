// Questions about a chart: where a point lies, and the run at a corner.
// Each judges the chart first and hands a refusal on; callers check nothing.
#![tactic(auto)]

ghost use Rattle.std.specs.Prelude.{◌≡◌};
ghost use Rattle.counts.specs.Count.{odd};
ghost use Rattle.counts.specs.Scan.{any_place, count_places};
ghost use Rattle.plane.specs.Columns.{holds};
ghost use Rattle.grid.specs.Coordinates.{point_of};
ghost use Rattle.record.specs.Records.{record_at, record_count, records};
ghost use Rattle.segment.specs.Segments.{of_segment};
ghost use Rattle.region.specs.Boundaries.{held, counted, below};
ghost use Rattle.question.specs.Places.{place_by, placed};
ghost use Rattle.question.specs.Corners.{corner_of, Corner};

use chart::{ChartRefusal, check};
use parts::Span;
use plane::Point;
use record::{Record, record_at, record_count};

#[derive(Clone, Copy, Debug, PartialEq, Eq)]
pub enum Place {
    Outside,
    Inside,
    Edge,
}

// ---- where a point lies

// A line for each test and each chain, whose clause names it, as in `among`.
fn is_held(p: Point, e: Record) -> bool
    ensures { result ≡ of_segment (holds p) e }
{
    segment::segment_of_left(e).is_some_and(|t| segment::is_on(p, t))
}

fn is_any_holding(s: &[i16], p: Point) -> bool
    ensures { result ≡ any_place (of_segment (holds p)) (record_at s.now) (record_count s.now) }
{
    (0..record_count(s)).any(|i| is_held(p, record_at(s, i)))
}

// Whether a segment of the array's records holds p.
#[tactic(auto, using(counts::proofs::PlaceLaws::any_place_is))]
pub fn is_edge(s: &[i16], p: Point) -> bool
    ensures { result ≡ held (records s.now) p }
{
    is_any_holding(s, p)
}

pub fn is_below(p: Point, e: Record) -> bool
    ensures { result ≡ counted p e }
{
    segment::segment_of_left(e).is_some_and(|t| segment::is_below_point(p, t))
}

fn count_below(s: &[i16], p: Point) -> usize
    ensures { result ≡ count_places (counted p) (record_at s.now) (record_count s.now) }
{
    (0..record_count(s))
        .filter(|&i| is_below(p, record_at(s, i)))
        .count()
}

#[tactic(auto, using(counts::proofs::PlaceLaws::count_places_is))]
fn is_odd_below(s: &[i16], p: Point) -> bool
    ensures { result ≡ odd (below (records s.now) p) }
{
    count_below(s, p) % 2 == 1
}

// Edge where a segment holds the point; else by whether an odd number lies below it.
pub fn place_by(edge: bool, inner: bool) -> Place
    ensures { result ≡ place_by edge inner }
{
    if edge {
        Place::Edge
    } else if inner {
        Place::Inside
    } else {
        Place::Outside
    }
}

// Whether a point lies inside the chart, outside it or on its edge. Chart, x and y are what C passes, here and below.
#[tactic(auto, unfolding(crate::specs::Places::placed, crate::specs::Places::place_of))]
pub fn point(chart: &[i16], x: i16, y: i16) -> Result<Place, ChartRefusal>
    ensures { result ≡ placed chart.now (point_of x y) }
{
    check(chart)?;
    let p = grid::point_of(x, y);
    Ok(place_by(is_edge(chart, p), is_odd_below(chart, p)))
}

// ---- the run at a corner

// Where the run of records whose dominating end is the point lies; empty where there is none or the chart is refused.
#[tactic(auto, unfolding(crate::specs::Corners::corner_of))]
pub fn corner_of(chart: &[i16], x: i16, y: i16) -> Span
    ensures { result ≡ corner_of chart.now (point_of x y) }
{
    if check(chart).is_err() {
        return Span::NOWHERE;
    }
    parts::run_of(chart, grid::point_of(x, y))
}

// That run, as that very part of the chart.
#[tactic(auto, using(crate::proofs::CornerLaws::corner_rises, crate::proofs::CornerLaws::corner_ends))]
pub fn corner(chart: &[i16], x: i16, y: i16) -> &[i16]
    ensures { Corner chart.entry (point_of x y) result }
{
    let run = corner_of(chart, x, y);
    &chart[run.from..run.upto]
}
