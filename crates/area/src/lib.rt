// Twice the area of a chart. Heights are counts, so each left half adds to two unsigned sums, gains and losses, which
// are subtracted once, at the end.
#![tactic(auto)]

ghost use Rattle.std.specs.Prelude.{◌≡◌, ◌≤◌};
ghost use Rattle.counts.specs.Scan.{Summed};
ghost use Rattle.record.specs.Records.{record_at, records};
ghost use Rattle.area.specs.Areas.{twice_area, area_of};
ghost use Rattle.area.specs.Sums.{across, strip, gain, loss, Term, most_term, most_records};

use chart::{Chart, ChartRefusal};
use record::{MARKED, Record, record_at};

// The height 0, counted from the grid's lower end.
const GROUND: u16 = 32768;

// What a record, or all of them, add to either sum.
#[derive(Clone, Copy, Debug, PartialEq, Eq, Default)]
struct Sums {
    gains: u64,
    losses: u64,
}

// ---- one record

// How far across the segment of a left half goes. A right half counts for nothing, so that each segment is taken once.
// The difference is taken here, where the segment's order is known, and not in a closure over `segment_of_left`.
#[tactic(auto, using(crate::proofs::AreaLaws::segment_rises))]
fn across_of(r: Record) -> u16
    ensures { result ≡ across r }
{
    let s = segment::segment_of(r);
    if record::is_left(r) { s.b.x - s.a.x } else { 0 }
}

// A breadth by two counted heights.
fn strip_of(w: u16, a: u16, b: u16) -> u64
    ensures { Term (strip w a b) result }
{
    points::product(w, a) + points::product(w, b)
}

// For mark 0 the heights are gained and the ground under them is lost; for mark 1 the other way round.
#[tactic(auto, unfolding(crate::specs::Sums::gain, crate::specs::Sums::loss, grid::specs::Coordinates::up))]
fn sums_of(r: Record) -> Sums
    ensures gains { Term (gain r) result.gains }
    ensures losses { Term (loss r) result.losses }
{
    let w = across_of(r);
    let heights = strip_of(w, r.dom.y, r.other.y);
    let ground = strip_of(w, GROUND, GROUND);
    if r.mark == MARKED {
        Sums {
            gains: ground,
            losses: heights,
        }
    } else {
        Sums {
            gains: heights,
            losses: ground,
        }
    }
}

// ---- the first n records

#[tactic(auto, using(counts::proofs::StepLaws::summing))]
fn sums_of_first(s: &[i16], n: usize) -> Sums
    requires { n ≤ most_records }
    ensures gains { Summed gain (record_at s.now) most_term n result.gains }
    ensures losses { Summed loss (record_at s.now) most_term n result.losses }
{
    let mut all = Sums::default();
    for i in 0..n {
        let one = sums_of(record_at(s, i));
        all.gains += one.gains;
        all.losses += one.losses;
    }
    all
}

// ---- a chart

// Both sums stay below 2 to the 44, so their difference fits.
#[tactic(auto, using(plane::proofs::DifferenceLaws::diff, crate::proofs::AreaLaws::gains_less_losses, crate::proofs::CastLaws::differences))]
fn twice_area(chart: &Chart) -> i64
    ensures { result ≡ twice_area (records chart.now.now) }
{
    let sums = sums_of_first(chart.numbers(), chart.record_count());
    sums.gains as i64 - sums.losses as i64
}

// Twice the area of a chart, or why it is none.
#[tactic(auto, unfolding(crate::specs::Areas::area_of))]
pub fn area2(chart: &[i16]) -> Result<i64, ChartRefusal>
    ensures { result ≡ area_of chart.now }
{
    let chart = Chart::new(chart)?;
    Ok(twice_area(&chart))
}
