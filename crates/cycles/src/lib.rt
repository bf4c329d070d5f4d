// The walks of a chart and the cycles that they are cut into (document 01, "Faces, holes and area"). What a walk, a cut
// and a cycle are: the crate walks.
#![tactic(auto)]

ghost use Rattle.std.specs.Prelude.{◌≡◌, ◌≤◌, ◌<◌, length, drop, replicate, ◌++◌};
ghost use Rattle.std.specs.List.{position};
ghost use Rattle.record.specs.Records.{record_at, record_count};
ghost use Rattle.chart.specs.Verdicts.{limit};
ghost use Rattle.chart.specs.Regions.{Region};
ghost use Rattle.around.specs.Departing.{departs};
ghost use Rattle.walks.specs.Ways.{way_back, first_here, clockwise, next};
ghost use Rattle.walks.specs.Walks.{from};
ghost use Rattle.cycles.specs.Circles.{arrays_of, Circled};
ghost use Rattle.cycles.specs.Steps.{PlaceOf, Places, first_half, name_record, name_all};
ghost use Rattle.cycles.specs.Steps.{CutTo, CutWalk, CutFrom, Unset, CutWalks};

use arrayvec::ArrayVec;
use chart::{Chart, ChartRefusal, LIMIT};
use parts::{first_elsewhere, is_elsewhere};
use plane::Point;
use record::{MARKED, Record, is_left, other_half, record_at, record_count};

// What the walks of a chart come to: for each of its records where its walk starts, which is the least of those that
// are walked, and the first record of its cycle. Two arrays, not one of pairs: `name_all` writes either by the same
// steps.
#[derive(Clone, Copy, Debug, PartialEq, Eq)]
pub struct Cycles {
    pub starts: [usize; LIMIT],
    pub firsts: [usize; LIMIT],
}

// ---- a chart's records: both answers say besides, by `region`, what the laws of walks ask of the chart

fn count_of(s: &Chart) -> usize
    ensures value { result ≡ record_count s.now.now }
    ensures few { result ≤ limit }
    ensures region { Region s.now.now }
{
    record_count(s.numbers())
}

fn record_of(s: &Chart, i: usize) -> Record
    ensures value { result ≡ record_at s.now.now i }
    ensures region { Region s.now.now }
{
    record_at(s.numbers(), i)
}

// ---- the way

// Whether the segment of r is walked from its dominating end, with the inside on the left.
#[tactic(auto, unfolding(grid::specs::Coordinates::up))]
fn is_departing(r: Record) -> bool
    ensures { result ≡ departs r }
{
    (r.mark == MARKED) == is_left(r)
}

// The other half of record i. By `few` a record's number is a place of the arrays of Cycles. That i is a record of this
// chart is asked here and below: a type for it would have to carry the chart, and be no plainer.
#[tactic(auto, using(crate::proofs::Sets::halves), unfolding(walks::specs::Ways::way_back))]
fn way_back(s: &Chart, i: usize) -> usize
    requires { i < record_count s.now.now }
    ensures place { PlaceOf s.now.now (way_back s.now.now i) result }
    ensures few { record_count s.now.now ≤ limit }
{
    among::place_of(s.numbers(), other_half(record_of(s, i)))
}

// Whether no record at its corner comes before record j.
fn is_first_here(s: &[i16], j: usize) -> bool
    ensures { result ≡ first_here s.now j }
{
    j == 0 || is_elsewhere(s, record_at(s, j).dom, j - 1)
}

// Turning clockwise from record j around its corner, the first record met.
#[tactic(auto, using(crate::proofs::Sets::turning), unfolding(walks::specs::Ways::clockwise))]
fn clockwise_from(s: &[i16], j: usize) -> usize
    requires { j < record_count s.now }
    ensures { PlaceOf s.now (clockwise s.now j) result }
{
    if is_first_here(s, j) {
        let past = first_elsewhere(s, record_at(s, j).dom, j, record_count(s));
        return past - 1;
    }
    j - 1
}

// Which record is walked after record i.
fn next_of(s: &Chart, i: usize) -> usize
    requires { i < record_count s.now.now }
    ensures { PlaceOf s.now.now (next s.now.now i) result }
{
    clockwise_from(s.numbers(), way_back(s, i))
}

// ---- the cut

// Whether record j departs from p.
fn is_from(s: &Chart, p: Point, j: usize) -> bool
    ensures { result ≡ from s.now.now p j }
{
    points::is_same(record_of(s, j).dom, p)
}

// The place, among the records that are left of a walk, of the one that departs from p.
fn visit_of(s: &Chart, p: Point, rest: &[usize]) -> Option<usize>
    ensures { result ≡ position (from s.now.now p) rest.now }
{
    rest.iter().position(|&j| is_from(s, p, j))
}

// The least of f, of the records of the cycle, and of their other halves. `Places`, here and in the two below, is asked
// of a slice as it is cut: a type around each slice would be no plainer.
#[tactic(auto, using(crate::proofs::Sets::halving))]
fn first_half(s: &Chart, f: usize, cycle: &[usize]) -> usize
    requires { Places s.now.now cycle.now }
    ensures { result ≡ first_half s.now.now f cycle.now }
{
    let mut least = f;
    for &j in cycle {
        least = least.min(j).min(way_back(s, j));
    }
    least
}

// Both halves of record j get the number v.
fn name_record(s: &Chart, v: usize, j: usize, to: &mut [usize; LIMIT])
    requires { j < record_count s.now.now }
    ensures { to.new ≡ name_record s.now.now v j to.old }
{
    let b = way_back(s, j);
    to[j] = v;
    to[b] = v;
}

// Both halves of each of the records of the cycle get the number v.
#[tactic(auto, using(crate::proofs::Sets::naming))]
fn name_all(s: &Chart, v: usize, cycle: &[usize], to: &mut [usize; LIMIT])
    requires { Places s.now.now cycle.now }
    ensures { to.new ≡ name_all s.now.now v cycle.now to.old }
{
    for &j in cycle {
        name_record(s, v, j, to);
    }
}

// The walk that started at w comes to p: where it has departed from p, what it has walked since is a cycle, and no
// longer part of the rest. What is left of a walk and what all walks come to are lent apart: the one is cleared for
// each walk.
#[tactic(auto, using(crate::proofs::Sets::cuts))]
fn cut_at(s: &Chart, p: Point, w: usize, rest: &mut ArrayVec<usize, LIMIT>, cycles: &mut Cycles)
    requires { Places s.now.now rest.old.items }
    ensures { CutTo s.now.now p w rest.old.items cycles.old.starts cycles.old.firsts
        rest.new.items cycles.new.starts cycles.new.firsts }
{
    let walked = rest.as_slice();
    if let Some(k) = visit_of(s, p, walked) {
        let cycle = &walked[k..];
        let f = first_half(s, cycle[0], cycle);
        name_all(s, w, cycle, &mut cycles.starts);
        name_all(s, f, cycle, &mut cycles.firsts);
        rest.truncate(k);
    }
}

// The walk that starts at w, cut wherever it returns to a point. What `rest` holds at first doesn't matter: it is lent
// so that its places are made once for all walks.
#[tactic(auto, using(crate::proofs::CuttingLaws::cutting))]
fn cut_walk(s: &Chart, w: usize, rest: &mut ArrayVec<usize, LIMIT>, cycles: &mut Cycles)
    requires { w < record_count s.now.now }
    ensures { CutWalk s.now.now w cycles.old.starts cycles.old.firsts cycles.new.starts cycles.new.firsts }
{
    rest.clear();
    let mut j = w;
    // k is how many records are walked: the invariant counts them.
    for k in 0..count_of(s) {
        let r = record_of(s, j);
        cut_at(s, r.dom, w, rest, cycles);
        rest.push(j);
        j = next_of(s, j);
        if j == w {
            break;
        }
    }
    let r = record_of(s, w);
    cut_at(s, r.dom, w, rest, cycles);
}

// Record i is next: a record that departs and has no start yet is the least of its walk, which is cut.
fn cut_from(s: &Chart, i: usize, rest: &mut ArrayVec<usize, LIMIT>, cycles: &mut Cycles)
    requires { i < record_count s.now.now }
    ensures { CutFrom s.now.now i cycles.old.starts cycles.old.firsts cycles.new.starts cycles.new.firsts }
{
    let n = s.record_count();
    if cycles.starts[i] == n && is_departing(record_of(s, i)) {
        cut_walk(s, i, rest, cycles);
    }
}

// Each walk in turn.
#[tactic(auto, using(crate::proofs::Sets::walking))]
fn cut_walks(s: &Chart, cycles: &mut Cycles)
    requires { Unset (record_count s.now.now) cycles.old.starts }
    ensures { CutWalks s.now.now cycles.old.starts cycles.old.firsts cycles.new.starts cycles.new.firsts }
{
    let mut rest = ArrayVec::<usize, LIMIT>::new();
    for i in 0..count_of(s) {
        cut_from(s, i, &mut rest, cycles);
    }
}

// ---- all walks

// The first n places get the number v: said of the whole list, where std's `fill` says it of each place.
fn fill(v: usize, n: usize, to: &mut [usize])
    requires { n ≤ length to.old }
    ensures { to.new ≡ replicate n v ++ drop n to.old }
{
    to[..n].fill(v);
}

// The walks of an accepted chart, cut: for a record that is not there, 0. At first each start is n, which stands for
// none: the arrays are the answer's own, and Options would be copied into it.
#[tactic(auto, using(crate::proofs::Sets::answering))]
fn arrays_of(chart: &Chart) -> Cycles
    ensures { result ≡ arrays_of chart.now.now }
{
    let n = chart.record_count();
    let mut cycles = Cycles {
        starts: [0; LIMIT],
        firsts: [0; LIMIT],
    };
    fill(n, n, &mut cycles.starts);
    cut_walks(chart, &mut cycles);
    cycles
}

// The walks of a chart, cut.
pub fn cycles_of(chart: &[i16]) -> Result<Cycles, ChartRefusal>
    ensures { Circled chart.now result }
{
    let chart = Chart::new(chart)?;
    Ok(arrays_of(&chart))
}
