// The boundary for C and Rust (include/berzulka.h, rust/): each question of the controller's under a plain name. Each
// asks the proved function of its crate and packs what that answers into one number. Callers check nothing. The crate
// rig_c exports each of them.
#![tactic(auto)]

ghost use Rattle.std.specs.Prelude.{◌≡◌, ◌+◌, ◌*◌, ◌^◌, ◌<◌};
ghost use Rattle.grid.specs.Coordinates.{point_of};
ghost use Rattle.parts.specs.Parts.{head_of};
ghost use Rattle.chart.specs.Verdicts.{verdict, refusal_of};
ghost use Rattle.question.specs.Places.{placed};
ghost use Rattle.question.specs.Corners.{corner_of};
ghost use Rattle.area.specs.Areas.{area_of};
ghost use Rattle.sides.specs.declared.Op.TheVariants.{Union, Intersection, Difference};
ghost use Rattle.gauge.specs.Readings.{refusal_number, handed};
ghost use Rattle.rig.specs.Bits.{packed, of_refusal};
ghost use Rattle.rig.specs.Answers.{check_answer, point_answer, corner_answer, head_answer, area_answer, area_left};
ghost use Rattle.rig.specs.Answers.{faces_value, faces_answer, FacesListed};
ghost use Rattle.rig.specs.Answers.{join_value, join_answer, Combines, FileRead};
ghost use Rattle.rig.specs.Gauging.{KindGauges, SampleRead};

use chart::{ChartRefusal, Refusal};
use faces::{FaceCounts, FaceRefusal};
use gauge::{Card, GaugeRefusal, Reading};
use join::{JoinRefusal, combine};
use parts::Which;
use question::Place;
use sides::Op;

// ---- an answer's bits

// What bit 32 counts for: the upper half of an answer begins there.
const UPPER: u64 = 4294967296;

// Bits 0 to 31 a value, index or place; 32 to 47 a refusal's number; 48 to 55 the chart named; 56 to 63 a kind.
#[tactic(auto, unfolding(crate::specs::Bits::packed))]
fn pack(value: usize, number: u16, chart: u8, kind: u8) -> u64
    requires { value < 2 ^ 32 }
    ensures { result ≡ packed value number chart kind }
{
    value as u64 + UPPER * (number as u64 + 65536 * (chart as u64 + 256 * (kind as u64)))
}

// A refusal that names no chart.
fn pack_refusal(r: Refusal) -> u64
    requires { r.index < 2 ^ 32 }
    ensures { result ≡ of_refusal r }
{
    pack(r.index, r.number, 0, 0)
}

// To C, Outside is kind 0, Inside 1, Edge 2.
fn pack_place(a: Result<Place, ChartRefusal>) -> u64
    requires { (refusal_of a).index < 2 ^ 32 }
    ensures { result ≡ point_answer a }
{
    match a {
        Ok(Place::Outside) => pack(0, 0, 0, 0),
        Ok(Place::Inside) => pack(0, 0, 0, 1),
        Ok(Place::Edge) => pack(0, 0, 0, 2),
        Err(r) => pack_refusal(r.into()),
    }
}

// ---- questions about a chart

// 0 where the chart is accepted.
pub fn bz_check(chart: &[i16]) -> u64
    ensures { result ≡ check_answer (verdict chart.now) }
{
    match chart::check(chart) {
        Ok(()) => pack(0, 0, 0, 0),
        Err(r) => pack_refusal(r.into()),
    }
}

#[tactic(auto, using(crate::proofs::Sets::placed))]
pub fn bz_point(chart: &[i16], x: i16, y: i16) -> u64
    ensures { result ≡ point_answer (placed chart.now (point_of x y)) }
{
    pack_place(question::point(chart, x, y))
}

// The run's start in the lower half and its length in the upper, in numbers; 0 where it is empty. It gives no refusal.
#[tactic(auto, using(crate::proofs::Sets::cornered), unfolding(crate::specs::Answers::corner_answer))]
pub fn bz_corner(chart: &[i16], x: i16, y: i16) -> u64
    ensures { result ≡ corner_answer (corner_of chart.now (point_of x y)) }
{
    let run = question::corner_of(chart, x, y);
    let from = run.from as u64;
    let length = (run.upto - run.from) as u64;
    from + UPPER * length
}

// Kind 0 where neither array has a whole record, 1 for the first array's head, 2 for the second's.
pub fn bz_head(a: &[i16], b: &[i16]) -> u64
    ensures { result ≡ head_answer (head_of a.now b.now) }
{
    match parts::head_of(a, b) {
        None => pack(0, 0, 0, 0),
        Some(Which::First) => pack(0, 0, 0, 1),
        Some(Which::Second) => pack(0, 0, 0, 2),
    }
}

// Twice the area goes to `out`, which stays as it is where the chart is refused.
#[tactic(auto, using(crate::proofs::Sets::measured))]
pub fn bz_area2(chart: &[i16], out: &mut i64) -> u64
    ensures value { result ≡ area_answer (area_of chart.now) }
    ensures out_after { out.new ≡ area_left (area_of chart.now) out.old }
{
    match area::area2(chart) {
        Ok(z) => {
            *out = z;
            pack(0, 0, 0, 0)
        }
        Err(r) => pack_refusal(r.into()),
    }
}

// ---- faces

// How many cycles in bits 0 to 15 and how many faces in bits 16 to 31, or the refusal.
fn pack_faces(a: Result<FaceCounts, FaceRefusal>) -> u64
    requires { faces_value a < 2 ^ 32 }
    ensures { result ≡ faces_answer a }
{
    match a {
        Ok(counts) => pack(counts.cycles + 65536 * counts.faces, 0, 0, 0),
        Err(r) => pack_refusal(r.into()),
    }
}

// The cycle number of each record goes to `labels`, two numbers per cycle to `cycles`; both stay as they are where the
// chart or the arrays are refused.
pub fn bz_faces(chart: &[i16], labels: &mut [u16], cycles: &mut [u16]) -> u64
    ensures { FacesListed chart.now labels.old cycles.old labels.new cycles.new result }
{
    pack_faces(faces::faces(chart, labels, cycles))
}

// ---- joining two charts

// How many records were written, or the refusal and the chart that it names: 1 or 2, 0 where it names none.
fn pack_joined(j: Result<usize, JoinRefusal>) -> u64
    requires { join_value j < 2 ^ 32 }
    ensures { result ≡ join_answer j }
{
    match j {
        Ok(n) => pack(n, 0, 0, 0),
        Err(r) => {
            let refusal = Refusal::from(r);
            pack(refusal.index, refusal.number, r.chart(), 0)
        }
    }
}

// The result goes to `out`, which stays as it is where joining is refused; so it is of the two after it. C has a name
// for each operation.
pub fn bz_union(a: &[i16], b: &[i16], out: &mut [i16]) -> u64
    ensures { Combines Union a.now b.now out.old out.new result }
{
    pack_joined(combine(Op::Union, a, b, out))
}

pub fn bz_intersection(a: &[i16], b: &[i16], out: &mut [i16]) -> u64
    ensures { Combines Intersection a.now b.now out.old out.new result }
{
    pack_joined(combine(Op::Intersection, a, b, out))
}

pub fn bz_difference(a: &[i16], b: &[i16], out: &mut [i16]) -> u64
    ensures { Combines Difference a.now b.now out.old out.new result }
{
    pack_joined(combine(Op::Difference, a, b, out))
}

// ---- gauges

// What the card of a kind gives, as C numbers them: 0 is a spring, of a rate and a pin, and 1 a bridge, of a gain and a
// zero.
fn gauged(kind: u8, first: f64, second: f64, sample: i16) -> Result<Reading, GaugeRefusal>
    ensures { KindGauges kind first second sample (refusal_number result) (handed result).pressure (handed result).row }
{
    match kind {
        0 => gauge::read_sample(
            Card::Spring {
                rate: first,
                pin: second,
            },
            sample,
        ),
        1 => gauge::read_sample(
            Card::Bridge {
                gain: first,
                zero: second,
            },
            sample,
        ),
        _ => Err(GaugeRefusal::BrokenRule),
    }
}

// The refusal's number, or 0.
fn number_told(g: Result<Reading, GaugeRefusal>) -> u16
    ensures { result ≡ refusal_number g }
{
    match g {
        Ok(_) => 0,
        Err(r) => r.number(),
    }
}

// Pressure and row are always written.
pub fn bz_gauge(
    kind: u8,
    first: f64,
    second: f64,
    sample: i16,
    pressure: &mut f64,
    row: &mut i16,
) -> u64
    ensures { SampleRead kind first second sample result pressure.new row.new }
{
    let g = gauged(kind, first, second, sample);
    let reading = gauge::handed(g);
    *pressure = reading.pressure;
    *row = reading.row;
    pack(0, number_told(g), 0, 0)
}

// ---- files

// How many records were read; `out` stays as it is where the file is refused.
pub fn bz_read(bytes: &[u8], out: &mut [i16]) -> u64
    ensures { FileRead bytes.now out.old out.new result }
{
    match file::read(bytes, out) {
        Ok(n) => pack(n, 0, 0, 0),
        Err(r) => pack_refusal(r.into()),
    }
}
