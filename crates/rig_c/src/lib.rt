// What C and Rust link: each function of `rig` under its own name (include/berzulka.h, rust/src/raw.rs), with the same
// parameters and the same clauses, word for word. A slice is passed as a pointer and a length, in elements; what is
// lent as one value is a pointer.
#![tactic(auto)]

ghost use Rattle.std.specs.Prelude.{◌≡◌};
ghost use Rattle.grid.specs.Coordinates.{point_of};
ghost use Rattle.parts.specs.Parts.{head_of};
ghost use Rattle.chart.specs.Verdicts.{verdict};
ghost use Rattle.question.specs.Places.{placed};
ghost use Rattle.question.specs.Corners.{corner_of};
ghost use Rattle.area.specs.Areas.{area_of};
ghost use Rattle.sides.specs.declared.Op.TheVariants.{Union, Intersection, Difference};
ghost use Rattle.rig.specs.Answers.{check_answer, point_answer, corner_answer, head_answer, area_answer, area_left};
ghost use Rattle.rig.specs.Answers.{FacesListed, Combines, FileRead};
ghost use Rattle.rig.specs.Gauging.{SampleRead};

// ---- questions about a chart

#[unsafe(no_mangle)]
pub extern "C" fn bz_check(chart: &[i16]) -> u64
    ensures { result ≡ check_answer (verdict chart.now) }
{
    rig::bz_check(chart)
}

#[unsafe(no_mangle)]
pub extern "C" fn bz_point(chart: &[i16], x: i16, y: i16) -> u64
    ensures { result ≡ point_answer (placed chart.now (point_of x y)) }
{
    rig::bz_point(chart, x, y)
}

#[unsafe(no_mangle)]
pub extern "C" fn bz_corner(chart: &[i16], x: i16, y: i16) -> u64
    ensures { result ≡ corner_answer (corner_of chart.now (point_of x y)) }
{
    rig::bz_corner(chart, x, y)
}

#[unsafe(no_mangle)]
pub extern "C" fn bz_head(a: &[i16], b: &[i16]) -> u64
    ensures { result ≡ head_answer (head_of a.now b.now) }
{
    rig::bz_head(a, b)
}

#[unsafe(no_mangle)]
pub extern "C" fn bz_area2(chart: &[i16], out: &mut i64) -> u64
    ensures value { result ≡ area_answer (area_of chart.now) }
    ensures out_after { out.new ≡ area_left (area_of chart.now) out.old }
{
    rig::bz_area2(chart, out)
}

#[unsafe(no_mangle)]
pub extern "C" fn bz_faces(chart: &[i16], labels: &mut [u16], cycles: &mut [u16]) -> u64
    ensures { FacesListed chart.now labels.old cycles.old labels.new cycles.new result }
{
    rig::bz_faces(chart, labels, cycles)
}

// ---- joining two charts

#[unsafe(no_mangle)]
pub extern "C" fn bz_union(a: &[i16], b: &[i16], out: &mut [i16]) -> u64
    ensures { Combines Union a.now b.now out.old out.new result }
{
    rig::bz_union(a, b, out)
}

#[unsafe(no_mangle)]
pub extern "C" fn bz_intersection(a: &[i16], b: &[i16], out: &mut [i16]) -> u64
    ensures { Combines Intersection a.now b.now out.old out.new result }
{
    rig::bz_intersection(a, b, out)
}

#[unsafe(no_mangle)]
pub extern "C" fn bz_difference(a: &[i16], b: &[i16], out: &mut [i16]) -> u64
    ensures { Combines Difference a.now b.now out.old out.new result }
{
    rig::bz_difference(a, b, out)
}

// ---- gauges

#[unsafe(no_mangle)]
pub extern "C" fn bz_gauge(
    kind: u8,
    first: f64,
    second: f64,
    sample: i16,
    pressure: &mut f64,
    row: &mut i16,
) -> u64
    ensures { SampleRead kind first second sample result pressure.new row.new }
{
    rig::bz_gauge(kind, first, second, sample, pressure, row)
}

// ---- files

#[unsafe(no_mangle)]
pub extern "C" fn bz_read(bytes: &[u8], out: &mut [i16]) -> u64
    ensures { FileRead bytes.now out.old out.new result }
{
    rig::bz_read(bytes, out)
}
