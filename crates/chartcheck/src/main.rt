// Reads a chart file from standard input and says in one line what it is:
//     sound records 8 faces 1 holes 0 area2 32     a sound chart: how many records, faces and holes it has, and twice
//                                                  its area
//     refused 31 at 0                              document 01's refusal, and its place in the file or the record at
//                                                  fault
// At most 8,192 bytes are read. The longest file that can be taken has 6,658, so bytes past the buffer change nothing:
// `report-buffered` (proofs/ReportLaws.antt).
#![tactic(auto)]

ghost use Rattle.std.specs.Prelude.{◌≡◌};
ghost use Rattle.chartcheck.specs.Reports.{report, chart_report};

use arrayvec::ArrayString;
use chart::Refusal;
use record::WIDTH;
use std::fmt;
use std::fmt::Write;

// The longest line that can be said has 116 letters: 35 beside four numbers of twenty, and its end.
const LINE: usize = 116;

// What the line says of a sound chart.
#[derive(Clone, Copy, Debug, PartialEq, Eq)]
struct Report {
    records: usize,
    faces: usize,
    holes: usize,
    area2: i64,
}

impl fmt::Display for Report {
    fn fmt<W: fmt::Write>(&self, f: &mut fmt::Formatter<W>) -> fmt::Result {
        let Report {
            records,
            faces,
            holes,
            area2,
        } = self;
        write!(
            f,
            "sound records {records} faces {faces} holes {holes} area2 {area2}"
        )
    }
}

// Here and below memory is fixed: no question can end for want of it.
fn main() {
    let mut bytes = [0u8; 8192];
    let n = io::read_full(0, &mut bytes);
    say(report_on(&bytes[..n]));
}

// The line. It goes out by the kit's `io`, so that nothing of the C library stands under it but `write`. What standard
// output does not take of it is lost, and the program ends with status 0 as ever.
fn say(report: Result<Report, Refusal>) {
    let mut line = ArrayString::<LINE>::new();
    let _ = match report {
        Ok(report) => writeln!(line, "{report}"),
        Err(Refusal { number, index }) => writeln!(line, "refused {number} at {index}"),
    };
    io::write_all(1, line.as_str().as_bytes());
}

// What a chart is said to be: each face has one outer cycle, the other cycles are holes. The arrays have room for as
// many records and cycles as a chart can have.
#[tactic(auto, using(crate::proofs::ReportLaws::area_refused, crate::proofs::ReportLaws::chart_refused))]
fn report_of(chart: &[i16]) -> Result<Report, Refusal>
    ensures { result ≡ chart_report chart.now }
{
    let mut labels = [0u16; 512];
    let mut list = [0u16; 512];
    let counts = faces::faces(chart, &mut labels, &mut list)?;
    let area2 = area::area2(chart)?;
    Ok(Report {
        records: record::record_count(chart),
        faces: counts.faces,
        holes: counts.cycles - counts.faces,
        area2,
    })
}

// What a file is said to be. The array has room for the most records that a file can have.
#[tactic(auto, using(crate::proofs::ReportLaws::file_refused))]
fn report_on(bytes: &[u8]) -> Result<Report, Refusal>
    ensures { result ≡ report bytes.now }
{
    let mut lent = [0i16; 2560];
    let n = file::read(bytes, &mut lent)?;
    report_of(&lent[..WIDTH * n])
}
