// The check of a chart (document 01, "When a chart is turned away"): any array of numbers, to the paper's verdict.
// The plain engine: each row of the table looks at every record, and compares each with each where the row asks for it.
#![tactic(auto)]

ghost use Rattle.std.specs.Prelude.{◌≡◌, ◌≤◌};
ghost use Rattle.counts.specs.Scan.{first_place};
ghost use Rattle.record.specs.Records.{record_at, record_count, records};
ghost use Rattle.chart.specs.Rows.{equal_ends, bad_mark, not_after, no_other_half, touching, odd_end, wrong_mark};
ghost use Rattle.chart.specs.Verdicts.{limit, told, judged, verdict};

use record::{Record, WIDTH, record_at, record_count};

pub mod accepted;

pub use accepted::Chart;

// How many records a chart may have.
pub const LIMIT: usize = 512;

// ---- why an array is no chart

// Why an array is no chart, with the record at fault: the rows of the refusal table, in their order.
#[derive(Clone, Copy, Debug, PartialEq, Eq)]
pub enum ChartRefusal {
    Ragged,
    TooMany,
    EqualEnds(usize),
    BadMark(usize),
    NotAfter(usize),
    NoOtherHalf(usize),
    Touching(usize),
    OddEnd(usize),
    WrongMark(usize),
}

// Why a question is refused, as the C interface and the programs say it: document 01's number, which is why it is no
// enum, and the record at fault, or the place in a file, that it names.
#[derive(Clone, Copy, Debug, PartialEq, Eq)]
pub struct Refusal {
    pub number: u16,
    pub index: usize,
}

impl From<ChartRefusal> for Refusal {
    ghost from_gives = { λ r e. e ≡ told r };

    fn from(r: ChartRefusal) -> Refusal {
        match r {
            ChartRefusal::Ragged => Refusal {
                number: 1,
                index: 0,
            },
            ChartRefusal::TooMany => Refusal {
                number: 2,
                index: 0,
            },
            ChartRefusal::EqualEnds(index) => Refusal { number: 3, index },
            ChartRefusal::BadMark(index) => Refusal { number: 4, index },
            ChartRefusal::NotAfter(index) => Refusal { number: 5, index },
            ChartRefusal::NoOtherHalf(index) => Refusal { number: 6, index },
            ChartRefusal::Touching(index) => Refusal { number: 7, index },
            ChartRefusal::OddEnd(index) => Refusal { number: 8, index },
            ChartRefusal::WrongMark(index) => Refusal { number: 9, index },
        }
    }
}

// ---- 3: a record's two ends are equal

fn has_equal_ends(r: Record) -> bool
    ensures { result ≡ equal_ends r }
{
    points::is_same(r.dom, r.other)
}

// This search and those below differ by their test alone. Each is one call of `find`, which is the generic function
// already, and its clause names its row. A function of our own that is handed the test could name none, and each search
// would still be a call.
fn first_equal_ends(s: &[i16]) -> Option<usize>
    ensures { result ≡ first_place equal_ends (record_at s.now) (record_count s.now) }
{
    (0..record_count(s)).find(|&i| has_equal_ends(record_at(s, i)))
}

// ---- 4: a mark is neither 0 nor 1

#[tactic(auto, unfolding(grid::specs::Coordinates::up))]
fn has_bad_mark(r: Record) -> bool
    ensures { result ≡ bad_mark r }
{
    r.mark != record::UNMARKED && r.mark != record::MARKED
}

fn first_bad_mark(s: &[i16]) -> Option<usize>
    ensures { result ≡ first_place bad_mark (record_at s.now) (record_count s.now) }
{
    (0..record_count(s)).find(|&i| has_bad_mark(record_at(s, i)))
}

// ---- 5: a record does not come strictly after the one before

fn is_not_after(s: &[i16], i: usize) -> bool
    ensures { result ≡ not_after s.now i }
{
    i != 0 && !record::order::is_earlier(record_at(s, i - 1), record_at(s, i))
}

fn first_not_after(s: &[i16]) -> Option<usize>
    ensures { result ≡ first_place (not_after s.now) (λ i. i) (record_count s.now) }
{
    (0..record_count(s)).find(|&i| is_not_after(s, i))
}

// ---- 6: the other half is missing

fn lacks_other_half(s: &[i16], r: Record) -> bool
    ensures { result ≡ no_other_half (records s.now) r }
{
    !among::has_record(s, record::other_half(r))
}

fn first_lacking(s: &[i16]) -> Option<usize>
    ensures { result ≡ first_place (no_other_half (records s.now)) (record_at s.now) (record_count s.now) }
{
    (0..record_count(s)).find(|&i| lacks_other_half(s, record_at(s, i)))
}

// ---- 7: two segments touch

fn is_taking_part(s: &[i16], r: Record) -> bool
    ensures { result ≡ touching (records s.now) r }
{
    among::is_touched(s, segment::segment_of(r))
}

fn first_taking_part(s: &[i16]) -> Option<usize>
    ensures { result ≡ first_place (touching (records s.now)) (record_at s.now) (record_count s.now) }
{
    (0..record_count(s)).find(|&i| is_taking_part(s, record_at(s, i)))
}

// ---- 8: an odd number of segments ends at a point

fn is_odd_end(s: &[i16], r: Record) -> bool
    ensures { result ≡ odd_end (records s.now) r }
{
    among::end_count(s, r.dom) % 2 == 1
}

fn first_odd_end(s: &[i16]) -> Option<usize>
    ensures { result ≡ first_place (odd_end (records s.now)) (record_at s.now) (record_count s.now) }
{
    (0..record_count(s)).find(|&i| is_odd_end(s, record_at(s, i)))
}

// ---- 9: a mark is not the counted one

fn has_wrong_mark(s: &[i16], r: Record) -> bool
    ensures { result ≡ wrong_mark (records s.now) r }
{
    r.mark != among::counted_mark(s, segment::segment_of(r))
}

fn first_wrong_mark(s: &[i16]) -> Option<usize>
    ensures { result ≡ first_place (wrong_mark (records s.now)) (record_at s.now) (record_count s.now) }
{
    (0..record_count(s)).find(|&i| has_wrong_mark(s, record_at(s, i)))
}

// ---- the verdict

// The records, row after row of the table. Never more than the limit: so the work, which grows as the square of their
// number, is bounded whatever the array's length.
#[tactic(auto, unfolding(crate::specs::Verdicts::judged))]
fn judge(s: &[i16]) -> Result<(), ChartRefusal>
    requires { record_count s.now ≤ limit }
    ensures { result ≡ judged s.now }
{
    if let Some(i) = first_equal_ends(s) {
        return Err(ChartRefusal::EqualEnds(i));
    }
    if let Some(i) = first_bad_mark(s) {
        return Err(ChartRefusal::BadMark(i));
    }
    if let Some(i) = first_not_after(s) {
        return Err(ChartRefusal::NotAfter(i));
    }
    if let Some(i) = first_lacking(s) {
        return Err(ChartRefusal::NoOtherHalf(i));
    }
    if let Some(i) = first_taking_part(s) {
        return Err(ChartRefusal::Touching(i));
    }
    if let Some(i) = first_odd_end(s) {
        return Err(ChartRefusal::OddEnd(i));
    }
    if let Some(i) = first_wrong_mark(s) {
        return Err(ChartRefusal::WrongMark(i));
    }
    Ok(())
}

// Whether an array of numbers is a chart; if not, why, and which record is at fault. An array past the limit is
// turned away before any record is looked at.
#[tactic(auto, unfolding(crate::specs::Verdicts::verdict))]
pub fn check(chart: &[i16]) -> Result<(), ChartRefusal>
    ensures { result ≡ verdict chart.now }
{
    if chart.len() % WIDTH != 0 {
        return Err(ChartRefusal::Ragged);
    }
    if LIMIT < record_count(chart) {
        return Err(ChartRefusal::TooMany);
    }
    judge(chart)
}
