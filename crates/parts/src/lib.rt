// The parts of a chart array that are handed back: the run of records at a corner, and the smaller head of two arrays.
#![tactic(auto)]

ghost use Rattle.std.specs.Prelude.{◌≡◌};
ghost use Rattle.counts.specs.Scan.{first_place, first_from, next_place};
ghost use Rattle.record.specs.Records.{record_at, record_count};
ghost use Rattle.parts.specs.Parts.{at_corner, off_corner, run_of, Run, from_second, head_of, SmallerHead};

use plane::Point;
use record::order::is_earlier;
use record::{WIDTH, record_at, record_count};

// Where a part lies in its array: from one number up to another. No `Range`, which is an iterator, and is not copied.
#[derive(Clone, Copy, Debug, PartialEq, Eq)]
pub struct Span {
    pub from: usize,
    pub upto: usize,
}

impl Span {
    // The empty part, at the array's beginning: what `run_of` and `corner_of` promise where there is no run, or no
    // chart.
    pub const NOWHERE: Span = Span { from: 0, upto: 0 };
}

// Which of two arrays.
#[derive(Clone, Copy, Debug, PartialEq, Eq)]
pub enum Which {
    First,
    Second,
}

// ---- the run at a corner

// Whether record i is at p.
fn is_there(s: &[i16], p: Point, i: usize) -> bool
    ensures { result ≡ at_corner p (record_at s.now i) }
{
    points::is_same(record_at(s, i).dom, p)
}

// Whether record i is not at p.
pub fn is_elsewhere(s: &[i16], p: Point, i: usize) -> bool
    ensures { result ≡ off_corner p (record_at s.now i) }
{
    !is_there(s, p, i)
}

// The first record at p: a call of `find`, whose clause names its test.
fn first_there(s: &[i16], p: Point) -> Option<usize>
    ensures { result ≡ first_place (at_corner p) (record_at s.now) (record_count s.now) }
{
    (0..record_count(s)).find(|&i| is_there(s, p, i))
}

fn next_elsewhere(s: &[i16], p: Point, a: usize, n: usize) -> Option<usize>
    ensures { result ≡ next_place (off_corner p) (record_at s.now) a n }
{
    (a..n).find(|&i| is_elsewhere(s, p, i))
}

// The first of the records from a on, below n, that is not at p; where there is none n, or a if that lies past n. No
// Option, since its clause by `first_from` is what callers hold: where a run ends, also at the end of the records.
#[tactic(auto, using(counts::proofs::PlaceLaws::next_or))]
pub fn first_elsewhere(s: &[i16], p: Point, a: usize, n: usize) -> usize
    ensures { result ≡ first_from (off_corner p) (record_at s.now) a n }
{
    next_elsewhere(s, p, a, n).unwrap_or(a.max(n))
}

// Where the run of records whose dominating end is p lies. Where the array is ordered these are all of them; of any
// other array it is the first run.
#[tactic(auto, using(counts::proofs::PlaceLaws::placing), unfolding(crate::specs::Parts::run_of))]
pub fn run_of(s: &[i16], p: Point) -> Span
    ensures { result ≡ run_of s.now p }
{
    let n = record_count(s);
    let Some(a) = first_there(s, p) else {
        return Span::NOWHERE;
    };
    let e = first_elsewhere(s, p, a, n);
    Span {
        from: WIDTH * a,
        upto: WIDTH * e,
    }
}

// That run, as that very part of the array.
#[tactic(auto, using(crate::proofs::PartLaws::run_rises, crate::proofs::PartLaws::run_short))]
pub fn run_at(s: &[i16], p: Point) -> &[i16]
    ensures { Run s.entry p result }
{
    let run = run_of(s, p);
    &s[run.from..run.upto]
}

// ---- the smaller head

// Whether the smaller head is the second array's.
#[tactic(auto, unfolding(crate::specs::Parts::from_second))]
fn is_from_second(a: &[i16], b: &[i16]) -> bool
    ensures { result ≡ from_second a.now b.now }
{
    WIDTH <= b.len() && (a.len() < WIDTH || is_earlier(record_at(b, 0), record_at(a, 0)))
}

// Which array holds the smaller head, where one has a whole record.
#[tactic(auto, unfolding(crate::specs::Parts::head_of))]
pub fn head_of(a: &[i16], b: &[i16]) -> Option<Which>
    ensures { result ≡ head_of a.now b.now }
{
    if is_from_second(a, b) {
        return Some(Which::Second);
    }
    if a.len() < WIDTH {
        return None;
    }
    Some(Which::First)
}

// The first record of whichever array has the smaller, as that very part of it. Empty, at the first array's beginning,
// where neither has a whole record.
#[tactic(auto, using(crate::proofs::PartLaws::whole))]
pub fn smaller_head<'a>(a: &'a [i16], b: &'a [i16]) -> &'a [i16]
    ensures { SmallerHead a.entry b.entry result }
{
    match head_of(a, b) {
        None => &a[..0],
        Some(Which::First) => &a[..WIDTH],
        Some(Which::Second) => &b[..WIDTH],
    }
}
