// A record of a chart, read out of a chart array. The order of two records is in order.rt; the parts of an array that
// hold records are the crate parts.
#![tactic(auto)]

ghost use Rattle.std.specs.Prelude.{◌≡◌, ◌+◌, ◌*◌, ◌<◌, pos, get_or};
ghost use Rattle.record.specs.Records.{width, record_at, record_count};
ghost use Rattle.record.specs.Order.{left, other_half};

use plane::Point;

pub mod order;

// How many numbers a record takes in a chart array.
pub const WIDTH: usize = 5;

// The marks 0 and 1, counted from the grid's lower end like every number of a record. Numbers and no enum: a mark that
// is neither has to be read, too, before a chart can be refused for it.
pub const UNMARKED: u16 = 32768;

pub const MARKED: u16 = 32769;

// A record: half of a segment, seen from its dominating end. Its numbers are counted from the grid's lower end, the
// mark too.
#[derive(Clone, Copy, Debug, PartialEq, Eq)]
pub struct Record {
    pub dom: Point,
    pub other: Point,
    pub mark: u16,
}

// ---- reading: the one place where a record is taken out of an array

// How many whole records the array has: numbers left over at its end belong to none.
pub fn record_count(s: &[i16]) -> usize
    ensures { result ≡ record_count s.now }
{
    s.len() / WIDTH
}

// Number k of record i. It reads as 0 where it is missing: past the end, and past what is left over there. No `get`:
// which number that is need not fit, of a record so far past the end.
fn number_of(s: &[i16], i: usize, k: usize) -> i16
    requires { k < width }
    ensures { result ≡ get_or s.now (width * i + k) (pos 0) }
{
    let n = record_count(s);
    if i < n || i == n && k < s.len() % WIDTH {
        s[WIDTH * i + k]
    } else {
        0
    }
}

// Record i of any array: what is missing reads as 0. All numbers are read before any is used, so that those of a whole
// record cost one test together.
#[tactic(auto, unfolding(crate::specs::Records::record_at))]
pub fn record_at(s: &[i16], i: usize) -> Record
    ensures { result ≡ record_at s.now i }
{
    let x = number_of(s, i, 0);
    let y = number_of(s, i, 1);
    let other_x = number_of(s, i, 2);
    let other_y = number_of(s, i, 3);
    let mark = number_of(s, i, 4);
    Record {
        dom: grid::point_of(x, y),
        other: grid::point_of(other_x, other_y),
        mark: grid::count_of(mark),
    }
}

// ---- halves

pub fn is_left(r: Record) -> bool
    ensures { result ≡ left r }
{
    points::is_before(r.dom, r.other)
}

pub fn other_half(r: Record) -> Record
    ensures { result ≡ other_half r }
{
    Record {
        dom: r.other,
        other: r.dom,
        mark: r.mark,
    }
}
