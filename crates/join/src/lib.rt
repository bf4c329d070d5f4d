// Joining two charts (document 01, "Joining two charts"): union, intersection and difference, written into a lent
// array. What is kept of each chart is the crate sides; what charts combined are, and that the result is again a chart
// which answers as the two do, the crate combined.
#![tactic(auto)]

ghost use Rattle.std.specs.Prelude.{◌≡◌, ◌+◌, ◌*◌, ◌≤◌, length};
ghost use Rattle.counts.specs.Scan.{first_place, count_places};
ghost use Rattle.record.specs.Records.{width, record_at, record_count};
ghost use Rattle.chart.specs.Regions.{Region};
ghost use Rattle.sides.specs.Operations.{side_of};
ghost use Rattle.sides.specs.Kept.{kept_of};
ghost use Rattle.join.specs.Joinings.{result_of, touches_in, told_joining, named, Joins};
ghost use Rattle.join.specs.Steps.{Sized, written, with_record, Room, TookNext, SoundJoins};

use chart::{Chart, ChartRefusal, LIMIT, Refusal};
use grid::number_at;
use parts::{Which, head_of};
use record::{Record, WIDTH, record_at, record_count};
use segment::segment_of;
use sides::{Op, Pair};

// ---- why two arrays are not joined

// Either is no chart; or, which is no fault of one chart alone: a segment of one touches a segment of the other, at a
// record of the first; the result has more records than a chart may have; the lent array is shorter than it.
#[derive(Clone, Copy, Debug, PartialEq, Eq)]
pub enum JoinRefusal {
    First(ChartRefusal),
    Second(ChartRefusal),
    Touching(usize),
    TooMany,
    NoRoom,
}

impl JoinRefusal {
    // The chart that it names: 1 the first, 2 the second; 0 where it names none. A number and no enum: C reads it so,
    // in the bits of an answer.
    pub fn chart(self) -> u8
        ensures { result ≡ named self }
    {
        match self {
            JoinRefusal::First(_) => 1,
            JoinRefusal::Second(_) => 2,
            JoinRefusal::Touching(_) | JoinRefusal::TooMany | JoinRefusal::NoRoom => 0,
        }
    }
}

impl From<JoinRefusal> for Refusal {
    ghost from_gives = { λ r e. e ≡ told_joining r };

    fn from(r: JoinRefusal) -> Refusal {
        match r {
            JoinRefusal::First(r) | JoinRefusal::Second(r) => r.into(),
            JoinRefusal::Touching(index) => Refusal { number: 11, index },
            JoinRefusal::TooMany => Refusal {
                number: 12,
                index: 0,
            },
            JoinRefusal::NoRoom => Refusal {
                number: 13,
                index: 0,
            },
        }
    }
}

// ---- how many

// Whether record i of the one chart is kept.
fn is_kept_at(pair: &Pair, which: Which, i: usize) -> bool
    ensures { result ≡ kept_of which pair.now.op pair.now.a.now pair.now.b.now
        (record_at (side_of which pair.now.a.now pair.now.b.now) i) }
{
    pair.is_kept(which, record_at(pair.of(which), i))
}

// How many of its records are.
fn count_kept(pair: &Pair, which: Which) -> usize
    ensures { result ≡ count_places (kept_of which pair.now.op pair.now.a.now pair.now.b.now)
        (record_at (side_of which pair.now.a.now pair.now.b.now))
        (record_count (side_of which pair.now.a.now pair.now.b.now)) }
{
    (0..record_count(pair.of(which)))
        .filter(|&i| is_kept_at(pair, which, i))
        .count()
}

// How many records the result has.
fn result_size(pair: &Pair) -> usize
    ensures { Sized pair.now.op pair.now.a.now pair.now.b.now result }
{
    count_kept(pair, Which::First) + count_kept(pair, Which::Second)
}

// ---- writing

// The record becomes record n of the array. The array is lent, at the boundary by C, so it is no container that grows:
// how many records stand at its start goes beside it.
#[tactic(auto, using(crate::proofs::PutLaws::record_put))]
fn put(r: Record, out: &mut [i16], n: usize)
    requires { width * n + width ≤ length out.old }
    ensures { out.new ≡ with_record out.old n r }
{
    let to = WIDTH * n;
    out[to] = number_at(r.dom.x);
    out[to + 1] = number_at(r.dom.y);
    out[to + 2] = number_at(r.other.x);
    out[to + 3] = number_at(r.other.y);
    out[to + 4] = number_at(r.mark);
}

// Record k of the one chart is next: it becomes record n of the array where it is kept. The number of records then.
#[tactic(auto, using(crate::proofs::StepLaws::taking))]
fn take(pair: &Pair, which: Which, k: usize, out: &mut [i16], n: usize) -> usize
    requires { Room (kept_of which pair.now.op pair.now.a.now pair.now.b.now)
        (record_at (side_of which pair.now.a.now pair.now.b.now) k) out.old n }
    ensures { TookNext which pair.now.op pair.now.a.now pair.now.b.now k out.old n out.new result }
{
    let r = record_at(pair.of(which), k);
    if !pair.is_kept(which, r) {
        return n;
    }
    put(pair.marked_afresh(r), out, n);
    n + 1
}

// Both charts at once, always on at the smaller head. No `for`: no range or iterator gives these steps, since which of
// the two goes on is known only from both heads.
#[tactic(auto, using(crate::proofs::WriteLaws::left, crate::proofs::WriteLaws::writing))]
fn write(pair: &Pair, out: &mut [i16])
    requires region { Region pair.now.a.now × Region pair.now.b.now }
    requires room { width * length (result_of pair.now.op pair.now.a.now pair.now.b.now) ≤ length out.old }
    ensures { out.new ≡ written pair.now.op pair.now.a.now pair.now.b.now out.old }
{
    let mut i = 0;
    let mut j = 0;
    let mut n = 0;
    while let Some(which) = head_of(&pair.a[WIDTH * i..], &pair.b[WIDTH * j..]) {
        match which {
            Which::First => {
                n = take(pair, Which::First, i, out, n);
                i += 1;
            }
            Which::Second => {
                n = take(pair, Which::Second, j, out, n);
                j += 1;
            }
        }
    }
}

// ---- joining

fn is_touched_in(b: &[i16], r: Record) -> bool
    ensures { result ≡ touches_in b.now r }
{
    among::is_touched(b, segment_of(r))
}

// The first record of the first chart whose segment touches one of the second: a call of `find`, as chart's searches
// are.
fn first_touching(a: &[i16], b: &[i16]) -> Option<usize>
    ensures { result ≡ first_place (touches_in b.now) (record_at a.now) (record_count a.now) }
{
    (0..record_count(a)).find(|&i| is_touched_in(b, record_at(a, i)))
}

// Two charts. Nothing is written before it is known that all of it can be.
#[tactic(auto, unfolding(crate::specs::Joinings::joined_in))]
fn combine_charts(op: Op, a: &Chart, b: &Chart, out: &mut [i16]) -> Result<usize, JoinRefusal>
    ensures { SoundJoins op a.now.now b.now.now out.old out.new result }
{
    let pair = Pair {
        op,
        a: a.numbers(),
        b: b.numbers(),
    };
    if let Some(i) = first_touching(pair.a, pair.b) {
        return Err(JoinRefusal::Touching(i));
    }
    let n = result_size(&pair);
    if LIMIT < n {
        return Err(JoinRefusal::TooMany);
    }
    if out.len() < WIDTH * n {
        return Err(JoinRefusal::NoRoom);
    }
    write(&pair, out);
    Ok(n)
}

// Joins two charts into the lent array, or says why not.
#[tactic(auto, unfolding(crate::specs::Joinings::outcome))]
pub fn combine(op: Op, a: &[i16], b: &[i16], out: &mut [i16]) -> Result<usize, JoinRefusal>
    ensures { Joins op a.now b.now out.old out.new result }
{
    let first = Chart::new(a).map_err(JoinRefusal::First)?;
    let second = Chart::new(b).map_err(JoinRefusal::Second)?;
    combine_charts(op, &first, &second, out)
}
