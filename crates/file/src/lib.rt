// The chart file (document 01, "The chart file"): bytes from outside, to the numbers of a chart array or a numbered
// refusal with its place. One number of a file is the crate number.
#![tactic(auto)]

ghost use Rattle.std.specs.Prelude.{◌≡◌, true, ◌*◌, ◌≤◌, length};
ghost use Rattle.record.specs.Records.{width};
ghost use Rattle.chart.specs.Verdicts.{limit};
ghost use Rattle.file.specs.declared.FileRefusal.TheVariants.{NoNumber};
ghost use Rattle.file.specs.Fields.{coordinate_for, mark_for, number_for, field_at};
ghost use Rattle.file.specs.Files.{fields, records_of};
ghost use Rattle.file.specs.Answers.{told, contents, Gives, Reads};
ghost use Rattle.file.specs.Steps.{is_taken, end_of};

use chart::{LIMIT, Refusal};
use grid::Coord;
use number::NumberRefusal;
use record::WIDTH;

// Why a file is refused, with the place at fault where that is not the count's, the file's beginning.
#[derive(Clone, Copy, Debug, PartialEq, Eq)]
pub enum FileRefusal {
    // 31, 32: no number stands there.
    NoNumber(NumberRefusal),
    // 33: a coordinate off the grid, or a mark above 1.
    Unfit(usize),
    // 34: bytes after the last record.
    LeftOver(usize),
    // 35: more records than a chart may have.
    TooMany,
    // 36: the lent array is too short for the records.
    NoRoom,
}

impl From<NumberRefusal> for FileRefusal {
    ghost from_gives = { λ r e. e ≡ NoNumber r };

    fn from(r: NumberRefusal) -> FileRefusal {
        FileRefusal::NoNumber(r)
    }
}

impl From<FileRefusal> for Refusal {
    ghost from_gives = { λ r e. e ≡ told r };

    fn from(r: FileRefusal) -> Refusal {
        match r {
            FileRefusal::NoNumber(n) => n.into(),
            FileRefusal::Unfit(index) => Refusal { number: 33, index },
            FileRefusal::LeftOver(index) => Refusal { number: 34, index },
            FileRefusal::TooMany => Refusal {
                number: 35,
                index: 0,
            },
            FileRefusal::NoRoom => Refusal {
                number: 36,
                index: 0,
            },
        }
    }
}

// The mark's place among the numbers of a record.
const MARK: usize = 4;

// A mark is 0 or this.
const GREATER_MARK: u32 = 1;

// ---- one number for the array

#[tactic(auto, unfolding(crate::specs::Fields::coordinate_for, grid::specs::Coordinates::located))]
fn coordinate_for(n: u32) -> Option<i16>
    ensures { result ≡ coordinate_for n }
{
    Coord::of_wide(number::signed_of(n)).map(|c| c.v)
}

fn mark_for(n: u32) -> Option<i16>
    ensures { result ≡ mark_for n }
{
    (n <= GREATER_MARK).then(|| n as i16)
}

// What the number n of the file is at the place k of the array.
#[tactic(auto, unfolding(crate::specs::Fields::number_for))]
fn number_for(k: usize, n: u32) -> Option<i16>
    ensures { result ≡ number_for k n }
{
    if k % WIDTH == MARK {
        return mark_for(n);
    }
    coordinate_for(n)
}

// One number for the place k of the array, and the place of the next one in the file. The file and the place go apart,
// here and in `number`: a refusal names the place in the whole file.
#[tactic(auto, using(crate::proofs::FieldLaws::fielding))]
fn field_at(bytes: &[u8], k: usize, at: usize) -> Result<(i16, usize), FileRefusal>
    ensures { result ≡ field_at bytes.now k at }
{
    let (n, next) = number::take_number(bytes, at)?;
    let z = number_for(k, n).ok_or(FileRefusal::Unfit(at))?;
    Ok((z, next))
}

// ---- the numbers of the records: a first pass that writes nothing, and a second that refuses nothing, so that a file
// that is refused leaves the lent array as it was

// Where m numbers from the place `from` on end, or the first refusal among them.
#[tactic(auto, using(crate::proofs::PassLaws::passing))]
fn end_of(bytes: &[u8], m: usize, from: usize) -> Result<usize, FileRefusal>
    ensures { result ≡ end_of (fields bytes.now 0 m from) }
{
    let mut at = from;
    for k in 0..m {
        let (_, next) = field_at(bytes, k, at)?;
        at = next;
    }
    Ok(at)
}

// Writes m numbers from the place `from` on into the array; the first pass has seen that they can all be taken.
#[tactic(auto, using(crate::proofs::PassLaws::filling))]
fn fill(bytes: &[u8], m: usize, from: usize, out: &mut [i16])
    requires { (m ≤ length out.old) × (is_taken (fields bytes.now 0 m from) ≡ true) }
    ensures { out.new ≡ contents (fields bytes.now 0 m from) out.old }
{
    let mut at = from;
    for k in 0..m {
        let Ok((z, next)) = field_at(bytes, k, at) else {
            return;
        };
        out[k] = z;
        at = next;
    }
}

// ---- the file

// The n records from the place `from` on, and nothing after them.
#[tactic(auto, using(crate::proofs::FileLaws::reading))]
fn read_records(bytes: &[u8], n: usize, from: usize, out: &mut [i16]) -> Result<usize, FileRefusal>
    requires { (n ≤ limit) × (width * n ≤ length out.old) }
    ensures { Gives (records_of bytes.now n from) out.old out.new result }
{
    let m = WIDTH * n;
    let end = end_of(bytes, m, from)?;
    if end < bytes.len() {
        return Err(FileRefusal::LeftOver(end));
    }
    fill(bytes, m, from, out);
    Ok(n)
}

// Reads a chart file into the lent array, and says how many records. Judges the file's form only, not the chart.
#[tactic(auto, unfolding(crate::specs::Files::file_of))]
pub fn read(bytes: &[u8], out: &mut [i16]) -> Result<usize, FileRefusal>
    ensures { Reads bytes.now out.old out.new result }
{
    let (count, next) = number::take_number(bytes, 0)?;
    let n = count as usize;
    if LIMIT < n {
        return Err(FileRefusal::TooMany);
    }
    if out.len() < WIDTH * n {
        return Err(FileRefusal::NoRoom);
    }
    read_records(bytes, n, next, out)
}
