// Asks the library what standard input asks, for a judge outside that knows the answers: the two questions that the
// boundary for C and Rust does not offer. A question is a chart and some points: how many numbers the chart has, two
// bytes, and how many points are asked about, one byte; then the chart's numbers and each point's two. A number takes
// two bytes, lowest first, and is counted from the grid's lower end. A question whose chart has more than 4,096
// numbers, or that is cut off, ends the program. The answer is of each point
//     its place           one byte, as the nearest boundary's mark tells it: 0 Outside, 1 Inside, 2 Edge, 3 where the
//                         chart is refused
//     the nearest below   two bytes, lowest first: its record's index; 65,535 where there is none, 65,534 where the
//                         chart is refused
#![tactic(auto)]

ghost use Rattle.std.specs.Prelude.{◌*◌, ◌≤◌, length};

use chart::ChartRefusal;
use question::Place;

// The most numbers of a chart that is asked about.
const NUMBERS: usize = 4096;

// Memory is fixed, here and below.
fn main() {
    let mut bytes = [0u8; 65536];
    let n = io::read_full(0, &mut bytes);
    answer_all(&bytes[..n]);
}

// ---- reading

// How much of the input a question takes is known from the question itself, so no iterator gives them.
fn answer_all(bytes: &[u8]) {
    let mut rest = bytes;
    while let [low, high, points, after @ ..] = rest {
        let n = u16::from_le_bytes([*low, *high]) as usize;
        if NUMBERS < n {
            return;
        }
        let Some((numbers, after)) = after.split_at_checked(2 * n) else {
            return;
        };
        let Some((points, after)) = after.split_at_checked(4 * *points as usize) else {
            return;
        };
        answer(numbers, points);
        rest = after;
    }
}

fn number_of(low: u8, high: u8) -> i16 {
    grid::number_at(u16::from_le_bytes([low, high]))
}

// ---- answering

// The question about a chart and points, two bytes for each of their numbers.
fn answer(numbers: &[u8], points: &[u8])
    requires { length numbers.now ≤ 2 * 4096 }
{
    let mut all = [0i16; NUMBERS];
    let (pairs, _) = numbers.as_chunks::<2>();
    for (number, [low, high]) in all.iter_mut().zip(pairs) {
        *number = number_of(*low, *high);
    }
    let chart = &all[..pairs.len()];
    let (points, _) = points.as_chunks::<4>();
    for [low_x, high_x, low_y, high_y] in points {
        say_point(
            chart,
            number_of(*low_x, *high_x),
            number_of(*low_y, *high_y),
        );
    }
}

// The answer is bytes and no text, so nothing formats it.
fn say_point(chart: &[i16], x: i16, y: i16) {
    let place = place_number(nearest::inside_by_mark(chart, x, y));
    let [low, high] = nearest_number(nearest::nearest_below(chart, x, y)).to_le_bytes();
    io::write_all(1, &[place, low, high]);
}

fn place_number(place: Result<Place, ChartRefusal>) -> u8 {
    match place {
        Ok(Place::Outside) => 0,
        Ok(Place::Inside) => 1,
        Ok(Place::Edge) => 2,
        Err(_) => 3,
    }
}

// A good chart has at most 512 records, so two bytes hold every index, and the remainder is the index itself.
fn nearest_number(nearest: Result<Option<usize>, ChartRefusal>) -> u16 {
    match nearest {
        Ok(Some(i)) => (i % 65536) as u16,
        Ok(None) => 65535,
        Err(_) => 65534,
    }
}
