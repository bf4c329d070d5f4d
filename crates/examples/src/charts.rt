// The charts of the bench examples, and the questions about them.
use crate::answer;
use crate::answer::Answer;
use chart::Refusal;
use sides::Op;

// A chart's records, five numbers each.
const SQUARE: [[i16; 5]; 8] = [
    [0, 0, 4, 0, 1],
    [0, 0, 0, 4, 0],
    [0, 4, 0, 0, 0],
    [0, 4, 4, 4, 0],
    [4, 0, 0, 0, 1],
    [4, 0, 4, 4, 1],
    [4, 4, 0, 4, 0],
    [4, 4, 4, 0, 1],
];

const LAST_MARK_ZERO: [[i16; 5]; 8] = [
    [0, 0, 4, 0, 1],
    [0, 0, 0, 4, 0],
    [0, 4, 0, 0, 0],
    [0, 4, 4, 4, 0],
    [4, 0, 0, 0, 1],
    [4, 0, 4, 4, 1],
    [4, 4, 0, 4, 0],
    [4, 4, 4, 0, 0],
];

const BOTTOM_MARKED_ZERO: [[i16; 5]; 8] = [
    [0, 0, 4, 0, 0],
    [0, 0, 0, 4, 0],
    [0, 4, 0, 0, 0],
    [0, 4, 4, 4, 0],
    [4, 0, 0, 0, 0],
    [4, 0, 4, 4, 1],
    [4, 4, 0, 4, 0],
    [4, 4, 4, 0, 1],
];

const NEIGHBOUR: [[i16; 5]; 8] = [
    [4, 0, 8, 0, 1],
    [4, 0, 4, 4, 0],
    [4, 4, 4, 0, 0],
    [4, 4, 8, 4, 0],
    [8, 0, 4, 0, 1],
    [8, 0, 8, 4, 1],
    [8, 4, 4, 4, 0],
    [8, 4, 8, 0, 1],
];

const SQUARE_WITH_HOLE: [[i16; 5]; 14] = [
    [0, 0, 4, 0, 1],
    [0, 0, 2, 1, 0],
    [0, 0, 1, 2, 1],
    [0, 0, 0, 4, 0],
    [0, 4, 0, 0, 0],
    [0, 4, 4, 4, 0],
    [1, 2, 0, 0, 1],
    [1, 2, 2, 1, 1],
    [2, 1, 1, 2, 1],
    [2, 1, 0, 0, 0],
    [4, 0, 0, 0, 1],
    [4, 0, 4, 4, 1],
    [4, 4, 0, 4, 0],
    [4, 4, 4, 0, 1],
];

const LARGE_TRIANGLE: [[i16; 5]; 6] = [
    [i16::MIN, i16::MIN, i16::MAX, i16::MIN, 1],
    [i16::MIN, i16::MIN, i16::MIN, i16::MAX, 0],
    [i16::MIN, i16::MAX, i16::MIN, i16::MIN, 0],
    [i16::MIN, i16::MAX, i16::MAX, i16::MIN, 0],
    [i16::MAX, i16::MIN, i16::MIN, i16::MAX, 0],
    [i16::MAX, i16::MIN, i16::MIN, i16::MIN, 1],
];

// The square over and over, each time 5 further right: 513 records, one more than a chart may have.
fn row_of_squares() -> [[i16; 5]; 513] {
    let square = SQUARE;
    let mut row = [[0; 5]; 513];
    for (i, record) in row.iter_mut().enumerate() {
        let [x, y, other_x, other_y, mark] = square[i % 8];
        let right = 5 * (i / 8) as i16;
        *record = [
            x.saturating_add(right),
            y,
            other_x.saturating_add(right),
            other_y,
            mark,
        ];
    }
    row
}

// ---- asking

pub(crate) fn say_areas() {
    let squares = row_of_squares();
    let (most, _) = squares.split_at(512);
    let square = SQUARE.as_flattened();
    let areas: [(&str, &[i16]); 9] = [
        ("the square", square),
        ("the square plus a hole", SQUARE_WITH_HOLE.as_flattened()),
        ("the large triangle", LARGE_TRIANGLE.as_flattened()),
        ("the square, its last mark 0", LAST_MARK_ZERO.as_flattened()),
        (
            "the square, its bottom marked 0",
            BOTTOM_MARKED_ZERO.as_flattened(),
        ),
        ("512 records", most.as_flattened()),
        ("513 records", squares.as_flattened()),
        ("six numbers", &square[..6]),
        ("the empty chart", &[]),
    ];
    for (name, chart) in areas {
        answer::say(name, area_of(chart));
    }
}

fn area_of(chart: &[i16]) -> Result<Answer, Refusal> {
    Ok(Answer::Area(area::area2(chart)?))
}

pub(crate) fn say_places() {
    let places: [(&str, &[[i16; 5]], i16, i16); 9] = [
        ("(2,2) in the square", &SQUARE, 2, 2),
        ("(4,2) in the square", &SQUARE, 4, 2),
        ("(5,2) in the square", &SQUARE, 5, 2),
        ("(1,1) beside the hole", &SQUARE_WITH_HOLE, 1, 1),
        ("(3,3) beside the hole", &SQUARE_WITH_HOLE, 3, 3),
        ("(0,0) beside the hole", &SQUARE_WITH_HOLE, 0, 0),
        ("(-1,-1) in the triangle", &LARGE_TRIANGLE, -1, -1),
        ("(0,-1) in the triangle", &LARGE_TRIANGLE, 0, -1),
        ("(0,0) in the triangle", &LARGE_TRIANGLE, 0, 0),
    ];
    for (name, chart, x, y) in places {
        answer::say(name, place_of(chart.as_flattened(), x, y));
    }
}

fn place_of(chart: &[i16], x: i16, y: i16) -> Result<Answer, Refusal> {
    Ok(Answer::Place(question::point(chart, x, y)?))
}

pub(crate) fn say_joinings() {
    let joinings = [
        ("the square or its neighbour", Op::Union),
        ("the square and its neighbour", Op::Intersection),
        ("the square without its neighbour", Op::Difference),
    ];
    for (name, op) in joinings {
        answer::say(name, joined_by(op));
    }
}

fn joined_by(op: Op) -> Result<Answer, Refusal> {
    let (square, neighbour) = (SQUARE, NEIGHBOUR);
    let mut out = [0; 60];
    let n = join::combine(
        op,
        square.as_flattened(),
        neighbour.as_flattened(),
        &mut out,
    )?;
    Ok(Answer::Records(n))
}
