// The plane: points and segments by value. What is said of them is in specs/, what is true of it in proofs/;
// no function.
#![tactic(auto)]

// A point of the grid, each coordinate counted from the grid's lower end: 0 to 65,535, so its range is its type.
#[derive(Clone, Copy, Debug, PartialEq, Eq, PartialOrd, Ord)]
pub struct Point {
    pub x: u16,
    pub y: u16,
}

// A segment by its two ends, `a` the smaller (by x, then y).
#[derive(Clone, Copy, Debug, PartialEq, Eq)]
pub struct Segment {
    pub a: Point,
    pub b: Point,
}
