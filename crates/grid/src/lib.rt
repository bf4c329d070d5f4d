// The grid: the coordinate type, its count from the grid's lower end and the way back.
#![tactic(auto)]

ghost use Rattle.std.specs.Prelude.{◌≡◌, IsTrue, OkIff};
ghost use Rattle.grid.specs.Coordinates.{least, greatest, coord_of, on_grid, located, up, down, point_of};

use plane::Point;

// A coordinate: a signed sixteen-bit number. The grid's own ends belong to it.
#[derive(Clone, Copy, Debug, PartialEq, Eq, PartialOrd, Ord)]
pub struct Coord {
    pub v: i16,
}

// A wider number lies past one of the grid's ends.
#[derive(Clone, Copy, Debug, PartialEq, Eq)]
pub struct OffGrid;

impl TryFrom<i64> for Coord {
    type Error = OffGrid;

    ghost try_from_gives = { λ v r. OkIff r (IsTrue (on_grid v)) (coord_of v) };

    #[tactic(auto, unfolding(crate::specs::Coordinates::located))]
    fn try_from(v: i64) -> Result<Coord, OffGrid> {
        Coord::of_wide(v).ok_or(OffGrid)
    }
}

// The ends stand here as constants and as constructors, and `of_wide` beside TryFrom: the product names all of them. As
// for `count` and `at_count`, they are `count_of` and `number_at` of a coordinate.
impl Coord {
    pub const MIN: Coord = Coord { v: -32768 };

    pub const MAX: Coord = Coord { v: 32767 };

    pub fn new(v: i16) -> Self
        ensures { result ≡ coord_of v }
    {
        Self { v }
    }

    // The grid's lower end.
    pub fn least() -> Self
        ensures { result ≡ coord_of least }
    {
        Self::MIN
    }

    // The grid's upper end.
    pub fn greatest() -> Self
        ensures { result ≡ coord_of greatest }
    {
        Self::MAX
    }

    // The coordinate of a wider number, where that is on the grid.
    #[tactic(auto, unfolding(crate::specs::Coordinates::located))]
    pub fn of_wide(v: i64) -> Option<Coord>
        ensures { result ≡ located v }
    {
        i16::try_from(v).ok().map(Coord::new)
    }

    // How far it lies above the grid's lower end.
    pub fn count(self) -> u16
        ensures { result ≡ up self.v }
    {
        count_of(self.v)
    }

    // The coordinate that lies so far above the grid's lower end.
    pub fn at_count(n: u16) -> Self
        ensures { result ≡ coord_of (down n) }
    {
        Self { v: number_at(n) }
    }
}

// The sum fits 32 bits and the count 16, whatever the number: `up_small`.
#[tactic(auto, unfolding(crate::specs::Coordinates::up))]
pub fn count_of(v: i16) -> u16
    ensures { result ≡ up v }
{
    (v as i32 + 32768) as u16
}

pub fn number_at(n: u16) -> i16
    ensures { result ≡ down n }
{
    (n as i32 - 32768) as i16
}

// The point with these coordinates.
pub fn point_of(x: i16, y: i16) -> Point
    ensures { result ≡ point_of x y }
{
    Point {
        x: count_of(x),
        y: count_of(y),
    }
}
