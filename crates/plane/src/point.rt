//! Points with whole coordinates, and the range of a coordinate.

ghost use Rattle.std.specs.Prelude.{◌≡◌, ◌↔◌, IsTrue};
ghost use Rattle.plane.specs.Coordinates.{IsCoordinate, is_coordinate};

/// The greatest coordinate. The least is its negation.
pub const LIMIT: i32 = 10_000_000;

/// A point of the plane. Points that are listed for a shape have to be in range.
#[derive(Clone, Copy, Debug, Default, PartialEq, Eq)]
pub struct Point {
    pub x: i32,
    pub y: i32,
}

/// Whether a coordinate is from `-LIMIT` to `LIMIT`.
fn is_coordinate(value: i32) -> bool
    ensures test { result ≡ is_coordinate value }
    ensures range { IsTrue result ↔ IsCoordinate value }
{
    -LIMIT <= value && value <= LIMIT
}

impl Point {
    ghost use Rattle.plane.specs.Points.{IsInRange, is_in_range, is_before};

    /// Whether both coordinates are from `-LIMIT` to `LIMIT`.
    pub fn is_in_range(self) -> bool
        ensures test { result ≡ is_in_range self }
        ensures range { IsTrue result ↔ IsInRange self }
    {
        is_coordinate(self.x) && is_coordinate(self.y)
    }

    /// Whether this point has the lesser x, or the same x and the lesser y.
    pub fn is_before(self, other: Point) -> bool
        ensures { result ≡ is_before self other }
    {
        self.x < other.x || (self.x == other.x && self.y < other.y)
    }
}
