//! Points of the plane with fractions as coordinates.

ghost use Rattle.std.specs.Prelude.{pos, ◌<ℤ◌};

/// The point (x/w, y/w), with w above 0.
#[derive(Clone, Copy, Debug)]
pub struct Fraction {
    pub x: i128,
    pub y: i128,
    pub w: i128,
    pub ghost above_zero: { pos 0 <ℤ w },
}
