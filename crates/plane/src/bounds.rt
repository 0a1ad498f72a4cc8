//! The numbers of an elimination, with their ranges.

ghost use Rattle.plane.specs.Bounds.{IsBound, IsHeight, IsLevel};

/// A row without x. It allows the heights y/w with `b y <= c w`.
#[derive(Clone, Copy)]
pub struct Level {
    pub b: i128,
    pub c: i128,
    ghost in_range: { IsLevel b c },
}

/// A bound `scale t <= most w` on an unknown t/w.
#[derive(Clone, Copy)]
pub struct Bound {
    pub scale: i128,
    pub most: i128,
    ghost in_range: { IsBound scale most },
}

/// An interval of heights: a bound on -y/w, and one on y/w.
#[derive(Clone, Copy)]
pub struct Gap {
    pub lower: Bound,
    pub upper: Bound,
}

/// A height y/w.
#[derive(Clone, Copy)]
pub struct Height {
    pub y: i128,
    pub w: i128,
    ghost in_range: { IsHeight y w },
}
