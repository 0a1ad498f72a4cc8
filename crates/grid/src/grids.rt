//! Grids.

ghost use Rattle.std.specs.Prelude.{◌≤◌};
ghost use Rattle.grid.specs.Origins.{IsOrigin};
ghost use Rattle.grid.specs.declared.grids.TheConstants.{MOST_DECIMALS};

/// The most decimals of a grid.
pub const MOST_DECIMALS: u8 = 9;

/// How many steps an origin is from 0 at most.
pub const ORIGIN_LIMIT: i64 = 1_000_000_000_000_000_000;

/// What becomes of a number between two steps.
#[derive(Clone, Copy, Debug, PartialEq, Eq)]
pub enum Between {
    /// It is refused.
    Refuse,
    /// It is the nearest whole number of steps from 0; of two equally near ones, the one farther
    /// from 0.
    Nearest,
}

/// An axis of the plane.
#[derive(Clone, Copy, Debug, PartialEq, Eq)]
pub enum Axis {
    X,
    Y,
}

/// Which number a whole coordinate means: the coordinate `n` means `origin + n / 10^decimals`.
#[derive(Clone, Copy, Debug)]
pub struct Grid {
    /// The origin's x, in steps.
    pub(crate) x: i64,
    /// The origin's y, in steps.
    pub(crate) y: i64,
    /// A step is 1 / 10^decimals.
    pub(crate) decimals: u8,
    pub(crate) between: Between,
    ghost x_in_range: { IsOrigin x },
    ghost y_in_range: { IsOrigin y },
    ghost few_decimals: { decimals ≤ MOST_DECIMALS },
}
