//! Why a text is no coordinate of a grid, and why an origin and decimals make no grid.

ghost use Rattle.std.specs.Prelude.{◌≡◌};

use crate::grids::Axis;
use std::error::Error;
use std::fmt;

/// Why a text is no coordinate of a grid, in the order in which the faults are looked for.
#[derive(Clone, Copy, Debug, PartialEq, Eq)]
pub enum NumberFault {
    /// G1: the text spells no number.
    NotANumber,
    /// G2: the number is between two steps of the grid.
    Between,
    /// G3: the number is beyond the grid: further from its origin than 10,000,000 steps.
    Beyond,
}

impl NumberFault {
    ghost use Rattle.grid.specs.FaultCodes.{code_of};

    /// The fault's short code, `G1` to `G3`.
    pub fn code(self) -> &'static str
        ensures { result.now ≡ code_of self }
    {
        match self {
            NumberFault::NotANumber => "G1",
            NumberFault::Between => "G2",
            NumberFault::Beyond => "G3",
        }
    }
}

impl fmt::Display for NumberFault {
    ghost use Rattle.std.specs.Prelude.{Some};
    ghost use Rattle.grid.specs.FaultCodes.{code_of};

    ghost output = { λ fault. Some (code_of fault) };

    fn fmt<W: fmt::Write>(&self, f: &mut fmt::Formatter<W>) -> fmt::Result {
        f.write_str(self.code())
    }
}

impl Error for NumberFault {}

/// Why an origin and decimals make no grid.
#[derive(Clone, Copy, Debug, PartialEq, Eq)]
pub enum GridFault {
    /// There are more than 9 decimals.
    TooManyDecimals,
    /// The origin on an axis is no number of whole steps, or more than 10^18 steps from 0.
    Origin(Axis, NumberFault),
}
