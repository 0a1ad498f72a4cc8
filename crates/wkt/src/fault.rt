//! Why a text spells no shape.

ghost use Rattle.std.specs.Prelude.{◌≡◌};

use plane::ShapeFault;
use std::error::Error;
use std::fmt;

/// Why a text spells no shape. A place is a byte offset: that of the first token, from the left,
/// with which no shape's text can go on, or the text's length if a token is missing at its end.
#[derive(Clone, Copy, Debug, PartialEq, Eq)]
pub enum WktFault {
    /// K1: the first word is not a geometry keyword known here.
    UnknownWord(usize),
    /// K2: an unsupported form of the standard, such as a collection, `EMPTY` or a third point.
    LeftOut(usize),
    /// K3: a token is wrong or missing, or follows after the last one.
    Syntax(usize),
    /// K4: the word is not a number.
    Number(usize),
    /// K5: the number is outside of the range of coordinates.
    OutOfRange(usize),
    /// K6: the text has the form of a shape, but its points make none.
    Bad(ShapeFault),
}

impl WktFault {
    ghost use Rattle.wkt.specs.FaultCodes.{code_of};

    /// The short code: `K1` to `K5`, or that of the fault of the points, `P1` to `P9`.
    pub fn code(self) -> &'static str
        ensures { result.now ≡ code_of self }
    {
        match self {
            WktFault::UnknownWord(_) => "K1",
            WktFault::LeftOut(_) => "K2",
            WktFault::Syntax(_) => "K3",
            WktFault::Number(_) => "K4",
            WktFault::OutOfRange(_) => "K5",
            WktFault::Bad(fault) => fault.code(),
        }
    }
}

impl fmt::Display for WktFault {
    ghost use Rattle.std.specs.Prelude.{Some};
    ghost use Rattle.wkt.specs.FaultCodes.{code_of};

    ghost output = { λ fault. Some (code_of fault) };

    fn fmt<W: fmt::Write>(&self, f: &mut fmt::Formatter<W>) -> fmt::Result {
        f.write_str(self.code())
    }
}

impl Error for WktFault {}
