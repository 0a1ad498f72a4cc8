//! Why listed points have no canonical shape.

ghost use Rattle.std.specs.Prelude.{◌≡◌};

use std::error::Error;
use std::fmt;

/// Why a list of points has no shape, in the order in which the faults are looked for.
#[derive(Clone, Copy, Debug, PartialEq, Eq)]
pub enum ShapeFault {
    /// P1: a listed coordinate is out of range.
    OutOfRange,
    /// P2: the two ends of a segment are equal.
    SameEnds,
    /// P3: a ring lists more than 64 points, its closing one included.
    TooManyPoints,
    /// P4: a ring lists fewer than 4 points, its closing one included.
    TooFew,
    /// P5: the last listed point of a ring is not equal to the first.
    NotClosed,
    /// P6: two listed points of a ring other than the closing one are equal.
    Repeated,
    /// P7: all points of a ring are on one line.
    Flat,
    /// P8: in neither direction is every listed point on or left of every listed edge.
    NotConvex,
    /// P9: a ring turns at more than 16 points.
    TooManyCorners,
}

impl ShapeFault {
    ghost use Rattle.plane.specs.FaultCodes.{code_of};

    /// The fault's short code, `P1` to `P9`.
    pub fn code(self) -> &'static str
        ensures { result.now ≡ code_of self }
    {
        match self {
            ShapeFault::OutOfRange => "P1",
            ShapeFault::SameEnds => "P2",
            ShapeFault::TooManyPoints => "P3",
            ShapeFault::TooFew => "P4",
            ShapeFault::NotClosed => "P5",
            ShapeFault::Repeated => "P6",
            ShapeFault::Flat => "P7",
            ShapeFault::NotConvex => "P8",
            ShapeFault::TooManyCorners => "P9",
        }
    }
}

impl fmt::Display for ShapeFault {
    ghost use Rattle.std.specs.Prelude.{Some};
    ghost use Rattle.plane.specs.FaultCodes.{code_of};

    ghost output = { λ fault. Some (code_of fault) };

    fn fmt<W: fmt::Write>(&self, f: &mut fmt::Formatter<W>) -> fmt::Result {
        f.write_str(self.code())
    }
}

impl Error for ShapeFault {}
