//! Why a line is answered `error`.

ghost use Rattle.std.specs.Prelude.{◌≡◌};

use std::fmt;
use wkt::WktFault;

/// Why a line is answered `error`: its syntax, its label or its turn is wrong, or the session gets
/// no seat or has no policy to read.
#[derive(Clone, Copy, Debug, PartialEq, Eq)]
pub enum LineFault {
    /// E1: the line is longer than 65,536 bytes.
    LineTooLong,
    /// E2: the command is unknown, a word is missing, or something is left over.
    Command,
    /// E3: a word is no number of 1 to 20 digits below 2^64, or no number of steps from 1 to
    /// 1,000,000.
    Number,
    /// E4: a word is no name, or no action.
    Name,
    /// E5: the session has not begun.
    BeforeHello,
    /// E6: the session has begun already.
    HelloAgain,
    /// E7: nothing is staged.
    NothingStaged,
    /// E8: OPEN where the session has a search open, STEP or FINISH where it has none.
    OutOfTurn,
    /// E9: the line has no label, or one more than 64.
    NoLabel,
    /// H1: no subject has that name.
    NoSubject,
    /// H2: all seats are given.
    NoPlace,
    /// H3: the hall is closed.
    Closed,
    /// H7: the session has no policy to read.
    NotRead,
    /// K1 to K5, or the code of its points, P2 to P9: the text is no shape.
    Shape(WktFault),
}

impl LineFault {
    ghost use Rattle.session_lines.specs.Faults.{code_of};

    /// The code that the reply shows.
    pub fn code(self) -> &'static str
        ensures { result.now ≡ code_of self }
    {
        match self {
            LineFault::LineTooLong => "E1",
            LineFault::Command => "E2",
            LineFault::Number => "E3",
            LineFault::Name => "E4",
            LineFault::BeforeHello => "E5",
            LineFault::HelloAgain => "E6",
            LineFault::NothingStaged => "E7",
            LineFault::OutOfTurn => "E8",
            LineFault::NoLabel => "E9",
            LineFault::NoSubject => "H1",
            LineFault::NoPlace => "H2",
            LineFault::Closed => "H3",
            LineFault::NotRead => "H7",
            LineFault::Shape(fault) => fault.code(),
        }
    }
}

impl fmt::Display for LineFault {
    ghost use Rattle.std.specs.Prelude.{Some};
    ghost use Rattle.session_lines.specs.Faults.{code_of};

    ghost output = { λ fault. Some (code_of fault) };

    fn fmt<W: fmt::Write>(&self, f: &mut fmt::Formatter<W>) -> fmt::Result {
        f.write_str(self.code())
    }
}
