//! Why a request asks for nothing that there is.

ghost use Rattle.std.specs.Prelude.{◌≡◌};

use std::fmt;

/// A parameter of the items of a collection.
#[derive(Clone, Copy, Debug, PartialEq, Eq)]
pub enum Parameter {
    /// The box that the features shall meet.
    Bbox,
    /// The time of the features.
    Datetime,
    /// The most features of a page.
    Limit,
    /// The kept answer of which this is a further page.
    Kept,
    /// The id behind which the page of a kept answer begins.
    After,
}

/// Why a request asks for nothing that there is, in the order in which the faults are looked for.
#[derive(Clone, Copy, Debug, PartialEq, Eq)]
pub enum AskFault {
    /// U1: there is no such page.
    NoPage,
    /// U2: the page has no parameter of this name.
    UnknownParameter,
    /// U3: a parameter is given twice.
    Twice(Parameter),
    /// U4: a parameter has no such value.
    Value(Parameter),
    /// U5: `kept` stands beside `bbox` or `datetime`, or `after` without `kept`.
    Apart,
}

impl AskFault {
    ghost use Rattle.map_asks.specs.FaultCodes.{code_of};

    /// The code that users see.
    pub fn code(self) -> &'static str
        ensures { result.now ≡ code_of self }
    {
        match self {
            AskFault::NoPage => "U1",
            AskFault::UnknownParameter => "U2",
            AskFault::Twice(_) => "U3",
            AskFault::Value(_) => "U4",
            AskFault::Apart => "U5",
        }
    }
}

impl fmt::Display for AskFault {
    ghost use Rattle.std.specs.Prelude.{Some};
    ghost use Rattle.map_asks.specs.FaultCodes.{code_of};

    ghost output = { λ fault. Some (code_of fault) };

    fn fmt<W: fmt::Write>(&self, f: &mut fmt::Formatter<W>) -> fmt::Result {
        f.write_str(self.code())
    }
}
