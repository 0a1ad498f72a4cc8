//! Why a query asks nothing of the policy.

ghost use Rattle.std.specs.Prelude.{◌≡◌};

use std::fmt;

/// A parameter of a question.
#[derive(Clone, Copy, Debug, PartialEq, Eq)]
pub enum Parameter {
    /// What would be done: `read`, `add`, `reshape` or `delete`.
    Action,
    /// The office whose feature it is.
    Office,
    /// The feature's class.
    Class,
    /// Where it is: a geometry of GeoJSON (RFC 7946, 3.1).
    Geometry,
}

/// Why a query asks nothing of the policy, in the order in which the faults are looked for.
#[derive(Clone, Copy, Debug, PartialEq, Eq)]
pub enum AskingFault {
    /// U2: there is no parameter of this name.
    UnknownParameter,
    /// U3: a parameter is given twice.
    Twice(Parameter),
    /// U4: a parameter is not given, or has no such value.
    Value(Parameter),
    /// memory: an allocation was refused.
    Memory,
}

impl AskingFault {
    ghost use Rattle.map_questions.specs.FaultCodes.{code_of};

    /// The code that users see.
    pub fn code(self) -> &'static str
        ensures { result.now ≡ code_of self }
    {
        match self {
            AskingFault::UnknownParameter => "U2",
            AskingFault::Twice(_) => "U3",
            AskingFault::Value(_) => "U4",
            AskingFault::Memory => "memory",
        }
    }
}

impl fmt::Display for AskingFault {
    ghost use Rattle.std.specs.Prelude.{Some};
    ghost use Rattle.map_questions.specs.FaultCodes.{code_of};

    ghost output = { λ fault. Some (code_of fault) };

    fn fmt<W: fmt::Write>(&self, f: &mut fmt::Formatter<W>) -> fmt::Result {
        f.write_str(self.code())
    }
}
