//! Why a tree refuses a step.

ghost use Rattle.std.specs.Prelude.{◌≡◌, Some};
ghost use Rattle.tree_answers.specs.Faults.{code_of};

use memory::NoMemory;
use std::error::Error;
use std::fmt;

/// Why a tree refuses a step. A refused step is not counted and changes nothing that callers see,
/// with one exception: S7 ends the search that it refuses. A walk that S7 refuses is refused by S7
/// at every later step.
#[derive(Debug, Drop, PartialEq, Eq)]
pub enum TreeFault {
    /// S1: no search runs under the number.
    NoSearch,
    /// S2: as many searches run as may run at once (16).
    TooMany,
    /// S3: the search of this number is done with the leaf (it has seen it, or has passed it over),
    /// and looks for the item that would be placed there. If there are several, it is the one of
    /// the least number.
    Held(u64),
    /// S4: fewer slots are left than the new nodes need.
    Full,
    /// S5: the root would be above the highest level.
    TooHigh,
    /// S6: the counter, or the number of the next search, is `u64::MAX`.
    Spent,
    /// S7: the search or the walk has made all its steps.
    Overrun,
    /// S8: an allocation was refused.
    Memory(NoMemory),
}

impl From<NoMemory> for TreeFault {
    ghost use Rattle.tree_answers.specs.declared.fault.TreeFault.TheVariants.{Memory};

    ghost from_gives = { λ no_memory fault. fault ≡ Memory no_memory };

    fn from(no_memory: NoMemory) -> TreeFault {
        TreeFault::Memory(no_memory)
    }
}

impl TreeFault {
    /// The code that users see: `S1` to `S8`.
    pub fn code(&self) -> &'static str
        ensures { result.now ≡ code_of self.now }
    {
        match self {
            TreeFault::NoSearch => "S1",
            TreeFault::TooMany => "S2",
            TreeFault::Held(_) => "S3",
            TreeFault::Full => "S4",
            TreeFault::TooHigh => "S5",
            TreeFault::Spent => "S6",
            TreeFault::Overrun => "S7",
            TreeFault::Memory(_) => "S8",
        }
    }
}

/// Writes the code.
impl fmt::Display for TreeFault {
    ghost output = { λ fault. Some (code_of fault) };

    fn fmt<W: fmt::Write>(&self, f: &mut fmt::Formatter<W>) -> fmt::Result {
        f.write_str(self.code())
    }
}

impl Error for TreeFault {}
