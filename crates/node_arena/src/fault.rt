//! Why an arena takes no value.

ghost use Rattle.std.specs.Prelude.{◌≡◌, Some};
ghost use Rattle.node_arena.specs.FaultCodes.{code_of};

use memory::NoMemory;
use std::error::Error;
use std::fmt;

/// Why an arena took no value.
#[derive(Debug, Drop, PartialEq, Eq)]
pub enum ArenaFault {
    /// A1: too few of the `MAX_SLOTS` slots are left; the others hold a value or are worn out.
    Full,
    /// A2: too few slots were free, and the allocation for more was refused.
    Memory(NoMemory),
}

impl From<NoMemory> for ArenaFault {
    ghost use Rattle.node_arena.specs.declared.fault.ArenaFault.TheVariants.{Memory};

    ghost from_gives = { λ no_memory fault. fault ≡ Memory no_memory };

    fn from(no_memory: NoMemory) -> ArenaFault {
        ArenaFault::Memory(no_memory)
    }
}

impl ArenaFault {
    /// The fault's code: `A1` or `A2`.
    pub fn code(&self) -> &'static str
        ensures { result.now ≡ code_of self.now }
    {
        match self {
            ArenaFault::Full => "A1",
            ArenaFault::Memory(_) => "A2",
        }
    }
}

/// Writes the code.
impl fmt::Display for ArenaFault {
    ghost output = { λ fault. Some (code_of fault) };

    fn fmt<W: fmt::Write>(&self, f: &mut fmt::Formatter<W>) -> fmt::Result {
        f.write_str(self.code())
    }
}

impl Error for ArenaFault {}
