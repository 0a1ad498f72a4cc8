//! Why a search was not entered or attached.

ghost use Rattle.std.specs.Prelude.{◌≡◌, Some};
ghost use Rattle.predicate_locks.specs.FaultCodes.{code_of};

use memory::NoMemory;
use std::error::Error;
use std::fmt;

/// Why a search was not entered or attached.
#[derive(Debug, Drop, PartialEq, Eq)]
pub enum LockFault {
    /// L1: `MAX_RUNNING` searches run.
    TooMany,
    /// L2: the next number is `u64::MAX`.
    Spent,
    /// L3: an allocation was refused.
    Memory(NoMemory),
}

impl From<NoMemory> for LockFault {
    ghost use Rattle.predicate_locks.specs.declared.fault.LockFault.TheVariants.{Memory};

    ghost from_gives = { λ no_memory fault. fault ≡ Memory no_memory };

    fn from(no_memory: NoMemory) -> LockFault {
        LockFault::Memory(no_memory)
    }
}

impl LockFault {
    /// The fault's code: `L1`, `L2` or `L3`.
    pub fn code(&self) -> &'static str
        ensures { result.now ≡ code_of self.now }
    {
        match self {
            LockFault::TooMany => "L1",
            LockFault::Spent => "L2",
            LockFault::Memory(_) => "L3",
        }
    }
}

/// Writes the code.
impl fmt::Display for LockFault {
    ghost output = { λ fault. Some (code_of fault) };

    fn fmt<W: fmt::Write>(&self, f: &mut fmt::Formatter<W>) -> fmt::Result {
        f.write_str(self.code())
    }
}

impl Error for LockFault {}
