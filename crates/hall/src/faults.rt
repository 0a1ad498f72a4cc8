//! Why a hall refuses a call.

ghost use Rattle.std.specs.Prelude.{◌≡◌};

use memory::NoMemory;
use published_policies::NoMemoryForPolicies;
use std::fmt;
use world::Fault;

/// Why a hall refuses a call. A refused call leaves no record, no open search and no open
/// transaction.
#[derive(Debug, Drop, PartialEq, Eq)]
pub enum HallFault {
    /// H1: no subject has that name.
    NoSubject,
    /// H2: all seats are given, or all views.
    NoPlace,
    /// H3: the hall is closed.
    Closed,
    /// H4: searches held the list back at each of its tries.
    Held,
    /// H5: the world refuses an event of the call. The code shown is the world's.
    Core(Fault),
    /// H6: an allocation was refused before any event of the call.
    Memory(NoMemory),
    /// H7: a view has no policy to read.
    NotRead,
}

impl HallFault {
    ghost use Rattle.hall.specs.FaultCodes.{hall_code};

    /// The code by which users know the fault; for a refusal of the world, the world's own.
    pub fn code(&self) -> &'static str
        ensures { result.now ≡ hall_code self.now }
    {
        match self {
            HallFault::NoSubject => "H1",
            HallFault::NoPlace => "H2",
            HallFault::Closed => "H3",
            HallFault::Held => "H4",
            HallFault::Core(fault) => fault.code(),
            HallFault::Memory(_) => "H6",
            HallFault::NotRead => "H7",
        }
    }
}

impl fmt::Display for HallFault {
    ghost use Rattle.std.specs.Prelude.{Some};
    ghost use Rattle.hall.specs.FaultCodes.{hall_code};

    ghost output = { λ fault. Some (hall_code fault) };

    fn fmt<W: fmt::Write>(&self, f: &mut fmt::Formatter<W>) -> fmt::Result {
        f.write_str(self.code())
    }
}

impl From<NoMemory> for HallFault {
    ghost use Rattle.std.specs.Prelude.{◌≡◌};
    ghost use Rattle.hall.specs.declared.faults.HallFault.TheVariants.{Memory};

    ghost from_gives = { λ no_memory fault. fault ≡ Memory no_memory };

    fn from(no_memory: NoMemory) -> Self {
        HallFault::Memory(no_memory)
    }
}

impl From<Fault> for HallFault {
    ghost use Rattle.std.specs.Prelude.{◌≡◌};
    ghost use Rattle.hall.specs.FaultCodes.{hall_fault};

    ghost from_gives = { λ refusal fault. fault ≡ hall_fault refusal };

    fn from(refusal: Fault) -> Self {
        match refusal {
            Fault::NoSubject => HallFault::NoSubject,
            Fault::NoPlace => HallFault::NoPlace,
            other => HallFault::Core(other),
        }
    }
}

/// Why a hall is not opened.
#[derive(Debug, Drop, PartialEq, Eq)]
pub enum OpenFault {
    /// H2: more than `VIEW_LIMIT` views are asked for.
    NoPlace,
    /// H5: the world is not opened. The code shown is the world's.
    Core(Fault),
    /// H6: an allocation was refused.
    Memory(NoMemory),
    /// H6: there is no memory for the policies that views read.
    Policies(NoMemoryForPolicies),
}

impl OpenFault {
    ghost use Rattle.hall.specs.FaultCodes.{open_code};

    /// The code by which users know the fault; for a refusal of the world, the world's own.
    pub fn code(&self) -> &'static str
        ensures { result.now ≡ open_code self.now }
    {
        match self {
            OpenFault::NoPlace => "H2",
            OpenFault::Core(fault) => fault.code(),
            OpenFault::Memory(_) | OpenFault::Policies(_) => "H6",
        }
    }
}

impl fmt::Display for OpenFault {
    ghost use Rattle.std.specs.Prelude.{Some};
    ghost use Rattle.hall.specs.FaultCodes.{open_code};

    ghost output = { λ fault. Some (open_code fault) };

    fn fmt<W: fmt::Write>(&self, f: &mut fmt::Formatter<W>) -> fmt::Result {
        f.write_str(self.code())
    }
}

impl From<NoMemory> for OpenFault {
    ghost use Rattle.std.specs.Prelude.{◌≡◌};
    ghost use Rattle.hall.specs.declared.faults.OpenFault.TheVariants.{Memory};

    ghost from_gives = { λ no_memory fault. fault ≡ Memory no_memory };

    fn from(no_memory: NoMemory) -> Self {
        OpenFault::Memory(no_memory)
    }
}

impl From<NoMemoryForPolicies> for OpenFault {
    ghost use Rattle.std.specs.Prelude.{◌≡◌};
    ghost use Rattle.hall.specs.declared.faults.OpenFault.TheVariants.{Policies};

    ghost from_gives = { λ no_memory fault. fault ≡ Policies no_memory };

    fn from(no_memory: NoMemoryForPolicies) -> Self {
        OpenFault::Policies(no_memory)
    }
}

/// Why a hall does not close.
#[derive(Clone, Copy, Debug, PartialEq, Eq)]
pub enum CloseFault {
    /// C1: the receipts and the records of the seat of this number first differ at this place,
    /// counted from 0.
    Mismatch(u32, usize),
    /// C2: fewer or more seats are handed in than were given, or they were handed in before.
    SeatOut,
    /// H6: an allocation was refused, so that answers are not yet among the records. The call may be
    /// made again.
    Memory,
}

impl CloseFault {
    ghost use Rattle.hall.specs.FaultCodes.{close_code};

    /// The code by which users know the fault.
    pub fn code(&self) -> &'static str
        ensures { result.now ≡ close_code self.now }
    {
        match self {
            CloseFault::Mismatch(..) => "C1",
            CloseFault::SeatOut => "C2",
            CloseFault::Memory => "H6",
        }
    }
}

impl fmt::Display for CloseFault {
    ghost use Rattle.std.specs.Prelude.{Some};
    ghost use Rattle.hall.specs.FaultCodes.{close_code};

    ghost output = { λ fault. Some (close_code fault) };

    fn fmt<W: fmt::Write>(&self, f: &mut fmt::Formatter<W>) -> fmt::Result {
        f.write_str(self.code())
    }
}
