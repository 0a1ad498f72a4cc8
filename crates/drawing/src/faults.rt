//! Why nothing, or not all, is drawn.

ghost use Rattle.std.specs.Prelude.{◌≡◌};

use byte_streams::{ReadFailed, Turns, WriteFailed};
use line_streams::ServeFault;
use memory::NoMemory;
use std::fmt;

/// Why a drawing is not made. Only after `Write` a front part of it may have been written.
#[derive(Debug, Drop, PartialEq, Eq)]
pub enum DrawFault {
    /// V1: a read failed, of the script or of the replies.
    Read(ReadFailed),
    /// V2: a write or a flush failed.
    Write(WriteFailed),
    /// V3: the script or the replies did not end within the reads of a run. These were made.
    TooManyTurns(Turns),
    /// V4: out of memory.
    Memory(NoMemory),
    /// G1: there would be more than `MARK_LIMIT` marks.
    TooManyMarks,
}

impl DrawFault {
    ghost use Rattle.drawing.specs.Faults.{code_of};

    /// The fault's code, as the program shows it.
    pub fn code(&self) -> &'static str
        ensures { result.now ≡ code_of self.now }
    {
        match self {
            DrawFault::Read(_) => "V1",
            DrawFault::Write(_) => "V2",
            DrawFault::TooManyTurns(_) => "V3",
            DrawFault::Memory(_) => "V4",
            DrawFault::TooManyMarks => "G1",
        }
    }
}

impl fmt::Display for DrawFault {
    ghost use Rattle.std.specs.Prelude.{Some};
    ghost use Rattle.drawing.specs.Faults.{code_of};

    ghost output = { λ fault. Some (code_of fault) };

    fn fmt<W: fmt::Write>(&self, f: &mut fmt::Formatter<W>) -> fmt::Result {
        f.write_str(self.code())
    }
}

impl From<NoMemory> for DrawFault {
    ghost use Rattle.drawing.specs.declared.faults.DrawFault.TheVariants as faults;

    ghost from_gives = { λ no_memory fault. fault ≡ faults.Memory no_memory };

    fn from(no_memory: NoMemory) -> DrawFault {
        DrawFault::Memory(no_memory)
    }
}

impl From<WriteFailed> for DrawFault {
    ghost use Rattle.drawing.specs.declared.faults.DrawFault.TheVariants as faults;

    ghost from_gives = { λ failed fault. fault ≡ faults.Write failed };

    fn from(failed: WriteFailed) -> DrawFault {
        DrawFault::Write(failed)
    }
}

impl From<ServeFault> for DrawFault {
    ghost use Rattle.drawing.specs.Faults.{fault_of};

    ghost from_gives = { λ run fault. fault ≡ fault_of run };

    fn from(fault: ServeFault) -> DrawFault {
        match fault {
            ServeFault::Read(failed) => DrawFault::Read(failed),
            ServeFault::Write(failed) => DrawFault::Write(failed),
            ServeFault::TooManyTurns(turns) => DrawFault::TooManyTurns(turns),
            ServeFault::Memory(no_memory) => DrawFault::Memory(no_memory),
        }
    }
}
