//! Why a list is not settled.

ghost use Rattle.std.specs.Prelude.{◌≡◌};

use byte_streams::{ReadFailed, WriteFailed};
use memory::NoMemory;
use std::error::Error;
use std::fmt;

/// Why a list is not settled. What the server has applied of it is not known, but after `Stopped`
/// and `Busy`: then nothing of what was sent last.
#[derive(Debug, Drop)]
pub enum ListFault {
    /// The server could not be written to.
    Write(WriteFailed),
    /// The server could not be read from.
    Read(ReadFailed),
    /// The server ended the connection.
    Ended,
    /// The server sent a line of more than 1,024 bytes.
    TooLong,
    /// The server cannot go on, or its reply is not known.
    Stopped,
    /// The server has asked to try again, 1,000 times.
    Busy,
    /// Out of memory.
    Memory(NoMemory),
}

impl fmt::Display for ListFault {
    fn fmt<W: fmt::Write>(&self, f: &mut fmt::Formatter<W>) -> fmt::Result {
        f.write_str(match self {
            ListFault::Write(_) => "the server could not be written to",
            ListFault::Read(_) => "the server could not be read from",
            ListFault::Ended => "the server has ended the connection",
            ListFault::TooLong => "the server has sent a line that is too long",
            ListFault::Stopped => "the server cannot go on",
            ListFault::Busy => "the server is busy",
            ListFault::Memory(_) => "out of memory",
        })
    }
}

impl Error for ListFault {}

impl From<NoMemory> for ListFault {
    ghost use Rattle.importing.specs.declared.faults.ListFault.TheVariants as faults;

    ghost from_gives = { λ no_memory fault. fault ≡ faults.Memory no_memory };

    fn from(no_memory: NoMemory) -> ListFault {
        ListFault::Memory(no_memory)
    }
}

impl From<ReadFailed> for ListFault {
    ghost use Rattle.importing.specs.declared.faults.ListFault.TheVariants as faults;

    ghost from_gives = { λ failed fault. fault ≡ faults.Read failed };

    fn from(failed: ReadFailed) -> ListFault {
        ListFault::Read(failed)
    }
}

impl From<WriteFailed> for ListFault {
    ghost use Rattle.importing.specs.declared.faults.ListFault.TheVariants as faults;

    ghost from_gives = { λ failed fault. fault ≡ faults.Write failed };

    fn from(failed: WriteFailed) -> ListFault {
        ListFault::Write(failed)
    }
}
