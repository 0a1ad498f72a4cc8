//! Why a talk with a server breaks off.

ghost use Rattle.std.specs.Prelude.{◌≡◌};

use byte_streams::{ReadFailed, WriteFailed};
use memory::NoMemory;

/// How it is known that the server is gone.
#[derive(Debug, Drop, PartialEq, Eq)]
pub enum Gone {
    /// It closed its side before a reply was whole.
    Ended,
    /// A read from it failed.
    Unread(ReadFailed),
    /// A line could not be sent.
    Unsent(WriteFailed),
}

/// The fault that ends a talk. All that was read from the server is written, except after `Output`.
#[derive(Debug, Drop, PartialEq, Eq)]
pub enum TalkFault {
    /// A read of the input failed.
    Input(ReadFailed),
    /// The server's replies could not be written.
    Output(WriteFailed),
    /// The server is gone.
    Gone(Gone),
    /// Out of memory for a line.
    Memory(NoMemory),
    /// The input has at least 2^64 - 1 lines, the most that are counted.
    TooManyLines,
}

impl TalkFault {
    ghost use Rattle.client.specs.Words.{fault_word};

    /// How the program shows the fault: its code, or a phrase.
    pub fn word(&self) -> &'static str
        ensures { result.now ≡ fault_word self.now }
    {
        match self {
            TalkFault::Input(_) => "V1",
            TalkFault::Output(_) => "cannot write",
            TalkFault::Gone(_) => "the server is gone",
            TalkFault::Memory(_) => "V4",
            TalkFault::TooManyLines => "V3",
        }
    }
}

impl From<WriteFailed> for TalkFault {
    ghost use Rattle.client.specs.declared.faults.TalkFault.TheVariants as faults;

    ghost from_gives = { λ failed fault. fault ≡ faults.Output failed };

    fn from(failed: WriteFailed) -> TalkFault {
        TalkFault::Output(failed)
    }
}
