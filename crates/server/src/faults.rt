//! Why nothing is served, or a hall does not close.

ghost use Rattle.std.specs.Prelude.{◌≡◌};

use crate::keeping::StoreFault;
use byte_streams::WriteFailed;
use hall::{CloseFault, HallFault, OpenFault};
use memory::NoMemory;
use std::fmt;

/// A channel was refused for lack of memory. Only this crate makes one, and only then.
#[derive(Debug, Drop, PartialEq, Eq)]
pub struct NoMemoryForChannel {
    seal: (),
}

impl NoMemoryForChannel {
    /// Called only where a channel was refused.
    pub(crate) fn seen() -> Self {
        NoMemoryForChannel { seal: () }
    }
}

/// Why nothing is served, or the hall does not close.
#[derive(Debug, Drop, PartialEq, Eq)]
pub enum ServerFault {
    /// The path was not bound.
    Bind,
    /// The place for HTTP was not bound.
    BindWeb,
    /// The line `listening PATH` was not written.
    Write(WriteFailed),
    /// H6: there is no memory for a channel: the one for streams that wait for a worker, or the one
    /// that stops the tending.
    Channel(NoMemoryForChannel),
    /// None of the workers could be started, so nothing was served.
    NoWorker,
    /// The hall was not opened.
    Open(OpenFault),
    /// The hall gave no view; or, as H6, there is no memory for the lists of views and of seats, or
    /// for the buffer of standard output.
    Hall(HallFault),
    /// The hall did not close.
    Close(CloseFault),
    /// The store was not opened, or took nothing more.
    Store(StoreFault),
}

impl ServerFault {
    ghost use Rattle.server.specs.FaultCodes.{server_code};

    /// The code of the fault, or its text if it has no code.
    pub fn code(&self) -> &'static str
        ensures { result.now ≡ server_code self.now }
    {
        match self {
            ServerFault::Bind | ServerFault::BindWeb => "cannot bind",
            ServerFault::Write(_) => "cannot write",
            ServerFault::Channel(_) => "H6",
            ServerFault::NoWorker => "cannot start a worker",
            ServerFault::Open(fault) => fault.code(),
            ServerFault::Hall(fault) => fault.code(),
            ServerFault::Close(fault) => fault.code(),
            ServerFault::Store(fault) => fault.code(),
        }
    }
}

impl fmt::Display for ServerFault {
    ghost use Rattle.std.specs.Prelude.{Some};
    ghost use Rattle.server.specs.FaultCodes.{server_code};

    ghost output = { λ fault. Some (server_code fault) };

    fn fmt<W: fmt::Write>(&self, f: &mut fmt::Formatter<W>) -> fmt::Result {
        f.write_str(self.code())
    }
}

impl From<NoMemory> for ServerFault {
    ghost use Rattle.hall.specs.declared.faults.HallFault.TheVariants.{Memory};
    ghost use Rattle.server.specs.declared.faults.ServerFault.TheVariants as faults;

    ghost from_gives = { λ no_memory fault. fault ≡ faults.Hall (Memory no_memory) };

    fn from(no_memory: NoMemory) -> Self {
        ServerFault::Hall(HallFault::Memory(no_memory))
    }
}

impl From<HallFault> for ServerFault {
    ghost use Rattle.server.specs.declared.faults.ServerFault.TheVariants as faults;

    ghost from_gives = { λ refusal fault. fault ≡ faults.Hall refusal };

    fn from(refusal: HallFault) -> Self {
        ServerFault::Hall(refusal)
    }
}

impl From<WriteFailed> for ServerFault {
    ghost use Rattle.server.specs.declared.faults.ServerFault.TheVariants as faults;

    ghost from_gives = { λ failed fault. fault ≡ faults.Write failed };

    fn from(failed: WriteFailed) -> Self {
        ServerFault::Write(failed)
    }
}
