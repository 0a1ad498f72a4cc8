//! Why the program ends with status 1.

ghost use Rattle.std.specs.Prelude.{◌≡◌};

use byte_streams::WriteFailed;
use command_line::NoMemoryForWords;
use configuration::{ConfigFault, ReadFault};
use drawing::DrawFault;
use memory::NoMemory;
use scripts::ServeFault;
use std::fmt;
use world::Fault;

/// Why the program ends with status 1.
#[derive(Debug, Drop)]
pub enum ProgramFault<'a> {
    /// The file of this name cannot be opened or is a folder; or it is a configuration's file, and
    /// cannot be read or is longer than 16,777,216 bytes.
    CannotRead(&'a str, ReadFault),
    /// A server's socket cannot be bound at this path.
    CannotBind(&'a str),
    /// The server at this path cannot be reached.
    CannotConnect(&'a str),
    /// The program's output cannot be written.
    CannotWrite(WriteFailed),
    /// Out of memory for the command line. It is shown as V4.
    Words(NoMemoryForWords),
    /// Out of memory for the output's buffer. It is shown as V4.
    Memory(NoMemory),
    /// The configuration is faulty, or memory ran out while it was read.
    Config(ConfigFault),
    /// The world that the configuration describes cannot be opened.
    World(Fault),
    /// The run ended with this fault.
    Run(ServeFault),
    /// A drawing was not made.
    Draw(DrawFault),
    /// The server ended with a fault of this code.
    Server(&'static str),
    /// A talk with a server ended with a fault, or no secret could be drawn: it is shown as this text.
    Talk(&'static str),
}

impl ProgramFault<'_> {
    ghost use Rattle.program.specs.Ends.{fault_name, fault_word};

    /// How the fault is shown: its code if it has one, else a phrase. `name` follows it.
    pub fn word(&self) -> &'static str
        ensures { result.now ≡ fault_word self.now }
    {
        match self {
            ProgramFault::CannotRead(..) => "cannot read ",
            ProgramFault::CannotBind(_) => "cannot bind ",
            ProgramFault::CannotConnect(_) => "cannot connect ",
            ProgramFault::CannotWrite(_) => "cannot write",
            ProgramFault::Words(_) | ProgramFault::Memory(_) => "V4",
            ProgramFault::Config(fault) => fault.code(),
            ProgramFault::World(fault) => fault.code(),
            ProgramFault::Run(fault) => fault.code(),
            ProgramFault::Draw(fault) => fault.code(),
            ProgramFault::Server(code) => code,
            ProgramFault::Talk(word) => word,
        }
    }

    /// The file that cannot be read, or the path that cannot be bound or connected to. It is empty
    /// for all other faults.
    pub fn name(&self) -> &str
        ensures { result.now ≡ fault_name self.now }
    {
        match self {
            ProgramFault::CannotRead(name, _)
            | ProgramFault::CannotBind(name)
            | ProgramFault::CannotConnect(name) => name,
            _ => "",
        }
    }
}

impl fmt::Display for ProgramFault<'_> {
    ghost use Rattle.std.specs.Prelude.{Some};
    ghost use Rattle.program.specs.Ends.{fault_text};

    ghost output = { λ fault. Some (fault_text fault) };

    fn fmt<W: fmt::Write>(&self, f: &mut fmt::Formatter<W>) -> fmt::Result {
        f.write_str(self.word())?;
        f.write_str(self.name())
    }
}

impl From<WriteFailed> for ProgramFault<'_> {
    ghost use Rattle.std.specs.Prelude.{◌≡◌};
    ghost use Rattle.program.specs.declared.faults.ProgramFault.TheVariants.{CannotWrite};

    ghost from_gives = { λ failed fault. fault ≡ CannotWrite failed };

    fn from(failed: WriteFailed) -> Self {
        ProgramFault::CannotWrite(failed)
    }
}

impl From<ServeFault> for ProgramFault<'_> {
    ghost use Rattle.std.specs.Prelude.{◌≡◌};
    ghost use Rattle.program.specs.Ends.{program_fault};

    ghost from_gives = { λ end fault. fault ≡ program_fault end };

    fn from(end: ServeFault) -> Self {
        match end {
            ServeFault::Write(failed) => ProgramFault::CannotWrite(failed),
            fault => ProgramFault::Run(fault),
        }
    }
}
