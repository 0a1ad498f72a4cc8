//! How a run of the program ends, and its exit status; or which server to run or to talk with.

ghost use Rattle.std.specs.Prelude.{◌≡◌};
ghost use Rattle.program.specs.Ends.{exit_status};

use crate::faults::ProgramFault;
use byte_streams::{Flushed, WriteFailed};
use command_line::{ExportWords, HttpWord, ImportWords, ServerOptions, StoreWords, Waits};
use configuration::Config;
use grid::Grid;
use std::alloc::Global;
use world::FeatureLimit;

/// How a run of the program ended.
#[derive(Debug, Drop)]
pub enum Ended<'a> {
    /// What was asked for is done, and all output is flushed.
    Well(Flushed),
    /// It failed with this fault; the second part is whether the fault's line could be written.
    Failed(ProgramFault<'a>, Result<(), WriteFailed>),
    /// clap rejected the words of the command line.
    TurnedDown,
}

impl Ended<'_> {
    /// The program's exit status: 0 on success, 1 after a fault, 2 if the command line is wrong.
    pub fn status(&self) -> u8
        ensures { result ≡ exit_status self.now }
    {
        match self {
            Ended::Well(_) => 0,
            Ended::Failed(..) => 1,
            Ended::TurnedDown => 2,
        }
    }
}

/// A server that the command line asks for, with its configuration.
#[derive(Debug, Drop)]
pub struct WantedServer<'a> {
    /// Where it listens, and how it serves.
    pub options: ServerOptions<'a>,
    /// Its configuration.
    pub config: Config<Global>,
    /// The folder of its store; `None` for none.
    pub store: Option<&'a str>,
    /// For which records replies wait, where there is a store.
    pub waits: Waits,
    /// Where it answers HTTP; `None`: nowhere.
    pub http: Option<HttpWord<'a>>,
    /// How many connections of HTTP it answers side by side, if that is said.
    pub http_workers: Option<u16>,
    /// The most features that there may be.
    pub features: FeatureLimit,
}

/// A script over a store that the command line asks for, with its configuration.
#[derive(Debug, Drop)]
pub struct WantedScript<'a> {
    /// Its configuration.
    pub config: Config<Global>,
    /// The script's file.
    pub script: &'a str,
    /// The folder of the store.
    pub folder: &'a str,
    /// The most features that there may be.
    pub features: FeatureLimit,
}

/// An export or an import that the command line asks for.
#[derive(Clone, Copy)]
pub enum TransferWords<'a> {
    /// Write the features of a server.
    Export(ExportWords<'a>),
    /// Add the features of a file to a server.
    Import(ImportWords<'a>),
}

/// An export or an import, with the grid of its configuration.
#[derive(Clone, Copy)]
pub struct WantedTransfer<'a> {
    /// What is asked for.
    pub words: TransferWords<'a>,
    /// The grid of the configuration, if one is named and has a grid.
    pub grid: Option<Grid>,
}

/// What is left to do after `run_program`.
#[derive(Drop)]
pub enum Next<'a> {
    /// Exit: the run has ended.
    Exit(Ended<'a>),
    /// Serve: nothing is bound yet.
    Serve(WantedServer<'a>),
    /// Talk with the server at this path: it is not connected yet.
    Connect(&'a str),
    /// Run a script over a store: neither is opened yet.
    Keep(WantedScript<'a>),
    /// Look at a store: it is not opened yet.
    Look(StoreWords<'a>),
    /// Make a secret for the subject of this name: nothing is drawn yet.
    Secret(&'a str),
    /// Export or import: no server is connected yet.
    Transfer(WantedTransfer<'a>),
}
