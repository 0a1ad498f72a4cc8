//! The host's files.

ghost use Rattle.std.specs.Prelude.{◌≡◌};

use crate::runs::Folder;
use byte_streams::{NotOpened, open_file};
use std::fs::File;
use std::io;
use std::io::{Read, Stdin};

/// The name of standard input, where the command line asks for a file.
const STANDARD_INPUT: &str = "-";

/// A file of the host, or its standard input.
#[derive(Drop)]
pub enum HostFile {
    File(File),
    Input(Stdin),
}

impl Read for HostFile {
    fn read(&mut self, buffer: &mut [u8]) -> io::Result<usize> {
        match self {
            HostFile::File(file) => file.read(buffer),
            HostFile::Input(input) => input.read(buffer),
        }
    }
}

/// The file system of the host, and `-`, its standard input.
#[derive(Drop)]
pub struct HostFolder<'a> {
    rt: &'a HostRuntime,
}

impl<'a> HostFolder<'a> {
    /// The folder that the program was started in.
    pub fn of(rt: &'a HostRuntime) -> Self
        ensures { result.rt.now ≡ rt.now }
    {
        HostFolder { rt }
    }
}

impl Folder for HostFolder<'_> {
    ghost use Rattle.std.specs.Prelude.{None};

    type File = HostFile;

    // nothing is known of the host's files: neither their contents, nor which can be opened
    ghost holds = { λ folder name. None };

    ghost closed = { λ folder name. Unit {0} };

    fn open_file(&self, name: &str) -> Result<HostFile, NotOpened> {
        if name == STANDARD_INPUT {
            return Ok(HostFile::Input(self.rt.stdin()));
        }
        Ok(HostFile::File(open_file(self.rt, name)?))
    }
}
