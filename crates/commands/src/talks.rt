//! A talk with a server, from a terminal or a file.

use crate::telling::fail;
use byte_streams::let_go;
use client::{End, TalkFault, talk};
use memory::buffered;
use program::ProgramFault;
use std::io;
use std::io::{IsTerminal, Read, Stderr, Stdin, Write};
use std::net::Net;
use std::os::unix::net::UnixStream;
use std::process::ExitCode;

/// Standard input. If `prompts` is set, each read is preceded by a prompt on standard error; it is
/// set if standard input and standard error are terminals.
#[derive(Drop)]
struct Prompted {
    input: Stdin,
    errors: Stderr,
    prompts: bool,
}

impl Read for Prompted {
    fn read(&mut self, buffer: &mut [u8]) -> io::Result<usize> {
        if self.prompts {
            let _ = self.errors.write_all(b"> ");
        }
        self.input.read(buffer)
    }
}

/// A connection to the server at a path, as its reader and its writer.
pub(crate) fn connected<R: Net>(rt: &R, path: &str) -> io::Result<(UnixStream, UnixStream)> {
    let stream = UnixStream::connect(rt, path)?;
    let reader = stream.try_clone()?;
    Ok((reader, stream))
}

/// Talks to the server at a path, from standard input to standard output, and returns the exit
/// status.
pub fn connect(rt: &HostRuntime, path: &str, errors: &mut Stderr) -> ExitCode {
    let Ok((mut peer_in, mut peer_out)) = connected(rt, path) else {
        return fail(&ProgramFault::CannotConnect(path), errors);
    };
    let mut output = match buffered(rt.alloc(), io::writer(rt)) {
        Ok(output) => output,
        Err(no_memory) => return fail(&ProgramFault::Memory(no_memory), errors),
    };
    let prompts = rt.stdin().is_terminal() && rt.stderr().is_terminal();
    let mut input = Prompted {
        input: rt.stdin(),
        errors: rt.stderr(),
        prompts,
    };
    let end = talk(
        rt.alloc(),
        &mut input,
        &mut peer_in,
        &mut peer_out,
        &mut output,
    );
    let _ = let_go(output);
    match end {
        Ok(talked) => {
            if prompts && talked.end == End::AtEnd {
                let _ = errors.write_all(b"\n");
            }
            ExitCode::SUCCESS
        }
        Err(TalkFault::Output(failed)) => fail(&ProgramFault::CannotWrite(failed), errors),
        Err(fault) => fail(&ProgramFault::Talk(fault.word()), errors),
    }
}
