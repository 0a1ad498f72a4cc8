//! Makes a secret by which a subject asks by HTTP.

use crate::telling::fail;
use byte_streams::let_go;
use features::Name;
use memory::buffered;
use program::ProgramFault;
use secrets::{RANDOM_LENGTH, SecretFault, print_secret};
use std::io;
use std::io::Stderr;
use std::process::ExitCode;
use std::random::RandomSource;

/// What is told of a text that is no name. `run_program` has looked, so it does not come to that.
const NO_NAME: &str = "no name";

/// What is told where the host gives no random bytes.
const NO_RANDOMNESS: &str = "no randomness";

/// Draws a secret from the host's own randomness, prints it and its entry for a subject, and returns
/// the exit status. The secret is kept nowhere.
pub fn make_secret(rt: &HostRuntime, name: &str, errors: &mut Stderr) -> ExitCode {
    let Some(subject) = Name::new(name.as_bytes()) else {
        return fail(&ProgramFault::Talk(NO_NAME), errors);
    };
    let mut random = [0; RANDOM_LENGTH];
    if rt.fill_bytes(&mut random).is_err() {
        return fail(&ProgramFault::Talk(NO_RANDOMNESS), errors);
    }
    let mut output = match buffered(rt.alloc(), io::writer(rt)) {
        Ok(output) => output,
        Err(no_memory) => return fail(&ProgramFault::Memory(no_memory), errors),
    };
    let printed = print_secret(rt.alloc(), subject, &random, &mut output);
    let _ = let_go(output);
    match printed {
        Ok(_) => ExitCode::SUCCESS,
        Err(SecretFault::Memory(no_memory)) => fail(&ProgramFault::Memory(no_memory), errors),
        Err(SecretFault::Write(failed)) => fail(&ProgramFault::CannotWrite(failed), errors),
    }
}
