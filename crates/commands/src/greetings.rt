//! What HELLO says.

use crate::telling::fail;
use features::Name;
use memory::try_extend;
use program::ProgramFault;
use std::env;
use std::env::VarError;
use std::io::{Stderr, Write};
use std::process::ExitCode;

/// The variable of the environment that has the subject's secret.
const SECRET_VARIABLE: &str = "LANDMAP_SECRET";

/// Whether a text may be a secret: it is one word of a line.
fn is_secret(text: &str) -> bool {
    text.as_bytes().iter().all(|byte| byte.is_ascii_graphic())
}

/// Says that the environment has no secret that can be read, and returns the exit status.
fn tell_no_secret(errors: &mut Stderr) -> ExitCode {
    let _ = errors.write_all(b"landmap: LANDMAP_SECRET is no secret, or cannot be read\n");
    ExitCode::from(1)
}

/// What stands behind HELLO for a subject: the name and, where the environment has a secret for it,
/// that. A variable that is empty is as if it were not there.
pub(crate) fn greeting(
    rt: &HostRuntime,
    subject: Name,
    errors: &mut Stderr,
) -> Result<Vec<u8>, ExitCode> {
    let secret = match env::var(rt, SECRET_VARIABLE) {
        Ok(secret) => Some(secret),
        Err(VarError::NotPresent) => None,
        Err(_) => return Err(tell_no_secret(errors)),
    };
    let mut words = Vec::new(rt.alloc());
    let mut added = try_extend(&mut words, subject.as_bytes());
    if let Some(secret) = secret {
        if !is_secret(secret.as_str()) {
            return Err(tell_no_secret(errors));
        }
        if !secret.is_empty() && added.is_ok() {
            added = try_extend(&mut words, b" ");
        }
        if added.is_ok() {
            added = try_extend(&mut words, secret.as_bytes());
        }
    }
    match added {
        Ok(()) => Ok(words),
        Err(no_memory) => Err(fail(&ProgramFault::Memory(no_memory), errors)),
    }
}
