//! What went wrong, on standard error.

use program::{ProgramFault, tell};
use std::io::Stderr;
use std::process::ExitCode;

/// Reports a fault that occurred outside `run_program`, and returns the status of `Ended::Failed`.
/// `Ended::Failed` is not built here because it owns its fault, and rattle proves no function here
/// that takes a fault by value.
pub fn fail(fault: &ProgramFault<'_>, errors: &mut Stderr) -> ExitCode {
    let _ = tell(fault, errors);
    ExitCode::from(1)
}
