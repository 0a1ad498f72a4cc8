//! What the program `landmap` does, given its arguments, files and streams.
#![tactic(auto)]

mod built_in;
mod checks;
mod ends;
mod faults;
mod hosts;
mod laws;
mod runs;
mod telling;

pub use built_in::built_in_config;
pub use checks::{check_named, draw_named};
pub use ends::{Ended, Next, TransferWords, WantedScript, WantedServer, WantedTransfer};
pub use faults::ProgramFault;
pub use hosts::{HostFile, HostFolder};
pub use laws::limits_in_numbers;
pub use runs::{Folder, run_file, run_named, run_program};
pub use telling::tell;
