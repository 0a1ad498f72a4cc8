//! Session lines over a world: how the world serves each line, and how a whole script is run.
#![tactic(auto)]

mod built_in;
mod calls;
mod keeping;
mod laws;
mod script_sessions;
mod scripts;
mod serving;
mod solos;
mod stepping;

pub use built_in::built_in_subjects;
pub use keeping::{KeptRun, run_kept_script};
pub use laws::{limits_in_numbers, lines_leave_worlds_at_rest, opened_world_is_idle};
pub use line_streams::{LINE_LIMIT, READ_LIMIT, ServeFault};
pub use scripts::{LABEL_LIMIT, run_script};
pub use serving::serve_world;
pub use session_lines::{LineFault, Reply, Said, Service, serve};
pub use solos::Solo;
