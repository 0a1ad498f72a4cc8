//! Answers the lines of any reader to any writer, and states what holds when such a run ends.
#![tactic(auto)]

mod laws;
mod streams;

pub use laws::parts_are_one_run;
pub use streams::{
    BegunLine, LINE_LIMIT, LineDesk, Next, READ_LIMIT, ServeFault, go_on_within, run_lines,
    run_lines_within,
};
