//! Session lines over any service: commands, replies, and one session by itself.
#![tactic(auto)]

mod actions;
mod commands;
mod desks;
mod faults;
mod lists;
mod opening;
mod replies;
mod services;
mod serving;
mod writing;

pub use commands::{as_number, as_shape, due_word, end};
pub use desks::{Staged, answer};
pub use faults::LineFault;
pub use replies::{Reply, Said, fault_reply, outcome_reply, visit_reply};
pub use services::Service;
pub use serving::{Sitting, serve, serve_on};
pub use writing::{LEAD_LIMIT, write_line, write_said};
