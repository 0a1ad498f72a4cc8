//! Requests that change features, carried out by a session, and what they are answered.
#![tactic(auto)]

mod committing;
mod edits;
mod faults;
mod members;
mod telling;

pub use committing::{Outcome, commit_asked};
pub use edits::answer_change;
pub use faults::{fault_answer, placed};
pub use members::{put_current_member, put_index_part, put_rule_member};
pub use telling::{refused, unmade_answer};
