//! Map features, and the names and subjects that act on them.
#![tactic(auto)]

mod actors;
mod names;
mod rows;

pub use actors::{Action, SUBJECT_LIMIT, Subject, Subjects, SubjectsFault};
pub use names::{NAME_LIMIT, Name};
pub use rows::{Change, Feature, same_changes};
