//! Which searches run, and which of them are attached to a node.
#![tactic(auto)]

mod attached;
mod fault;
mod running;

pub use attached::Attached;
pub use fault::LockFault;
pub use running::{Running, RunningSearch};

/// How many searches run at a time at most.
pub const MAX_RUNNING: usize = 16;

/// For how many numbers `Attached` makes room at once at most.
pub const MAX_ROOM: usize = 4_096;
