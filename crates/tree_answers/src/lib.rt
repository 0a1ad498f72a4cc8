//! What the search tree returns, and what it asks of the crates above it. Nothing here knows of
//! nodes or keys, so a crate that only handles these results does not depend on the tree.
#![tactic(auto)]

mod answers;
mod fault;
mod keeper;
mod limits;

pub use answers::{Step, Tending, Visit};
pub use fault::TreeFault;
pub use keeper::Keeper;
pub use limits::MAX_STEPS;
