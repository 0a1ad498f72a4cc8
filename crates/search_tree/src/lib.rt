//! The search tree of features, over any class of keys: searches and walks go on at the same time,
//! step by step, and no search misses anything.
#![tactic(auto)]

mod advancing;
mod descents;
mod finding;
mod growing;
mod installing;
mod joining;
mod laws;
mod needs;
mod nexts;
mod opening;
mod placing;
mod reading;
mod rooms;
mod splitting;
mod starting;
mod tending;
mod tree;
mod visiting;
mod walk;

pub use finding::{Crowded, NAMED_SLOTS};
pub use laws::steps_answer_alike;
pub use tree::Tree;
pub use tree_answers::{Keeper, MAX_STEPS, Step, Tending, TreeFault, Visit};
pub use walk::Walk;
