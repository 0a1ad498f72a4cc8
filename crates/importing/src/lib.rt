//! The lists of an import: their session lines, what the server's replies to them mean, what follows
//! from these, and how far the import has come.
#![tactic(auto)]

mod additions;
mod faults;
mod lists;
mod peers;
mod progress;
mod replies;
mod rows;
mod steps;

pub use additions::{Addition, LIST_LIMIT, list_text};
pub use faults::ListFault;
pub use lists::{Counts, Pause, Refused, Server};
pub use peers::{Peer, REPLY_LIMIT};
pub use progress::{progress_text, read_progress};
pub use replies::{Reply, read_reply};
pub use rows::is_row_of;
pub use steps::{Step, next_step};
