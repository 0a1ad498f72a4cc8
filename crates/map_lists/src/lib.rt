//! Requests to make a list of changes as a whole, carried out by a session, and what they are
//! answered.
#![tactic(auto)]

mod answers;
mod changes;
mod committing;
mod distinct;
mod faults;
mod reading;
mod requests;
mod telling;

pub use answers::answer_list;
pub use committing::Outcome;
pub use faults::{ItemFault, ListFault, Part};
pub use reading::read_list;
pub use requests::ListRequest;
