//! Sessions over a hall: each line that needs the world is one call of the session's seat, and
//! EXPLAIN asks the worker's view.
#![tactic(auto)]

mod attended;
mod events;
mod replies;

pub use attended::Attended;
pub use events::event_of;
pub use replies::{explained_reply, hall_reply};
