//! The client of a server. It sends the lines of an input one at a time, and writes the whole reply
//! to each before it reads the next.
#![tactic(auto)]

mod ahead;
mod faults;
mod replies;
mod talks;

pub use faults::{Gone, TalkFault};
pub use talks::{End, Talked, talk};
