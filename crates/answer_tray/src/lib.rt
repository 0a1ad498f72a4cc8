//! Records of answers that wait to be taken into a trail: many read a chronicle at once, and put
//! the records of their answers down one after the other.
#![tactic(auto)]

mod taking;
mod trays;

pub use trays::{ANSWER_LIMIT, Tray};
