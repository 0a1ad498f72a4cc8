//! The label of a line, its words, and the numbers that words spell.
#![tactic(auto)]

mod labels;
mod words;

pub use labels::split_label;
pub use words::{next_word, read_number};
