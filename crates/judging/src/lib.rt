//! Judging: which rows a search lists, and what becomes of a list of changes.
#![tactic(auto)]

mod causes;
mod judging;
mod laws;

pub use causes::{Cause, Judgement, Refusal};
pub use judging::judge;
pub use laws::{answers_are_one, listings_are_shown_and_sorted};
