//! A world with all its records: those that were rolled out of it, piece after piece, and those of
//! the present trail.
#![tactic(auto)]

mod answering;
mod chronicles;
mod committing;
mod comparing;
mod due_slots;
mod governing;
mod reading;
mod searching;
mod tending;

pub use chronicles::Chronicle;
