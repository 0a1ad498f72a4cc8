//! A law of the pages of a map: who follows their links sees each row once.
#![tactic(auto)]

mod laws;

pub use laws::pages_are_rows;
