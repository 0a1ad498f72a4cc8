//! A whole search of a tree that stays as it is: a walk that changes nothing.
#![tactic(auto)]

mod reading;

pub use reading::ids_matching;
