//! The connections of HTTP that one session answers, beside those of others.
#![tactic(auto)]

mod counters;

pub use counters::Counter;
