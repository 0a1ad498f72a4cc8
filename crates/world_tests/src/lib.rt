//! Tests of the world's events and of its index, of the world against a plain world of lists, and of
//! its trail.
#![tactic(auto)]

#[cfg(test)]
mod audit_trail_tests;
#[cfg(test)]
mod dice;
#[cfg(test)]
mod end_tests;
#[cfg(test)]
mod event_tests;
#[cfg(test)]
mod happened;
#[cfg(test)]
mod index_tests;
#[cfg(test)]
mod listed_world;
#[cfg(test)]
mod memory_tests;
#[cfg(test)]
mod model_tests;
#[cfg(test)]
mod parts;
#[cfg(test)]
mod reading_tests;
#[cfg(test)]
mod refusal_tests;
#[cfg(test)]
mod state_tests;
#[cfg(test)]
mod worlds;
