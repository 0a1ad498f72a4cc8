//! Tests of the search tree and of the crates below it.
#![tactic(auto)]

#[cfg(test)]
mod node_arena_tests;
#[cfg(test)]
mod predicate_locks_tests;
#[cfg(test)]
mod search_tree_finding;
#[cfg(test)]
mod search_tree_reading;
#[cfg(test)]
mod search_tree_refusals;
#[cfg(test)]
mod search_tree_runs;
#[cfg(test)]
mod search_tree_segments;
#[cfg(test)]
mod search_tree_splits;
#[cfg(test)]
mod search_tree_tests;
#[cfg(test)]
mod tree_steps;
