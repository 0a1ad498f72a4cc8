//! Tests of volumes, over a store in memory, beside plain lists; of stores in folders on the disk; and of
//! group commit.
#![tactic(auto)]

#[cfg(test)]
mod barrier_tests;
#[cfg(test)]
mod desk_tests;
#[cfg(test)]
mod numbers;
#[cfg(test)]
mod parts;
#[cfg(test)]
mod shelf_tests;
#[cfg(test)]
mod volume_tests;
