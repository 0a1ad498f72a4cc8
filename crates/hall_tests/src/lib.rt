//! Tests of halls: many threads over one world.
#![tactic(auto)]

#[cfg(test)]
mod close_tests;
#[cfg(test)]
mod crowded_tests;
#[cfg(test)]
mod halls;
#[cfg(test)]
mod held_tests;
#[cfg(test)]
mod life_tests;
#[cfg(test)]
mod memory_tests;
#[cfg(test)]
mod pauses;
#[cfg(test)]
mod reading_tests;
#[cfg(test)]
mod roll_tests;
#[cfg(test)]
mod seat_tests;
#[cfg(test)]
mod section_tests;
#[cfg(test)]
mod tending_tests;
#[cfg(test)]
mod thread_tests;
#[cfg(test)]
mod tray_tests;
#[cfg(test)]
mod view_tests;
#[cfg(test)]
mod waiting_tests;
