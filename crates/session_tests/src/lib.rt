//! Tests of session lines and scripts over a world.
#![tactic(auto)]

#[cfg(test)]
mod alone_tests;
#[cfg(test)]
mod fakes;
#[cfg(test)]
mod fault_tests;
#[cfg(test)]
mod going_on_tests;
#[cfg(test)]
mod large_tests;
#[cfg(test)]
mod line_end_tests;
#[cfg(test)]
mod line_tests;
#[cfg(test)]
mod read_limit_tests;
#[cfg(test)]
mod script_lines;
#[cfg(test)]
mod script_tests;
#[cfg(test)]
mod step_tests;
#[cfg(test)]
mod stream_tests;
#[cfg(test)]
mod worlds;
