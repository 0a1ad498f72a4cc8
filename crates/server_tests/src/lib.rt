//! Tests of streams and sockets served by threads.
#![tactic(auto)]

#[cfg(test)]
mod clients;
#[cfg(test)]
mod fault_tests;
#[cfg(test)]
mod held_tests;
#[cfg(test)]
mod kept_tests;
#[cfg(test)]
mod memory_streams;
#[cfg(test)]
mod relay_tests;
#[cfg(test)]
mod seat_tests;
#[cfg(test)]
mod servers;
#[cfg(test)]
mod socket_tests;
#[cfg(test)]
mod stranger_lines;
#[cfg(test)]
mod stranger_tests;
#[cfg(test)]
mod stream_tests;
#[cfg(test)]
mod takeover_tests;
#[cfg(test)]
mod tending_tests;
#[cfg(test)]
mod web_tests;
