//! Tests of the crates that use no other crate of this repository, or few. Each of these crates has
//! a file here, or two.
#![tactic(auto)]

#[cfg(test)]
mod combining_tests;
#[cfg(test)]
mod decision_tests;
#[cfg(test)]
mod features_tests;
#[cfg(test)]
mod kept_tests;
#[cfg(test)]
mod lines;
#[cfg(test)]
mod plane_tests;
#[cfg(test)]
mod policies;
#[cfg(test)]
mod policy_text_tests;
#[cfg(test)]
mod publishing_tests;
#[cfg(test)]
mod ready_tests;
#[cfg(test)]
mod refusing_tests;
#[cfg(test)]
mod view_tests;
#[cfg(test)]
mod wkt_tests;
