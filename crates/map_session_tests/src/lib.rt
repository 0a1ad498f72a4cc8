//! Tests of what a session answers to requests for a map's pages.
#![tactic(auto)]

#[cfg(test)]
mod asker_tests;
#[cfg(test)]
mod call_tests;
#[cfg(test)]
mod change_tests;
#[cfg(test)]
mod http_tests;
#[cfg(test)]
mod kept_tests;
#[cfg(test)]
mod list_tests;
#[cfg(test)]
mod metrics_tests;
#[cfg(test)]
mod visits_tests;
