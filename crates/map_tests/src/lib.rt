//! Tests of what requests for pages of a map ask for.
#![tactic(auto)]

#[cfg(test)]
mod answers_tests;
#[cfg(test)]
mod asks_tests;
#[cfg(test)]
mod change_tests;
#[cfg(test)]
mod pages_tests;
#[cfg(test)]
mod question_tests;
