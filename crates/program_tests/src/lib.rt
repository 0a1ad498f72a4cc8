//! Tests of configurations, of the program's runs, of secrets, of command lines for a server, for a talk
//! with one, for a secret, for an export and for an import, and of talks.
#![tactic(auto)]

#[cfg(test)]
mod check_tests;
#[cfg(test)]
mod config_tests;
#[cfg(test)]
mod connect_tests;
#[cfg(test)]
mod fault_tests;
#[cfg(test)]
mod run_tests;
#[cfg(test)]
mod running;
#[cfg(test)]
mod secret_tests;
#[cfg(test)]
mod serve_tests;
#[cfg(test)]
mod talk_tests;
#[cfg(test)]
mod talking;
#[cfg(test)]
mod transfer_tests;
