//! Secrets by which a subject asks by HTTP, and their entries in a configuration.
#![tactic(auto)]

mod laws;
mod printing;
mod texts;

pub use laws::digests_are_read;
pub use printing::{SecretFault, print_secret};
pub use texts::{DIGEST_LENGTH, RANDOM_LENGTH, SECRET_LENGTH};
