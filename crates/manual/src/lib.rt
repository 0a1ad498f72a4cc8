//! The manual page of `landmap`, and completions for shells, made of the table of help.
#![tactic(auto)]

mod bash;
mod fish;
mod pages;
mod printing;
mod texts;
mod zsh;

pub use pages::{completions, manual_page};
pub use printing::{PageFault, print_page};
