//! The policies that were put in force, as a list that only grows. Whoever puts one in force
//! publishes it; readers ask how the last one that they read rules, without a lock and without
//! waiting.
#![tactic(auto)]

mod copies;
mod editions;
mod explaining;
mod growing;
mod laws;
mod lists;
mod policies;
mod publishers;
mod ready;
mod seen_lists;
mod views;
mod writers;

pub use editions::Edition;
pub use explaining::Explained;
pub use laws::caught_up_then_explained;
pub use lists::{EmptyList, ListName};
pub use publishers::{NoMemoryForPolicies, Publisher};
pub use views::View;
