//! Group commit: many threads wait until what they rest on lasts, and one thread writes it, group
//! by group.
#![tactic(auto)]

mod barriers;
mod desks;
mod progress;

pub use barriers::{Barrier, Rests};
pub use desks::Desk;
pub use progress::{GROUP_LIMIT, Source};
