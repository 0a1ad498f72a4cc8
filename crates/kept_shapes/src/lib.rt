//! Shapes and lists of changes that take the room of their corners.
#![tactic(auto)]

mod changes;
mod rings;
mod shapes;

pub use changes::ChangeList;
pub use rings::{Rings, kept_rings};
pub use shapes::KeptShape;
