//! Frames as the keys of the search tree: the class of keys where items and queries are shapes.
#![tactic(auto)]

mod frames;
mod laws;
mod masks;
mod measure;
mod split;

pub use frames::Frames;
pub use laws::frames_cover_by_ends;
