//! The theory of the search tree: the invariant that every step keeps, in any order of steps, and
//! why no search misses anything. Also the little that runs: the place of a node, the trait of the
//! keys, and the bits of masks.
#![tactic(auto)]

mod key_class;
mod laws;
mod laws_contents;
mod laws_shape;
mod masks;
mod position;

pub use key_class::KeyClass;
pub use laws::{
    ready_searches_miss_nothing, runs_miss_nothing, steps_keep_the_invariant,
    steps_keep_the_searches,
};
pub use laws_contents::steps_and_contents;
pub use laws_shape::steps_keep_the_shape;
pub use masks::{has_bit, with_bit};
pub use position::Position;

/// How many pairs or entries a node has at most.
pub const NODE_SIZE: usize = 16;

/// The highest level that a node may have. A leaf has level 0.
pub const TOP_LEVEL: u8 = 31;
