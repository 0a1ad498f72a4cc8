//! The limit of steps of a search and of a walk.

/// The highest limit of steps that a tree may have, and the limit of a tree for which no other is
/// given.
pub const MAX_STEPS: u64 = 1_000_000;
