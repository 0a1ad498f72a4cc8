//! The handles of an arena.

/// Names a value of an arena: a slot, counted from 0, and the generation in which the slot holds
/// that value.
///
/// An arena gives each handle once. Once the value is removed, its handle reads nothing, even where
/// the slot holds another value.
#[derive(Clone, Copy, Debug, PartialEq, Eq)]
pub struct Handle {
    pub slot: u32,
    pub generation: u32,
}
