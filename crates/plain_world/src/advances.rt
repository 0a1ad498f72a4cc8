//! The result of one step of a walk.

use tree_answers::Step;

/// What `advance` returns.
#[derive(Clone, Copy, Debug, PartialEq, Eq)]
pub enum Advance {
    /// The walk of the next change made a step.
    Walked(Step),
    /// Nothing is left to be placed.
    AllPlaced,
}
