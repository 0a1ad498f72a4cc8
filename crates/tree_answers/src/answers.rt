//! What the steps of searches and walks return, and what tending did.

/// What a step of a search returns.
#[derive(Clone, Copy, Debug, PartialEq, Eq)]
pub enum Visit {
    /// There is more to see.
    More,
    /// The search has found all there is to find.
    Ready,
}

/// What a step of a walk returns.
#[derive(Clone, Copy, Debug, PartialEq, Eq)]
pub enum Step {
    /// The walk is at another node.
    Moved,
    /// A full node was split, or the full root has grown.
    Split,
    /// A right node got its entry.
    Installed,
    /// The walk is back at the root, since the node where it was is gone or retired.
    Restarted,
    /// The pair is placed.
    Placed,
}

/// What tending a slot did.
#[derive(Clone, Copy, Debug, PartialEq, Eq)]
pub enum Tending {
    /// There was nothing to do.
    Idle,
    /// A retired node was removed, since every running search began at its stamp or later.
    Freed,
    /// A right node got its entry.
    Installed,
    /// A leaf lost the pairs that the keeper does not keep.
    Cleaned,
    /// An empty leaf lost its entry, and is retired.
    Retired,
}
