//! The place of a node in the tree.

use node_arena::Handle;

/// The place of a node in the search tree.
#[derive(Clone, Copy, Debug, PartialEq, Eq)]
pub enum Position {
    /// At the top.
    Root,

    /// Under a parent that has an entry for it. A marked node has a right node that its parent has
    /// no entry for yet.
    Linked { parent: Handle, marked: bool },

    /// To the right of a marked node, with no entry of its own yet.
    Unlinked { left: Handle },

    /// Out of the tree since the counter reached the stamp; searches that began before may still
    /// come to it.
    Retired { stamp: u64 },
}
