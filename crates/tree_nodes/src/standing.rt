//! Where a walk is, as seen from its node. Nothing here changes anything.

ghost use Rattle.std.specs.Prelude.{◌≡◌, false, IsTrue};
ghost use Rattle.node_arena.specs.declared.handle.Handle.{Handle};
ghost use Rattle.tree_nodes.specs.Standings.{ChildrenDiffer, IsAside, IsCoveredBy, IsHere, IsNowhere, IsUnlinked};

use crate::places::place_among;
use crate::setters::Nodes;
use node_arena::Handle;
use std::alloc::Allocator;
use tree_theory::{KeyClass, Position};

/// Where a walk is.
#[derive(Clone, Copy)]
pub enum Standing {
    /// At a handle that names no node, or a retired one.
    Nowhere,
    /// At a right node that has no entry yet, to the right of this one.
    Unlinked(Handle),
    /// At a node whose entry does not cover the item, under this parent.
    Aside(Handle),
    /// At the root, or at a node whose entry covers the item.
    Here,
}

/// Where a walk is whose handle is `at` and whose item has this key.
pub fn standing_at<C: KeyClass, A: Allocator>(
    nodes: &Nodes<C::Key, C::Item, A>,
    at: Handle,
    key: C::Key,
) -> Standing
    ensures nowhere { result ≡ Standing.Nowhere → IsNowhere nodes.now at }
    ensures aside { ChildrenDiffer nodes.now → (parent : Handle) → result ≡ Standing.Aside parent
        → IsAside C.class nodes.now at parent key }
    ensures here { result ≡ Standing.Here → IsHere C.class nodes.now at key }
    ensures unlinked { (left : Handle) → result ≡ Standing.Unlinked left
        → IsUnlinked nodes.now at left }
{
    let Some(node) = nodes.get(at) else {
        return Standing::Nowhere;
    };
    match node.place() {
        Position::Root => Standing::Here,
        Position::Retired { .. } => Standing::Nowhere,
        Position::Unlinked { left } => Standing::Unlinked(left),
        Position::Linked { parent, .. } => {
            if is_covered::<C, A>(nodes, parent, at, key) {
                Standing::Here
            } else {
                Standing::Aside(parent)
            }
        }
    }
}

/// Whether an entry of the parent names the child, and its key covers this one.
fn is_covered<C: KeyClass, A: Allocator>(
    nodes: &Nodes<C::Key, C::Item, A>,
    parent: Handle,
    child: Handle,
    key: C::Key,
) -> bool
    ensures covered { IsTrue result → IsCoveredBy C.class nodes.now parent child key }
    ensures other { ChildrenDiffer nodes.now → result ≡ false
        → IsCoveredBy C.class nodes.now parent child key → ⊥ }
{
    let Some(node) = nodes.get(parent) else {
        return false;
    };
    match place_among(node.children(), child) {
        Some(place) => C::covers(node.keys()[place], key),
        None => false,
    }
}
