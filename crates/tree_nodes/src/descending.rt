//! What a walk reads before it descends: the searches that a wider key leads to a child, and the
//! child's right node.

ghost use Rattle.std.specs.Prelude.{◌≡◌, ◌≤◌, false, IsTrue, length};
ghost use Rattle.node_arena.specs.Slots.{value_at};
ghost use Rattle.predicate_locks.specs.declared.TheConstants.{MAX_RUNNING};
ghost use Rattle.tree_nodes.specs.Descents.{AreLed, marked_right as right_of_marked};
ghost use Rattle.tree_theory.specs.Nodes.{is_marked as has_mark};

use crate::setters::Nodes;
use arrayvec::ArrayVec;
use node_arena::Handle;
use predicate_locks::{Attached, MAX_RUNNING, Running};
use std::alloc::Allocator;
use tree_theory::{KeyClass, Position};

/// The searches that are attached, run, and are led on by a wider key, but not by the old one.
pub fn led_searches<C: KeyClass, A: Allocator>(
    running: &Running<C::Query, A>,
    attached: &Attached<A>,
    old: C::Key,
    wider: C::Key,
) -> ArrayVec<u64, MAX_RUNNING>
    ensures led { AreLed C.class running.now old wider attached.now.numbers result.items }
    ensures few { length result.items ≤ MAX_RUNNING }
{
    running.meeting(
        attached,
        &|query: &C::Query| is_led::<C>(old, wider, *query),
    )
}

/// Whether the wider key leads a search with this query on, and the old one does not.
fn is_led<C: KeyClass>(old: C::Key, wider: C::Key, query: C::Query) -> bool
    ensures led { IsTrue result → C.class.Consistent old query → ⊥ }
    ensures wider { IsTrue result → C.class.Consistent wider query }
    ensures not_led { result ≡ false → C.class.Consistent wider query
        → C.class.Consistent old query }
{
    C::consistent(wider, query) && !C::consistent(old, query)
}

/// The right node of a marked node; `None` where the handle names no node or one that is not
/// marked.
pub fn marked_right<K: Copy, I: Copy, A: Allocator>(
    nodes: &Nodes<K, I, A>,
    at: Handle,
) -> Option<Handle>
    ensures { result ≡ right_of_marked (value_at nodes.now at) }
{
    match nodes.get(at) {
        Some(node) => {
            if is_marked(node.place()) {
                node.right()
            } else {
                None
            }
        }
        None => None,
    }
}

/// Whether a node at this place is marked.
fn is_marked(place: Position) -> bool
    ensures { result ≡ has_mark place }
{
    matches!(place, Position::Linked { marked: true, .. })
}
