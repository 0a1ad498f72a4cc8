//! The keys of entries.

ghost use Rattle.std.specs.Prelude.{map};
ghost use Rattle.tree_nodes.specs.Unions.{IsUnionFor};
ghost use Rattle.tree_theory.specs.Changes.{IsKeyFor};

use crate::node::TreeNode;
use std::alloc::Allocator;
use tree_theory::KeyClass;

/// The key for a node's entry: the union of all that the node has, or the old key where the node is
/// empty.
pub fn key_for<C: KeyClass, A: Allocator>(
    node: &TreeNode<C::Key, C::Item, A>,
    old: C::Key,
) -> C::Key
    ensures { IsKeyFor C.class node.now.body old result }
{
    if node.is_leaf() {
        union_of_items::<C>(node.pairs(), old)
    } else {
        union_of::<C>(node.keys(), old)
    }
}

/// The union of these keys, or the old key where there are none.
fn union_of<C: KeyClass>(keys: &[C::Key], old: C::Key) -> C::Key
    ensures { IsUnionFor C.class keys.now old result }
{
    if keys.is_empty() {
        return old;
    }
    let mut union = keys[0];
    for key in keys {
        union = C::union(union, *key);
    }
    union
}

/// The union of the keys of these pairs' items, or the old key where there are none.
fn union_of_items<C: KeyClass>(pairs: &[(u64, C::Item)], old: C::Key) -> C::Key
    ensures { IsUnionFor C.class (map (λ pair. C.class.key_of pair.1) pairs.now) old result }
{
    if pairs.is_empty() {
        return old;
    }
    let mut union = C::key_of(pairs[0].1);
    for pair in pairs {
        union = C::union(union, C::key_of(pair.1));
    }
    union
}
