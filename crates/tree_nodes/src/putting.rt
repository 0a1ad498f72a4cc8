//! A new node is put into the arena, over its children.

ghost use Rattle.std.specs.Prelude.{◌≡◌};
ghost use Rattle.node_arena.specs.Slots.{HasRoomFor, IsGiven, CountsGiven};
ghost use Rattle.tree_nodes.specs.NewNodes.{IsPutOver, MoreTaken};

use crate::node::TreeNode;
use crate::setters::{Nodes, adopt};
use node_arena::{Arena, Handle};
use std::alloc::Allocator;

/// Puts a new node into the arena, and its linked children under it. A slot must be reserved.
pub fn put_over<K: Copy, I: Copy, A: Allocator>(
    nodes: &mut Nodes<K, I, A>,
    node: TreeNode<K, I, A>,
    children: &[Handle],
) -> Handle
    requires { HasRoomFor nodes.old 1 }
    ensures put { IsPutOver nodes.old nodes.new node children.now result }
    ensures more { MoreTaken nodes.old nodes.new 1 }
    ensures places { nodes.new.places ≡ nodes.old.places }
{
    let at = put_in(nodes, node);
    adopt(nodes, children, at);
    at
}

/// Puts a node into the arena; a slot must be reserved.
fn put_in<T: Drop, A: Allocator>(nodes: &mut Arena<T, A>, node: T) -> Handle
    requires { HasRoomFor nodes.old 1 }
    ensures given { IsGiven nodes.old nodes.new result node }
    ensures counts { CountsGiven nodes.old nodes.new result }
    ensures places { nodes.new.places ≡ nodes.old.places }
{
    let Ok(handle) = nodes.insert(node) else {
        unreachable!();
    };
    handle
}
