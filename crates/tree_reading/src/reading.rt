//! A whole search of a tree that stays as it is: it attaches to no node, and needs no number.

ghost use Rattle.std.specs.Prelude.{◌≡◌, ◌⊎◌, [], Contains, OnOk, IfOk, IfErr, IsTrue, Some};
ghost use Rattle.memory.specs.NoMemory.{out_of_memory};
ghost use Rattle.node_arena.specs.declared.handle.Handle.{Handle};
ghost use Rattle.node_arena.specs.Slots.{value_at};
ghost use Rattle.tree_reading.specs.Reading.{FindsIn, HasAllBelow, HasOnly, HasRead, HasReadAt, LeadsOn, Reads};
ghost use Rattle.tree_theory.specs.Nodes.{entries_of, pairs_of, is_marked};

use memory::{GrowVec, NoMemory};
use node_arena::Handle;
use std::alloc::Allocator;
use tree_answers::TreeFault;
use tree_nodes::{Nodes, TreeNode};
use tree_theory::{KeyClass, Position, has_bit};

/// The numbers of all pairs whose item matches the query, in any order, and perhaps more than once,
/// in the nodes of a tree below its root. It changes nothing, so any number of callers may search at
/// once.
///
/// S7 where there are more than `limit` nodes to see, S8 where an allocation is refused.
pub fn ids_matching<C: KeyClass, A: Allocator + Copy>(
    alloc: A,
    nodes: &Nodes<C::Key, C::Item, A>,
    root: Handle,
    query: &C::Query,
    limit: u64,
) -> Result<Vec<u64, A>, TreeFault>
    ensures all { IfOk result
        (λ ids. HasAllBelow C.class query.now (value_at nodes.now) root ids.items) }
    ensures only { IfOk result (λ ids. HasOnly C.class query.now (value_at nodes.now) ids.items) }
    ensures fault { IfErr result
        (λ fault. (fault ≡ TreeFault.Overrun) ⊎ (fault ≡ TreeFault.Memory out_of_memory)) }
{
    read_all::<C, A>(alloc, nodes, root, query, limit)
}

/// Sees each node below the root that may have a match: the numbers of the matching pairs.
fn read_all<C: KeyClass, A: Allocator + Copy>(
    alloc: A,
    nodes: &Nodes<C::Key, C::Item, A>,
    root: Handle,
    query: &C::Query,
    limit: u64,
) -> Result<Vec<u64, A>, TreeFault>
    ensures ok { IfOk result
        (λ ids. Reads C.class query.now (value_at nodes.now) root [] ids.items) }
    ensures fault { IfErr result
        (λ fault. (fault ≡ TreeFault.Overrun) ⊎ (fault ≡ TreeFault.Memory out_of_memory)) }
{
    let mut left: Vec<Handle, A> = Vec::new(alloc);
    let mut ids: Vec<u64, A> = Vec::new(alloc);
    let mut steps = 0;
    left.try_push(root)?;
    while let Some(at) = left.pop() {
        if steps == limit {
            return Err(TreeFault::Overrun);
        }
        steps += 1;
        read_at::<C, A>(nodes, at, query, &mut left, &mut ids)?;
    }
    Ok(ids)
}

/// Sees the node of a handle, if there is one.
fn read_at<C: KeyClass, A: Allocator>(
    nodes: &Nodes<C::Key, C::Item, A>,
    at: Handle,
    query: &C::Query,
    left: &mut Vec<Handle, A>,
    ids: &mut Vec<u64, A>,
) -> Result<(), NoMemory>
    ensures { OnOk result (HasReadAt C.class query.now (value_at nodes.now at) left.old.items
        left.new.items ids.old.items ids.new.items) }
{
    match nodes.get(at) {
        Some(node) => read::<C, A>(node, query, left, ids),
        None => Ok(()),
    }
}

/// Sees a node: what is to be seen behind it, and the numbers of its matching pairs.
fn read<C: KeyClass, A: Allocator>(
    node: &TreeNode<C::Key, C::Item, A>,
    query: &C::Query,
    left: &mut Vec<Handle, A>,
    ids: &mut Vec<u64, A>,
) -> Result<(), NoMemory>
    ensures { OnOk result (HasRead C.class query.now node.now left.old.items left.new.items
        ids.old.items ids.new.items) }
{
    add_right(node, left)?;
    add_children::<C, A>(node, query, left)?;
    add_ids::<C, A>(node, query, ids)
}

/// Adds the right node of a marked node.
fn add_right<K: Copy, I: Copy, A: Allocator>(
    node: &TreeNode<K, I, A>,
    left: &mut Vec<Handle, A>,
) -> Result<(), NoMemory>
    ensures keeps { OnOk result ((h : Handle) → Contains left.old.items h
        → Contains left.new.items h) }
    ensures adds { OnOk result (IsTrue (is_marked node.now.place) → (right : Handle)
        → node.now.right ≡ Some right → Contains left.new.items right) }
{
    if let Position::Linked { marked: true, .. } = node.place() {
        if let Some(right) = node.right() {
            left.try_push(right)?;
        }
    }
    Ok(())
}

/// Adds the children of consistent entries.
fn add_children<C: KeyClass, A: Allocator>(
    node: &TreeNode<C::Key, C::Item, A>,
    query: &C::Query,
    left: &mut Vec<Handle, A>,
) -> Result<(), NoMemory>
    ensures { OnOk result (LeadsOn C.class query.now (entries_of node.now.body)
        left.old.items left.new.items) }
{
    let mask = C::matching_mask(node.keys(), query);
    for (i, child) in node.children().iter().enumerate() {
        if has_bit(mask, i) {
            left.try_push(*child)?;
        }
    }
    Ok(())
}

/// Adds the numbers of the matching pairs.
fn add_ids<C: KeyClass, A: Allocator>(
    node: &TreeNode<C::Key, C::Item, A>,
    query: &C::Query,
    ids: &mut Vec<u64, A>,
) -> Result<(), NoMemory>
    ensures { OnOk result (FindsIn C.class query.now (pairs_of node.now.body)
        ids.old.items ids.new.items) }
{
    for pair in node.pairs() {
        if C::matches_in_place(&pair.1, query) {
            ids.try_push(pair.0)?;
        }
    }
    Ok(())
}
