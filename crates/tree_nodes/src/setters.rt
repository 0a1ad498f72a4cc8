//! Changes of one node in the tree's arena. Nothing happens where the handle names no node.

ghost use Rattle.std.specs.Prelude.{◌≡◌, ◌∷◌, ◌++◌, ◌+◌, ◌<◌, ◌≤◌, [], Some, IfOk, filter, length, slice_get, slice_set, remove};
ghost use Rattle.node_arena.specs.declared.handle.Handle.{Handle};
ghost use Rattle.predicate_locks.specs.Numbers.{with_numbers};
ghost use Rattle.predicate_locks.specs.Searches.{does_run};
ghost use Rattle.predicate_locks.specs.declared.TheConstants.{MAX_ROOM};
ghost use Rattle.tree_nodes.specs.Arenas.{IsChanged, Holds};
ghost use Rattle.tree_nodes.specs.Bodies.{plain_body, IsLeaf, IsInner};
ghost use Rattle.tree_nodes.specs.NewNodes.{HasAdopted, left_of};
ghost use Rattle.tree_theory.specs.Nodes.{entries_of, pairs_of, size_of, under};
ghost use Rattle.tree_theory.specs.Nodes.PlainBody.{Leaf, Inner};
ghost use Rattle.tree_theory.specs.declared.TheConstants.{NODE_SIZE, TOP_LEVEL};

use crate::entries::Entries;
use crate::node::{Body, TreeNode};
use memory::NoMemory;
use node_arena::{Arena, Handle};
use predicate_locks::{Attached, Running};
use std::alloc::Allocator;
use tree_answers::Keeper;
use tree_theory::Position;

/// The nodes of a tree.
pub type Nodes<K, I, A> = Arena<TreeNode<K, I, A>, A>;

/// Gives a node another sequence number.
pub fn set_seq<K: Copy, I: Copy, A: Allocator>(nodes: &mut Nodes<K, I, A>, at: Handle, seq: u64)
    ensures { IsChanged nodes.old nodes.new at (λ node. record node { seq = seq }) }
{
    if let Some(node) = nodes.get_mut(at) {
        node.set_seq(seq);
    }
}

/// Gives a node another place.
pub fn set_place<K: Copy, I: Copy, A: Allocator>(
    nodes: &mut Nodes<K, I, A>,
    at: Handle,
    place: Position,
)
    ensures { IsChanged nodes.old nodes.new at (λ node. record node { place = place }) }
{
    if let Some(node) = nodes.get_mut(at) {
        node.set_place(place);
    }
}

/// Adds a pair to a leaf with room.
pub fn push_pair<K: Copy, I: Copy, A: Allocator>(
    nodes: &mut Nodes<K, I, A>,
    at: Handle,
    key: u64,
    item: I,
)
    requires leaf { Holds nodes.old at (λ node. IsLeaf node.body) }
    requires room { Holds nodes.old at (λ node. size_of node.body < NODE_SIZE) }
    ensures { IsChanged nodes.old nodes.new at
        (λ node. record node { body = Leaf (pairs_of node.body ++ (key, item) ∷ []) }) }
{
    if let Some(node) = nodes.get_mut(at) {
        node.push_pair(key, item);
    }
}

/// Adds an entry to an inner node with room.
pub fn push_entry<K: Copy, I: Copy, A: Allocator>(
    nodes: &mut Nodes<K, I, A>,
    at: Handle,
    key: K,
    child: Handle,
)
    requires inner { Holds nodes.old at (λ node. IsInner node.body) }
    requires room { Holds nodes.old at (λ node. size_of node.body < NODE_SIZE) }
    ensures { IsChanged nodes.old nodes.new at
        (λ node. record node { body = Inner (entries_of node.body ++ (key, child) ∷ []) }) }
{
    if let Some(node) = nodes.get_mut(at) {
        node.push_entry(key, child);
    }
}

/// Gives an entry of an inner node another key.
pub fn set_key<K: Copy, I: Copy, A: Allocator>(
    nodes: &mut Nodes<K, I, A>,
    at: Handle,
    place: usize,
    key: K,
)
    requires inner { Holds nodes.old at (λ node. IsInner node.body) }
    requires place { Holds nodes.old at (λ node. place < size_of node.body) }
    ensures { (old : K) (child : Handle)
        → Holds nodes.old at (λ node. slice_get (entries_of node.body) place ≡ Some (old, child))
        → IsChanged nodes.old nodes.new at
        (λ node. record node
        { body = Inner (slice_set (entries_of node.body) place (key, child)) }) }
{
    if let Some(node) = nodes.get_mut(at) {
        node.set_key(place, key);
    }
}

/// Removes an entry of an inner node.
pub fn remove_entry<K: Copy, I: Copy, A: Allocator>(
    nodes: &mut Nodes<K, I, A>,
    at: Handle,
    place: usize,
)
    requires inner { Holds nodes.old at (λ node. IsInner node.body) }
    requires place { Holds nodes.old at (λ node. place < size_of node.body) }
    ensures { IsChanged nodes.old nodes.new at
        (λ node. record node { body = Inner (remove (entries_of node.body) place) }) }
{
    if let Some(node) = nodes.get_mut(at) {
        node.remove_entry(place);
    }
}

/// Removes the pairs of a leaf that the keeper does not keep.
pub fn keep<K: Copy, I: Copy, T: Keeper<I>, A: Allocator>(
    nodes: &mut Nodes<K, I, A>,
    at: Handle,
    keeper: &T,
)
    requires { Holds nodes.old at (λ node. IsLeaf node.body) }
    ensures { IsChanged nodes.old nodes.new at
        (λ node. record node
        { body = Leaf (filter (λ pair. T.kept keeper.now pair.0 pair.1) (pairs_of node.body)) }) }
{
    if let Some(node) = nodes.get_mut(at) {
        node.keep(keeper);
    }
}

/// The list for `set_attached`: the attached searches of a node with these added, without the
/// numbers that do not run. Empty where the handle names no node.
pub fn joined<K: Copy, I: Copy, Q: Copy, A: Allocator + Copy>(
    alloc: A,
    nodes: &Nodes<K, I, A>,
    running: &Running<Q, A>,
    at: Handle,
    searches: &[u64],
) -> Result<Attached<A>, NoMemory>
    requires { length searches.now ≤ MAX_ROOM }
    ensures { IfOk result
        (λ list. Holds nodes.now at
        (λ node. list.numbers
        ≡ filter (does_run running.now) (with_numbers searches.now node.attached))) }
{
    match nodes.get(at) {
        Some(node) => node.joined(running, searches),
        None => Ok(Attached::new(alloc)),
    }
}

/// Replaces the attached searches of a node by this list.
pub fn set_attached<K: Copy, I: Copy, A: Allocator>(
    nodes: &mut Nodes<K, I, A>,
    at: Handle,
    list: Attached<A>,
)
    ensures { IsChanged nodes.old nodes.new at (λ node. record node { attached = list.numbers }) }
{
    if let Some(node) = nodes.get_mut(at) {
        node.set_attached(list);
    }
}

/// Makes a node the marked left one of two: it keeps this part of its contents, and its rightlink
/// leads to `right`.
pub fn leave_left<K: Copy, I: Copy, A: Allocator>(
    nodes: &mut Nodes<K, I, A>,
    at: Handle,
    parent: Handle,
    right: Handle,
    body: Body<K, I, A>,
)
    ensures { IsChanged nodes.old nodes.new at
        (λ node. left_of node parent right (plain_body body)) }
{
    if let Some(node) = nodes.get_mut(at) {
        node.become_left(parent, right, body);
    }
}

/// Raises a node by one level, and gives it these entries.
pub fn rise<K: Copy, I: Copy, A: Allocator>(
    nodes: &mut Nodes<K, I, A>,
    at: Handle,
    entries: Entries<K, A>,
)
    requires { Holds nodes.old at (λ node. node.level < TOP_LEVEL) }
    ensures { IsChanged nodes.old nodes.new at
        (λ node. record node { level = node.level + 1; body = Inner entries }) }
{
    if let Some(node) = nodes.get_mut(at) {
        node.rise(entries);
    }
}

/// Gives a node another parent if it is linked.
pub fn set_parent<K: Copy, I: Copy, A: Allocator>(
    nodes: &mut Nodes<K, I, A>,
    at: Handle,
    parent: Handle,
)
    ensures changed { IsChanged nodes.old nodes.new at (under parent) }
    ensures places { nodes.new.places ≡ nodes.old.places }
{
    if let Some(node) = nodes.get_mut(at) {
        node.set_parent(parent);
    }
}

/// Gives each of these nodes another parent if it is linked.
pub fn adopt<K: Copy, I: Copy, A: Allocator>(
    nodes: &mut Nodes<K, I, A>,
    children: &[Handle],
    parent: Handle,
)
    ensures { HasAdopted nodes.old nodes.new children.now parent }
{
    for child in children {
        set_parent(nodes, *child, parent);
    }
}
