//! What tending finds due at a node. Nothing here changes anything.

ghost use Rattle.std.specs.Prelude.{◌≡◌, ◌↔◌, ◌<◌, ℕ, false, [], None, Some, IsTrue, IsSome, IfSome, IfNone, slice_get};
ghost use Rattle.tree_theory.specs.Nodes.PlainBody.{Leaf};
ghost use Rattle.node_arena.specs.Slots.{value_at};
ghost use Rattle.search_tree.specs.Dues.{HasUnkept, IsFirstDue, IsUnneeded, LacksEntry};
ghost use Rattle.search_tree.specs.Needs.{MayDo, stamp_at, stamp_in};
ghost use Rattle.search_tree.specs.Tends.{MayClean, MayInstall, MayRetire};
ghost use Rattle.tree_nodes.specs.Bodies.{IsLeaf, IsInner};
ghost use Rattle.tree_theory.specs.Nodes.{size_of};
ghost use Rattle.tree_theory.specs.declared.TheConstants.{NODE_SIZE};

use crate::installing::NewEntry;
use crate::tree::Tree;
use node_arena::Handle;
use std::alloc::Allocator;
use tree_answers::Keeper;
use tree_nodes::{Nodes, TreeNode, key_for, parent_of, place_among};
use tree_theory::{KeyClass, NODE_SIZE, Position};

/// What is due at a node.
pub(crate) enum Due<K> {
    Nothing,
    /// It is retired, and every running search began at its stamp or later.
    Free,
    /// It is marked, and its right node can have an entry.
    Install(NewEntry<K>),
    /// It is a leaf with pairs that are not kept.
    Clean,
    /// It is an empty leaf, whose entry is at this index of its parent.
    Retire { parent: Handle, place: usize },
}

impl<C: KeyClass, A: Allocator> Tree<C, A> {
    /// What is due at a node: the first case that holds.
    pub(crate) fn first_due<K: Keeper<C::Item>>(&self, at: Handle, keeper: &K) -> Due<C::Key>
        ensures may { MayDo C.class self.now at result }
        ensures first { IsSome (value_at self.now.nodes at) → IsFirstDue C.class self.now
            (λ pair. IsTrue (K.kept keeper.now pair.0 pair.1)) at result }
    {
        match stamp_of(&self.nodes, at) {
            Some(stamp) => {
                if self.running.all_begun_since(stamp) {
                    Due::Free
                } else {
                    Due::Nothing
                }
            }
            None => self.due_in_place(at, keeper),
        }
    }

    /// What is to be done at a node that is not retired.
    fn due_in_place<K: Keeper<C::Item>>(&self, at: Handle, keeper: &K) -> Due<C::Key>
        ensures may { MayDo C.class self.now at result }
        ensures first { stamp_at (value_at self.now.nodes at) ≡ None → IsFirstDue C.class self.now
            (λ pair. IsTrue (K.kept keeper.now pair.0 pair.1)) at result }
    {
        if let Some(entry) = self.lacking(at) {
            return Due::Install(entry);
        }
        if self.has_unkept(at, keeper) {
            return Due::Clean;
        }
        match self.empty_below(at) {
            Some((parent, place)) => Due::Retire { parent, place },
            None => Due::Nothing,
        }
    }

    /// The entry that the right node of a marked node lacks, where their parent has room for it.
    pub(crate) fn lacking(&self, at: Handle) -> Option<NewEntry<C::Key>>
        ensures may { IfSome result (MayInstall C.class self.now) }
        ensures due { IfSome result (λ entry. LacksEntry C.class self.now at) }
        ensures left { IfSome result (λ entry. entry.left ≡ at) }
        ensures none { IfNone result (LacksEntry C.class self.now at → ⊥) }
    {
        let left = self.nodes.get(at)?;
        let parent = parent_of(left.place(), true)?;
        let node = self.nodes.get(parent)?;
        if !has_room(node) {
            return None;
        }
        let place = place_among(node.children(), at)?;
        let beside = left.right()?;
        let right = self.nodes.get(beside)?;
        let old = node.keys()[place];
        Some(NewEntry {
            parent,
            place,
            left: at,
            left_key: key_for::<C, A>(left, old),
            right: beside,
            right_key: key_for::<C, A>(right, old),
        })
    }

    /// Whether a leaf has a pair that is not kept.
    fn has_unkept<K: Keeper<C::Item>>(&self, at: Handle, keeper: &K) -> bool
        ensures may { IsTrue result → MayClean C.class self.now at }
        ensures due { IsTrue result ↔ HasUnkept C.class self.now
            (λ pair. IsTrue (K.kept keeper.now pair.0 pair.1)) at }
    {
        let Some(node) = self.nodes.get(at) else {
            return false;
        };
        if !node.is_leaf() {
            return false;
        }
        is_one_unkept(node.pairs(), keeper)
    }

    /// The parent of an empty unmarked leaf that is not its only child, and the index of the leaf's
    /// entry.
    fn empty_below(&self, at: Handle) -> Option<(Handle, usize)>
        ensures may { IfSome result (λ found. MayRetire C.class self.now at found.0 found.1) }
        ensures due { IfSome result (λ found. IsUnneeded C.class self.now at) }
        ensures none { IfNone result (IsUnneeded C.class self.now at → ⊥) }
    {
        let leaf = self.nodes.get(at)?;
        if !is_empty_leaf(leaf) {
            return None;
        }
        let parent = parent_of(leaf.place(), false)?;
        let node = self.nodes.get(parent)?;
        if !has_others(node) {
            return None;
        }
        let place = place_among(node.children(), at)?;
        Some((parent, place))
    }
}

/// The stamp of a retired node; `None` where the handle names no node or one that is not retired.
fn stamp_of<K: Copy, I: Copy, A: Allocator>(nodes: &Nodes<K, I, A>, at: Handle) -> Option<u64>
    ensures { result ≡ stamp_at (value_at nodes.now at) }
{
    match nodes.get(at) {
        Some(node) => stamp_in_place(node.place()),
        None => None,
    }
}

/// The stamp in a retired place; `None` in any other.
fn stamp_in_place(place: Position) -> Option<u64>
    ensures { result ≡ stamp_in place }
{
    match place {
        Position::Root | Position::Linked { .. } | Position::Unlinked { .. } => None,
        Position::Retired { stamp } => Some(stamp),
    }
}

/// Whether one of the pairs is not kept.
fn is_one_unkept<I: Copy, K: Keeper<I>>(pairs: &[(u64, I)], keeper: &K) -> bool
    ensures some { IsTrue result → (place : ℕ) × (pair : ℕ × I)
        × (slice_get pairs.now place ≡ Some pair) × (K.kept keeper.now pair.0 pair.1 ≡ false) }
    ensures none { result ≡ false → (place : ℕ) (pair : ℕ × I)
        → slice_get pairs.now place ≡ Some pair → IsTrue (K.kept keeper.now pair.0 pair.1) }
{
    for pair in pairs {
        if !keeper.keeps(pair.0, &pair.1) {
            return true;
        }
    }
    false
}

/// Whether it is a leaf without pairs.
fn is_empty_leaf<K: Copy, I: Copy, A: Allocator>(node: &TreeNode<K, I, A>) -> bool
    ensures leaf { IsTrue result → IsLeaf node.now.body }
    ensures empty { IsTrue result → size_of node.now.body ≡ 0 }
    ensures other { result ≡ false → node.now.body ≡ Leaf [] → ⊥ }
{
    if !node.is_leaf() {
        return false;
    }
    node.size() == 0
}

/// Whether it is an inner node with more than one entry.
fn has_others<K: Copy, I: Copy, A: Allocator>(node: &TreeNode<K, I, A>) -> bool
    ensures inner { IsTrue result → IsInner node.now.body }
    ensures more { IsTrue result → 1 < size_of node.now.body }
    ensures other { result ≡ false → IsInner node.now.body → 1 < size_of node.now.body → ⊥ }
{
    if node.is_leaf() {
        return false;
    }
    1 < node.size()
}

/// Whether a node is an inner node with room for one more entry.
fn has_room<K: Copy, I: Copy, A: Allocator>(node: &TreeNode<K, I, A>) -> bool
    ensures inner { IsTrue result → IsInner node.now.body }
    ensures room { IsTrue result → size_of node.now.body < NODE_SIZE }
    ensures full { result ≡ false → IsInner node.now.body → size_of node.now.body < NODE_SIZE → ⊥ }
{
    if node.is_leaf() {
        return false;
    }
    node.size() < NODE_SIZE
}
