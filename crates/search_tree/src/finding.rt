//! Finding leaves by a pair that they have, in a tree that stays as it is.

ghost use Rattle.std.specs.Prelude.{◌≡◌, ◌==◌, ◌++◌, ◌∷◌, ◌↔◌, [], ℕ, Contains, OnOk, IfOk, IsTrue, Some, slice_get};
ghost use Rattle.std.specs.List.{list_any};
ghost use Rattle.node_arena.specs.Slots.{value_at};
ghost use Rattle.search_tree.specs.Finding.{AddsCovering, HasAllSlots, HasOnlySlots, HasSeen, HasSeenAt, NamesSlot, Sees, left_slot_at, left_slot_in};
ghost use Rattle.tree_theory.specs.Nodes.{entries_of, is_marked};

use crate::tree::Tree;
use crate::walk::Walk;
use arrayvec::ArrayVec;
use node_arena::Handle;
use std::alloc::Allocator;
use std::marker::Model;
use tree_nodes::{Nodes, TreeNode};
use tree_theory::{KeyClass, Position};

/// The most slots that `slots_with` names.
pub const NAMED_SLOTS: usize = 16;

/// The most nodes that may wait to be seen.
const WAITING_NODES: usize = 64;

/// The most nodes that `slots_with` sees.
const SEEN_NODES: u32 = 128;

/// More nodes would have to be seen, or more slots named, than there is room for.
#[derive(Clone, Copy, Debug, PartialEq, Eq)]
pub struct Crowded;

/// A node that is still to be seen.
#[derive(Drop)]
struct Waiting {
    at: Handle,
}

impl Model for Waiting {
    ghost use Rattle.node_arena.specs.declared.handle.Handle.{Handle};

    ghost Value = { Handle };

    ghost view = { λ w. w.at };
}

impl Waiting {
    fn at(&self) -> Handle
        ensures { result ≡ self.now }
    {
        self.at
    }
}

impl Default for Waiting {
    fn default() -> Self {
        Waiting {
            at: Handle {
                slot: 0,
                generation: 0,
            },
        }
    }
}

impl<C: KeyClass, A: Allocator> Tree<C, A> {
    /// The slots of the leaves that have the pair of this number and item, and perhaps of leaves
    /// that have another pair of this number. The tree is unchanged, and no memory is taken.
    ///
    /// `Crowded` where more than 128 nodes would have to be seen, or more than `NAMED_SLOTS` slots
    /// named: a caller then goes over all slots.
    pub fn slots_with(
        &self,
        number: u64,
        item: C::Item,
    ) -> Result<ArrayVec<u32, NAMED_SLOTS>, Crowded>
        ensures all { IfOk result
            (λ slots. HasAllSlots C.class number item self.now slots.items) }
        ensures only { IfOk result (λ slots. HasOnlySlots C.class number self.now slots.items) }
    {
        see_all::<C, A>(&self.nodes, self.root, number, item)
    }

    /// The slot of the left node, where a walk is at a right node that has no entry yet; `None`
    /// anywhere else. Tending that slot gives the right node its entry.
    pub fn slot_left_of(&self, walk: &Walk<C::Item>) -> Option<u32>
        ensures { result ≡ left_slot_at (value_at self.now.nodes walk.now.at) }
    {
        match self.nodes.get(walk.at()) {
            Some(node) => left_slot(node.place()),
            None => None,
        }
    }
}

/// The slot of the left node in the place of a node without an entry; `None` in any other place.
fn left_slot(place: Position) -> Option<u32>
    ensures { result ≡ left_slot_in place }
{
    match place {
        Position::Root | Position::Linked { .. } | Position::Retired { .. } => None,
        Position::Unlinked { left } => Some(left.slot),
    }
}

/// Sees each node below the root whose entry covers the item: the slots of the leaves that have a
/// pair of this number.
fn see_all<C: KeyClass, A: Allocator>(
    nodes: &Nodes<C::Key, C::Item, A>,
    root: Handle,
    number: u64,
    item: C::Item,
) -> Result<ArrayVec<u32, NAMED_SLOTS>, Crowded>
    ensures { IfOk result
        (λ slots. Sees C.class number item (value_at nodes.now) root [] slots.items) }
{
    let mut left = ArrayVec::new();
    let mut slots = ArrayVec::new();
    let mut seen = 0;
    wait(&mut left, root)?;
    while let Some(next) = left.pop() {
        if seen == SEEN_NODES {
            return Err(Crowded);
        }
        seen += 1;
        see_at::<C, A>(nodes, next.at(), number, item, &mut left, &mut slots)?;
    }
    Ok(slots)
}

/// Sees the node of a handle, if there is one.
fn see_at<C: KeyClass, A: Allocator>(
    nodes: &Nodes<C::Key, C::Item, A>,
    at: Handle,
    number: u64,
    item: C::Item,
    left: &mut ArrayVec<Waiting, WAITING_NODES>,
    slots: &mut ArrayVec<u32, NAMED_SLOTS>,
) -> Result<(), Crowded>
    ensures { OnOk result
        (HasSeenAt C.class number item at.slot (value_at nodes.now at) left.old.items
        left.new.items slots.old.items slots.new.items) }
{
    match nodes.get(at) {
        Some(node) => see::<C, A>(node, at.slot, number, item, left, slots),
        None => Ok(()),
    }
}

/// Sees the node in a slot: what is to be seen behind it, and whether it has a pair of this number.
fn see<C: KeyClass, A: Allocator>(
    node: &TreeNode<C::Key, C::Item, A>,
    slot: u32,
    number: u64,
    item: C::Item,
    left: &mut ArrayVec<Waiting, WAITING_NODES>,
    slots: &mut ArrayVec<u32, NAMED_SLOTS>,
) -> Result<(), Crowded>
    ensures { OnOk result
        (HasSeen C.class number item slot node.now left.old.items left.new.items
        slots.old.items slots.new.items) }
{
    add_right(node, left)?;
    add_children::<C, A>(node, C::key_of(item), left)?;
    name_slot(node.pairs(), number, slot, slots)
}

/// Adds the right node of a marked node.
fn add_right<K: Copy, I: Copy, A: Allocator>(
    node: &TreeNode<K, I, A>,
    left: &mut ArrayVec<Waiting, WAITING_NODES>,
) -> Result<(), Crowded>
    ensures keeps { OnOk result ((h : Handle) → Contains left.old.items h
        → Contains left.new.items h) }
    ensures adds { OnOk result (IsTrue (is_marked node.now.place) → (right : Handle)
        → node.now.right ≡ Some right → Contains left.new.items right) }
{
    if let Position::Linked { marked: true, .. } = node.place() {
        if let Some(right) = node.right() {
            wait(left, right)?;
        }
    }
    Ok(())
}

/// Adds the children of the entries that cover a key.
fn add_children<C: KeyClass, A: Allocator>(
    node: &TreeNode<C::Key, C::Item, A>,
    key: C::Key,
    left: &mut ArrayVec<Waiting, WAITING_NODES>,
) -> Result<(), Crowded>
    ensures { OnOk result
        (AddsCovering C.class key (entries_of node.now.body) left.old.items left.new.items) }
{
    let keys = node.keys();
    for (i, child) in node.children().iter().enumerate() {
        if covers_at::<C>(keys, i, key) {
            wait(left, *child)?;
        }
    }
    Ok(())
}

/// Whether the key at an index covers another key.
fn covers_at<C: KeyClass>(keys: &[C::Key], i: usize, key: C::Key) -> bool
    ensures { (outer : C.Key) → slice_get keys.now i ≡ Some outer
        → (IsTrue result ↔ C.class.Covers outer key) }
{
    match keys.get(i) {
        Some(outer) => C::covers(*outer, key),
        None => false,
    }
}

/// Names a slot if one of the pairs in it has this number.
fn name_slot<I: Copy>(
    pairs: &[(u64, I)],
    number: u64,
    slot: u32,
    slots: &mut ArrayVec<u32, NAMED_SLOTS>,
) -> Result<(), Crowded>
    ensures { OnOk result (NamesSlot number slot pairs.now slots.old.items slots.new.items) }
{
    if !has_number(pairs, number) {
        return Ok(());
    }
    if slots.is_full() {
        return Err(Crowded);
    }
    slots.push(slot);
    Ok(())
}

/// Whether one of the pairs has this number.
fn has_number<I: Copy>(pairs: &[(u64, I)], number: u64) -> bool
    ensures { result ≡ list_any (λ pair. pair.0 == number) pairs.now }
{
    pairs.iter().any(|pair| pair.0 == number)
}

/// Adds a node to those that wait.
fn wait(left: &mut ArrayVec<Waiting, WAITING_NODES>, at: Handle) -> Result<(), Crowded>
    ensures { OnOk result (left.new.items ≡ left.old.items ++ at ∷ []) }
{
    if left.is_full() {
        return Err(Crowded);
    }
    left.push(Waiting { at });
    Ok(())
}
