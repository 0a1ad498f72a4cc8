//! The change that makes room in a full node, or that has to come first: an install, a split or the
//! root's growth. Nothing here changes anything.

ghost use Rattle.std.specs.Prelude.{◌≡◌, ◌+◌, ℕ, Some};
ghost use Rattle.node_arena.specs.Slots.{value_at};
ghost use Rattle.node_arena.specs.declared.handle.Handle.{Handle};
ghost use Rattle.search_tree.specs.Cases.{Change, BeginsWith, MakesRoom};
ghost use Rattle.search_tree.specs.Dues.{LacksEntry};
ghost use Rattle.search_tree.specs.Nexts.{ComesTo, IsChange, IsMarkedFrom, LooksFrom, MayMake, room_by_place};
ghost use Rattle.tree_theory.specs.Nodes.{PlainNode, size_of};
ghost use Rattle.tree_theory.specs.declared.TheConstants.{NODE_SIZE};

use crate::installing::NewEntry;
use crate::tree::Tree;
use node_arena::Handle;
use std::alloc::Allocator;
use tree_nodes::parent_of;
use tree_theory::{KeyClass, Position, TOP_LEVEL};

/// What makes room in a full node, or has to come first.
#[derive(Clone, Copy)]
pub(crate) enum Room<K> {
    /// A right node gets its entry.
    Install(NewEntry<K>),
    /// The full node here splits.
    Split(Handle),
    /// The root, which is full, grows.
    Grow,
    /// The right node of this marked node has to get its entry first.
    Behind(Handle),
    /// Nothing: the invariant allows no such node.
    Nothing,
}

impl<C: KeyClass, A: Allocator> Tree<C, A> {
    /// The first change to make where others have to come before `wanted`.
    pub(crate) fn nearest(&self, wanted: Room<C::Key>) -> Room<C::Key>
        requires { MayMake C.class self.now wanted }
        ensures may { MayMake C.class self.now result }
        ensures first { (change : Change) → ComesTo C.class self.now result change
            → ComesTo C.class self.now wanted change }
        ensures last { LooksFrom C.class self.now 0 wanted → IsChange result }
    {
        let mut room = wanted;
        for _turn in 0..=TOP_LEVEL {
            match room {
                Room::Behind(left) => room = self.room_behind(left),
                _ => return room,
            }
        }
        room
    }

    /// What gives the right node of a marked node its entry: its install, or what makes room in
    /// their parent first.
    fn room_behind(&self, left: Handle) -> Room<C::Key>
        ensures may { MayMake C.class self.now result }
        ensures first { (change : Change) → ComesTo C.class self.now result change
            → BeginsWith C.class self.now change left }
        ensures higher { (level : ℕ) → IsMarkedFrom C.class self.now level left
            → LooksFrom C.class self.now (level + 1) result }
    {
        match self.lacking(left) {
            Some(entry) => Room::Install(entry),
            None => self.room_above(left),
        }
    }

    /// What makes room in the full parent of a marked node.
    fn room_above(&self, left: Handle) -> Room<C::Key>
        requires { LacksEntry C.class self.now left → ⊥ }
        ensures may { MayMake C.class self.now result }
        ensures first { (change : Change) → ComesTo C.class self.now result change
            → BeginsWith C.class self.now change left }
        ensures higher { (level : ℕ) → IsMarkedFrom C.class self.now level left
            → LooksFrom C.class self.now (level + 1) result }
    {
        let Some(node) = self.nodes.get(left) else {
            return Room::Nothing;
        };
        match parent_of(node.place(), true) {
            Some(parent) => self.room_at(parent),
            None => Room::Nothing,
        }
    }

    /// What makes room in a full node.
    pub(crate) fn room_at(&self, at: Handle) -> Room<C::Key>
        ensures may { MayMake C.class self.now result }
        ensures first { (change : Change) → ComesTo C.class self.now result change
            → (node : PlainNode C.Key C.Item) × (value_at self.now.nodes at ≡ Some node)
            × (size_of node.body ≡ NODE_SIZE) × MakesRoom C.class self.now at node.place change }
        ensures looks { (node : PlainNode C.Key C.Item) → value_at self.now.nodes at ≡ Some node
            → size_of node.body ≡ NODE_SIZE → LooksFrom C.class self.now node.level result }
    {
        let Some(node) = self.nodes.get(at) else {
            return Room::Nothing;
        };
        if !node.is_full() {
            return Room::Nothing;
        }
        room_in(at, node.place())
    }
}

/// What makes room in a full node at this place.
fn room_in<K>(at: Handle, place: Position) -> Room<K>
    ensures { result ≡ room_by_place at place }
{
    match place {
        Position::Root => Room::Grow,
        Position::Linked { marked, .. } => {
            if marked {
                Room::Behind(at)
            } else {
                Room::Split(at)
            }
        }
        Position::Unlinked { left } => Room::Behind(left),
        Position::Retired { .. } => Room::Nothing,
    }
}
