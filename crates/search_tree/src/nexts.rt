//! What is next for a walk. Nothing here changes anything.

ghost use Rattle.std.specs.Prelude.{◌≡◌, Some};
ghost use Rattle.node_arena.specs.Slots.{value_at};
ghost use Rattle.search_tree.specs.Cases.{IsAtLeaf, IsFree, IsWayDown};
ghost use Rattle.search_tree.specs.Nexts.{IsNext, MayGo};
ghost use Rattle.tree_nodes.specs.Standings.{IsHere};
ghost use Rattle.tree_nodes.specs.Bodies.{IsInner};
ghost use Rattle.search_tree.specs.Walks.{MayDescend};
ghost use Rattle.tree_theory.specs.Nodes.{PlainNode};

use crate::descents::WayDown;
use crate::placing::holder_of;
use crate::rooms::Room;
use crate::tree::Tree;
use node_arena::Handle;
use std::alloc::Allocator;
use tree_nodes::{Standing, best_entry, standing_at};
use tree_theory::KeyClass;

/// What is next for a walk.
pub(crate) enum Next<K> {
    /// It starts again at the root, since its handle names no node, or a retired one.
    Restart,
    /// It climbs to this parent, whose entry for the node does not cover the item.
    Climb(Handle),
    /// It goes down by this entry.
    Descend(WayDown<K>),
    /// The search of this number holds its pair back.
    Hold(u64),
    /// Its pair may be placed.
    Place,
    /// Room has to be made first.
    Make(Room<K>),
}

impl<C: KeyClass, A: Allocator> Tree<C, A> {
    /// What is next for a walk of this item at this node: the first case that holds.
    pub(crate) fn next_for(&self, at: Handle, item: C::Item) -> Next<C::Key>
        ensures may { MayGo C.class self.now at item result }
        ensures first { IsNext C.class self.now C.growth C.second_growth at item result }
    {
        match standing_at::<C, A>(&self.nodes, at, C::key_of(item)) {
            Standing::Nowhere => Next::Restart,
            Standing::Unlinked(left) => Next::Make(self.nearest(Room::Behind(left))),
            Standing::Aside(parent) => Next::Climb(parent),
            Standing::Here => self.next_here(at, item),
        }
    }

    /// What is next at a node that may take the item.
    fn next_here(&self, at: Handle, item: C::Item) -> Next<C::Key>
        requires { IsHere C.class self.now.nodes at (C.class.key_of item) }
        ensures may { MayGo C.class self.now at item result }
        ensures first { IsNext C.class self.now C.growth C.second_growth at item result }
    {
        let Some(node) = self.nodes.get(at) else {
            unreachable!();
        };
        if node.is_leaf() {
            return self.next_at_leaf(at, item);
        }
        Next::Descend(self.best_way(at, C::key_of(item)))
    }

    /// What is next at a leaf that may take the item.
    fn next_at_leaf(&self, at: Handle, item: C::Item) -> Next<C::Key>
        requires { (leaf : PlainNode C.Key C.Item) × IsAtLeaf C.class self.now at item leaf }
        ensures may { MayGo C.class self.now at item result }
        ensures first { IsNext C.class self.now C.growth C.second_growth at item result }
    {
        let Some(node) = self.nodes.get(at) else {
            unreachable!();
        };
        match holder_of::<C, A>(&self.running, node.attached(), item) {
            Some(number) => Next::Hold(number),
            None => self.next_when_free(at, item),
        }
    }

    /// What is next at a leaf where no search holds the item back.
    fn next_when_free(&self, at: Handle, item: C::Item) -> Next<C::Key>
        requires { (leaf : PlainNode C.Key C.Item) × IsFree C.class self.now at item leaf }
        ensures may { MayGo C.class self.now at item result }
        ensures first { IsNext C.class self.now C.growth C.second_growth at item result }
    {
        let Some(node) = self.nodes.get(at) else {
            unreachable!();
        };
        if !node.is_full() {
            return Next::Place;
        }
        Next::Make(self.nearest(self.room_at(at)))
    }

    /// The entry of an inner node to go down by: one that grows least by the key.
    fn best_way(&self, at: Handle, key: C::Key) -> WayDown<C::Key>
        requires here { IsHere C.class self.now.nodes at key }
        requires inner { (node : PlainNode C.Key C.Item) × (value_at self.now.nodes at ≡ Some node)
            × IsInner node.body }
        ensures may { MayDescend C.class self.now result key }
        ensures from { result.parent ≡ at }
        ensures best { IsWayDown C.class self.now C.growth C.second_growth at key result.child
            result.key }
    {
        let Some(node) = self.nodes.get(at) else {
            unreachable!();
        };
        let keys = node.keys();
        let place = best_entry::<C>(keys, key);
        WayDown {
            parent: at,
            place,
            key: keys[place],
            child: node.children()[place],
        }
    }
}
