//! What a walk changes on its way down: searches are attached to nodes, and an entry is enlarged by
//! the item's key.

ghost use Rattle.std.specs.Prelude.{◌≡◌, ◌≤◌, Some, OnOk, OnErr, length};
ghost use Rattle.node_arena.specs.Slots.{value_at};
ghost use Rattle.predicate_locks.specs.declared.TheConstants.{MAX_ROOM};
ghost use Rattle.search_tree.specs.Calls.{IsAlike};
ghost use Rattle.search_tree.specs.Walks.{MayJoinAll, HasEnlarged, HasJoined, MayJoinBelow, HasJoinedBelow, MayEnlarge};
ghost use Rattle.tree_nodes.specs.Descents.{marked_right as right_of_marked};

use crate::tree::Tree;
use memory::NoMemory;
use node_arena::Handle;
use std::alloc::Allocator;
use tree_nodes::{joined, marked_right, set_attached, set_key};
use tree_theory::KeyClass;

impl<C: KeyClass, A: Allocator + Copy> Tree<C, A> {
    /// Attaches searches to a node in which they have nothing to look for. Nothing changes where an
    /// allocation is refused.
    fn join(&mut self, at: Handle, searches: &[u64]) -> Result<(), NoMemory>
        requires may { MayJoinAll C.class self.old at searches.now }
        requires few { length searches.now ≤ MAX_ROOM }
        ensures ok { OnOk result (HasJoined C.class self.old self.new at searches.now) }
        ensures err { OnErr result (self.new ≡ self.old) }
    {
        let list = joined(self.alloc, &self.nodes, &self.running, at, searches)?;
        set_attached(&mut self.nodes, at, list);
        Ok(())
    }

    /// Attaches searches to a child whose entry does not lead them on, and to its right node where
    /// the child is marked. Nothing changes where an allocation is refused.
    pub(crate) fn join_below(&mut self, child: Handle, searches: &[u64]) -> Result<(), NoMemory>
        requires may { MayJoinBelow C.class self.old child searches.now }
        requires few { length searches.now ≤ MAX_ROOM }
        ensures ok { OnOk result (HasJoinedBelow C.class self.old self.new child searches.now) }
        ensures err { OnErr result (self.new ≡ self.old) }
    {
        // Most descents lead nobody on, and copy no list.
        if searches.is_empty() {
            return Ok(());
        }
        match marked_right(&self.nodes, child) {
            Some(right) => self.join_both(child, right, searches),
            None => self.join(child, searches),
        }
    }

    /// As `join_below`, for a marked child and its right node. Both lists are made before the first
    /// change.
    fn join_both(&mut self, child: Handle, right: Handle, searches: &[u64]) -> Result<(), NoMemory>
        requires may { MayJoinBelow C.class self.old child searches.now }
        requires leads { right_of_marked (value_at self.old.nodes child) ≡ Some right }
        requires few { length searches.now ≤ MAX_ROOM }
        ensures ok { OnOk result (HasJoinedBelow C.class self.old self.new child searches.now) }
        ensures err { OnErr result (self.new ≡ self.old) }
    {
        let of_right = joined(self.alloc, &self.nodes, &self.running, right, searches)?;
        let of_child = joined(self.alloc, &self.nodes, &self.running, child, searches)?;
        set_attached(&mut self.nodes, right, of_right);
        set_attached(&mut self.nodes, child, of_child);
        Ok(())
    }
}

impl<C: KeyClass, A: Allocator> Tree<C, A> {
    /// Enlarges the key of a child's entry, at index `place`, to its union with another key.
    pub(crate) fn enlarge(
        &mut self,
        parent: Handle,
        place: usize,
        old: C::Key,
        key: C::Key,
        child: Handle,
    )
        requires { MayEnlarge C.class self.old parent place old key child }
        ensures alike { IsAlike C.class self.old self.new }
        ensures step { HasEnlarged C.class self.old self.new parent old key child }
    {
        let union = C::union(old, key);
        set_key(&mut self.nodes, parent, place, union);
    }
}
