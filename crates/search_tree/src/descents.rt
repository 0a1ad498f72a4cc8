//! How a walk descends: searches join the child first, then its entry is enlarged by the item's
//! key.

ghost use Rattle.std.specs.Prelude.{◌≡◌, ◌≤◌, Some, OnOk, OnErr, length};
ghost use Rattle.node_arena.specs.Slots.{value_at};
ghost use Rattle.predicate_locks.specs.declared.TheConstants.{MAX_RUNNING};
ghost use Rattle.search_tree.specs.Calls.{IsAlike, IsUntouched};
ghost use Rattle.tree_nodes.specs.Descents.{AreLed};
ghost use Rattle.search_tree.specs.Walks.{HasDescended, MayDescend};
ghost use Rattle.tree_theory.specs.Nodes.{PlainNode};

use crate::tree::Tree;
use arrayvec::ArrayVec;
use memory::NoMemory;
use node_arena::Handle;
use predicate_locks::MAX_RUNNING;
use std::alloc::Allocator;
use tree_nodes::led_searches;
use tree_theory::KeyClass;

/// An entry by which a walk descends: its node and its index there, its key, and its child.
#[derive(Clone, Copy)]
pub(crate) struct WayDown<K> {
    pub(crate) parent: Handle,
    pub(crate) place: usize,
    pub(crate) key: K,
    pub(crate) child: Handle,
}

impl<C: KeyClass, A: Allocator + Copy> Tree<C, A> {
    /// Enlarges the key of an entry to its union with an item's key. First attaches to the child
    /// the searches that are done with the parent and that only the union leads on. Nothing changes
    /// where an allocation is refused, except that spare capacity may grow.
    pub(crate) fn descend(&mut self, way: &WayDown<C::Key>, key: C::Key) -> Result<(), NoMemory>
        requires { MayDescend C.class self.old way.now key }
        ensures ok { OnOk result (IsAlike C.class self.old self.new) }
        ensures step { OnOk result (HasDescended C.class self.old self.new way.now.parent
            way.now.child way.now.key key) }
        ensures err { OnErr result (IsUntouched C.class self.old self.new) }
    {
        let led = self.led_by(way, C::union(way.key, key));
        self.join_below(way.child, led.as_slice())?;
        self.enlarge(way.parent, way.place, way.key, key, way.child);
        Ok(())
    }

    /// The searches that are done with the parent and that only the wider key leads on to the
    /// child.
    fn led_by(&self, way: &WayDown<C::Key>, wider: C::Key) -> ArrayVec<u64, MAX_RUNNING>
        ensures led { (node : PlainNode C.Key C.Item)
            → value_at self.now.nodes way.now.parent ≡ Some node
            → AreLed C.class self.now.running way.now.key wider node.attached result.items }
        ensures few { length result.items ≤ MAX_RUNNING }
    {
        match self.nodes.get(way.parent) {
            Some(node) => led_searches::<C, A>(&self.running, node.attached(), way.key, wider),
            None => ArrayVec::new(),
        }
    }
}
