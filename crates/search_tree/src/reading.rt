//! A whole search in one call, of the tree as it stands.

ghost use Rattle.std.specs.Prelude.{◌≡◌, ◌⊎◌, IfOk, IfErr};
ghost use Rattle.memory.specs.NoMemory.{out_of_memory};
ghost use Rattle.node_arena.specs.Slots.{value_at};
ghost use Rattle.search_tree.specs.Trees.{tree_of};
ghost use Rattle.tree_reading.specs.Reading.{HasAll, HasOnly};

use crate::tree::Tree;
use std::alloc::Allocator;
use tree_answers::TreeFault;
use tree_theory::KeyClass;

impl<C: KeyClass, A: Allocator + Copy> Tree<C, A> {
    /// The numbers of all pairs whose item matches the query, in any order, and perhaps more than
    /// once. The tree is unchanged, and no search is opened: any number of callers may ask at once.
    ///
    /// S7 where there are more nodes to see than a search may make steps, S8 where an allocation is
    /// refused.
    pub fn ids_matching(&self, query: &C::Query) -> Result<Vec<u64, A>, TreeFault>
        ensures all { IfOk result
            (λ ids. HasAll C.class query.now (tree_of C.class self.now) ids.items) }
        ensures only { IfOk result
            (λ ids. HasOnly C.class query.now (value_at self.now.nodes) ids.items) }
        ensures fault { IfErr result
            (λ fault. (fault ≡ TreeFault.Overrun) ⊎ (fault ≡ TreeFault.Memory out_of_memory)) }
    {
        tree_reading::ids_matching::<C, A>(self.alloc, &self.nodes, self.root, query, self.limit)
    }
}
