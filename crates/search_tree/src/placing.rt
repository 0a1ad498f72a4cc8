//! The steps of a walk at a leaf: the pair is held back, or placed.

ghost use Rattle.std.specs.Prelude.{IfSome, IfNone};
ghost use Rattle.search_tree.specs.Advances.{HasPlacedBehindNone};
ghost use Rattle.search_tree.specs.Trees.{tree_of};
ghost use Rattle.search_tree.specs.Walks.{IsHolder, NoneHolds, MayPlace};
ghost use Rattle.tree_theory.specs.Changes.{IsPlaced};

use crate::tree::Tree;
use node_arena::Handle;
use predicate_locks::{Attached, Running};
use std::alloc::Allocator;
use tree_nodes::push_pair;
use tree_theory::KeyClass;

/// The least number of the running searches that are attached and look for the item; `None` where
/// there is none.
pub(crate) fn holder_of<C: KeyClass, A: Allocator>(
    running: &Running<C::Query, A>,
    attached: &Attached<A>,
    item: C::Item,
) -> Option<u64>
    ensures held { IfSome result (IsHolder C.class running.now attached.now.numbers item) }
    ensures free { IfNone result (NoneHolds C.class running.now attached.now.numbers item) }
{
    running.first_meeting(
        attached,
        &|query: &C::Query| C::matches_in_place(&item, query),
    )
}

impl<C: KeyClass, A: Allocator> Tree<C, A> {
    /// Adds a pair to a leaf that may take it. No ready search looks for the pair.
    pub(crate) fn place(&mut self, at: Handle, key: u64, item: C::Item)
        requires { MayPlace C.class self.old at (key, item) }
        ensures placed { HasPlacedBehindNone C.class self.old self.new (key, item) }
        ensures step { IsPlaced (tree_of C.class self.old) (tree_of C.class self.new) at
            (key, item) }
    {
        push_pair(&mut self.nodes, at, key, item);
    }
}
