//! Which slots of the index an event concerns. Nothing here changes anything.

ghost use Rattle.std.specs.Prelude.{◌≡◌, IfOk};
ghost use Rattle.search_tree.specs.Finding.{HasAllSlots, HasOnlySlots};
ghost use Rattle.world.specs.Index.{frames};
ghost use Rattle.world.specs.Walking.{slot_left_of_walk};
ghost use Rattle.world.specs.Walks.{walk_of};

use crate::worlds::World;
use arrayvec::ArrayVec;
use plane::Shape;
use search_tree::{Crowded, NAMED_SLOTS};
use std::alloc::Allocator;

impl<A: Allocator> World<A> {
    /// The slots of the index where the pair of this id and shape is, and perhaps others where
    /// another pair of this id is. `Crowded` where the index would have to see too many nodes for
    /// that. Takes no memory.
    pub fn slots_with(&self, id: u64, shape: &Shape) -> Result<ArrayVec<u32, NAMED_SLOTS>, Crowded>
        ensures all { IfOk result
            (λ slots. HasAllSlots frames id shape.now self.now.index slots.items) }
        ensures only { IfOk result (λ slots. HasOnlySlots frames id self.now.index slots.items) }
    {
        self.index.slots_with(id, *shape)
    }

    /// Where the walk of a transaction is at a node without an entry, the slot of the node to the
    /// left of it: tending that slot gives the node its entry. `None` anywhere else. Takes no
    /// memory.
    pub fn slot_left_of(&self, number: u64) -> Option<u32>
        ensures { result ≡ slot_left_of_walk self.now.index (walk_of number self.now.walks) }
    {
        match self.walks.get(number) {
            Some(walk) => self.index.slot_left_of(walk),
            None => None,
        }
    }
}
