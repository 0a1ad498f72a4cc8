//! Which slots of the index are known to hold only pairs that the world keeps, and how a slot is
//! tended by what is known.

ghost use Rattle.std.specs.Prelude.{◌≡◌, ◌⊎◌, ◌+◌, ℕ, false, true, IfErr};
ghost use Rattle.predicate_locks.specs.Searches.{last_number};
ghost use Rattle.world.specs.Kept.{AreKept, TendsBy, is_idle, is_noted};
ghost use Rattle.world.specs.Stepping.{KeepsPair};

use frame_keys::Frames;
use plain_world::PlainWorld;
use plane::Shape;
use search_tree::{Tending, Tree, TreeFault};
use std::alloc::Allocator;
use tree_answers::Keeper;

/// The slots at which a tending has found nothing to do since the notes were last dropped: those
/// below `low`, and those from `first` up to `end`. Since slots are tended in turn, from 0 or from
/// the middle of a round, these two runs of numbers have nearly all of them.
#[derive(Drop)]
pub(crate) struct KeptSlots {
    low: u32,
    first: u32,
    end: u32,
}

impl KeptSlots {
    /// No slots.
    pub fn none() -> Self
        ensures { (slot : ℕ) → is_noted result slot ≡ false }
    {
        KeptSlots {
            low: 0,
            first: 0,
            end: 0,
        }
    }

    /// Whether a slot is noted.
    pub fn has(&self, slot: u32) -> bool
        ensures { result ≡ is_noted self.now slot }
    {
        slot < self.low || (self.first <= slot && slot < self.end)
    }

    /// Notes a slot. Other slots may be dropped.
    fn note(&mut self, slot: u32)
        ensures { (other : ℕ) → is_noted self.new other ≡ true
            → (is_noted self.old other ≡ true) ⊎ (other ≡ slot) }
    {
        let Some(next) = slot.checked_add(1) else {
            return;
        };
        if slot == self.low {
            self.low = next;
        } else if slot == self.end {
            self.end = next;
        } else {
            self.first = slot;
            self.end = next;
        }
    }

    /// Tends a slot of the index of a world. Of a noted slot it does not ask whether the world
    /// keeps its pairs. A slot where nothing is found to do is noted.
    pub fn tend<A: Allocator>(
        &mut self,
        index: &mut Tree<Frames, A>,
        world: &PlainWorld<A>,
        slot: u32,
    ) -> Result<Tending, TreeFault>
        requires { AreKept world.now index.old self.old }
        ensures tends { TendsBy (KeepsPair world.now) slot index.old index.new result }
        ensures kept { AreKept world.now index.new self.new }
        ensures spent { IfErr result
            (λ fault. (fault ≡ TreeFault.Spent) × (index.old.counter ≡ last_number)) }
    {
        if self.has(slot) {
            return index.tend(slot, &EveryPair);
        }
        let tended = index.tend(slot, world);
        if !is_idle(&tended) {
            return tended;
        }
        self.note(slot);
        tended
    }
}

/// Whether a tending has found nothing to do.
fn is_idle(tended: &Result<Tending, TreeFault>) -> bool
    ensures { result ≡ is_idle tended.now }
{
    matches!(tended, Ok(Tending::Idle))
}

/// Keeps every pair.
struct EveryPair;

impl Keeper<Shape> for EveryPair {
    ghost use Rattle.std.specs.Prelude.{true};

    ghost kept = { λ keeper id shape. true };

    fn keeps(&self, _id: u64, _shape: &Shape) -> bool {
        true
    }
}
