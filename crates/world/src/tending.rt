//! Tending the index.

ghost use Rattle.std.specs.Prelude.{◌≡◌, IfErr};
ghost use Rattle.plain_world.specs.Events.{Happens, Tend, Tended, reply_of};
ghost use Rattle.world.specs.Index.{slots_of};
ghost use Rattle.world.specs.Refusing.{RefusesGrowth};
ghost use Rattle.world.specs.Stepping.{TendsIndex};
ghost use Rattle.world.specs.Turns.{behind};

use crate::worlds::World;
use plain_world::Fault;
use search_tree::Tending;
use std::alloc::Allocator;

impl<A: Allocator> World<A> {
    /// Tends a slot of the index: removes what is there and no longer needed. A pair stays while
    /// the feature of its id has its shape, or an open transaction has staged that it will. X9
    /// where a node is to be installed or retired and the index's counter is at its end (S6). Takes
    /// no memory.
    pub fn tend(&mut self, slot: u32) -> Result<Tending, Fault>
        ensures happens { Happens (Tend slot) self.old.plain self.new.plain
            (reply_of Tended result) }
        ensures refused { IfErr result (RefusesGrowth self.old.index) }
        ensures walks { self.new.walks ≡ self.old.walks }
        ensures index { TendsIndex self.old.plain slot self.old.index self.new.index result }
    {
        match self.kept.tend(&mut self.index, &self.plain, slot) {
            Ok(tending) => Ok(tending),
            Err(fault) => Err(Fault::Tree(fault)),
        }
    }

    /// Tends the slot whose turn it is, with the result of `tend`. The turn passes on even if the
    /// index refuses: to the next slot, and after the last one to 0. Takes no memory.
    pub fn tend_next(&mut self, turn: &mut u32) -> Result<Tending, Fault>
        ensures happens { Happens (Tend turn.old) self.old.plain self.new.plain
            (reply_of Tended result) }
        ensures plain { self.new.plain ≡ self.old.plain }
        ensures refused { IfErr result (RefusesGrowth self.old.index) }
        ensures walks { self.new.walks ≡ self.old.walks }
        ensures index { TendsIndex self.old.plain turn.old self.old.index self.new.index result }
        ensures turn { turn.new ≡ behind turn.old (slots_of self.new.index) }
    {
        let tended = self.tend(*turn);
        *turn = slot_behind(*turn, self.slots());
        tended
    }
}

/// The next slot, round robin: 0 after the last one.
fn slot_behind(slot: u32, slots: u32) -> u32
    ensures { result ≡ behind slot slots }
{
    if slot < slots && slot + 1 < slots {
        slot + 1
    } else {
        0
    }
}
