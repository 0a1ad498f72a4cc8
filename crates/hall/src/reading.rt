//! Reading the records of a hall that is in use, for whoever keeps them elsewhere too.

ghost use Rattle.std.specs.Prelude.{◌-◌, ℕ, map, min, vec_capacity, vec_len, OnErr, OnOk};
ghost use Rattle.std.specs.Arc.{arc_value};
ghost use Rattle.hall.specs.declared.guarded.TheConstants.{COPIED_AT_ONCE};
ghost use Rattle.hall.specs.Reading.{AreCopied, AreGiven, IsChangedLast, IsCounted};

use crate::halls::Hall;
use crate::names::HallName;
use audit_trail::Record;
use memory::NoMemory;
use std::alloc::Allocator;
use std::sync::{Arc, Wait};

impl<L: HallName, R: Wait + Drop, A: Allocator + Copy> Hall<L, R, A> {
    /// How many records there are, with those that were rolled out.
    pub fn record_count<W: Wait>(&self, rt: &W) -> u64
        ensures { IsCounted L.opening result }
    {
        self.read_world(rt).record_count(rt, &self.lobby)
    }

    /// How many seats were given.
    pub fn seat_count<W: Wait>(&self, rt: &W) -> usize
        ensures { AreGiven L.opening result }
    {
        let world = self.read_world(rt);
        world.sound();
        world.seat_count()
    }

    /// How many records there were when the last list was applied or policy put in force, or 0. All
    /// behind them are of answers and of lists that were turned away, and change no state.
    pub fn last_change<W: Wait>(&self, rt: &W) -> u64
        ensures { IsChangedLast L.opening result }
    {
        let world = self.read_world(rt);
        world.sound();
        world.last_change()
    }

    /// Appends other owners of the records from a place on, in order; places are counted from 0 over
    /// all records since the hall was opened. As many are appended as there are, but at most
    /// `COPIED_AT_ONCE`, and no more than `into` has room for. A fault where one of them has as many
    /// owners as there may be; those before it are appended. Answers that the world has no memory to
    /// take in yet are not among them.
    pub fn records_from<W: Wait>(
        &self,
        rt: &W,
        place: u64,
        into: &mut Vec<Arc<Record<A>, A>, A>,
    ) -> Result<(), NoMemory>
        ensures ok { OnOk result (AreCopied L.opening place
            (min COPIED_AT_ONCE (vec_capacity into.old - vec_len into.old))
            (map arc_value into.old.items) (map arc_value into.new.items)) }
        ensures err { OnErr result ((count : ℕ) × AreCopied L.opening place count
            (map arc_value into.old.items) (map arc_value into.new.items)) }
    {
        if self.holds_answers(rt) {
            self.take_in(rt);
        }
        let guard = self.read_world(rt);
        let world = &*guard;
        world.sound();
        world.copy_from(place, into)
    }
}
