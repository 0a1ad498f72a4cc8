//! Tending the index.

ghost use Rattle.std.specs.Prelude.{◌≡◌};

use crate::chronicles::Chronicle;
use std::alloc::Allocator;
use world::{Fault, Tending};

impl<A: Allocator> Chronicle<A> {
    /// Tends a slot of the index: removes what is there and no longer needed. X9 where the index's
    /// counter is at its end (S6). Takes no memory.
    pub fn tend(&mut self, slot: u32) -> Result<Tending, Fault>
        ensures { self.new ≡ self.old }
    {
        let tended = self.world.tend(slot);
        self.due.tended(slot, &tended);
        tended
    }

    /// Takes out the next slot that may have something to tend, as far as the events so far tell:
    /// the leaves of shapes that were taken away, what a walk has left without an entry, and what
    /// tending itself makes due. This is a hint: a slot may have nothing to do, and one that has may
    /// be missed. Takes no memory.
    pub fn next_due(&mut self) -> Option<u32>
        ensures { self.new ≡ self.old }
    {
        self.due.next()
    }

    /// Begins a round over all slots if one is wanted, and returns whether it is: if `want_round`
    /// asked for one, or if `next_due` has missed a slot for want of a place. Takes no memory.
    pub fn begin_round(&mut self) -> bool
        ensures { self.new ≡ self.old }
    {
        self.due.begin_round()
    }

    /// Asks for a round over all slots, if anything has changed since the last one began. Takes no
    /// memory.
    pub fn want_round(&mut self)
        ensures { self.new ≡ self.old }
    {
        self.due.want_round();
    }
}
