//! Seats and searches.

ghost use Rattle.std.specs.Prelude.{◌≡◌, IfOk, OnErr};
ghost use Rattle.chronicle.specs.Noting.{IsAnswered, IsSeatGiven};

use crate::chronicles::Chronicle;
use feature_store::Meter;
use features::Name;
use plane::Shape;
use std::alloc::Allocator;
use world::{Answer, Fault, Visit};

impl<A: Allocator> Chronicle<A> {
    /// Gives a seat to the subject of a name, and returns its number, from 1. X13 where there is no
    /// such subject, X14 where all seats are given, X12 where an allocation is refused.
    pub fn seat(&mut self, name: Name) -> Result<u32, Fault>
        ensures ok { IfOk result (λ number. IsSeatGiven name number self.old self.new) }
        ensures err { OnErr result (self.new ≡ self.old) }
    {
        self.world.seat(name)
    }

    /// Drops a search. X1 where the seat was not given or no such search is open, X2 where it is
    /// another seat's. Takes no memory.
    pub fn drop_search(&mut self, seat: u32, number: u64) -> Result<(), Fault>
        ensures { self.new ≡ self.old }
    {
        let dropped = self.world.drop_search(seat, number);
        self.due.search_ended();
        dropped
    }
}

impl<A: Allocator + Copy> Chronicle<A> {
    /// Opens a search of a seat, and returns its number. X1 where the seat was not given, X9 where
    /// 16 searches are open (S2) or the number is at its end (S6), X12 where an allocation is
    /// refused.
    pub fn open_search(&mut self, seat: u32, window: Shape) -> Result<u64, Fault>
        ensures { self.new ≡ self.old }
    {
        self.world.open_search(seat, window)
    }

    /// Makes a step of a search: it sees one more node of the index. X1 where the seat was not
    /// given or no such search is open, X2 where it is another seat's, X9 where it has made all its
    /// steps (S7), X12 where an allocation is refused. S7 ends the search.
    pub fn visit(&mut self, seat: u32, number: u64) -> Result<Visit, Fault>
        ensures { self.new ≡ self.old }
    {
        let visited = self.world.visit(seat, number);
        self.due.visited(&visited);
        visited
    }

    /// Finishes the search of a window, and records its answer in the trail. X1 where the seat was
    /// not given, no such search is open or it has another window, X2 where it is another seat's,
    /// X3 where it has not answered Ready, X10 where the trail is full, X12 where an allocation is
    /// refused.
    pub fn finish(&mut self, seat: u32, number: u64, window: &Shape) -> Result<Answer<A>, Fault>
        ensures ok { IfOk result (λ answer. IsAnswered seat window.now answer self.old self.new) }
        ensures err { OnErr result (self.new ≡ self.old) }
    {
        let search = self.world.search_of(seat, number)?;
        if search.window == *window {
            let mut meter = Meter::new();
            let finished = self.world.finish(seat, number, &mut meter);
            self.due.search_ended();
            finished
        } else {
            Err(Fault::NoSuch)
        }
    }
}
