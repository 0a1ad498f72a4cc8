//! Seats and searches.

ghost use Rattle.std.specs.Prelude.{◌≡◌, ◌+◌, ◌≤◌, length, IfErr, IfOk, OnErr};
ghost use Rattle.plain_world.specs.Events.{Happens, TakeSeat, OpenSearch, VisitNext, Finish, DropSearch, Number, Done, Visited, Rows, reply_of};
ghost use Rattle.search_tree.specs.Calls.{found_in};
ghost use Rattle.plain_world.specs.Admitting.{may_finish, may_go_on};
ghost use Rattle.world.specs.Refusing.{GivesUp};
ghost use Rattle.world.specs.Stepping.{EndsInIndex, OpensInIndex, VisitsIndex};

use crate::faults::{fault_of, is_overrun, refusal_of};
use crate::worlds::World;
use feature_store::Meter;
use features::Name;
use plain_world::{Answer, Fault, SEAT_LIMIT};
use plane::Shape;
use search_tree::Visit;
use std::alloc::Allocator;
use windows::Window;

impl<A: Allocator> World<A> {
    /// Gives a seat to the subject of a name, and returns its number, from 1 to `SEAT_LIMIT`. X13
    /// where there is no such subject, X14 where all seats are given, X12 where an allocation is
    /// refused.
    pub fn seat(&mut self, name: Name) -> Result<u32, Fault>
        ensures happens { Happens (TakeSeat name) self.old.plain self.new.plain
            (reply_of Number result) }
        ensures few { IfOk result (λ number. number ≤ SEAT_LIMIT) }
        ensures index { self.new.index ≡ self.old.index }
        ensures walks { self.new.walks ≡ self.old.walks }
    {
        self.plain.seat(name)
    }

    /// Drops a search. X1 where the seat was not given or no such search is open, X2 where it is
    /// another seat's. Takes no memory.
    pub fn drop_search(&mut self, seat: u32, number: u64) -> Result<(), Fault>
        ensures happens { Happens (DropSearch seat number) self.old.plain self.new.plain
            (reply_of (λ _. Done) result) }
        ensures index { EndsInIndex number self.old.index self.new.index result }
        ensures walks { self.new.walks ≡ self.old.walks }
    {
        self.plain.drop_search(seat, number)?;
        self.index.close_search(number);
        Ok(())
    }
}

impl<A: Allocator + Copy> World<A> {
    /// Opens a search of a seat, and returns its number. X1 where the seat was not given, X9 where
    /// 16 searches are open (S2) or the number is at its end (S6), X12 where an allocation is
    /// refused.
    pub fn open_search(&mut self, seat: u32, window: Shape) -> Result<u64, Fault>
        ensures happens { Happens (OpenSearch seat window) self.old.plain self.new.plain
            (reply_of Number result) }
        ensures index { OpensInIndex window self.old.index self.new.index result }
        ensures walks { self.new.walks ≡ self.old.walks }
    {
        let number = self.plain.may_open(seat)?;
        match self.index.open_search(Window::new(window)) {
            Ok(_) => {
                self.plain.enter_search(seat, window);
                Ok(number)
            }
            Err(fault) => match refusal_of(fault) {
                Some(refusal) => Err(Fault::Memory(refusal)),
                None => unreachable!(),
            },
        }
    }

    /// Makes a step of a search: it sees one more node of the index. X1 where the seat was not
    /// given or no such search is open, X2 where it is another seat's, X9 where it has made all its
    /// steps (S7), X12 where an allocation is refused. S7 ends the search.
    pub fn visit(&mut self, seat: u32, number: u64) -> Result<Visit, Fault>
        ensures happens { Happens (VisitNext seat number) self.old.plain self.new.plain
            (reply_of Visited result) }
        ensures refused { IfErr result (GivesUp self.old.index number) }
        ensures walks { self.new.walks ≡ self.old.walks }
        ensures index { VisitsIndex (may_go_on seat number self.old.plain) number self.old.index
            self.new.index result }
    {
        let search = self.plain.may_go_on(seat, number)?;
        match self.index.visit(number) {
            Ok(Visit::More) => Ok(Visit::More),
            Ok(Visit::Ready) => {
                if !search.ready {
                    self.plain.make_ready(number);
                }
                Ok(Visit::Ready)
            }
            Err(fault) => {
                if is_overrun(&fault) {
                    self.plain.forget_search(number);
                }
                Err(fault_of(fault))
            }
        }
    }

    /// Finishes a search: returns the rows that are listed now, by the policy in force, and records
    /// them in the trail. X1 where the seat was not given or no such search is open, X2 where it is
    /// another seat's, X3 where it has not answered Ready, X10 where the trail is full, X12 where
    /// an allocation is refused. The meter counts at most one look-up for each pair that the search
    /// has found in the index, and none where the call is refused before X12.
    pub fn finish(&mut self, seat: u32, number: u64, meter: &mut Meter) -> Result<Answer<A>, Fault>
        ensures happens { Happens (Finish seat number) self.old.plain self.new.plain
            (reply_of Rows result) }
        ensures index { EndsInIndex number self.old.index self.new.index result }
        ensures metered { meter.new ≤ meter.old + length (found_in self.old.index number) }
        ensures raised { meter.old ≤ meter.new }
        ensures unread { OnErr (may_finish seat number self.old.plain) (meter.new ≡ meter.old) }
        ensures walks { self.new.walks ≡ self.old.walks }
    {
        let answer = self
            .plain
            .finish(seat, number, self.index.found(number), meter)?;
        self.index.close_search(number);
        Ok(answer)
    }
}
