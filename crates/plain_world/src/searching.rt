//! Seats and searches.

ghost use Rattle.std.specs.Prelude.{◌≡◌, ◌≤◌, ◌<◌, ◌+◌, ◌++◌, [], ◌∷◌, false, length, IfOk, OnErr, IsTrue, Some};
ghost use Rattle.std.specs.List.Sorted.{IsStrictlyIncreasing};
ghost use Rattle.judging.specs.Listing.{Listed};
ghost use Rattle.plain_world.specs.declared.open_searches.Search.{Search};
ghost use Rattle.plain_world.specs.Admitting.{may_finish, search_with};
ghost use Rattle.plain_world.specs.Finding.{FindsAll, NamesAll};
ghost use Rattle.plain_world.specs.Events.{Happens, TakeSeat, Finish, DropSearch, Number, Done, Rows, reply_of, with_ready, without_search};

use crate::answers::Answer;
use crate::faults::Fault;
use crate::listing::{answered, ids_found, listed};
use crate::settings::SEAT_LIMIT;
use crate::worlds::PlainWorld;
use feature_store::Meter;
use features::{Action, Name, Subject};
use memory::{GrowVec, NoMemory, another};
use plane::Shape;
use std::alloc::Allocator;

/// So many kinds of features are prepared for at once.
const KINDS_AT_ONCE: usize = 16;

impl<A: Allocator> PlainWorld<A> {
    /// Gives a seat to the subject of a name, and returns its number, from 1 to `SEAT_LIMIT`. X13
    /// where there is no such subject, X14 where all seats are given, X12 where an allocation is
    /// refused.
    pub fn seat(&mut self, name: Name) -> Result<u32, Fault>
        ensures happens { Happens (TakeSeat name) self.old self.new (reply_of Number result) }
        ensures few { IfOk result (λ number. number ≤ SEAT_LIMIT) }
    {
        let number = self.take_seat(name)?;
        self.prepare_for(number, Action::Read);
        Ok(number)
    }

    /// Gives a seat, as `seat` does.
    fn take_seat(&mut self, name: Name) -> Result<u32, Fault>
        ensures happens { Happens (TakeSeat name) self.old self.new (reply_of Number result) }
        ensures few { IfOk result (λ number. number ≤ SEAT_LIMIT) }
    {
        let subject = self.may_sit(name)?;
        self.seats.make_room(1)?;
        self.seats.push_reserved(subject);
        Ok(self.seats.len() as u32)
    }

    /// Keeps what the policy in force says of some kinds of features to the subject of a seat that
    /// asks for this, so that it rules at once.
    pub(crate) fn prepare_for(&mut self, seat: u32, action: Action)
        ensures { self.new ≡ self.old }
    {
        if let Ok(subject) = self.subject_at(seat) {
            self.in_force.prepare(&subject, &action, KINDS_AT_ONCE);
        }
    }

    /// Drops a search. X1 where the seat was not given or no such search is open, X2 where it is
    /// another seat's. It takes no memory.
    pub fn drop_search(&mut self, seat: u32, number: u64) -> Result<(), Fault>
        ensures { Happens (DropSearch seat number) self.old self.new (reply_of (λ _. Done) result) }
    {
        self.may_go_on(seat, number)?;
        self.searches.forget(number);
        Ok(())
    }
}

impl<A: Allocator + Copy> PlainWorld<A> {
    /// Finishes a search, records its answer in the trail, and closes it. `found` holds the pairs
    /// of an id and a shape that the index has found; if the search is ready, the id of every
    /// feature that meets the window is among them. The answer has the rows that are listed now, by
    /// the policy in force and at the shapes in the store. X1 where the seat was not given or no
    /// such search is open, X2 where it is another seat's, X3 where it has not answered Ready, X10
    /// where the trail is full, X12 where an allocation is refused.
    ///
    /// The meter counts at most one tick for each found pair, and none where the call is refused
    /// before X12. The body looks up each found id once, a tick each, and the store's first row,
    /// which costs no tick. No contract bounds what it reads beside the ticks.
    pub fn finish(
        &mut self,
        seat: u32,
        number: u64,
        found: &[(u64, Shape)],
        meter: &mut Meter,
    ) -> Result<Answer<A>, Fault>
        requires found { (s : Search) → search_with number self.old.searches ≡ Some s
            → IsTrue s.ready → FindsAll self.old.state.features s.window found.now }
        ensures happens { Happens (Finish seat number) self.old self.new (reply_of Rows result) }
        ensures metered { meter.new ≤ meter.old + length found.now }
        ensures raised { meter.old ≤ meter.new }
        ensures unread { OnErr (may_finish seat number self.old) (meter.new ≡ meter.old) }
    {
        self.prepare_for(seat, Action::Read);
        self.finish_search(seat, number, found, meter)
    }

    /// Finishes a search, as `finish` does.
    fn finish_search(
        &mut self,
        seat: u32,
        number: u64,
        found: &[(u64, Shape)],
        meter: &mut Meter,
    ) -> Result<Answer<A>, Fault>
        requires found { (s : Search) → search_with number self.old.searches ≡ Some s
            → IsTrue s.ready → FindsAll self.old.state.features s.window found.now }
        ensures happens { Happens (Finish seat number) self.old self.new (reply_of Rows result) }
        ensures metered { meter.new ≤ meter.old + length found.now }
        ensures raised { meter.old ≤ meter.new }
        ensures unread { OnErr (may_finish seat number self.old) (meter.new ≡ meter.old) }
    {
        let (subject, running) = self.may_finish(seat, number)?;
        let answer = self.answer(subject, running.window, found, meter)?;
        let told = answered(self.alloc, seat, &answer)?;
        let entry = self.trail.prepare(told)?;
        self.trail.put(entry);
        self.searches.forget(running.number);
        Ok(answer)
    }

    /// The answer to a subject's search of a window, from the pairs that the index has found.
    fn answer(
        &self,
        subject: Subject,
        window: Shape,
        found: &[(u64, Shape)],
        meter: &mut Meter,
    ) -> Result<Answer<A>, NoMemory>
        requires { FindsAll self.now.state.features window found.now }
        ensures told { IfOk result (λ a. Listed self.now.state subject window a.rows
            × (a
            ≡ record {
              subject = subject;
              window = window;
              decider = self.now.state.decider;
              rows = a.rows;
            })) }
        ensures metered { meter.new ≤ meter.old + length found.now }
        ensures raised { meter.old ≤ meter.new }
    {
        let ids = ids_found(self.alloc, found)?;
        self.answer_from(subject, window, ids.as_slice(), meter)
    }

    /// The answer to a subject's search of a window, from rising ids.
    pub(crate) fn answer_from(
        &self,
        subject: Subject,
        window: Shape,
        ids: &[u64],
        meter: &mut Meter,
    ) -> Result<Answer<A>, NoMemory>
        requires rise { IsStrictlyIncreasing ids.now }
        requires all { NamesAll self.now.state.features window ids.now }
        ensures told { IfOk result (λ a. Listed self.now.state subject window a.rows
            × (a
            ≡ record {
              subject = subject;
              window = window;
              decider = self.now.state.decider;
              rows = a.rows;
            })) }
        ensures metered { meter.new ≤ meter.old + length ids.now }
        ensures raised { meter.old ≤ meter.new }
    {
        let mut reading = self.in_force.reading(&subject, &Action::Read);
        let rows = listed(self.alloc, &mut reading, &window, &self.store, ids, meter)?;
        let decider = another(self.in_force.shared())?;
        Ok(Answer::new(subject, window, decider, rows))
    }
}
