//! Whole searches: an answer that is made in one event.

ghost use Rattle.std.specs.Prelude.{◌≡◌, ◌++◌, ◌∷◌, [], IfOk, IfErr, OnOk, OnErr};
ghost use Rattle.std.specs.Arc.{arc_value};
ghost use Rattle.plain_world.specs.Answering.{IsLegalAnswer};
ghost use Rattle.chronicle.specs.Noting.{IsAnswerAt, IsAnswered, told_answer};

use crate::chronicles::Chronicle;
use audit_trail::Record;
use feature_store::Meter;
use memory::shared;
use plane::Shape;
use std::alloc::Allocator;
use std::sync::Arc;
use world::{Answer, Fault};

impl<A: Allocator + Copy> Chronicle<A> {
    /// The answer to a whole search of a window for a seat, made at the present state, and its
    /// record. Nothing changes: the search is answered once the record is taken in. X1 where the
    /// seat was not given, X9 where there are more nodes of the index to see than a search may make
    /// steps (S7), X12 where an allocation is refused.
    pub fn answer(&self, seat: u32, window: &Shape) -> Result<(Answer<A>, Arc<Record<A>, A>), Fault>
        ensures answer { IfOk result (λ made. IsAnswerAt seat window.now made.0 self.now) }
        ensures entry { IfOk result
            (λ made. arc_value made.1 ≡ record { seat = seat; deed = told_answer made.0 }) }
    {
        let mut meter = Meter::new();
        let (answer, told) = self.world.answer(seat, *window, &mut meter)?;
        match shared(*self.rolled.allocator(), told) {
            Ok(entry) => Ok((answer, entry)),
            Err(failed) => Err(Fault::Memory(failed.cause)),
        }
    }

    /// Takes in an answer that was made at the present state: its record is added. X10 where the
    /// trail is full, X12 where an allocation is refused; the record is then returned, and nothing
    /// has changed.
    pub fn take_in(&mut self, entry: Arc<Record<A>, A>) -> Result<(), (Arc<Record<A>, A>, Fault)>
        requires { IsLegalAnswer self.old.seats self.old.state (arc_value entry) }
        ensures ok { OnOk result
            (self.new ≡ record self.old { records = self.old.records ++ arc_value entry ∷ [] }) }
        ensures err { OnErr result (self.new ≡ self.old) }
        ensures entry_returned { IfErr result (λ e. e.0 ≡ entry) }
    {
        self.world.take_in(entry)
    }

    /// Answers a whole search of a window for a seat, and records the answer in the trail. X1 where
    /// the seat was not given, X9 where there are more nodes of the index to see than a search may
    /// make steps (S7), X12 where an allocation is refused, X10 where the trail is full.
    pub fn search(&mut self, seat: u32, window: &Shape) -> Result<Answer<A>, Fault>
        ensures ok { IfOk result (λ answer. IsAnswered seat window.now answer self.old self.new) }
        ensures err { OnErr result (self.new ≡ self.old) }
    {
        let (answer, entry) = self.answer(seat, window)?;
        match self.take_in(entry) {
            Ok(()) => Ok(answer),
            Err((_, fault)) => Err(fault),
        }
    }
}
