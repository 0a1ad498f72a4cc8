//! Whole searches: an answer that is made in one event.

ghost use Rattle.std.specs.Prelude.{◌≡◌, ◌≤◌, ◌+◌, length, IfOk, IfErr, OnOk, OnErr};
ghost use Rattle.std.specs.Arc.{arc_value};
ghost use Rattle.plain_world.specs.Admitting.{may_record, subject_at};
ghost use Rattle.plain_world.specs.Answers.{answer_deed};
ghost use Rattle.plain_world.specs.Answering.{FaultsAs, IsLegalAnswer, TakesIn};
ghost use Rattle.plain_world.specs.Finding.{NamesAll};
ghost use Rattle.plain_world.specs.Laws.{IsAnswerTo};

use crate::answers::Answer;
use crate::faults::Fault;
use crate::listing::{answered, put_in_order};
use crate::worlds::PlainWorld;
use audit_trail::Record;
use feature_store::Meter;
use features::Action;
use plane::Shape;
use std::alloc::Allocator;
use std::sync::Arc;

impl<A: Allocator + Copy> PlainWorld<A> {
    /// The answer to a whole search of a seat, made at the present state, and the record of it.
    /// Nothing changes: the search is answered once `take_in` has put the record in the trail, or
    /// one who holds the world back from changing has put it where the trail goes on. Among `ids`
    /// is that of every feature that meets the window; the answer has the rows that are listed now.
    /// X1 where the seat was not given, X12 where an allocation is refused.
    ///
    /// The meter counts at most one tick for each id.
    pub fn answer_whole(
        &self,
        seat: u32,
        window: Shape,
        ids: Vec<u64, A>,
        meter: &mut Meter,
    ) -> Result<(Answer<A>, Record<A>), Fault>
        requires { NamesAll self.now.state.features window ids.items }
        ensures answer { IfOk result (λ made. IsAnswerTo seat window self.now made.0) }
        ensures entry { IfOk result
            (λ made. made.1 ≡ record { seat = seat; deed = answer_deed made.0 }) }
        ensures fault { IfErr result (λ fault. FaultsAs (subject_at seat self.now) fault) }
        ensures metered { meter.new ≤ meter.old + length ids.items }
        ensures raised { meter.old ≤ meter.new }
    {
        let subject = self.subject_at(seat)?;
        let mut rising = ids;
        put_in_order(&mut rising);
        let answer = self.answer_from(subject, window, rising.as_slice(), meter)?;
        let told = answered(self.alloc, seat, &answer)?;
        Ok((answer, told))
    }

    /// Takes in an answer that was made at the present state: its record is put at the end of the
    /// trail, which is the event of a whole search. X10 where the trail is full, X12 where an
    /// allocation is refused; the record is then returned, and nothing has changed.
    pub fn take_in(&mut self, entry: Arc<Record<A>, A>) -> Result<(), (Arc<Record<A>, A>, Fault)>
        requires { IsLegalAnswer self.old.seats self.old.state (arc_value entry) }
        ensures ok { OnOk result (TakesIn (arc_value entry) self.old self.new) }
        ensures err { OnErr result (self.new ≡ self.old) }
        ensures entry_returned { IfErr result (λ e. e.0 ≡ entry) }
        ensures fault { IfErr result (λ e. FaultsAs (may_record self.old) e.1) }
    {
        self.prepare_for(entry.seat(), Action::Read);
        self.put_down(entry)
    }

    /// Puts the record of an answer at the end of the trail, as `take_in` does.
    fn put_down(&mut self, entry: Arc<Record<A>, A>) -> Result<(), (Arc<Record<A>, A>, Fault)>
        requires { IsLegalAnswer self.old.seats self.old.state (arc_value entry) }
        ensures ok { OnOk result (TakesIn (arc_value entry) self.old self.new) }
        ensures err { OnErr result (self.new ≡ self.old) }
        ensures entry_returned { IfErr result (λ e. e.0 ≡ entry) }
        ensures fault { IfErr result (λ e. FaultsAs (may_record self.old) e.1) }
    {
        match self.may_record() {
            Ok(()) => match self.trail.add(entry) {
                Ok(()) => Ok(()),
                Err(failed) => Err((failed.value, Fault::Memory(failed.cause))),
            },
            Err(fault) => Err((entry, fault)),
        }
    }
}
