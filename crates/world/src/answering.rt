//! Whole searches: an answer that is made in one event.

ghost use Rattle.std.specs.Prelude.{◌≡◌, ◌≤◌, IfOk, IfErr, OnOk, OnErr};
ghost use Rattle.std.specs.Arc.{arc_value};
ghost use Rattle.plain_world.specs.Admitting.{may_record, subject_at};
ghost use Rattle.plain_world.specs.Answers.{answer_deed};
ghost use Rattle.plain_world.specs.Answering.{FaultsAs, IsLegalAnswer, TakesIn};
ghost use Rattle.plain_world.specs.Laws.{IsAnswerTo};
ghost use Rattle.world.specs.Refusing.{FailsToAnswer};

use crate::faults::fault_of;
use crate::worlds::World;
use audit_trail::Record;
use feature_store::Meter;
use plain_world::{Answer, Fault};
use plane::Shape;
use std::alloc::Allocator;
use std::sync::Arc;
use windows::Window;

impl<A: Allocator + Copy> World<A> {
    /// The answer to a whole search of a seat, made at the present state, and the record of it.
    /// Nothing changes: the search is answered once `take_in` has put the record in the trail, or
    /// one who holds the world back from changing has put it where the trail goes on. The answer
    /// has the rows that are listed now, by the policy in force. X1 where the seat was not given,
    /// X9 where there are more nodes of the index to see than a search may make steps (S7), X12
    /// where an allocation is refused.
    ///
    /// The meter counts at most one look-up for each id that the index finds, and none at X1 and S7.
    pub fn answer(
        &self,
        seat: u32,
        window: Shape,
        meter: &mut Meter,
    ) -> Result<(Answer<A>, Record<A>), Fault>
        ensures answer { IfOk result (λ made. IsAnswerTo seat window self.now.plain made.0) }
        ensures entry { IfOk result
            (λ made. made.1 ≡ record { seat = seat; deed = answer_deed made.0 }) }
        ensures fault { IfErr result (FailsToAnswer (subject_at seat self.now.plain)) }
        ensures raised { meter.old ≤ meter.new }
    {
        self.plain.subject_at(seat)?;
        let query = Window::new(window);
        match self.index.ids_matching(&query) {
            Ok(ids) => self.plain.answer_whole(seat, window, ids, meter),
            Err(fault) => Err(fault_of(fault)),
        }
    }

    /// Takes in an answer that was made at the present state: its record is put at the end of the
    /// trail, which is the event of a whole search. X10 where the trail is full, X12 where an
    /// allocation is refused; the record is then returned, and nothing has changed.
    pub fn take_in(&mut self, entry: Arc<Record<A>, A>) -> Result<(), (Arc<Record<A>, A>, Fault)>
        requires { IsLegalAnswer self.old.plain.seats self.old.plain.state (arc_value entry) }
        ensures ok { OnOk result (TakesIn (arc_value entry) self.old.plain self.new.plain) }
        ensures err { OnErr result (self.new.plain ≡ self.old.plain) }
        ensures entry_returned { IfErr result (λ e. e.0 ≡ entry) }
        ensures fault { IfErr result (λ e. FaultsAs (may_record self.old.plain) e.1) }
        ensures index { self.new.index ≡ self.old.index }
        ensures walks { self.new.walks ≡ self.old.walks }
    {
        self.plain.take_in(entry)
    }
}
