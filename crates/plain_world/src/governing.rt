//! How a policy is put in force.

ghost use Rattle.std.specs.Prelude.{◌≡◌, ◌<◌, ◌+◌, length, IsTrue, IfErr, OnOk};
ghost use Rattle.std.specs.Arc.{arc_value};
ghost use Rattle.features.specs.declared.actors.Subject.{Subject};
ghost use Rattle.audit_trail.specs.Legal.{IsSeated};
ghost use Rattle.plain_world.specs.Admitting.{map_ok, may_govern};
ghost use Rattle.plain_world.specs.Events.{Happens, Govern, Governs, Number, UnlessMemory, reply_of, reply_handing};

use crate::faults::Fault;
use crate::worlds::{PlainWorld, copied_decider, made_decider};
use audit_trail::{Deed, Record};
use decision::Decider;
use memory::another;
use policy_documents::Document;
use std::alloc::{Allocator, Global};
use std::sync::Arc;

impl<A: Allocator> PlainWorld<A> {
    /// The edition under which a seat may put a document in force next. X1 where the seat was not
    /// given, X7 where its subject is no steward, X8 where the edition is `u64::MAX`, X10 where the
    /// trail is full. It takes no memory.
    pub fn next_edition(&self, seat: u32) -> Result<u64, Fault>
        ensures value { result
            ≡ map_ok (λ _. self.now.state.decider.edition + 1) (may_govern seat self.now) }
        ensures left { OnOk result (self.now.state.decider.edition < u64.MAX) }
    {
        self.may_govern(seat)?;
        Ok(self.in_force.shared().edition() + 1)
    }
}

impl<A: Allocator + Copy> PlainWorld<A> {
    /// Puts the document of a decider in force; the decider was made before, with the next edition.
    /// X1 where the seat was not given, X7 where its subject is no steward, X8 where the present
    /// edition is `u64::MAX` (the decider's own may then be any), X10 where the trail is full, X12
    /// where an allocation is refused.
    pub fn govern_by(&mut self, seat: u32, decider: Arc<Decider>) -> Result<u64, Fault>
        requires { self.old.state.decider.edition < u64.MAX
            → (arc_value decider).edition ≡ self.old.state.decider.edition + 1 }
        ensures { Happens (Govern seat (arc_value decider).document) self.old self.new
            (reply_of Number result) }
    {
        self.may_govern(seat)?;
        self.put_in_force(seat, decider)
    }

    /// Records the decider of the next edition, and puts it in force.
    fn put_in_force(&mut self, seat: u32, decider: Arc<Decider>) -> Result<u64, Fault>
        requires steward { (subject : Subject) × IsSeated seat self.old.seats subject
            × IsTrue subject.steward }
        requires below { length self.old.trail < self.old.limits.records }
        requires next { (arc_value decider).edition ≡ self.old.state.decider.edition + 1 }
        ensures { UnlessMemory self.old self.new (reply_of Number result)
            (Governs seat (arc_value decider).document self.old self.new
            (reply_of Number result)) }
    {
        let kept = another(&decider)?;
        let edition = decider.edition();
        let told = Record::new(
            seat,
            Deed::Governed {
                edition,
                decider: kept,
            },
        );
        let entry = self.trail.prepare(told)?;
        self.trail.put(entry);
        self.in_force.replace(decider);
        Ok(edition)
    }

    /// Puts a document in force as `govern` does, with the same faults, and makes no copy of it. A
    /// fault drops the document.
    pub fn govern_or_drop(
        &mut self,
        heap: Global,
        seat: u32,
        document: Document<Global>,
    ) -> Result<u64, Fault>
        ensures { Happens (Govern seat document) self.old self.new (reply_of Number result) }
    {
        self.may_govern(seat)?;
        let decider = made_decider(heap, document, self.in_force.shared().edition() + 1)?;
        self.put_in_force(seat, decider)
    }

    /// Puts a copy of a document in force, with the faults of `govern`.
    fn govern_copy(
        &mut self,
        heap: Global,
        seat: u32,
        document: &Document<Global>,
    ) -> Result<u64, Fault>
        ensures { Happens (Govern seat document.now) self.old self.new (reply_of Number result) }
    {
        self.may_govern(seat)?;
        let decider = copied_decider(heap, document, self.in_force.shared().edition() + 1)?;
        self.put_in_force(seat, decider)
    }

    /// Puts a document in force as the next edition, and returns the edition. X1 where the seat was
    /// not given, X7 where its subject is no steward, X8 where the edition is `u64::MAX`, X10 where
    /// the trail is full, X12 where an allocation is refused. Each fault returns the document.
    pub fn govern(
        &mut self,
        heap: Global,
        seat: u32,
        document: Document<Global>,
    ) -> Result<u64, (Document<Global>, Fault)>
        ensures happens { Happens (Govern seat document) self.old self.new
            (reply_handing Number result) }
        ensures document_returned { IfErr result (λ e. e.0 ≡ document) }
    {
        match self.govern_copy(heap, seat, &document) {
            Ok(edition) => Ok(edition),
            Err(fault) => Err((document, fault)),
        }
    }
}
