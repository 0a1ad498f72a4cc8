//! Putting policies in force.

ghost use Rattle.std.specs.Prelude.{◌≡◌, ◌<◌, ◌+◌, IfErr};
ghost use Rattle.std.specs.Arc.{arc_value};
ghost use Rattle.plain_world.specs.Events.{Happens, Govern, Number, reply_handing, reply_of};

use crate::worlds::World;
use decision::Decider;
use plain_world::Fault;
use policy_documents::Document;
use std::alloc::{Allocator, Global};
use std::sync::Arc;

impl<A: Allocator + Copy> World<A> {
    /// Puts in force the document of a decider that was made before, for the next edition. Returns
    /// the edition. X1 where the seat was not given, X7 where its subject is no steward, X8 where
    /// the present edition is `u64::MAX` (the decider's own edition is then ignored), X10 where the
    /// trail is full, X12 where an allocation is refused.
    pub fn govern_by(&mut self, seat: u32, decider: Arc<Decider>) -> Result<u64, Fault>
        requires { self.old.plain.state.decider.edition < u64.MAX
            → (arc_value decider).edition ≡ self.old.plain.state.decider.edition + 1 }
        ensures happens { Happens (Govern seat (arc_value decider).document) self.old.plain
            self.new.plain (reply_of Number result) }
        ensures index { self.new.index ≡ self.old.index }
        ensures walks { self.new.walks ≡ self.old.walks }
    {
        self.plain.govern_by(seat, decider)
    }

    /// Puts a document in force as `govern` does, with the same faults, and makes no copy of it. A
    /// fault drops the document.
    pub fn govern_or_drop(
        &mut self,
        heap: Global,
        seat: u32,
        document: Document<Global>,
    ) -> Result<u64, Fault>
        ensures happens { Happens (Govern seat document) self.old.plain self.new.plain
            (reply_of Number result) }
        ensures index { self.new.index ≡ self.old.index }
        ensures walks { self.new.walks ≡ self.old.walks }
    {
        self.plain.govern_or_drop(heap, seat, document)
    }

    /// Puts a document in force as the next edition, and returns the edition. X1 where the seat was
    /// not given, X7 where its subject is no steward, X8 where the edition is at its end, X10 where
    /// the trail is full, X12 where an allocation is refused. Each fault returns the document.
    pub fn govern(
        &mut self,
        heap: Global,
        seat: u32,
        document: Document<Global>,
    ) -> Result<u64, (Document<Global>, Fault)>
        ensures happens { Happens (Govern seat document) self.old.plain self.new.plain
            (reply_handing Number result) }
        ensures document_returned { IfErr result (λ e. e.0 ≡ document) }
        ensures index { self.new.index ≡ self.old.index }
        ensures walks { self.new.walks ≡ self.old.walks }
    {
        self.plain.govern(heap, seat, document)
    }
}
