//! Taking the trail out.

ghost use Rattle.std.specs.Prelude.{◌≡◌, ◌≤◌, length, IfOk, IfErr};
ghost use Rattle.std.specs.Arc.{arc_value};
ghost use Rattle.memory.specs.NoMemory.{out_of_memory};
ghost use Rattle.features.specs.Rows.{IsSortedById};
ghost use Rattle.plain_world.specs.Admitting.{may_roll};
ghost use Rattle.plain_world.specs.Events.{Happens, Roll, TakenOut, reply_of};

use crate::worlds::World;
use feature_store::FEATURE_LIMIT;
use plain_world::{Base, Fault, Rolled};
use std::alloc::{Allocator, Global};
use std::sync::Arc;

impl<A: Allocator> World<A> {
    /// Whether a seat may roll the trail. X1 where the seat was not given, X7 where its subject is no
    /// steward, X8 where the numbers of the new trail would not fit, in this order. Takes no memory.
    pub fn may_roll(&self, seat: u32) -> Result<(), Fault>
        ensures { result ≡ may_roll seat self.now.plain }
    {
        self.plain.may_roll(seat)
    }
}

impl<A: Allocator + Copy> World<A> {
    /// Takes out the whole trail, with its lines. The new trail begins at the present state, with
    /// the next number. X1 where the seat was not given, X7 where its subject is no steward, X8
    /// where the numbers of the new trail would not fit, X12 where an allocation is refused.
    pub fn roll(&mut self, heap: Global, seat: u32) -> Result<Arc<Rolled<A>, A>, Fault>
        ensures happens { Happens (Roll seat) self.old.plain self.new.plain
            (reply_of (λ piece. TakenOut (arc_value piece)) result) }
        ensures index { self.new.index ≡ self.old.index }
        ensures walks { self.new.walks ≡ self.old.walks }
    {
        self.plain.roll(heap, seat)
    }

    /// The present state, as a base from which another world may be opened. Its features rise by id,
    /// and there are at most `FEATURE_LIMIT`. X12 where an allocation is refused; there is no other
    /// error.
    pub fn present(&self) -> Result<Base<A>, Fault>
        ensures ok { IfOk result (λ base. base ≡ self.now.plain.state) }
        ensures sorted { IfOk result (λ base. IsSortedById base.features) }
        ensures few { IfOk result (λ base. length base.features ≤ FEATURE_LIMIT) }
        ensures err { IfErr result (λ fault. fault ≡ Fault.Memory out_of_memory) }
    {
        self.plain.present()
    }
}
