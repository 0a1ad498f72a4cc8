//! Rolls: the trail is taken out, and a new one begins.

ghost use Rattle.std.specs.Prelude.{◌≡◌, ◌+◌, ◌≤◌, length, map, string_bytes, IfOk, IfErr};
ghost use Rattle.std.specs.Arc.{arc_value};
ghost use Rattle.memory.specs.NoMemory.{out_of_memory};
ghost use Rattle.features.specs.Rows.{IsSortedById};
ghost use Rattle.audit_trail.specs.JsonLines.{lines_from};
ghost use Rattle.audit_trail.specs.declared.trails.TheConstants.{FIRST_LIMIT};
ghost use Rattle.plain_world.specs.Events.{Happens, Roll, Rolls, TakenOut, UnlessMemory, reply_of};

use crate::faults::Fault;
use crate::listing::fact_sorted_by_id;
use crate::worlds::{Base, PlainWorld};
use audit_trail::Trail;
use feature_store::{FEATURE_LIMIT, Meter, Store, StoreFault};
use memory::{another, shared};
use std::alloc::{Allocator, Global};
use std::marker::Model;
use std::mem;
use std::sync::Arc;

/// A piece: the state at which the trail began, the trail, and the trail's lines. Only a world
/// makes one.
#[derive(Debug, Drop)]
pub struct Rolled<A: Allocator> {
    base: Base<A>,
    trail: Trail<A>,
    lines: Vec<String<A>, A>,
}

impl<A: Allocator> Model for Rolled<A> {
    ghost use Rattle.std.specs.Prelude.{◌≡◌, map, string_bytes};
    ghost use Rattle.audit_trail.specs.JsonLines.{lines_from};
    ghost use Rattle.std.specs.Coded.{code_by, codes};
    ghost use Rattle.plain_world.specs.Rolls.{RolledData};
    ghost use Rattle.plain_world.specs.Coding.{StoredRolled, stored_rolled, restored_rolled, restored_rolled-stored_rolled};

    ghost Value = { RolledData };

    ghost coded = { code_by StoredRolled (Prim.hlevel codes) stored_rolled restored_rolled
        restored_rolled-stored_rolled };

    ghost view = { λ r. record {
      base = r.base;
      first = r.trail.first;
      records = r.trail.records;
    } };

    ghost invariant = { λ r. map string_bytes r.lines.items
        ≡ lines_from r.trail.first r.trail.records };
}

impl<A: Allocator> Rolled<A> {
    /// The state at which the trail began.
    pub fn base(&self) -> &Base<A>
        ensures { result.now ≡ self.now.base }
    {
        &self.base
    }

    /// The trail.
    pub fn trail(&self) -> &Trail<A>
        ensures first { result.now.first ≡ self.now.first }
        ensures records { result.now.records ≡ self.now.records }
    {
        &self.trail
    }

    /// Each record as a line of JSON (RFC 8259) without a line end, by rising number.
    pub fn lines(&self) -> &[String<A>]
        ensures { map string_bytes result.now ≡ lines_from self.now.first self.now.records }
    {
        self.lines.as_slice()
    }
}

impl<A: Allocator + Copy> PlainWorld<A> {
    /// Takes the whole trail out, with its lines. The new trail begins at the present state, with
    /// the next number. X1 where the seat was not given, X7 where its subject is no steward, X8
    /// where the new trail's first number would be above `FIRST_LIMIT`, X12 where an allocation is
    /// refused.
    pub fn roll(&mut self, heap: Global, seat: u32) -> Result<Arc<Rolled<A>, A>, Fault>
        ensures { Happens (Roll seat) self.old self.new
            (reply_of (λ piece. TakenOut (arc_value piece)) result) }
    {
        self.may_roll(seat)?;
        let lines = self.trail.lines(heap)?;
        let next = self.present()?;
        self.take_out(next, lines)
    }

    /// Replaces the base by `next` and the trail by an empty one, and returns the old ones with
    /// these lines as a piece. Where the allocation for the piece is refused, puts the old ones
    /// back.
    fn take_out(
        &mut self,
        next: Base<A>,
        lines: Vec<String<A>, A>,
    ) -> Result<Arc<Rolled<A>, A>, Fault>
        requires state { next ≡ self.old.state }
        requires lines { map string_bytes lines.items ≡ lines_from self.old.first self.old.trail }
        requires numbers { self.old.first + length self.old.trail ≤ FIRST_LIMIT }
        ensures { UnlessMemory self.old self.new
            (reply_of (λ piece. TakenOut (arc_value piece)) result)
            (Rolls self.old self.new (reply_of (λ piece. TakenOut (arc_value piece)) result)) }
    {
        let first = self.trail.first() + u64::from(self.trail.len());
        let base = mem::replace(&mut self.base, next);
        let trail = mem::replace(&mut self.trail, Trail::starting_at(self.alloc, first));
        match shared(self.alloc, Rolled { base, trail, lines }) {
            Ok(piece) => Ok(piece),
            Err(failed) => {
                let piece = failed.value;
                self.base = piece.base;
                self.trail = piece.trail;
                Err(Fault::Memory(failed.cause))
            }
        }
    }

    /// The present state, as the base of a new trail, or of another world. Its features rise by id,
    /// and there are at most `FEATURE_LIMIT`. X12 where an allocation is refused; there is no other
    /// error.
    pub fn present(&self) -> Result<Base<A>, Fault>
        ensures ok { IfOk result (λ base. base ≡ self.now.state) }
        ensures sorted { IfOk result (λ base. IsSortedById base.features) }
        ensures few { IfOk result (λ base. length base.features ≤ FEATURE_LIMIT) }
        ensures err { IfErr result (λ fault. fault ≡ Fault.Memory out_of_memory) }
    {
        let mut meter = Meter::new();
        let features = match self.store.dump(self.alloc, &mut meter) {
            Ok(features) => features,
            Err(StoreFault::Memory(refusal)) => return Err(Fault::Memory(refusal)),
            Err(StoreFault::Full) => unreachable!(),
        };
        fact_sorted_by_id(&self.store);
        fact_few(&self.store);
        let decider = another(self.in_force.shared())?;
        Ok(Base {
            features,
            version: self.version,
            decider,
        })
    }
}

/// Fact for the checker, no effect: a store has at most `FEATURE_LIMIT` features. `len` states it,
/// `dump` does not.
fn fact_few<A: Allocator>(store: &Store<A>)
    ensures { length store.now ≤ FEATURE_LIMIT }
{
    let _count = store.len();
}
