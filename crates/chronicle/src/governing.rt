//! Policies, and rolls of the trail.

ghost use Rattle.std.specs.Prelude.{◌≡◌, ◌<◌, ◌+◌, ◌++◌, length, map, take, IfOk, OnOk, OnErr};
ghost use Rattle.std.specs.Arc.{arc_value};
ghost use Rattle.chronicle.specs.Changing.{after_policy};
ghost use Rattle.chronicle.specs.Noting.{IsGovernedBy};

use crate::chronicles::Chronicle;
use crate::reading::count;
use audit_trail::{Record, Trail};
use decision::Decider;
use memory::{GrowVec, NoMemory, another};
use std::alloc::{Allocator, Global};
use std::sync::Arc;
use world::{Fault, Rolled};

impl<A: Allocator> Chronicle<A> {
    /// The edition under which a seat may put a document in force next. X1 where the seat was not
    /// given, X7 where its subject is no steward, X8 where the edition is at its end, X10 where the
    /// trail is full. Takes no memory.
    pub fn next_edition(&self, seat: u32) -> Result<u64, Fault>
        ensures { IfOk result
            (λ edition. (edition ≡ self.now.state.decider.edition + 1)
            × (self.now.state.decider.edition < u64.MAX)) }
    {
        self.world.next_edition(seat)
    }
}

impl<A: Allocator + Copy> Chronicle<A> {
    /// Puts in force the document of a decider that was made before, for the next edition, and
    /// records that in the trail. Returns the edition. X1 where the seat was not given, X7 where
    /// its subject is no steward, X8 where the present edition is `u64::MAX` (the decider's own
    /// edition is then ignored), X10 where the trail is full, X12 where an allocation is refused.
    pub fn govern_by(&mut self, seat: u32, decider: Arc<Decider>) -> Result<u64, Fault>
        requires { self.old.state.decider.edition < u64.MAX
            → (arc_value decider).edition ≡ self.old.state.decider.edition + 1 }
        ensures ok { IfOk result
            (λ edition. IsGovernedBy seat (arc_value decider) edition self.old self.new) }
        ensures err { OnErr result (self.new ≡ self.old) }
    {
        self.world.next_edition(seat)?;
        let governed = self.world.govern_by(seat, decider);
        let now = count(&self.rolled, self.world.trail());
        self.changed = changed_by_policy(&governed, self.changed, now);
        governed
    }

    /// Takes the present trail out, with its lines; the chronicle keeps its records. X1 where the
    /// seat was not given, X7 where its subject is no steward, X8 where the numbers of the new trail
    /// would not fit, X12 where an allocation is refused, in this order.
    pub fn roll(&mut self, heap: Global, seat: u32) -> Result<Arc<Rolled<A>, A>, Fault>
        ensures { self.new ≡ self.old }
    {
        self.world.fact_sound();
        self.world.may_roll(seat)?;
        let before = self.rolled.len();
        if let Err(refusal) = append_records(&mut self.rolled, self.world.trail()) {
            self.rolled.truncate(before);
            return Err(Fault::Memory(refusal));
        }
        match self.world.roll(heap, seat) {
            Ok(piece) => Ok(piece),
            Err(fault) => {
                self.rolled.truncate(before);
                Err(fault)
            }
        }
    }
}

/// Appends other owners of the records of a trail. Where memory is refused, only some of them are
/// appended.
fn append_records<A: Allocator>(
    rolled: &mut Vec<Arc<Record<A>, A>, A>,
    trail: &Trail<A>,
) -> Result<(), NoMemory>
    ensures ok { OnOk result
        (map arc_value rolled.new.items ≡ map arc_value rolled.old.items ++ trail.now.records) }
    ensures front { take (length rolled.old.items) rolled.new.items ≡ rolled.old.items }
{
    for index in 0..trail.len() {
        let Some(record) = trail.get(trail.first() + u64::from(index)) else {
            unreachable!()
        };
        rolled.make_slot()?;
        rolled.push_reserved(another(record)?);
    }
    Ok(())
}

/// How many records there were at the last change, where a document was to be put in force: `before`
/// if it was refused, and otherwise `now`, how many there are.
fn changed_by_policy(governed: &Result<u64, Fault>, before: u64, now: u64) -> u64
    ensures { result ≡ after_policy governed.now before now }
{
    match governed {
        Ok(_) => now,
        Err(_) => before,
    }
}
