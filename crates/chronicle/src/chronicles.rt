//! A world with all its records.

ghost use Rattle.std.specs.Prelude.{◌≡◌, ◌≤◌, [], length, IfOk, IfErr};
ghost use Rattle.features.specs.Rows.{IsSortedById};
ghost use Rattle.chronicle.specs.Chronicles.{IsSoundChronicle, opened_with, opening_by};
ghost use Rattle.memory.specs.NoMemory.{out_of_memory};
ghost use Rattle.plain_world.specs.States.{opening_state};

use crate::due_slots::DueSlots;
use audit_trail::{RECORD_LIMIT, Record};
use feature_store::FEATURE_LIMIT;
use features::Subjects;
use policy_documents::Document;
use std::alloc::{Allocator, Global};
use std::marker::Model;
use std::snapshot::Snapshot;
use std::sync::Arc;
use world::{Base, Fault, Limits, ROLLED_LIMIT, STEP_LIMIT, Starts, World};

/// A world with all its records, also those that were rolled out of it. Contracts see what it was opened with, the
/// subjects of the seats, all records and the present state.
#[derive(Drop)]
pub struct Chronicle<A: Allocator> {
    pub(crate) world: World<A>,
    /// The world as it was opened: for proofs alone, without bytes.
    pub(crate) opened: Snapshot<World<A>>,
    /// The records that were rolled out, in order.
    pub(crate) rolled: Vec<Arc<Record<A>, A>, A>,
    /// How many records there were when the last list was applied or policy put in force.
    pub(crate) changed: u64,
    pub(crate) due: DueSlots,
}

impl<A: Allocator> Model for Chronicle<A> {
    ghost use Rattle.std.specs.Prelude.{map};
    ghost use Rattle.std.specs.Arc.{arc_value};
    ghost use Rattle.std.specs.Coded.{code_by, codes};
    ghost use Rattle.chronicle.specs.Chronicles.{ChronicleData, IsHeld, seen};
    ghost use Rattle.chronicle.specs.Coding.{StoredChronicle, stored_chronicle, restored_chronicle, restored_chronicle-stored_chronicle};

    ghost Value = { ChronicleData };

    ghost coded = { code_by StoredChronicle (Prim.hlevel codes) stored_chronicle restored_chronicle
        restored_chronicle-stored_chronicle };

    ghost view = { λ c. seen c.opened.value.plain.base (map arc_value c.rolled.items)
        c.world.plain };

    ghost invariant = { λ c. IsHeld c.opened.value.plain.base (map arc_value c.rolled.items)
        c.changed c.world.plain };
}

impl<A: Allocator> Chronicle<A> {
    /// A fact for callers, without effect: all records are one legal trail from the opening on, its
    /// replay is the present state, whose features are sorted by id, and at most `SEAT_LIMIT` seats
    /// were given.
    pub fn sound(&self)
        ensures { IsSoundChronicle self.now }
    {
        self.world.fact_sound();
    }
}

impl<A: Allocator + Copy> Chronicle<A> {
    /// A world with no features, no seats and no records, with this document as its first edition,
    /// within the limits `Limits::USUAL`. X12 where an allocation is refused: then the document is returned.
    pub fn open(
        alloc: A,
        heap: Global,
        subjects: Subjects,
        document: Document<Global>,
    ) -> Result<Self, (Document<Global>, Fault)>
        ensures ok { IfOk result
            (λ c. c ≡ opened_with (opening_by subjects document)) }
        ensures err { IfErr result (λ e. e ≡ (document, Fault.Memory out_of_memory)) }
    {
        Chronicle::open_at(
            alloc,
            heap,
            subjects,
            document,
            Starts::FIRST,
            Limits::USUAL,
        )
    }

    /// The same with other first numbers and other limits. No limit is above that of
    /// `Limits::GREATEST`, and at most `ROLLED_LIMIT` records were rolled out before.
    pub fn open_at(
        alloc: A,
        heap: Global,
        subjects: Subjects,
        document: Document<Global>,
        starts: Starts,
        limits: Limits,
    ) -> Result<Self, (Document<Global>, Fault)>
        requires rolled { starts.rolled ≤ ROLLED_LIMIT }
        requires records { limits.records ≤ RECORD_LIMIT }
        requires features { limits.features ≤ FEATURE_LIMIT }
        requires steps { limits.steps ≤ STEP_LIMIT }
        ensures ok { IfOk result
            (λ c. c ≡ opened_with (record {
              subjects = subjects;
              base = opening_state starts.version
                  (record { document = document; edition = starts.edition });
            })) }
        ensures err { IfErr result (λ e. e ≡ (document, Fault.Memory out_of_memory)) }
    {
        let world = World::open_at(alloc, heap, subjects, document, starts, limits)?;
        Ok(Chronicle::of(alloc, world))
    }

    /// A world that begins at a state: with its features, its version and its policy, no seats and no
    /// records. The features rise by id. S4 to S7 where the index does not take them, X12 where an
    /// allocation is refused.
    pub fn open_from(
        alloc: A,
        subjects: Subjects,
        base: Base<A>,
        starts: Starts,
        limits: Limits,
    ) -> Result<Self, Fault>
        requires sorted { IsSortedById base.features }
        requires few { length base.features ≤ FEATURE_LIMIT }
        requires rolled { starts.rolled ≤ ROLLED_LIMIT }
        requires records { limits.records ≤ RECORD_LIMIT }
        requires features { limits.features ≤ FEATURE_LIMIT }
        requires steps { limits.steps ≤ STEP_LIMIT }
        ensures { IfOk result
            (λ c. c ≡ opened_with (record { subjects = subjects; base = base })) }
    {
        let world = World::open_from(alloc, subjects, base, starts, limits)?;
        Ok(Chronicle::of(alloc, world))
    }

    /// The chronicle of a world that was just opened.
    fn of(alloc: A, world: World<A>) -> Self
        requires records { world.plain.trail ≡ [] }
        requires seats { world.plain.seats ≡ [] }
        requires state { world.plain.state ≡ world.plain.base }
        ensures { result ≡ opened_with (record {
          subjects = world.plain.subjects;
          base = world.plain.base;
        }) }
    {
        let opened = Snapshot::of(&world);
        Chronicle {
            world,
            opened,
            rolled: Vec::new(alloc),
            changed: 0,
            due: DueSlots::none(),
        }
    }
}
