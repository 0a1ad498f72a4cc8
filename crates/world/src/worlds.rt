//! The world: what it has, and how it is opened and read.

ghost use Rattle.std.specs.Prelude.{◌≡◌, ◌≤◌, ◌<◌, ◌+◌, [], length, IfOk, IfErr, OnOk};
ghost use Rattle.std.specs.Arc.{arc_value};
ghost use Rattle.memory.specs.NoMemory.{out_of_memory};
ghost use Rattle.judging.specs.Judging.{AreDistinct};
ghost use Rattle.audit_trail.specs.Legal.{IsLegal, replay, subject_of};
ghost use Rattle.features.specs.Rows.{IsSortedById, feature_with};
ghost use Rattle.node_arena.specs.Slots.{taken_count};
ghost use Rattle.plain_world.specs.Admitting.{map_ok, may_go_on, may_govern, subject_at};
ghost use Rattle.plain_world.specs.Laws.{IsOrdered, IsUnderWay};
ghost use Rattle.plain_world.specs.Staging.{staged_in};
ghost use Rattle.plain_world.specs.States.{IsSoundWorld, opened, opened_from};
ghost use Rattle.search_tree.specs.Calls.{found_in};
ghost use Rattle.search_tree.specs.Trees.{IsFirst};
ghost use Rattle.world.specs.Index.{IndexServes, frames, slots_of};
ghost use Rattle.world.specs.Walks.{AreWalks};

use crate::filling::fill;
use crate::kept_slots::KeptSlots;
use crate::open_walks::Walks;
use audit_trail::{RECORD_LIMIT, Trail};
use decision::Decider;
use feature_store::FEATURE_LIMIT;
use features::{Change, Feature, Subject, Subjects};
use frame_keys::Frames;
use memory::NoMemory;
use plain_world::{
    Base, CHANGE_LIMIT, Fault, Limits, PlainWorld, ROLLED_LIMIT, SEAT_LIMIT, STEP_LIMIT, Search,
    Starts, USUAL_FEATURES,
};
use policy_documents::Document;
use search_tree::{Tree, TreeFault};
use std::alloc::{Allocator, Global};
use std::marker::Model;
use std::sync::Arc;

/// The world of many sessions: the features, the policy in force, the trail, the seats that were
/// given, the open searches and transactions, the index over the features, and the walks of the
/// transactions. Contracts see all but the index as plain data, and the index as the tree's
/// contracts see it.
#[derive(Drop)]
pub struct World<A: Allocator> {
    pub(crate) plain: PlainWorld<A>,
    pub(crate) index: Tree<Frames, A>,
    pub(crate) walks: Walks<A>,
    pub(crate) kept: KeptSlots,
}

impl<A: Allocator> Model for World<A> {
    ghost use Rattle.std.specs.Coded.{code_by, codes};
    ghost use Rattle.world.specs.Coding.{StoredIndexed, stored_indexed, restored_indexed, restored_indexed-stored_indexed};
    ghost use Rattle.world.specs.Index.{IndexedWorld};
    ghost use Rattle.world.specs.Kept.{IsTended};

    ghost Value = { IndexedWorld };

    ghost coded = { code_by StoredIndexed (Prim.hlevel codes) stored_indexed restored_indexed
        restored_indexed-stored_indexed };

    ghost view = { λ w. record { plain = w.plain; index = w.index; walks = w.walks } };

    ghost invariant = { λ w. IsTended (record { plain = w.plain; index = w.index; walks = w.walks })
        w.kept };
}

impl<A: Allocator> World<A> {
    /// The trail since the last roll. It is legal from its base, and the state is its replay.
    pub fn trail(&self) -> &Trail<A>
        ensures records { result.now.records ≡ self.now.plain.trail }
        ensures first { result.now.first ≡ self.now.plain.first }
        ensures legal { IsLegal self.now.plain.seats self.now.plain.base self.now.plain.trail }
        ensures replayed { replay self.now.plain.base self.now.plain.trail ≡ self.now.plain.state }
    {
        self.plain.trail()
    }

    /// The document in force.
    pub fn document(&self) -> &Document<Global>
        ensures { result.now ≡ self.now.plain.state.decider.document }
    {
        self.plain.document()
    }

    /// The decider in force.
    pub fn decider(&self) -> &Decider
        ensures { result.now ≡ self.now.plain.state.decider }
    {
        self.plain.decider()
    }

    /// The decider in force, shared: a caller may make itself another owner.
    pub fn decider_in_force(&self) -> &Arc<Decider>
        ensures { arc_value result.now ≡ self.now.plain.state.decider }
    {
        self.plain.decider_in_force()
    }

    /// The edition of the document in force.
    pub fn edition(&self) -> u64
        ensures { result ≡ self.now.plain.state.decider.edition }
    {
        self.plain.edition()
    }

    /// The edition under which a seat may put a document in force next. X1 where the seat was not
    /// given, X7 where its subject is no steward, X8 where the edition is at its end, X10 where the
    /// trail is full. Takes no memory.
    pub fn next_edition(&self, seat: u32) -> Result<u64, Fault>
        ensures value { result
            ≡ map_ok (λ _. self.now.plain.state.decider.edition + 1)
            (may_govern seat self.now.plain) }
        ensures left { OnOk result (self.now.plain.state.decider.edition < u64.MAX) }
    {
        self.plain.next_edition(seat)
    }

    /// How many pairs a search has found in the index, which is the most look-ups that its `finish`
    /// makes; 0 where no such search is open.
    pub fn found_count(&self, number: u64) -> usize
        ensures { result ≡ length (found_in self.now.index number) }
    {
        self.index.found(number).len()
    }

    /// How many features there are.
    pub fn len(&self) -> usize
        ensures { result ≡ length self.now.plain.state.features }
    {
        self.plain.len()
    }

    /// The feature of an id, if there is one. Takes no memory.
    pub fn feature(&self, id: u64) -> Option<Feature>
        ensures { result ≡ feature_with id self.now.plain.state.features }
    {
        self.plain.feature(id)
    }

    /// How many slots of the index there are to tend. It takes no memory.
    pub fn slots(&self) -> u32
        ensures value { result ≡ slots_of self.now.index }
        ensures taken { taken_count self.now.index.nodes ≤ result }
    {
        self.index.slots()
    }

    /// How many seats were given: `SEAT_LIMIT` at most.
    pub fn seats_given(&self) -> usize
        ensures value { result ≡ length self.now.plain.seats }
        ensures most { result ≤ SEAT_LIMIT }
    {
        self.plain.seats_given()
    }

    /// A seat's own search: its window, and whether it has answered Ready. X1 where the seat was
    /// not given or no such search is open, X2 where it is another seat's. Takes no memory.
    pub fn search_of(&self, seat: u32, number: u64) -> Result<Search, Fault>
        ensures { result ≡ may_go_on seat number self.now.plain }
    {
        self.plain.may_go_on(seat, number)
    }

    /// The changes that a transaction has staged, in order; none where no such transaction is open.
    /// There are at most `CHANGE_LIMIT`, no two of the same feature. Takes no memory.
    pub fn staged(&self, number: u64) -> &[Change]
        ensures value { result.now ≡ staged_in number self.now.plain.transactions }
        ensures distinct { AreDistinct result.now }
        ensures few { length result.now ≤ CHANGE_LIMIT }
    {
        self.plain.staged(number)
    }

    /// A fact for callers, without effect: what every world keeps, so that the laws over runs hold
    /// from any world on. Its trail is legal from its base, the state is the trail's replay, and at
    /// most `SEAT_LIMIT` seats were given. Its features are sorted by id, and no staged list names
    /// a feature twice. Its open searches and transactions are in order.
    pub fn fact_sound(&self)
        ensures sound { IsSoundWorld self.now.plain }
        ensures ordered { IsOrdered self.now.plain }
        ensures under_way { IsUnderWay self.now.plain }
    {
        self.plain.fact_sound();
    }

    /// A fact for callers, without effect: the index has each feature's id and shape, and each
    /// shape that an open transaction has placed; it runs the open searches, as ready as they are.
    pub fn fact_index_serves(&self)
        ensures { IndexServes self.now.plain self.now.index }
    {
        let _index = &self.index;
    }

    /// A fact for callers, without effect: each open transaction has its place among the walks, in
    /// the same order, and a walk that has begun is for the next shape that its transaction places.
    pub fn fact_walks_serve(&self)
        ensures { AreWalks self.now.plain.transactions self.now.walks }
    {
        let _walks = &self.walks;
    }

    /// The subject of a seat. X1 where the seat was not given.
    pub fn subject_at(&self, seat: u32) -> Result<Subject, Fault>
        ensures { result ≡ subject_at seat self.now.plain }
    {
        self.plain.subject_at(seat)
    }
}

impl<A: Allocator + Copy> World<A> {
    /// A world with no features and no seats, with this document as its first edition, within the
    /// limits `Limits::USUAL`. X12 where an allocation is refused: then the document is returned.
    pub fn open(
        alloc: A,
        heap: Global,
        subjects: Subjects,
        document: Document<Global>,
    ) -> Result<Self, (Document<Global>, Fault)>
        ensures ok { IfOk result
            (λ w. w.plain ≡ opened subjects (record { document = document; edition = 1 })
            (record {
              generation = 0;
              counter = 0;
              search = 1;
              version = 0;
              edition = 1;
              rolled = 0;
            }) (record
            { steps = STEP_LIMIT; records = RECORD_LIMIT; features = USUAL_FEATURES })) }
        ensures index { IfOk result (λ w. IsFirst frames 0 0 1 STEP_LIMIT w.index) }
        ensures walks { IfOk result (λ w. w.walks ≡ []) }
        ensures err { IfErr result (λ e. e ≡ (document, Fault.Memory out_of_memory)) }
    {
        World::open_at(
            alloc,
            heap,
            subjects,
            document,
            Starts::FIRST,
            Limits::USUAL,
        )
    }

    /// The same with other first numbers and other limits. No limit is above that of
    /// `Limits::GREATEST`, and at most `ROLLED_LIMIT` records were rolled out before.
    pub fn open_at(
        alloc: A,
        heap: Global,
        subjects: Subjects,
        document: Document<Global>,
        starts: Starts,
        limits: Limits,
    ) -> Result<Self, (Document<Global>, Fault)>
        requires rolled { starts.rolled ≤ ROLLED_LIMIT }
        requires records { limits.records ≤ RECORD_LIMIT }
        requires features { limits.features ≤ FEATURE_LIMIT }
        requires steps { limits.steps ≤ STEP_LIMIT }
        ensures ok { IfOk result
            (λ w. w.plain ≡ opened subjects
            (record { document = document; edition = starts.edition }) starts limits) }
        ensures index { IfOk result
            (λ w. IsFirst frames starts.generation starts.counter starts.search limits.steps
            w.index) }
        ensures walks { IfOk result (λ w. w.walks ≡ []) }
        ensures err { IfErr result (λ e. e ≡ (document, Fault.Memory out_of_memory)) }
    {
        let index = match first_index(alloc, starts, limits) {
            Ok(index) => index,
            Err(refusal) => return Err((document, Fault::Memory(refusal))),
        };
        let walks = match Walks::new(alloc) {
            Ok(walks) => walks,
            Err(refusal) => return Err((document, Fault::Memory(refusal))),
        };
        let plain = PlainWorld::open_at(alloc, heap, subjects, document, starts, limits)?;
        Ok(World {
            plain,
            index,
            walks,
            kept: KeptSlots::none(),
        })
    }

    /// A world that begins at a state: with its features, all in the index, its version and its
    /// policy, no seats and an empty trail. The features rise by id. S4 to S7 where the index
    /// does not take them, X12 where an allocation is refused.
    pub fn open_from(
        alloc: A,
        subjects: Subjects,
        base: Base<A>,
        starts: Starts,
        limits: Limits,
    ) -> Result<Self, Fault>
        requires sorted { IsSortedById base.features }
        requires few { length base.features ≤ FEATURE_LIMIT }
        requires rolled { starts.rolled ≤ ROLLED_LIMIT }
        requires records { limits.records ≤ RECORD_LIMIT }
        requires features { limits.features ≤ FEATURE_LIMIT }
        requires steps { limits.steps ≤ STEP_LIMIT }
        ensures ok { IfOk result (λ w. w.plain ≡ opened_from subjects base starts limits) }
        ensures walks { IfOk result (λ w. w.walks ≡ []) }
    {
        let mut index = first_index(alloc, starts, limits)?;
        fill(&mut index, base.features.as_slice())?;
        let walks = Walks::new(alloc)?;
        let plain = PlainWorld::open_from(alloc, subjects, base, starts, limits)?;
        Ok(World {
            plain,
            index,
            walks,
            kept: KeptSlots::none(),
        })
    }
}

/// The index of a world that is opened.
fn first_index<A: Allocator + Copy>(
    alloc: A,
    starts: Starts,
    limits: Limits,
) -> Result<Tree<Frames, A>, NoMemory>
    requires { limits.steps ≤ STEP_LIMIT }
    ensures { IfOk result
        (IsFirst frames starts.generation starts.counter starts.search limits.steps) }
{
    let steps = limits.steps as u64;
    match Tree::starting_at(
        alloc,
        starts.generation,
        starts.counter,
        starts.search,
        steps,
    ) {
        Ok(index) => Ok(index),
        Err(TreeFault::Memory(refusal)) => Err(refusal),
        Err(_) => unreachable!(),
    }
}
