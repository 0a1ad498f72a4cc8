//! The world: its data, and how it is opened and read.

ghost use Rattle.std.specs.Prelude.{◌≡◌, ◌≤◌, length, IfOk, IfErr};
ghost use Rattle.std.specs.Arc.{arc_value};
ghost use Rattle.memory.specs.NoMemory.{out_of_memory};
ghost use Rattle.audit_trail.specs.Legal.{IsLegal, replay};
ghost use Rattle.judging.specs.Judging.{AreDistinct};
ghost use Rattle.features.specs.Rows.{IsSortedById, feature_with};
ghost use Rattle.plain_world.specs.Staging.{staged_in};
ghost use Rattle.plain_world.specs.States.{IsSoundWorld, opened, opened_from};

use crate::faults::Fault;
use crate::open_searches::Searches;
use crate::open_transactions::{Transaction, staged_in};
use crate::settings::{CHANGE_LIMIT, Limits, ROLLED_LIMIT, SEAT_LIMIT, STEP_LIMIT, Starts};
use audit_trail::{RECORD_LIMIT, Trail};
use decision::{Decider, InForce};
use feature_store::{FEATURE_LIMIT, Meter, Store, StoreFault};
use features::{Change, Feature, Subject, Subjects};
use memory::{NoMemory, another, shared};
use policy_documents::Document;
use std::alloc::{Allocator, Global};
use std::marker::Model;
use std::sync::Arc;

/// The state at which a trail begins.
#[derive(Debug, Drop)]
pub struct Base<A: Allocator> {
    /// The features there, by rising id.
    pub features: Vec<Feature, A>,
    /// The version of the last list that was applied before it.
    pub version: u64,
    /// The decider in force there.
    pub decider: Arc<Decider>,
}

impl<A: Allocator> Model for Base<A> {
    ghost use Rattle.std.specs.Arc.{arc_value};
    ghost use Rattle.std.specs.Coded.{code_by, codes};
    ghost use Rattle.judging.specs.States.{PlainState};
    ghost use Rattle.plain_world.specs.Coding.{StoredState, stored_state, restored_state, restored_state-stored_state};

    ghost Value = { PlainState };

    ghost coded = { code_by StoredState (Prim.hlevel codes) stored_state restored_state
        restored_state-stored_state };

    ghost view = { λ b. record {
      features = b.features.items;
      version = b.version;
      decider = arc_value b.decider;
    } };
}

/// The world of many sessions without its index: the features, the policy in force and the trail,
/// the seats that were given, and the open searches and transactions. A contract sees it as plain
/// data.
#[derive(Drop)]
pub struct PlainWorld<A: Allocator> {
    pub(crate) alloc: A,
    pub(crate) subjects: Subjects,
    pub(crate) opening: Arc<Decider>,
    pub(crate) starts: Starts,
    pub(crate) limits: Limits,
    pub(crate) seats: Vec<Subject, A>,
    pub(crate) base: Base<A>,
    pub(crate) trail: Trail<A>,
    pub(crate) store: Store<A>,
    pub(crate) version: u64,
    pub(crate) in_force: InForce,
    pub(crate) searches: Searches<A>,
    pub(crate) next_search: u64,
    pub(crate) transactions: Vec<Transaction<A>, A>,
    pub(crate) next_transaction: u64,
}

impl<A: Allocator> Model for PlainWorld<A> {
    ghost use Rattle.std.specs.Arc.{arc_value};
    ghost use Rattle.std.specs.Coded.{code_by, codes};
    ghost use Rattle.plain_world.specs.Coding.{StoredWorld, stored_world, restored_world, restored_world-stored_world};
    ghost use Rattle.plain_world.specs.States.{WorldData, Keeps};

    ghost Value = { WorldData };

    ghost coded = { code_by StoredWorld (Prim.hlevel codes) stored_world restored_world
        restored_world-stored_world };

    ghost view = { λ w. record {
      subjects = w.subjects;
      opening = arc_value w.opening;
      starts = w.starts;
      limits = w.limits;
      seats = w.seats.items;
      base = w.base;
      first = w.trail.first;
      trail = w.trail.records;
      state = record { features = w.store; version = w.version; decider = w.in_force };
      searches = w.searches;
      next_search = w.next_search;
      transactions = w.transactions.items;
      next_transaction = w.next_transaction;
    } };

    ghost invariant = { λ w. Keeps w.limits w.seats.items w.base w.trail.records
        (record { features = w.store; version = w.version; decider = w.in_force }) };
}

impl<A: Allocator> PlainWorld<A> {
    /// The trail since the last roll. It is legal from its base, and the state is its replay.
    pub fn trail(&self) -> &Trail<A>
        ensures records { result.now.records ≡ self.now.trail }
        ensures first { result.now.first ≡ self.now.first }
        ensures legal { IsLegal self.now.seats self.now.base self.now.trail }
        ensures replayed { replay self.now.base self.now.trail ≡ self.now.state }
    {
        &self.trail
    }

    /// The document in force.
    pub fn document(&self) -> &Document<Global>
        ensures { result.now ≡ self.now.state.decider.document }
    {
        self.in_force.shared().document()
    }

    /// The decider in force.
    pub fn decider(&self) -> &Decider
        ensures { result.now ≡ self.now.state.decider }
    {
        self.decider_in_force()
    }

    /// The decider in force, shared: a caller may make another owner of it.
    pub fn decider_in_force(&self) -> &Arc<Decider>
        ensures { arc_value result.now ≡ self.now.state.decider }
    {
        self.in_force.shared()
    }

    /// The edition of the document in force.
    pub fn edition(&self) -> u64
        ensures { result ≡ self.now.state.decider.edition }
    {
        self.in_force.shared().edition()
    }

    /// How many features there are.
    pub fn len(&self) -> usize
        ensures { result ≡ length self.now.state.features }
    {
        self.store.len()
    }

    /// The feature of an id, if there is one. It takes no memory.
    pub fn feature(&self, id: u64) -> Option<Feature>
        ensures { result ≡ feature_with id self.now.state.features }
    {
        let mut meter = Meter::new();
        self.store.get(id, &mut meter)
    }

    /// How many seats were given: `SEAT_LIMIT` at most.
    pub fn seats_given(&self) -> usize
        ensures value { result ≡ length self.now.seats }
        ensures most { result ≤ SEAT_LIMIT }
    {
        self.seats.len()
    }

    /// The changes that the transaction of a number has staged, in order; none where no such
    /// transaction is open. No two of them name one feature, and there are at most `CHANGE_LIMIT`.
    /// It takes no memory.
    pub fn staged(&self, number: u64) -> &[Change]
        ensures value { result.now ≡ staged_in number self.now.transactions }
        ensures distinct { AreDistinct result.now }
        ensures few { length result.now ≤ CHANGE_LIMIT }
    {
        staged_in(&self.transactions, number)
    }

    /// The invariant of every world: its trail is legal from its base, the state is its replay, and
    /// at most `SEAT_LIMIT` seats were given. The function does nothing; its contract states the
    /// fact.
    pub fn fact_sound(&self)
        ensures { IsSoundWorld self.now }
    {
        let _seats = &self.seats;
    }
}

impl<A: Allocator + Copy> PlainWorld<A> {
    /// A world with no features and no seats, governed by `document`, whose numbers start at
    /// `starts`. No limit may be above that of `Limits::GREATEST`, and at most `ROLLED_LIMIT`
    /// records may have been rolled out before. X12 where an allocation is refused; the document is
    /// then returned.
    pub fn open_at(
        alloc: A,
        heap: Global,
        subjects: Subjects,
        document: Document<Global>,
        starts: Starts,
        limits: Limits,
    ) -> Result<Self, (Document<Global>, Fault)>
        requires rolled { starts.rolled ≤ ROLLED_LIMIT }
        requires records { limits.records ≤ RECORD_LIMIT }
        requires features { limits.features ≤ FEATURE_LIMIT }
        requires steps { limits.steps ≤ STEP_LIMIT }
        ensures ok { IfOk result
            (λ w. w ≡ opened subjects (record { document = document; edition = starts.edition })
            starts limits) }
        ensures err { IfErr result (λ e. e ≡ (document, Fault.Memory out_of_memory)) }
    {
        let decider = match copied_decider(heap, &document, starts.edition) {
            Ok(decider) => decider,
            Err(refusal) => return Err((document, Fault::Memory(refusal))),
        };
        match PlainWorld::opened(alloc, subjects, decider, starts, limits) {
            Ok(world) => Ok(world),
            Err(refusal) => Err((document, Fault::Memory(refusal))),
        }
    }

    /// A world that a decider opens.
    fn opened(
        alloc: A,
        subjects: Subjects,
        decider: Arc<Decider>,
        starts: Starts,
        limits: Limits,
    ) -> Result<Self, NoMemory>
        requires rolled { starts.rolled ≤ ROLLED_LIMIT }
        requires records { limits.records ≤ RECORD_LIMIT }
        requires features { limits.features ≤ FEATURE_LIMIT }
        ensures { IfOk result (λ w. w ≡ opened subjects (arc_value decider) starts limits) }
    {
        let base = Base {
            features: Vec::new(alloc),
            version: starts.version,
            decider,
        };
        PlainWorld::open_from(alloc, subjects, base, starts, limits)
    }

    /// A world that begins at a state: it has the features, the version and the policy of `base`,
    /// no seats and an empty trail. Numbers other than the version and the edition start at
    /// `starts`. The features rise by id. The only error is out of memory.
    pub fn open_from(
        alloc: A,
        subjects: Subjects,
        base: Base<A>,
        starts: Starts,
        limits: Limits,
    ) -> Result<Self, NoMemory>
        requires sorted { IsSortedById base.features }
        requires few { length base.features ≤ FEATURE_LIMIT }
        requires rolled { starts.rolled ≤ ROLLED_LIMIT }
        requires records { limits.records ≤ RECORD_LIMIT }
        requires features { limits.features ≤ FEATURE_LIMIT }
        ensures { IfOk result (λ w. w ≡ opened_from subjects base starts limits) }
    {
        let store = stored(alloc, base.features.as_slice())?;
        let in_force = in_force_over(another(&base.decider)?, base.features.as_slice());
        let opening = another(&base.decider)?;
        let searches = Searches::new(alloc)?;
        let version = base.version;
        Ok(PlainWorld {
            alloc,
            subjects,
            opening,
            starts,
            limits,
            seats: Vec::new(alloc),
            base,
            trail: Trail::starting_at(alloc, starts.rolled + 1),
            store,
            version,
            in_force,
            searches,
            next_search: starts.search,
            transactions: Vec::new(alloc),
            next_transaction: 1,
        })
    }
}

/// A decider that comes in force where there are these features.
fn in_force_over(decider: Arc<Decider>, rows: &[Feature]) -> InForce
    ensures { result ≡ arc_value decider }
{
    let mut in_force = InForce::new(decider);
    for row in rows {
        in_force.tell(row.office, row.class);
    }
    in_force
}

/// A store of these features, which rise by id.
fn stored<A: Allocator + Copy>(alloc: A, rows: &[Feature]) -> Result<Store<A>, NoMemory>
    requires sorted { IsSortedById rows.now }
    requires few { length rows.now ≤ FEATURE_LIMIT }
    ensures { IfOk result (λ store. store ≡ rows.now) }
{
    let mut store = Store::new(alloc);
    for row in rows {
        let added = Change::Add {
            id: row.id,
            class: row.class,
            shape: row.shape,
        };
        match store.apply(row.version, row.office, &[added]) {
            Ok(()) => {}
            Err(StoreFault::Memory(refusal)) => return Err(refusal),
            Err(StoreFault::Full) => unreachable!(),
        }
    }
    Ok(store)
}

/// A decider of a copy of this document, under an edition.
pub(crate) fn copied_decider(
    heap: Global,
    document: &Document<Global>,
    edition: u64,
) -> Result<Arc<Decider>, NoMemory>
    ensures { IfOk result
        (λ decider. arc_value decider ≡ record { document = document.now; edition = edition }) }
{
    let copy = document.copy(heap)?;
    made_decider(heap, copy, edition)
}

/// A decider of this document, under an edition.
pub(crate) fn made_decider(
    heap: Global,
    document: Document<Global>,
    edition: u64,
) -> Result<Arc<Decider>, NoMemory>
    ensures { IfOk result
        (λ decider. arc_value decider ≡ record { document = document; edition = edition }) }
{
    match Decider::new(document, edition) {
        Ok(decider) => Ok(shared(heap, decider)?),
        Err(failed) => Err(failed.cause),
    }
}
