//! The store of features.

ghost use Rattle.std.specs.Prelude.{◌≡◌, ◌+◌, ◌<◌, ◌≤◌, ◌↔◌, [], ◌∷◌, ◌++◌, List, ℕ, length, slice_get, IsOk, IsTrue, IfOk, IfErr, OnOk, OnErr};
ghost use Rattle.memory.specs.NoMemory.{out_of_memory};
ghost use Rattle.plane.specs.declared.point.Point.{Point};
ghost use Rattle.features.specs.Changes.{CanApply, CanChange, additions, after, after_change, deletions};
ghost use Rattle.features.specs.Rows.{IsSortedById, feature_with};
ghost use Rattle.kept_shapes.specs.Rings.{Begins, rings_by, rings_in};
ghost use Rattle.feature_store.specs.Tables.{HasRoom, IsSound, rows_of};
ghost use Rattle.feature_store.specs.Ticks.{ticked_by};

use crate::entries::Entries;
use crate::lookups::Lookup;
use crate::meters::Meter;
use crate::rows::Row;
use crate::tables::{self, FEATURE_LIMIT, LIST_LIMIT, Table};
use features::{Change, Feature, Name};
use kept_shapes::{KeptShape, Rings, kept_rings};
use memory::{NoMemory, vec_with_room};
use std::alloc::Allocator;
use std::fmt;
use std::marker::Model;

/// How many features a copy of all of them has room for from the beginning. Where there are more,
/// it grows.
const ROOM_AT_ONCE: usize = 100_000;

/// Why a store rejects a list of changes, or cannot list its features.
#[derive(Debug, Drop, PartialEq, Eq)]
pub enum StoreFault {
    Full,
    Memory(NoMemory),
}

impl StoreFault {
    ghost use Rattle.feature_store.specs.FaultCodes.{store_code};

    /// The fault's code, as users see it.
    pub fn code(&self) -> &'static str
        ensures { result.now ≡ store_code self.now }
    {
        match self {
            StoreFault::Full => "F1",
            StoreFault::Memory(_) => "F2",
        }
    }
}

impl From<NoMemory> for StoreFault {
    ghost use Rattle.std.specs.Prelude.{◌≡◌};
    ghost use Rattle.feature_store.specs.declared.stores.StoreFault.TheVariants.{Memory};

    ghost from_gives = { λ no_memory fault. fault ≡ Memory no_memory };

    fn from(no_memory: NoMemory) -> Self {
        StoreFault::Memory(no_memory)
    }
}

impl fmt::Display for StoreFault {
    ghost use Rattle.std.specs.Prelude.{Some};
    ghost use Rattle.feature_store.specs.FaultCodes.{store_code};

    ghost output = { λ fault. Some (store_code fault) };

    fn fmt<W: fmt::Write>(&self, f: &mut fmt::Formatter<W>) -> fmt::Result {
        f.write_str(self.code())
    }
}

/// The features of the map. A contract sees their list, sorted by id.
#[derive(Debug, Drop)]
pub struct Store<A: Allocator> {
    pub(crate) table: Table<A>,
}

impl<A: Allocator> Model for Store<A> {
    ghost use Rattle.std.specs.Prelude.{List, ◌≤◌, length};
    ghost use Rattle.features.specs.declared.rows.Feature.{Feature};
    ghost use Rattle.feature_store.specs.declared.tables.TheConstants.{FEATURE_LIMIT};
    ghost use Rattle.feature_store.specs.Tables.{IsSound, rows_of};

    ghost Value = { List Feature };

    ghost view = { λ s. rows_of s.table };

    ghost invariant = { λ s. IsSound s.table × (length (rows_of s.table) ≤ FEATURE_LIMIT) };
}

impl<A: Allocator + Copy> Store<A> {
    /// A store without features. Allocates nothing.
    pub fn new(alloc: A) -> Self
        ensures { result ≡ [] }
    {
        Store {
            table: Table {
                entries: Entries::new(alloc),
                features: Vec::new(alloc),
            },
        }
    }
}

impl<A: Allocator> Store<A> {
    /// How many features there are: at most `FEATURE_LIMIT`.
    pub fn len(&self) -> usize
        ensures value { result ≡ length self.now }
        ensures within { length self.now ≤ FEATURE_LIMIT }
    {
        self.table.features.len()
    }

    /// Whether there is no feature.
    pub fn is_empty(&self) -> bool
        ensures { IsTrue result ↔ (self.now ≡ []) }
    {
        self.table.features.is_empty()
    }

    /// The feature with this id. Costs one tick.
    pub fn get(&self, id: u64, meter: &mut Meter) -> Option<Feature>
        ensures value { result ≡ feature_with id self.now }
        ensures cost { meter.new ≡ ticked_by 1 meter.old }
    {
        meter.tick(1);
        tables::find(&self.table, id)
    }

    /// What looks ids up one after another, and best in rising order.
    pub fn lookup(&self) -> Lookup<'_, A>
        ensures { result ≡ self.now }
    {
        Lookup::new(self)
    }

    /// The feature at this index of the list sorted by id. Costs no tick. It walks over the list, a
    /// block of up to 512 features at a time.
    pub fn row_at(&self, at: usize) -> Option<Feature>
        ensures value { result ≡ slice_get self.now at }
        ensures sorted { IsSortedById self.now }
        ensures within { length self.now ≤ FEATURE_LIMIT }
    {
        let place = self.table.entries.place_at(at)?;
        Some(self.table.features[place as usize].feature())
    }

    /// A copy of all features, by rising id. Costs one tick for each. The only error is `Memory`;
    /// it costs none.
    pub fn dump<B: Allocator>(
        &self,
        alloc: B,
        meter: &mut Meter,
    ) -> Result<Vec<Feature, B>, StoreFault>
        ensures ok { IfOk result (λ rows. rows.items ≡ self.now) }
        ensures cost { OnOk result (meter.new ≡ ticked_by (length self.now) meter.old) }
        ensures err { OnErr result (meter.new ≡ meter.old) }
        ensures memory { IfErr result (λ fault. fault ≡ StoreFault.Memory out_of_memory) }
    {
        let room = self.table.features.len().min(ROOM_AT_ONCE);
        let mut rows = vec_with_room(alloc, room)?;
        self.table
            .entries
            .copy_rows(&mut rows, &self.table.features)?;
        meter.tick(rows.len() as u64);
        Ok(rows)
    }

    /// How many features there would be after a list of changes.
    #[tactic(auto, using(crate::proofs::ChangeLemmas::length_after))]
    pub fn len_after(&self, changes: &[Change]) -> usize
        requires { CanApply changes.now self.now }
        ensures { (version : ℕ) (office : List ℕ)
            → result ≡ length (after version office changes.now self.now) }
    {
        let added = count_additions(changes);
        let deleted = count_deletions(changes);
        self.table.features.len() + added - deleted
    }
}

impl<A: Allocator + Copy> Store<A> {
    /// Makes all changes of a list, or none. `Full` exactly if there would be more than
    /// `FEATURE_LIMIT` features; otherwise `Memory` if room for the added ones is refused. On an
    /// error the store is unchanged. A list that adds no feature, and gives none a shape of more
    /// than two corners, allocates nothing.
    pub fn apply(
        &mut self,
        version: u64,
        office: Name,
        changes: &[Change],
    ) -> Result<(), StoreFault>
        requires can { CanApply changes.now self.old }
        requires few { length changes.now ≤ LIST_LIMIT }
        ensures ok { OnOk result (self.new ≡ after version office changes.now self.old) }
        ensures err { OnErr result (self.new ≡ self.old) }
        ensures full { (result ≡ Err StoreFault.Full)
            ↔ (FEATURE_LIMIT < length (after version office changes.now self.old)) }
        ensures certain { additions changes.now ≡ 0 → rings_in changes.now ≡ [] → IsOk result }
    {
        let added = count_additions(changes);
        let deleted = count_deletions(changes);
        if self.table.features.len() + added > FEATURE_LIMIT + deleted {
            return Err(StoreFault::Full);
        }
        let mut rings = kept_rings(*self.table.features.allocator(), changes)?;
        tables::make_room(&mut self.table, added)?;
        make_all(&mut self.table, version, office, changes, &mut rings);
        Ok(())
    }
}

/// How many features a list adds.
#[tactic(auto, using(crate::proofs::ChangeLemmas::additions_few))]
fn count_additions(changes: &[Change]) -> usize
    ensures value { result ≡ additions changes.now }
    ensures few { result ≤ length changes.now }
{
    let mut count = 0;
    for change in changes {
        if let Change::Add { .. } = change {
            count += 1;
        }
    }
    count
}

/// How many features a list deletes.
#[tactic(auto, using(crate::proofs::ChangeLemmas::deletions_few))]
fn count_deletions(changes: &[Change]) -> usize
    ensures value { result ≡ deletions changes.now }
    ensures few { result ≤ length changes.now }
{
    let mut count = 0;
    for change in changes {
        if let Change::Delete { .. } = change {
            count += 1;
        }
    }
    count
}

/// Makes one change; the table has room for it.
fn make<A: Allocator>(
    table: &mut Table<A>,
    version: u64,
    office: Name,
    change: Change,
    rings: &mut Rings<A>,
)
    requires sound { IsSound table.old }
    requires can_change { CanChange change (rows_of table.old) }
    requires room { HasRoom (additions (change ∷ [])) table.old }
    requires rings { Begins (rings_by change) rings.old }
    ensures rows { rows_of table.new ≡ after_change version office change (rows_of table.old) }
    ensures sound { IsSound table.new }
    ensures room { (n : ℕ) → HasRoom (n + additions (change ∷ [])) table.old → HasRoom n table.new }
    ensures left { (rest : List (List Point)) → rings.old ≡ rings_by change ++ rest
        → rings.new ≡ rest }
{
    match change {
        Change::Add { id, class, shape } => {
            let added = Feature {
                id,
                version,
                office,
                class,
                shape,
            };
            tables::put(table, Row::new(added, rings));
        }
        Change::Reshape { id, shape, .. } => {
            tables::reshape(table, id, version, KeptShape::new(shape, rings));
        }
        Change::Delete { id, .. } => tables::take_out(table, id),
    }
}

/// Makes each change of a list, in order.
fn make_all<A: Allocator>(
    table: &mut Table<A>,
    version: u64,
    office: Name,
    changes: &[Change],
    rings: &mut Rings<A>,
)
    requires sound { IsSound table.old }
    requires can_apply { CanApply changes.now (rows_of table.old) }
    requires room { HasRoom (additions changes.now) table.old }
    requires rings { rings.old ≡ rings_in changes.now }
    ensures rows { rows_of table.new ≡ after version office changes.now (rows_of table.old) }
    ensures sound { IsSound table.new }
{
    for change in changes {
        make(table, version, office, *change, rings);
    }
}
