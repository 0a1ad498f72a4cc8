//! Volumes, and how records are appended.

ghost use Rattle.std.specs.Prelude.{◌≡◌, ℕ, List, ◌+◌, ◌<◌, ◌≤◌, ◌⊎◌, length, map, OnOk, OnErr, IfOk, IfSome, IfNone, IsTrue};
ghost use Rattle.std.specs.Arc.{arc_value};
ghost use Rattle.features.specs.Rows.{IsSortedById};
ghost use Rattle.sqlite_trees.specs.Tree.{Trees, put_row};
ghost use Rattle.sqlite_trees.specs.View.{IsQuiet};
ghost use Rattle.sqlite_trees.specs.declared.store.Shape.TheVariants as kind;
ghost use Rattle.volumes.specs.States.{state_of};
ghost use Rattle.volumes.specs.Volumes.{VolumeData, AreApart, HaveRows, HoldsState, Holds, volume_after};
ghost use Rattle.volumes.specs.Promises.{IsHonest, IsOpen, told, told_lives, MayBeLeft, Keeps};
ghost use Rattle.volumes.specs.Rows.{row_of_life};

use crate::beginning::{put_life, put_state};
use crate::changes::Buffers;
use crate::faults::VolumeFault;
use crate::reading::{State, read_all, read_state};
use crate::records::put_records;
use crate::rows::NUMBER_END;
use crate::tables::Tables;
use audit_trail::Record;
use decision::Decider;
use features::Feature;
use sqlite_trees::error::StoreError;
use sqlite_trees::store::{Shape, Store};
use sqlite_value::row::Row;
use std::alloc::{Allocator, Global};
use std::marker::Model;
use std::sync::Arc;

/// A volume over a store of SQLite. A contract sees the store, its tables, and the number of the
/// next record. Between two calls nothing waits for a commit.
pub struct Volume<S: Store> {
    pub(crate) store: S,
    pub(crate) tables: Tables,
    pub(crate) next: u64,
    pub(crate) buffers: Buffers,
}

impl<S: Store + Drop> Drop for Volume<S> {
    fn drop(self) {
        let Volume {
            store: _,
            tables: _,
            next: _,
            buffers: _,
        } = self;
    }
}

impl<S: Store> Model for Volume<S> {
    ghost use Rattle.volumes.specs.Volumes.{VolumeView, volume_code, IsAtRest};

    ghost Value = { VolumeView S };

    ghost coded = { volume_code S.code };

    ghost view = { λ v. record { store = v.store; tables = v.tables; next = v.next } };

    ghost invariant = { λ v. IsAtRest (S.Store.view v.store) v.tables };
}

impl<S: Store> Volume<S> {
    /// A volume over the tables of a store, whose next record has this number. What waits for a
    /// commit is rolled back. On an error it returns the store: `NoTables` where two of the tables
    /// are one, or one of them is none of rows by rowid.
    pub fn new(
        mut store: S,
        heap: Global,
        tables: Tables,
        next: u64,
    ) -> Result<Self, (VolumeFault, S)>
        ensures tables { IfOk result (λ v. v.tables ≡ tables) }
        ensures next { IfOk result (λ v. v.next ≡ next) }
        ensures told { IfOk result (λ v. IsHonest S.Store.view v
            → told S.Store.view v ≡ (S.Store.view store).committed) }
        ensures quiet { IfOk result (λ v. IsQuiet S.Store.view S.Store.faults S.Store.recovers
            S.Store.is_shielded store v.store) }
    {
        store.rollback();
        if !are_apart(&tables) || !have_rows(&store, &tables) {
            return Err((VolumeFault::NoTables, store));
        }
        if store.is_broken() {
            return Err((VolumeFault::Store(StoreError::Broken), store));
        }
        let buffers = Buffers {
            row: Row::new(heap),
            found: Row::new(heap),
        };
        Ok(Volume {
            store,
            tables,
            next,
            buffers,
        })
    }

    /// The number of the next record.
    pub fn next(&self) -> u64
        ensures { result ≡ self.now.next }
    {
        self.next
    }

    /// The numbers of the tables in the file.
    pub fn tables(&self) -> Tables
        ensures { result ≡ self.now.tables }
    {
        self.tables
    }

    /// The store, with nothing that waits for a commit.
    pub fn into_store(self) -> S
        ensures { result ≡ self.store }
    {
        let Volume {
            store,
            tables: _,
            next: _,
            buffers: _,
        } = self;
        store
    }

    /// Appends a group of records with what they changed, all of them or none, and returns when
    /// they last: from then on whatever a crash leaves has them. After an error the volume is as it
    /// was, and while its store is open the group may be appended again. `NoNumber` where the
    /// numbers of these records would reach 2^63; then nothing was tried. `Misfit` where a
    /// record adds a feature that is there, or changes one that is not.
    pub fn append<A: Allocator>(
        &mut self,
        heap: Global,
        records: &[Arc<Record<A>, A>],
    ) -> Result<(), VolumeFault>
        ensures tables { self.new.tables ≡ self.old.tables }
        ensures ok { OnOk result (IsHonest S.Store.view self.new → (v : VolumeData)
            → Keeps S.Store.view self.old v
            → Keeps S.Store.view self.new (volume_after (map arc_value records.now) v)) }
        ensures lives { OnOk result (IsHonest S.Store.view self.new
            → told_lives S.Store.view self.new ≡ told_lives S.Store.view self.old) }
        ensures lasts { OnOk result (IsHonest S.Store.view self.new → (db : Trees)
            → MayBeLeft S.Store.recovers self.new db → db ≡ told S.Store.view self.new) }
        ensures err { OnErr result (IsHonest S.Store.view self.new → IsOpen S.Store.view self.new
            → told S.Store.view self.new ≡ told S.Store.view self.old) }
        ensures next { OnErr result (self.new.next ≡ self.old.next) }
        ensures crash { IsHonest S.Store.view self.new → (v : VolumeData)
            → Keeps S.Store.view self.old v → (db : Trees) → MayBeLeft S.Store.recovers self.new db
            → MayBeLeft S.Store.recovers self.old db
            ⊎ Holds self.old.tables db (volume_after (map arc_value records.now) v) }
    {
        let Some(next) = number_after(self.next, records.len()) else {
            return Err(VolumeFault::NoNumber);
        };
        let put = put_records(
            &mut self.store,
            &mut self.buffers,
            &self.tables,
            heap,
            self.next,
            records,
        );
        if let Err(fault) = put {
            self.store.rollback();
            return Err(fault);
        }
        self.store.commit()?;
        self.next = next;
        Ok(())
    }

    /// The state that the volume keeps. `BadFeature` where a row is not just the row of a feature, or
    /// ids do not rise; `BadPolicy` where there is not just the one row of a policy.
    pub fn state<A: Allocator + Copy>(
        &mut self,
        alloc: A,
        heap: Global,
    ) -> Result<State<A>, VolumeFault>
        ensures held { IfOk result (λ state. IsHonest S.Store.view self.new
            → HoldsState self.new.tables (told S.Store.view self.new) (state_of state)) }
        ensures sorted { IfOk result (λ state. IsSortedById state.features.items) }
        ensures tables { self.new.tables ≡ self.old.tables }
        ensures next { self.new.next ≡ self.old.next }
        ensures told { IsHonest S.Store.view self.new → IsOpen S.Store.view self.new
            → told S.Store.view self.new ≡ told S.Store.view self.old }
        ensures crash { (db : Trees) → MayBeLeft S.Store.recovers self.new db
            → MayBeLeft S.Store.recovers self.old db }
    {
        match read_state(
            &mut self.store,
            alloc,
            heap,
            &mut self.buffers,
            &self.tables,
        ) {
            Ok(state) => Ok(state),
            Err(fault) => {
                self.store.rollback();
                Err(fault)
            }
        }
    }

    /// Puts a state and a life into the tables of a new volume, and commits it, all of it or
    /// nothing: so a volume that has a life has a state. What is there then, `state` and `restore`
    /// say. `subjects` is a text for readers. `NoNumber` where the next record has no number below
    /// 2^63, `Misfit` where a feature's id is there already.
    pub fn begin(
        &mut self,
        heap: Global,
        features: &[Feature],
        version: u64,
        decider: &Decider,
        life: u64,
        subjects: &str,
    ) -> Result<(), VolumeFault>
        ensures tables { self.new.tables ≡ self.old.tables }
        ensures next { self.new.next ≡ self.old.next }
        ensures lasts { OnOk result (IsHonest S.Store.view self.new → (db : Trees)
            → MayBeLeft S.Store.recovers self.new db → db ≡ told S.Store.view self.new) }
        ensures err { OnErr result (IsHonest S.Store.view self.new → IsOpen S.Store.view self.new
            → told S.Store.view self.new ≡ told S.Store.view self.old) }
    {
        if self.next >= NUMBER_END {
            return Err(VolumeFault::NoNumber);
        }
        let put = put_state(
            &mut self.store,
            &mut self.buffers,
            &self.tables,
            heap,
            features,
            version,
            decider,
            life,
            self.next,
            subjects,
        );
        if let Err(fault) = put {
            self.store.rollback();
            return Err(fault);
        }
        Ok(self.store.commit()?)
    }

    /// Notes a life, whose first record is the next one, beside the lives before it, and commits that.
    /// All else stays. `subjects` is a text for readers. `NoNumber` where the next record has no number below 2^63.
    pub fn note_life(&mut self, life: u64, subjects: &str) -> Result<(), VolumeFault>
        ensures tables { self.new.tables ≡ self.old.tables }
        ensures next { self.new.next ≡ self.old.next }
        ensures kept { OnOk result (IsHonest S.Store.view self.new → (v : VolumeData)
            → Keeps S.Store.view self.old v → Keeps S.Store.view self.new v) }
        ensures noted { OnOk result (IsHonest S.Store.view self.new
            → told_lives S.Store.view self.new
            ≡ put_row (row_of_life life self.old.next subjects.now)
            (told_lives S.Store.view self.old)) }
        ensures lasts { OnOk result (IsHonest S.Store.view self.new → (db : Trees)
            → MayBeLeft S.Store.recovers self.new db → db ≡ told S.Store.view self.new) }
        ensures err { OnErr result (IsHonest S.Store.view self.new → IsOpen S.Store.view self.new
            → told S.Store.view self.new ≡ told S.Store.view self.old) }
    {
        if self.next >= NUMBER_END {
            return Err(VolumeFault::NoNumber);
        }
        let put = put_life(
            &mut self.store,
            &mut self.buffers,
            self.tables.lives,
            life,
            self.next,
            subjects,
        );
        if let Err(fault) = put {
            self.store.rollback();
            return Err(fault);
        }
        self.store.commit()?;
        Ok(())
    }

    /// Reads all that the volume keeps, and goes on behind its last record: `next` has been the
    /// number of its first record until then. The faults are those of `state`, and `BadRecord`
    /// where the records are not numbered without a gap; after one, `next` is as it was.
    pub fn restore<A: Allocator + Copy>(
        &mut self,
        alloc: A,
        heap: Global,
    ) -> Result<State<A>, VolumeFault>
        ensures kept { IfOk result (λ state. IsHonest S.Store.view self.new
            → (lines : List (List ℕ)) × Keeps S.Store.view self.new
            (record { state = state_of state; first = self.old.next; lines = lines })) }
        ensures sorted { IfOk result (λ state. IsSortedById state.features.items) }
        ensures tables { self.new.tables ≡ self.old.tables }
        ensures next { OnErr result (self.new.next ≡ self.old.next) }
        ensures told { IsHonest S.Store.view self.new → IsOpen S.Store.view self.new
            → told S.Store.view self.new ≡ told S.Store.view self.old }
        ensures crash { (db : Trees) → MayBeLeft S.Store.recovers self.new db
            → MayBeLeft S.Store.recovers self.old db }
    {
        let first = self.next;
        let read = read_all(
            &mut self.store,
            alloc,
            heap,
            &mut self.buffers,
            &self.tables,
            first,
        );
        match read {
            Ok((state, next)) => {
                self.next = next;
                Ok(state)
            }
            Err(fault) => {
                self.store.rollback();
                Err(fault)
            }
        }
    }
}

/// Whether no two of these tables are one.
fn are_apart(tables: &Tables) -> bool
    ensures { IsTrue result → AreApart tables.now }
{
    tables.features != tables.policy
        && tables.features != tables.records
        && tables.features != tables.lives
        && tables.policy != tables.records
        && tables.policy != tables.lives
        && tables.records != tables.lives
}

/// Whether a store has rows by rowid under this number.
fn has_rows<S: Store>(store: &S, table: u32) -> bool
    ensures { IsTrue result → (S.Store.view store.now).shape table ≡ kind.Table }
{
    matches!(store.shape(table), Shape::Table)
}

/// Whether each of the tables has rows by rowid.
fn have_rows<S: Store>(store: &S, tables: &Tables) -> bool
    ensures { IsTrue result → HaveRows (S.Store.view store.now) tables.now }
{
    has_rows(store, tables.features)
        && has_rows(store, tables.policy)
        && has_rows(store, tables.records)
        && has_rows(store, tables.lives)
}

/// The number after this many more records, if all their numbers are below `NUMBER_END`.
fn number_after(number: u64, count: usize) -> Option<u64>
    ensures some { IfSome result
        (λ next. (next ≡ number + count) × (number + count ≤ NUMBER_END)) }
    ensures none { IfNone result (NUMBER_END < number + count) }
{
    let next = number.checked_add(count as u64)?;
    if next > NUMBER_END {
        return None;
    }
    Some(next)
}
