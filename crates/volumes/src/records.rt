//! Records, as edits of the tables.

ghost use Rattle.std.specs.Prelude.{◌≡◌, ◌+◌, ◌<◌, ◌≤◌, [], ◌∷◌, length, map, OnOk};
ghost use Rattle.std.specs.Arc.{arc_value};
ghost use Rattle.sqlite_trees.specs.View.{IsClean, IsQuiet};
ghost use Rattle.sqlite_trees.specs.Tree.{put_row};
ghost use Rattle.sqlite_trees.specs.declared.store.Shape.TheVariants as kind;
ghost use Rattle.audit_trail.specs.Legal.{after_deed};
ghost use Rattle.audit_trail.specs.Records.{applied};
ghost use Rattle.audit_trail.specs.Views.{deed_view};
ghost use Rattle.volumes.specs.Edits.{Writes, KeepsLast};
ghost use Rattle.volumes.specs.Records.{TurnsState, Appends};
ghost use Rattle.volumes.specs.Rows.{row_of_line};
ghost use Rattle.volumes.specs.Volumes.{AreApart, AreTables};

use crate::changes::{Buffers, put_changes};
use crate::edits::put;
use crate::faults::VolumeFault;
use crate::policies::{put_document, put_version};
use crate::rows::{NUMBER_END, set_line};
use crate::tables::Tables;
use audit_trail::{Deed, Record, record_line};
use features::{Change, Subject};
use sqlite_trees::store::Store;
use sqlite_value::row::Row;
use std::alloc::{Allocator, Global};
use std::sync::Arc;

/// Puts a record's line under its number.
fn put_line<S: Store>(
    store: &mut S,
    row: &mut Row,
    table: u32,
    number: u64,
    line: &str,
) -> Result<(), VolumeFault>
    requires number { number < NUMBER_END }
    requires shaped { IsClean (S.Store.view store.old)
        → (S.Store.view store.old).shape table ≡ kind.Table }
    ensures ok { OnOk result (IsClean (S.Store.view store.new)
        → Writes (S.Store.view store.old) (S.Store.view store.new) table
        (put_row (row_of_line number line.now) ((S.Store.view store.old).trees table))) }
    ensures kept { IsClean (S.Store.view store.new)
        → KeepsLast (S.Store.view store.old) (S.Store.view store.new) }
    ensures quiet { IsQuiet S.Store.view S.Store.faults S.Store.recovers S.Store.is_shielded
        store.old store.new }
{
    set_line(row, number, line.as_bytes())?;
    put(store, table, row)
}

/// Makes the changes of a list that was applied, and puts its version.
fn put_list<S: Store>(
    store: &mut S,
    buffers: &mut Buffers,
    tables: &Tables,
    subject: &Subject,
    version: u64,
    changes: &[Change],
) -> Result<(), VolumeFault>
    requires apart { AreApart tables.now }
    requires shaped { IsClean (S.Store.view store.old)
        → AreTables (S.Store.view store.old) tables.now }
    ensures ok { OnOk result (IsClean (S.Store.view store.new)
        → TurnsState (S.Store.view store.old) (S.Store.view store.new) tables.now
        (after_deed (applied subject.now version changes.now))) }
    ensures kept { IsClean (S.Store.view store.new)
        → KeepsLast (S.Store.view store.old) (S.Store.view store.new) }
    ensures quiet { IsQuiet S.Store.view S.Store.faults S.Store.recovers S.Store.is_shielded
        store.old store.new }
{
    put_changes(
        store,
        buffers,
        tables.features,
        version,
        &subject.office,
        changes,
    )?;
    put_version(store, buffers, tables.policy, version)
}

/// Does to the tables what a deed did to the state.
fn put_deed<S: Store, A: Allocator>(
    store: &mut S,
    buffers: &mut Buffers,
    tables: &Tables,
    heap: Global,
    deed: &Deed<A>,
) -> Result<(), VolumeFault>
    requires apart { AreApart tables.now }
    requires shaped { IsClean (S.Store.view store.old)
        → AreTables (S.Store.view store.old) tables.now }
    ensures ok { OnOk result (IsClean (S.Store.view store.new)
        → TurnsState (S.Store.view store.old) (S.Store.view store.new) tables.now
        (after_deed (deed_view deed.now))) }
    ensures kept { IsClean (S.Store.view store.new)
        → KeepsLast (S.Store.view store.old) (S.Store.view store.new) }
    ensures quiet { IsQuiet S.Store.view S.Store.faults S.Store.recovers S.Store.is_shielded
        store.old store.new }
{
    match deed {
        Deed::Answered { .. } => Ok(()),
        Deed::Applied {
            subject,
            version,
            changes,
        } => {
            let listed = changes.copied(heap)?;
            put_list(store, buffers, tables, subject, *version, listed.as_slice())
        }
        Deed::Refused { .. } => Ok(()),
        Deed::Governed { edition, decider } => put_document(
            store,
            buffers,
            tables.policy,
            heap,
            *edition,
            decider.document(),
        ),
    }
}

/// Puts a record under its number, and what it changed.
fn put_record<S: Store, A: Allocator>(
    store: &mut S,
    buffers: &mut Buffers,
    tables: &Tables,
    heap: Global,
    number: u64,
    entry: &Record<A>,
) -> Result<(), VolumeFault>
    requires number { number < NUMBER_END }
    requires apart { AreApart tables.now }
    requires shaped { IsClean (S.Store.view store.old)
        → AreTables (S.Store.view store.old) tables.now }
    ensures ok { OnOk result (IsClean (S.Store.view store.new)
        → Appends (S.Store.view store.old) (S.Store.view store.new) tables.now number
        (entry.now ∷ [])) }
    ensures kept { IsClean (S.Store.view store.new)
        → KeepsLast (S.Store.view store.old) (S.Store.view store.new) }
    ensures quiet { IsQuiet S.Store.view S.Store.faults S.Store.recovers S.Store.is_shielded
        store.old store.new }
{
    let line = record_line(heap, number, entry)?;
    put_line(
        store,
        &mut buffers.row,
        tables.records,
        number,
        line.as_str(),
    )?;
    put_deed(store, buffers, tables, heap, entry.deed())
}

/// Puts records, numbered from `first` on, and what they changed, without a commit.
pub(crate) fn put_records<S: Store, A: Allocator>(
    store: &mut S,
    buffers: &mut Buffers,
    tables: &Tables,
    heap: Global,
    first: u64,
    records: &[Arc<Record<A>, A>],
) -> Result<(), VolumeFault>
    requires numbers { first + length records.now ≤ NUMBER_END }
    requires apart { AreApart tables.now }
    requires shaped { IsClean (S.Store.view store.old)
        → AreTables (S.Store.view store.old) tables.now }
    ensures ok { OnOk result (IsClean (S.Store.view store.new)
        → Appends (S.Store.view store.old) (S.Store.view store.new) tables.now first
        (map arc_value records.now)) }
    ensures kept { IsClean (S.Store.view store.new)
        → KeepsLast (S.Store.view store.old) (S.Store.view store.new) }
    ensures quiet { IsQuiet S.Store.view S.Store.faults S.Store.recovers S.Store.is_shielded
        store.old store.new }
{
    let mut number = first;
    for item in records {
        put_record(store, buffers, tables, heap, number, item)?;
        number += 1;
    }
    Ok(())
}
