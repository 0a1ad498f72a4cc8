//! The first rows of a volume.

ghost use Rattle.std.specs.Prelude.{◌≡◌, ◌<◌, OnOk};
ghost use Rattle.sqlite_trees.specs.View.{IsClean, IsQuiet, OnlyWrites};
ghost use Rattle.sqlite_trees.specs.Tree.{put_row};
ghost use Rattle.sqlite_trees.specs.declared.store.Shape.TheVariants as kind;
ghost use Rattle.volumes.specs.Edits.{KeepsLast, Writes};
ghost use Rattle.volumes.specs.Rows.{row_of_life};
ghost use Rattle.volumes.specs.Volumes.{AreTables};

use crate::changes::{Buffers, add};
use crate::edits::put;
use crate::faults::VolumeFault;
use crate::policies::set_policy;
use crate::rows::{NUMBER_END, set_life};
use crate::tables::Tables;
use decision::Decider;
use features::Feature;
use sqlite_trees::store::Store;
use std::alloc::Global;

/// Adds features, without a commit.
fn put_features<S: Store>(
    store: &mut S,
    buffers: &mut Buffers,
    table: u32,
    features: &[Feature],
) -> Result<(), VolumeFault>
    requires shaped { IsClean (S.Store.view store.old)
        → (S.Store.view store.old).shape table ≡ kind.Table }
    ensures frame { OnOk result (IsClean (S.Store.view store.new)
        → OnlyWrites (S.Store.view store.old) (S.Store.view store.new)) }
    ensures kept { IsClean (S.Store.view store.new)
        → KeepsLast (S.Store.view store.old) (S.Store.view store.new) }
    ensures quiet { IsQuiet S.Store.view S.Store.faults S.Store.recovers S.Store.is_shielded
        store.old store.new }
{
    for feature in features {
        add(store, buffers, table, feature)?;
    }
    Ok(())
}

/// Puts the row of a life, without a commit.
pub(crate) fn put_life<S: Store>(
    store: &mut S,
    buffers: &mut Buffers,
    table: u32,
    life: u64,
    first: u64,
    subjects: &str,
) -> Result<(), VolumeFault>
    requires number { first < NUMBER_END }
    requires shaped { IsClean (S.Store.view store.old)
        → (S.Store.view store.old).shape table ≡ kind.Table }
    ensures ok { OnOk result (IsClean (S.Store.view store.new)
        → Writes (S.Store.view store.old) (S.Store.view store.new) table
        (put_row (row_of_life life first subjects.now) ((S.Store.view store.old).trees table))) }
    ensures kept { IsClean (S.Store.view store.new)
        → KeepsLast (S.Store.view store.old) (S.Store.view store.new) }
    ensures quiet { IsQuiet S.Store.view S.Store.faults S.Store.recovers S.Store.is_shielded
        store.old store.new }
{
    set_life(&mut buffers.row, life, first, subjects)?;
    put(store, table, &buffers.row)
}

/// Puts the rows of a state and of a life, without a commit.
pub(crate) fn put_state<S: Store>(
    store: &mut S,
    buffers: &mut Buffers,
    tables: &Tables,
    heap: Global,
    features: &[Feature],
    version: u64,
    decider: &Decider,
    life: u64,
    first: u64,
    subjects: &str,
) -> Result<(), VolumeFault>
    requires number { first < NUMBER_END }
    requires shaped { IsClean (S.Store.view store.old)
        → AreTables (S.Store.view store.old) tables.now }
    ensures frame { OnOk result (IsClean (S.Store.view store.new)
        → OnlyWrites (S.Store.view store.old) (S.Store.view store.new)) }
    ensures kept { IsClean (S.Store.view store.new)
        → KeepsLast (S.Store.view store.old) (S.Store.view store.new) }
    ensures quiet { IsQuiet S.Store.view S.Store.faults S.Store.recovers S.Store.is_shielded
        store.old store.new }
{
    put_features(store, buffers, tables.features, features)?;
    set_policy(&mut buffers.row, heap, version, decider)?;
    put(store, tables.policy, &buffers.row)?;
    put_life(store, buffers, tables.lives, life, first, subjects)
}
