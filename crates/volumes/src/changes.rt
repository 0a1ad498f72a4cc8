//! Changes of features, as edits of their rows.

ghost use Rattle.std.specs.Prelude.{◌≡◌, OnOk};
ghost use Rattle.sqlite_trees.specs.View.{IsClean, IsQuiet};
ghost use Rattle.sqlite_trees.specs.declared.store.Shape.TheVariants as kind;
ghost use Rattle.features.specs.Changes.{after_change, after};
ghost use Rattle.features.specs.Rows.{with_row, with_shape, without};
ghost use Rattle.volumes.specs.Edits.{Turns, KeepsLast};

use crate::edits::{find, put, take_out};
use crate::faults::VolumeFault;
use crate::rows::{set_feature, set_reshaped};
use features::{Change, Feature, Name};
use plane::Shape;
use sqlite_trees::store::Store;
use sqlite_value::row::Row;

/// Two rows that are used again and again: one that is written, and one that was found.
#[derive(Debug, Drop)]
pub(crate) struct Buffers {
    pub(crate) row: Row,
    pub(crate) found: Row,
}

/// Adds a feature, whose id is not there yet.
pub(crate) fn add<S: Store>(
    store: &mut S,
    buffers: &mut Buffers,
    table: u32,
    feature: &Feature,
) -> Result<(), VolumeFault>
    requires shaped { IsClean (S.Store.view store.old)
        → (S.Store.view store.old).shape table ≡ kind.Table }
    ensures ok { OnOk result (IsClean (S.Store.view store.new)
        → Turns (S.Store.view store.old) (S.Store.view store.new) table (with_row feature.now)) }
    ensures kept { IsClean (S.Store.view store.new)
        → KeepsLast (S.Store.view store.old) (S.Store.view store.new) }
    ensures quiet { IsQuiet S.Store.view S.Store.faults S.Store.recovers S.Store.is_shielded
        store.old store.new }
{
    if find(store, table, feature.id, &mut buffers.found)? {
        return Err(VolumeFault::Misfit);
    }
    set_feature(&mut buffers.row, feature)?;
    put(store, table, &buffers.row)
}

/// Gives the feature of this id another shape and version.
fn reshape<S: Store>(
    store: &mut S,
    buffers: &mut Buffers,
    table: u32,
    id: u64,
    version: u64,
    shape: &Shape,
) -> Result<(), VolumeFault>
    requires shaped { IsClean (S.Store.view store.old)
        → (S.Store.view store.old).shape table ≡ kind.Table }
    ensures ok { OnOk result (IsClean (S.Store.view store.new)
        → Turns (S.Store.view store.old) (S.Store.view store.new) table
        (with_shape id version shape.now)) }
    ensures kept { IsClean (S.Store.view store.new)
        → KeepsLast (S.Store.view store.old) (S.Store.view store.new) }
    ensures quiet { IsQuiet S.Store.view S.Store.faults S.Store.recovers S.Store.is_shielded
        store.old store.new }
{
    if !find(store, table, id, &mut buffers.found)? {
        return Err(VolumeFault::Misfit);
    }
    set_reshaped(&mut buffers.row, &buffers.found, id, version, shape)?;
    put(store, table, &buffers.row)
}

/// Deletes the feature of this id.
fn delete<S: Store>(
    store: &mut S,
    buffers: &mut Buffers,
    table: u32,
    id: u64,
) -> Result<(), VolumeFault>
    requires shaped { IsClean (S.Store.view store.old)
        → (S.Store.view store.old).shape table ≡ kind.Table }
    ensures ok { OnOk result (IsClean (S.Store.view store.new)
        → Turns (S.Store.view store.old) (S.Store.view store.new) table (without id)) }
    ensures kept { IsClean (S.Store.view store.new)
        → KeepsLast (S.Store.view store.old) (S.Store.view store.new) }
    ensures quiet { IsQuiet S.Store.view S.Store.faults S.Store.recovers S.Store.is_shielded
        store.old store.new }
{
    if !find(store, table, id, &mut buffers.found)? {
        return Err(VolumeFault::Misfit);
    }
    take_out(store, table, id)
}

/// Makes one change of a list that was applied as this version, for this office.
fn put_change<S: Store>(
    store: &mut S,
    buffers: &mut Buffers,
    table: u32,
    version: u64,
    office: &Name,
    change: &Change,
) -> Result<(), VolumeFault>
    requires shaped { IsClean (S.Store.view store.old)
        → (S.Store.view store.old).shape table ≡ kind.Table }
    ensures ok { OnOk result (IsClean (S.Store.view store.new)
        → Turns (S.Store.view store.old) (S.Store.view store.new) table
        (after_change version office.now change.now)) }
    ensures kept { IsClean (S.Store.view store.new)
        → KeepsLast (S.Store.view store.old) (S.Store.view store.new) }
    ensures quiet { IsQuiet S.Store.view S.Store.faults S.Store.recovers S.Store.is_shielded
        store.old store.new }
{
    match change {
        Change::Add { id, class, shape } => {
            let feature = Feature {
                id: *id,
                version,
                office: *office,
                class: *class,
                shape: *shape,
            };
            add(store, buffers, table, &feature)
        }
        Change::Reshape { id, shape, .. } => reshape(store, buffers, table, *id, version, shape),
        Change::Delete { id, .. } => delete(store, buffers, table, *id),
    }
}

/// Makes the changes of a list that was applied as this version, for this office.
pub(crate) fn put_changes<S: Store>(
    store: &mut S,
    buffers: &mut Buffers,
    table: u32,
    version: u64,
    office: &Name,
    changes: &[Change],
) -> Result<(), VolumeFault>
    requires shaped { IsClean (S.Store.view store.old)
        → (S.Store.view store.old).shape table ≡ kind.Table }
    ensures ok { OnOk result (IsClean (S.Store.view store.new)
        → Turns (S.Store.view store.old) (S.Store.view store.new) table
        (after version office.now changes.now)) }
    ensures kept { IsClean (S.Store.view store.new)
        → KeepsLast (S.Store.view store.old) (S.Store.view store.new) }
    ensures quiet { IsQuiet S.Store.view S.Store.faults S.Store.recovers S.Store.is_shielded
        store.old store.new }
{
    for change in changes {
        put_change(store, buffers, table, version, office, change)?;
    }
    Ok(())
}
