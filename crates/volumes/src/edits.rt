//! Edits of single rows, inside the transaction of a store.

ghost use Rattle.std.specs.Prelude.{◌≡◌, ◌<◌, ◌^◌, IfOk, OnOk, IsTrue};
ghost use Rattle.sqlite_trees.specs.View.{IsClean, IsQuiet, Finds, is_int, OnlyWrites};
ghost use Rattle.sqlite_trees.specs.Tree.{rowid, put_row, without_rowid};
ghost use Rattle.sqlite_trees.specs.declared.store.Shape.TheVariants as kind;
ghost use Rattle.volumes.specs.Edits.{Writes, KeepsLast};
ghost use Rattle.volumes.specs.Rows.{signed};

use crate::faults::VolumeFault;
use crate::rows::signed;
use sqlite_trees::store::Store;
use sqlite_value::row::Row;

/// Writes the row of this id over `row`, or answers false where the table has none.
pub(crate) fn find<S: Store>(
    store: &mut S,
    table: u32,
    id: u64,
    row: &mut Row,
) -> Result<bool, VolumeFault>
    requires { IsClean (S.Store.view store.old) → (S.Store.view store.old).shape table ≡ kind.Table }
    ensures ok { IfOk result (λ found. IsClean (S.Store.view store.new)
        → Finds ((S.Store.view store.old).trees table) (signed id) row.new found) }
    ensures fits { id < 2 ^ 64 }
    ensures same { OnOk result (IsClean (S.Store.view store.new)
        → S.Store.view store.new ≡ S.Store.view store.old) }
    ensures kept { IsClean (S.Store.view store.new)
        → KeepsLast (S.Store.view store.old) (S.Store.view store.new) }
    ensures quiet { IsQuiet S.Store.view S.Store.faults S.Store.recovers S.Store.is_shielded
        store.old store.new }
{
    Ok(store.get(table, signed(id), row)?)
}

/// Puts a row, in place of one with its rowid.
pub(crate) fn put<S: Store>(store: &mut S, table: u32, row: &Row) -> Result<(), VolumeFault>
    requires shaped { IsClean (S.Store.view store.old)
        → (S.Store.view store.old).shape table ≡ kind.Table }
    requires keyed { IsTrue (is_int (rowid row.now)) }
    ensures ok { OnOk result (IsClean (S.Store.view store.new)
        → Writes (S.Store.view store.old) (S.Store.view store.new) table
        (put_row row.now ((S.Store.view store.old).trees table))) }
    ensures kept { IsClean (S.Store.view store.new)
        → KeepsLast (S.Store.view store.old) (S.Store.view store.new) }
    ensures quiet { IsQuiet S.Store.view S.Store.faults S.Store.recovers S.Store.is_shielded
        store.old store.new }
{
    Ok(store.put(table, row)?)
}

/// Takes out the row of this id.
pub(crate) fn take_out<S: Store>(store: &mut S, table: u32, id: u64) -> Result<(), VolumeFault>
    requires { IsClean (S.Store.view store.old) → (S.Store.view store.old).shape table ≡ kind.Table }
    ensures ok { OnOk result (IsClean (S.Store.view store.new)
        → Writes (S.Store.view store.old) (S.Store.view store.new) table
        (without_rowid (signed id) ((S.Store.view store.old).trees table))) }
    ensures kept { IsClean (S.Store.view store.new)
        → KeepsLast (S.Store.view store.old) (S.Store.view store.new) }
    ensures quiet { IsQuiet S.Store.view S.Store.faults S.Store.recovers S.Store.is_shielded
        store.old store.new }
{
    Ok(store.delete(table, signed(id))?)
}
