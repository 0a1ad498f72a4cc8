//! The row of the last version, and of the policy in force.

ghost use Rattle.std.specs.Prelude.{◌≡◌, [], ◌∷◌, OnOk, pos};
ghost use Rattle.policy_text.specs.Printed.{document_text};
ghost use Rattle.sqlite_value.specs.declared.value.Value.TheVariants.{Null, Int, Text};
ghost use Rattle.sqlite_value.specs.Order.{column};
ghost use Rattle.sqlite_trees.specs.View.{IsClean, IsQuiet};
ghost use Rattle.sqlite_trees.specs.declared.store.Shape.TheVariants as kind;
ghost use Rattle.volumes.specs.Edits.{Governs, KeepsLast};
ghost use Rattle.volumes.specs.Rows.{signed, row_of_policy};

use crate::changes::Buffers;
use crate::edits::{find, put};
use crate::faults::VolumeFault;
use crate::rows::signed;
use decision::Decider;
use policy_documents::Document;
use policy_text::print_document;
use sqlite_trees::store::Store;
use sqlite_value::row::Row;
use sqlite_value::value::ValueRef;
use std::alloc::{AllocError, Global};

/// Makes the row of a version and a policy with its edition.
pub(crate) fn set_policy(
    row: &mut Row,
    heap: Global,
    version: u64,
    decider: &Decider,
) -> Result<(), VolumeFault>
    ensures { OnOk result (row.new ≡ row_of_policy version decider.now) }
{
    let text = print_document(heap, decider.document())?;
    row.clear();
    row.push(ValueRef::Int(1))?;
    row.push(ValueRef::Null)?;
    row.push(ValueRef::Int(signed(version)))?;
    row.push(ValueRef::Int(signed(decider.edition())))?;
    row.push(ValueRef::Text(text.as_str().as_bytes()))?;
    Ok(())
}

/// Makes the row with another version: `found` is the row so far.
fn set_version(row: &mut Row, found: &Row, version: u64) -> Result<(), AllocError>
    ensures { OnOk result (row.new ≡ Int (pos 1) ∷ Null ∷ Int (signed version)
        ∷ column found.now 3 ∷ column found.now 4 ∷ []) }
{
    row.clear();
    row.push(ValueRef::Int(1))?;
    row.push(ValueRef::Null)?;
    row.push(ValueRef::Int(signed(version)))?;
    row.push(found.get(3))?;
    row.push(found.get(4))
}

/// Makes the row with another policy: `found` is the row so far.
fn set_document(
    row: &mut Row,
    found: &Row,
    heap: Global,
    edition: u64,
    document: &Document<Global>,
) -> Result<(), VolumeFault>
    ensures { OnOk result (row.new ≡ Int (pos 1) ∷ Null ∷ column found.now 2
        ∷ Int (signed edition) ∷ Text (document_text document.now) ∷ []) }
{
    let text = print_document(heap, document)?;
    row.clear();
    row.push(ValueRef::Int(1))?;
    row.push(ValueRef::Null)?;
    row.push(found.get(2))?;
    row.push(ValueRef::Int(signed(edition)))?;
    row.push(ValueRef::Text(text.as_str().as_bytes()))?;
    Ok(())
}

/// Puts the version of a list that was applied.
pub(crate) fn put_version<S: Store>(
    store: &mut S,
    buffers: &mut Buffers,
    table: u32,
    version: u64,
) -> Result<(), VolumeFault>
    requires shaped { IsClean (S.Store.view store.old)
        → (S.Store.view store.old).shape table ≡ kind.Table }
    ensures ok { OnOk result (IsClean (S.Store.view store.new)
        → Governs (S.Store.view store.old) (S.Store.view store.new) table
        (λ _ decider. row_of_policy version decider)) }
    ensures kept { IsClean (S.Store.view store.new)
        → KeepsLast (S.Store.view store.old) (S.Store.view store.new) }
    ensures quiet { IsQuiet S.Store.view S.Store.faults S.Store.recovers S.Store.is_shielded
        store.old store.new }
{
    if !find(store, table, 1, &mut buffers.found)? {
        return Err(VolumeFault::Misfit);
    }
    set_version(&mut buffers.row, &buffers.found, version)?;
    put(store, table, &buffers.row)
}

/// Puts a document that was put in force, as this edition.
pub(crate) fn put_document<S: Store>(
    store: &mut S,
    buffers: &mut Buffers,
    table: u32,
    heap: Global,
    edition: u64,
    document: &Document<Global>,
) -> Result<(), VolumeFault>
    requires shaped { IsClean (S.Store.view store.old)
        → (S.Store.view store.old).shape table ≡ kind.Table }
    ensures ok { OnOk result (IsClean (S.Store.view store.new)
        → Governs (S.Store.view store.old) (S.Store.view store.new) table
        (λ version _. row_of_policy version
        (record { document = document.now; edition = edition }))) }
    ensures kept { IsClean (S.Store.view store.new)
        → KeepsLast (S.Store.view store.old) (S.Store.view store.new) }
    ensures quiet { IsQuiet S.Store.view S.Store.faults S.Store.recovers S.Store.is_shielded
        store.old store.new }
{
    if !find(store, table, 1, &mut buffers.found)? {
        return Err(VolumeFault::Misfit);
    }
    set_document(&mut buffers.row, &buffers.found, heap, edition, document)?;
    put(store, table, &buffers.row)
}
