//! The state that a volume keeps, read from its tables.

ghost use Rattle.std.specs.Prelude.{◌≡◌, ◌+◌, ◌<◌, ◌^◌, length, ◌++◌, [], ◌∷◌, List, ℕ, Some, false, IsSome, IsTrue, IfOk, OnOk};
ghost use Rattle.features.specs.Rows.{IsSortedById};
ghost use Rattle.sqlite_value.specs.Order.{Row as Cells, column, bytes};
ghost use Rattle.sqlite_trees.specs.View.{IsClean, IsQuiet};
ghost use Rattle.sqlite_trees.specs.declared.store.Shape.TheVariants as kind;
ghost use Rattle.volumes.specs.Edits.{KeepsLast, IsReading, IsRead, Gives, AreHigh, AreLow, AreIds};
ghost use Rattle.volumes.specs.Rows.{row_of_feature, row_of_policy, row_of_line, rows_from, feature_rows};
ghost use Rattle.volumes.specs.Volumes.{AreTables, HoldsState, HoldsAt};
ghost use Rattle.volumes.specs.States.{state_of};

use crate::changes::Buffers;
use crate::faults::VolumeFault;
use crate::policies::set_policy;
use crate::rows::{NUMBER_END, set_feature, set_line};
use crate::tables::Tables;
use decision::Decider;
use features::{Feature, Name};
use memory::{GrowVec, try_extend};
use policy_text::{TextFault, read_document};
use sqlite_trees::store::{Direction, Store};
use sqlite_value::row::Row;
use sqlite_value::value::ValueRef;
use std::alloc::{Allocator, Global};
use wkt::read_shape;

/// The number that a signed integer of SQLite stands for.
fn unsigned(n: i64) -> u64 {
    if n >= 0 {
        n as u64
    } else {
        u64::MAX - ((-1 - n) as u64)
    }
}

/// The bytes of a text.
fn text_in(value: ValueRef<'_>) -> Option<&[u8]> {
    match value {
        ValueRef::Text(text) => Some(text),
        _ => None,
    }
}

/// The number in a column.
fn number_in(row: &Row, column: usize) -> Option<u64> {
    match row.get(column) {
        ValueRef::Int(n) => Some(unsigned(n)),
        _ => None,
    }
}

/// The name in a column.
fn name_in(row: &Row, column: usize) -> Option<Name> {
    match row.get(column) {
        ValueRef::Text(text) => Name::new(text),
        _ => None,
    }
}

/// The feature that a row seems to be one of.
fn parse_feature(row: &Row) -> Option<Feature> {
    let id = number_in(row, 0)?;
    let version = number_in(row, 2)?;
    let office = name_in(row, 3)?;
    let class = name_in(row, 4)?;
    let shape = match row.get(5) {
        ValueRef::Text(text) => read_shape(text).ok()?,
        _ => return None,
    };
    Some(Feature {
        id,
        version,
        office,
        class,
        shape,
    })
}

/// The feature of a row. `expected` is written over: the row that the feature has.
fn read_feature(row: &Row, expected: &mut Row) -> Result<Feature, VolumeFault>
    ensures row { IfOk result (λ feature. row.now ≡ row_of_feature feature) }
    ensures fits { IfOk result (λ feature. feature.id < 2 ^ 64) }
{
    let Some(feature) = parse_feature(row) else {
        return Err(VolumeFault::BadFeature);
    };
    set_feature(expected, &feature)?;
    if !expected.is_same(row) {
        return Err(VolumeFault::BadFeature);
    }
    Ok(feature)
}

/// The version and the policy that a row seems to have.
fn parse_policy(heap: Global, row: &Row) -> Result<(u64, Decider), VolumeFault> {
    let (Some(version), Some(edition)) = (number_in(row, 2), number_in(row, 3)) else {
        return Err(VolumeFault::BadPolicy);
    };
    let ValueRef::Text(text) = row.get(4) else {
        return Err(VolumeFault::BadPolicy);
    };
    let document = match read_document(heap, heap, text) {
        Ok(document) => document,
        Err(TextFault::Memory(refusal)) => return Err(VolumeFault::Memory(refusal)),
        Err(_) => return Err(VolumeFault::BadPolicy),
    };
    match Decider::new(document, edition) {
        Ok(decider) => Ok((version, decider)),
        Err(failed) => Err(VolumeFault::Memory(failed.cause)),
    }
}

/// The version and the policy of a row. `expected` is written over.
fn read_policy_row(
    heap: Global,
    row: &Row,
    expected: &mut Row,
) -> Result<(u64, Decider), VolumeFault>
    ensures { IfOk result (λ policy. row.now ≡ row_of_policy policy.0 policy.1) }
{
    let (version, decider) = parse_policy(heap, row)?;
    set_policy(expected, heap, version, &decider)?;
    if !expected.is_same(row) {
        return Err(VolumeFault::BadPolicy);
    }
    Ok((version, decider))
}

/// Places the cursor before the first row of a table.
fn begin_reading<S: Store>(store: &mut S, table: u32, heap: Global) -> Result<(), VolumeFault>
    requires { IsClean (S.Store.view store.old) → (S.Store.view store.old).shape table ≡ kind.Table }
    ensures ok { OnOk result (IsClean (S.Store.view store.new)
        → IsReading (S.Store.view store.old) (S.Store.view store.new)
        ((S.Store.view store.old).trees table)) }
    ensures sound { OnOk result (IsClean (S.Store.view store.new)
        → (S.Store.view store.old).is_broken ≡ false) }
    ensures live { OnOk result (IsSome ((S.Store.view store.new).cursors 0)) }
    ensures kept { IsClean (S.Store.view store.new)
        → KeepsLast (S.Store.view store.old) (S.Store.view store.new) }
    ensures quiet { IsQuiet S.Store.view S.Store.faults S.Store.recovers S.Store.is_shielded
        store.old store.new }
{
    let key = Row::new(heap);
    Ok(store.seek(0, table, &key, Direction::Forward)?)
}

/// Writes the cursor's next row over `row`, or answers false at its end.
fn read_next<S: Store>(store: &mut S, row: &mut Row) -> Result<bool, VolumeFault>
    requires { IsSome ((S.Store.view store.old).cursors 0) }
    ensures ok { IfOk result (λ found. IsClean (S.Store.view store.new) → (rows : List Cells)
        → (S.Store.view store.old).cursors 0 ≡ Some rows → (left : List Cells)
        × IsReading (S.Store.view store.old) (S.Store.view store.new) left
        × Gives rows row.new found left) }
    ensures live { OnOk result (IsSome ((S.Store.view store.new).cursors 0)) }
    ensures kept { IsClean (S.Store.view store.new)
        → KeepsLast (S.Store.view store.old) (S.Store.view store.new) }
    ensures quiet { IsQuiet S.Store.view S.Store.faults S.Store.recovers S.Store.is_shielded
        store.old store.new }
{
    Ok(store.next(0, row)?)
}

/// Keeps a feature behind those that were read. The rows of features with high ids come first.
fn keep<A: Allocator>(
    highs: &mut Vec<Feature, A>,
    lows: &mut Vec<Feature, A>,
    feature: Feature,
) -> Result<(), VolumeFault>
    ensures rows { OnOk result (highs.new.items ++ lows.new.items
        ≡ (highs.old.items ++ lows.old.items) ++ feature ∷ []) }
    ensures highs { OnOk result (AreHigh highs.old.items → AreHigh highs.new.items) }
    ensures lows { OnOk result (AreLow lows.old.items → AreLow lows.new.items) }
{
    if feature.id < 9_223_372_036_854_775_808 {
        lows.try_push(feature)?;
        return Ok(());
    }
    if !lows.is_empty() {
        return Err(VolumeFault::BadFeature);
    }
    highs.try_push(feature)?;
    Ok(())
}

/// Whether ids rise from each feature to the next.
fn rise(features: &[Feature]) -> bool
    ensures { IsTrue result → IsSortedById features.now }
{
    for i in 1..features.len() {
        if features[i - 1].id >= features[i].id {
            return false;
        }
    }
    true
}

/// The features that were read, by rising id.
fn joined<A: Allocator>(
    mut lows: Vec<Feature, A>,
    highs: &[Feature],
) -> Result<Vec<Feature, A>, VolumeFault>
    ensures items { IfOk result (λ features. features.items ≡ lows.items ++ highs.now) }
    ensures sorted { IfOk result (λ features. IsSortedById features.items) }
{
    try_extend(&mut lows, highs)?;
    if !rise(lows.as_slice()) {
        return Err(VolumeFault::BadFeature);
    }
    Ok(lows)
}

/// The features of a table, by rising id.
fn read_features<S: Store, A: Allocator + Copy>(
    store: &mut S,
    alloc: A,
    heap: Global,
    buffers: &mut Buffers,
    table: u32,
) -> Result<Vec<Feature, A>, VolumeFault>
    requires { IsClean (S.Store.view store.old) → (S.Store.view store.old).shape table ≡ kind.Table }
    ensures ok { IfOk result (λ features. IsClean (S.Store.view store.new)
        → (S.Store.view store.old).trees table ≡ feature_rows features.items) }
    ensures sorted { IfOk result (λ features. IsSortedById features.items) }
    ensures ids { IfOk result (λ features. AreIds features.items) }
    ensures same { OnOk result (IsClean (S.Store.view store.new)
        → IsRead (S.Store.view store.old) (S.Store.view store.new)) }
    ensures kept { IsClean (S.Store.view store.new)
        → KeepsLast (S.Store.view store.old) (S.Store.view store.new) }
    ensures quiet { IsQuiet S.Store.view S.Store.faults S.Store.recovers S.Store.is_shielded
        store.old store.new }
{
    let mut highs = Vec::new(alloc);
    let mut lows = Vec::new(alloc);
    begin_reading(store, table, heap)?;
    for _ in 0..u64::MAX {
        if !read_next(store, &mut buffers.row)? {
            return joined(lows, highs.as_slice());
        }
        let feature = read_feature(&buffers.row, &mut buffers.found)?;
        keep(&mut highs, &mut lows, feature)?;
    }
    Err(VolumeFault::BadFeature)
}

/// The version and the policy of a table that has just the one row of them.
fn read_policy<S: Store>(
    store: &mut S,
    heap: Global,
    buffers: &mut Buffers,
    table: u32,
) -> Result<(u64, Decider), VolumeFault>
    requires { IsClean (S.Store.view store.old) → (S.Store.view store.old).shape table ≡ kind.Table }
    ensures ok { IfOk result (λ policy. IsClean (S.Store.view store.new)
        → (S.Store.view store.old).trees table ≡ row_of_policy policy.0 policy.1 ∷ []) }
    ensures sound { OnOk result (IsClean (S.Store.view store.new)
        → (S.Store.view store.old).is_broken ≡ false) }
    ensures same { OnOk result (IsClean (S.Store.view store.new)
        → IsRead (S.Store.view store.old) (S.Store.view store.new)) }
    ensures kept { IsClean (S.Store.view store.new)
        → KeepsLast (S.Store.view store.old) (S.Store.view store.new) }
    ensures quiet { IsQuiet S.Store.view S.Store.faults S.Store.recovers S.Store.is_shielded
        store.old store.new }
{
    begin_reading(store, table, heap)?;
    if !read_next(store, &mut buffers.row)? {
        return Err(VolumeFault::BadPolicy);
    }
    if read_next(store, &mut buffers.found)? {
        return Err(VolumeFault::BadPolicy);
    }
    read_policy_row(heap, &buffers.row, &mut buffers.found)
}

/// The line of a record's row, which has to have this number. `expected` is written over.
fn check_line(row: &Row, expected: &mut Row, number: u64) -> Result<(), VolumeFault>
    requires { number < NUMBER_END }
    ensures { OnOk result (row.now ≡ row_of_line number (bytes (column row.now 2))) }
{
    let ValueRef::Text(line) = row.get(2) else {
        return Err(VolumeFault::BadRecord);
    };
    set_line(expected, number, line)?;
    if !expected.is_same(row) {
        return Err(VolumeFault::BadRecord);
    }
    Ok(())
}

/// The number after the last record of a table, whose records are numbered from `first` on without
/// a gap.
pub(crate) fn read_lines<S: Store>(
    store: &mut S,
    heap: Global,
    buffers: &mut Buffers,
    table: u32,
    first: u64,
) -> Result<u64, VolumeFault>
    requires { IsClean (S.Store.view store.old) → (S.Store.view store.old).shape table ≡ kind.Table }
    ensures ok { IfOk result (λ next. IsClean (S.Store.view store.new) → (lines : List (List ℕ))
        × ((S.Store.view store.old).trees table ≡ rows_from first lines)
        × (next ≡ first + length lines)) }
    ensures same { OnOk result (IsClean (S.Store.view store.new)
        → IsRead (S.Store.view store.old) (S.Store.view store.new)) }
    ensures kept { IsClean (S.Store.view store.new)
        → KeepsLast (S.Store.view store.old) (S.Store.view store.new) }
    ensures quiet { IsQuiet S.Store.view S.Store.faults S.Store.recovers S.Store.is_shielded
        store.old store.new }
{
    begin_reading(store, table, heap)?;
    let mut number = first;
    for _ in 0..u64::MAX {
        if !read_next(store, &mut buffers.row)? {
            return Ok(number);
        }
        if number >= NUMBER_END {
            return Err(VolumeFault::NoNumber);
        }
        check_line(&buffers.row, &mut buffers.found, number)?;
        number += 1;
    }
    Err(VolumeFault::BadRecord)
}

/// The state that a volume keeps.
#[derive(Debug, Drop)]
pub struct State<A: Allocator> {
    /// The features, by rising id.
    pub features: Vec<Feature, A>,
    /// The version of the last list that was applied.
    pub version: u64,
    /// The policy in force, with its edition.
    pub decider: Decider,
}

/// The state that the tables hold.
pub(crate) fn read_state<S: Store, A: Allocator + Copy>(
    store: &mut S,
    alloc: A,
    heap: Global,
    buffers: &mut Buffers,
    tables: &Tables,
) -> Result<State<A>, VolumeFault>
    requires { IsClean (S.Store.view store.old) → AreTables (S.Store.view store.old) tables.now }
    ensures ok { IfOk result (λ state. IsClean (S.Store.view store.new)
        → HoldsState tables.now (S.Store.view store.old).trees (state_of state)) }
    ensures sorted { IfOk result (λ state. IsSortedById state.features.items) }
    ensures ids { IfOk result (λ state. AreIds state.features.items) }
    ensures sound { OnOk result (IsClean (S.Store.view store.new)
        → (S.Store.view store.old).is_broken ≡ false) }
    ensures same { OnOk result (IsClean (S.Store.view store.new)
        → IsRead (S.Store.view store.old) (S.Store.view store.new)) }
    ensures kept { IsClean (S.Store.view store.new)
        → KeepsLast (S.Store.view store.old) (S.Store.view store.new) }
    ensures quiet { IsQuiet S.Store.view S.Store.faults S.Store.recovers S.Store.is_shielded
        store.old store.new }
{
    let (version, decider) = read_policy(store, heap, buffers, tables.policy)?;
    let features = read_features(store, alloc, heap, buffers, tables.features)?;
    Ok(State {
        features,
        version,
        decider,
    })
}

/// All that the tables keep, where the first record has this number: the state, and the number
/// after the last record.
pub(crate) fn read_all<S: Store, A: Allocator + Copy>(
    store: &mut S,
    alloc: A,
    heap: Global,
    buffers: &mut Buffers,
    tables: &Tables,
    first: u64,
) -> Result<(State<A>, u64), VolumeFault>
    requires { IsClean (S.Store.view store.old) → AreTables (S.Store.view store.old) tables.now }
    ensures ok { IfOk result (λ all. IsClean (S.Store.view store.new) → (lines : List (List ℕ))
        × HoldsAt tables.now (S.Store.view store.old).trees all.1
        (record { state = state_of all.0; first = first; lines = lines })) }
    ensures sorted { IfOk result (λ all. IsSortedById all.0.features.items) }
    ensures sound { OnOk result (IsClean (S.Store.view store.new)
        → (S.Store.view store.old).is_broken ≡ false) }
    ensures same { OnOk result (IsClean (S.Store.view store.new)
        → IsRead (S.Store.view store.old) (S.Store.view store.new)) }
    ensures kept { IsClean (S.Store.view store.new)
        → KeepsLast (S.Store.view store.old) (S.Store.view store.new) }
    ensures quiet { IsQuiet S.Store.view S.Store.faults S.Store.recovers S.Store.is_shielded
        store.old store.new }
{
    let state = read_state(store, alloc, heap, buffers, tables)?;
    let next = read_lines(store, heap, buffers, tables.records, first)?;
    Ok((state, next))
}
