//! The table in which a store keeps its features.

ghost use Rattle.std.specs.Prelude.{◌≡◌, ◌+◌, ◌≤◌, vec_len, ℕ, IsOk, OnOk, None, IsSome};
ghost use Rattle.features.specs.Rows.{feature_with, with_row, with_shape, without};
ghost use Rattle.feature_store.specs.Tables.{HasRoom, IsSound, rows_of};

use crate::blocks::Entry;
use crate::entries::Entries;
use crate::rows::Row;
use features::Feature;
use kept_shapes::KeptShape;
use memory::{GrowVec, NoMemory};
use std::alloc::Allocator;

/// The most features of a store.
pub const FEATURE_LIMIT: usize = 4_000_000;

/// The most changes that a store makes at once.
pub const LIST_LIMIT: usize = 4_096;

/// Features, each at a place, and apart from them the place of each id. An insertion and a deletion
/// move entries of ids, and no feature but one.
#[derive(Debug, Drop)]
pub(crate) struct Table<A: Allocator> {
    pub(crate) entries: Entries<A>,
    pub(crate) features: Vec<Row<A>, A>,
}

/// The feature with this id.
pub(crate) fn find<A: Allocator>(table: &Table<A>, id: u64) -> Option<Feature>
    requires { IsSound table.now }
    ensures { result ≡ feature_with id (rows_of table.now) }
{
    match table.entries.place_of(id) {
        Some(place) => Some(table.features[place as usize].feature()),
        None => None,
    }
}

/// The feature with this id, looked for near where one was found before.
pub(crate) fn find_near<A: Allocator>(
    table: &Table<A>,
    near: &mut usize,
    id: u64,
) -> Option<Feature>
    requires { IsSound table.now }
    ensures { result ≡ feature_with id (rows_of table.now) }
{
    match table.entries.place_near(near, id) {
        Some(place) => Some(table.features[place as usize].feature()),
        None => None,
    }
}

/// Makes room for this many more features.
pub(crate) fn make_room<A: Allocator>(
    table: &mut Table<A>,
    additional: usize,
) -> Result<(), NoMemory>
    requires few { additional ≤ LIST_LIMIT }
    requires sound { IsSound table.old }
    requires numbers { vec_len table.old.features ≤ FEATURE_LIMIT }
    ensures rows { rows_of table.new ≡ rows_of table.old }
    ensures sound { IsSound table.new }
    ensures ok { OnOk result (HasRoom additional table.new) }
    ensures certain { additional ≡ 0 → IsOk result }
{
    table.entries.make_room(table.features.len(), additional)?;
    table.features.make_slots(additional)
}

/// Adds a feature, whose id is new.
pub(crate) fn put<A: Allocator>(table: &mut Table<A>, row: Row<A>)
    requires sound { IsSound table.old }
    requires absent { feature_with row.id (rows_of table.old) ≡ None }
    requires room { HasRoom 1 table.old }
    ensures rows { rows_of table.new ≡ with_row row (rows_of table.old) }
    ensures sound { IsSound table.new }
    ensures room { (n : ℕ) → HasRoom (n + 1) table.old → HasRoom n table.new }
{
    let id = row.id();
    let place = table.features.len() as u32;
    table.features.push_reserved(row);
    table.entries.insert(Entry { id, place });
}

/// Gives a feature another shape and version.
pub(crate) fn reshape<A: Allocator>(
    table: &mut Table<A>,
    id: u64,
    version: u64,
    shape: KeptShape<A>,
)
    requires sound { IsSound table.old }
    requires present { IsSome (feature_with id (rows_of table.old)) }
    ensures rows { rows_of table.new ≡ with_shape id version shape (rows_of table.old) }
    ensures sound { IsSound table.new }
    ensures room { (n : ℕ) → HasRoom n table.old → HasRoom n table.new }
{
    match table.entries.place_of(id) {
        Some(place) => table.features[place as usize].reshape(version, shape),
        None => unreachable!(),
    }
}

/// Removes a feature. The last feature moves to its place.
pub(crate) fn take_out<A: Allocator>(table: &mut Table<A>, id: u64)
    requires sound { IsSound table.old }
    requires present { IsSome (feature_with id (rows_of table.old)) }
    ensures rows { rows_of table.new ≡ without id (rows_of table.old) }
    ensures sound { IsSound table.new }
    ensures room { (n : ℕ) → HasRoom n table.old → HasRoom n table.new }
{
    match table.entries.remove(id) {
        Some(place) => {
            table.features.swap_remove(place as usize);
            let last = table.features.len() as u32;
            if place < last {
                let moved = table.features[place as usize].id();
                table.entries.renumber(moved, last, place);
            }
        }
        None => unreachable!(),
    }
}
