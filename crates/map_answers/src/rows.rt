//! The rows of a collection, and those of a page.

ghost use Rattle.std.specs.Prelude.{◌≡◌, ◌≤◌, length, IfOk};
ghost use Rattle.std.specs.List.{prefix_len};
ghost use Rattle.map_answers.specs.Rows.{behind, is_in, is_up_to, next_after, of_layer, page, row_of};

use features::Feature;
use map_asks::Layer;
use memory::{GrowVec, NoMemory};
use std::alloc::Allocator;

/// Whether a feature belongs to a collection.
fn is_in(layer: &Layer, feature: &Feature) -> bool
    ensures { result ≡ is_in layer.now feature.now }
{
    match layer {
        Layer::All => true,
        Layer::Class(class) => feature.class == *class,
    }
}

/// Of these rows, those of a collection, in order.
pub fn rows_of<A: Allocator>(
    alloc: A,
    layer: &Layer,
    rows: &[Feature],
) -> Result<Vec<Feature, A>, NoMemory>
    ensures { IfOk result (λ kept. kept.items ≡ of_layer layer.now rows.now) }
{
    let mut kept = Vec::new(alloc);
    for row in rows {
        if is_in(layer, row) {
            kept.try_push(*row)?;
        }
    }
    Ok(kept)
}

/// Of these rows of a search, the one of this id, where it is of the collection.
pub fn feature_of(layer: &Layer, id: u64, rows: &[Feature]) -> Option<Feature>
    ensures { result ≡ row_of layer.now id rows.now }
{
    for row in rows {
        if row.id == id && is_in(layer, row) {
            return Some(*row);
        }
    }
    None
}

/// The rows from the first one on that has a greater id; all of them where no id is given.
fn behind(after: Option<u64>, rows: &[Feature]) -> &[Feature]
    ensures { result.now ≡ behind after rows.now }
{
    match after {
        None => rows,
        Some(id) => &rows[count_up_to(id, rows)..],
    }
}

/// How many rows stand before the first one that has a greater id.
#[tactic(auto, using(crate::proofs::RowLemmas::prefix_fits))]
fn count_up_to(id: u64, rows: &[Feature]) -> usize
    ensures value { result ≡ prefix_len (is_up_to id) rows.now }
    ensures fits { result ≤ length rows.now }
{
    rows.iter().take_while(|row| row.id <= id).count()
}

/// A page of rows that are sorted by id: the first ones, at most `limit`, of those with ids above
/// `after`.
pub fn page(rows: &[Feature], after: Option<u64>, limit: u64) -> &[Feature]
    ensures { result.now ≡ page after limit rows.now }
{
    let rest = behind(after, rows);
    if rest.len() as u64 <= limit {
        rest
    } else {
        &rest[..limit as usize]
    }
}

/// The id behind which the next page begins; `None` where no row is left for one.
pub(crate) fn next_after(rows: &[Feature], after: Option<u64>, limit: u64) -> Option<u64>
    ensures { result ≡ next_after after limit rows.now }
{
    if behind(after, rows).len() as u64 <= limit {
        return None;
    }
    match page(rows, after, limit).last() {
        None => None,
        Some(row) => Some(row.id),
    }
}
