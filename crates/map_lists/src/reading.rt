//! Reads the list of changes that a request asks for.

ghost use Rattle.std.specs.Prelude.{◌≡◌, Ok, option_map};
ghost use Rattle.json.specs.Value.{items_view, value_view};
ghost use Rattle.geojson.specs.Reading.{list_from};
ghost use Rattle.map_lists.specs.Faults.{Gives};
ghost use Rattle.map_lists.specs.Reading.{ReadsList, apart, body_list, change_at, counted, list_in, listed};
ghost use Rattle.map_lists.specs.Requests.{list_data};
ghost use Rattle.map_lists.specs.Views.{changes_view, values_view};

use crate::changes::change_in;
use crate::distinct::first_again;
use crate::faults::ListFault;
use crate::requests::ListRequest;
use features::Change;
use geojson::read_json;
use grid::Grid;
use json::{Scratch, Value};
use map_asks::is_empty_query;
use map_changes::is_json;
use memory::GrowVec;
use plain_world::CHANGE_LIMIT;
use std::alloc::Allocator;

/// The values of the member `changes`.
fn listed<'v, 'a, A: Allocator>(value: &'v Value<'a, A>) -> Result<&'v [Value<'a, A>], ListFault>
    ensures { values_view result ≡ listed (value_view value.now) }
{
    match value.get("changes") {
        Some(Value::Array(items)) => Ok(items.as_slice()),
        _ => Err(ListFault::Form),
    }
}

/// As many values as a list may have.
#[tactic(auto, using(crate::proofs::ReadLists::count_seen))]
fn counted<'v, 'a, A: Allocator>(items: &'v [Value<'a, A>]) -> Result<&'v [Value<'a, A>], ListFault>
    ensures { values_view result ≡ counted (items_view items.now) }
{
    if items.is_empty() {
        Err(ListFault::Empty)
    } else if items.len() <= CHANGE_LIMIT {
        Ok(items)
    } else {
        Err(ListFault::TooMany)
    }
}

/// The change at an index.
fn change_at<A: Allocator + Copy>(
    alloc: A,
    grid: &Grid,
    value: &Value<'_, A>,
    index: usize,
) -> Result<Change, ListFault>
    ensures { Gives result (change_at grid.now index (value_view value.now)) }
{
    match change_in(alloc, grid, value) {
        Ok(change) => Ok(change),
        Err(fault) => Err(ListFault::Item(index, fault)),
    }
}

/// The changes of values.
fn changes_of<A: Allocator + Copy>(
    alloc: A,
    grid: &Grid,
    items: &[Value<'_, A>],
) -> Result<Vec<Change, A>, ListFault>
    ensures { Gives (changes_view result)
        (list_from (change_at grid.now) 0 (items_view items.now)) }
{
    let mut changes = Vec::new(alloc);
    for (index, item) in items.iter().enumerate() {
        match change_at(alloc, grid, item, index) {
            Ok(change) => changes.try_push(change)?,
            Err(fault) => return Err(fault),
        }
    }
    Ok(changes)
}

/// The changes, where each is of another feature.
#[tactic(auto, unfolding(crate::specs::Reading::apart))]
fn apart<A: Allocator>(changes: Vec<Change, A>) -> Result<Vec<Change, A>, ListFault>
    ensures { changes_view result ≡ apart changes.items }
{
    match first_again(changes.as_slice()) {
        None => Ok(changes),
        Some(index) => Err(ListFault::Twice(index)),
    }
}

/// The list that a value says.
#[tactic(auto, unfolding(crate::specs::Reading::list_in))]
fn list_in<A: Allocator + Copy>(
    alloc: A,
    grid: &Grid,
    value: &Value<'_, A>,
) -> Result<Vec<Change, A>, ListFault>
    ensures { Gives (changes_view result) (list_in grid.now (value_view value.now)) }
{
    let items = counted(listed(value)?)?;
    let changes = changes_of(alloc, grid, items)?;
    apart(changes)
}

/// The list that a body says.
#[tactic(auto, unfolding(crate::specs::Reading::body_list))]
fn body_list<A: Allocator + Copy>(
    alloc: A,
    grid: &Grid,
    body: &[u8],
) -> Result<Vec<Change, A>, ListFault>
    ensures { Gives (changes_view result) (body_list grid.now body.now) }
{
    let mut scratch = Scratch::new(alloc);
    match read_json(alloc, body, &mut scratch) {
        Ok(value) => list_in(alloc, grid, &value),
        Err(cause) => Err(ListFault::Unread(cause)),
    }
}

/// The list of changes that a request asks for, where the grid says which number a coordinate
/// means: the array `changes` of the body, an object. Each change has an `action`:
///
/// - `add` has a `feature`, which is added as `POST` adds it to the collection `features`;
/// - `reshape` has the `id`, the `version` and the new `geometry` of a feature;
/// - `delete` has the `id` and the `version` of one.
///
/// Other members are not looked at; of two of a name the last counts. The fault is the first in
/// this order: `Parameter` for any query; `Media`; `Unread`; `Form`; `Empty`; `TooMany`; `Item` for
/// the first change that is none, as a request to make that change alone would be at fault;
/// `Twice`. A fault `Unread` or `Item` also says that an allocation was refused.
#[tactic(auto, unfolding(crate::specs::Reading::list_read))]
pub fn read_list<A: Allocator + Copy>(
    alloc: A,
    grid: &Grid,
    request: &ListRequest,
) -> Result<Vec<Change, A>, ListFault>
    ensures { ReadsList grid.now (list_data request.now) (changes_view result) }
{
    if !is_empty_query(request.query) {
        return Err(ListFault::Parameter);
    }
    if !is_json(request.media) {
        return Err(ListFault::Media);
    }
    body_list(alloc, grid, request.body)
}
