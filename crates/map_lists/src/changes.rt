//! Reads the changes of a list from JSON values.

ghost use Rattle.std.specs.Prelude.{◌≡◌};
ghost use Rattle.json.specs.Value.{value_view};
ghost use Rattle.map_changes.specs.Faults.{Gives};
ghost use Rattle.map_lists.specs.Faults.{GivesItem, GivesPart};
ghost use Rattle.map_lists.specs.Items.{action_in, action_named, action_of, added, change_by, change_in, deleted, feature_added, number_in, reshaped, shape_of};

use crate::faults::{ItemFault, Part};
use features::Change;
use geojson::{feature_of, geometry_of, whole_number};
use grid::Grid;
use json::Value;
use map_asks::Layer;
use map_changes::{ChangeFault, Edit, FOR_ADDING, added_by, shape_in};
use plane::Shape;
use std::alloc::Allocator;

/// What a change of a list does.
#[derive(Clone, Copy, Debug)]
pub(crate) enum Action {
    /// Adds a feature.
    Add,
    /// Gives a feature another shape.
    Reshape,
    /// Removes a feature.
    Delete,
}

/// The action of a name.
fn action_of(name: &str) -> Option<Action>
    ensures { result ≡ action_of name.now }
{
    if name == "add" {
        Some(Action::Add)
    } else if name == "reshape" {
        Some(Action::Reshape)
    } else if name == "delete" {
        Some(Action::Delete)
    } else {
        None
    }
}

/// The action of the member `action`.
fn action_named<A: Allocator>(value: &Value<'_, A>) -> Option<Action>
    ensures { result ≡ action_named (value_view value.now) }
{
    action_of(value.get("action")?.as_str()?)
}

/// What is to be done.
#[tactic(auto, unfolding(crate::specs::Items::action_in))]
fn action_in<A: Allocator>(value: &Value<'_, A>) -> Result<Action, ItemFault>
    ensures { result ≡ action_in (value_view value.now) }
{
    match action_named(value) {
        Some(action) => Ok(action),
        None => Err(ItemFault::form_at(Part::Action)),
    }
}

/// A member that is a whole number.
#[tactic(auto, unfolding(crate::specs::Items::number_in))]
fn number_in<A: Allocator>(value: &Value<'_, A>, part: Part, name: &str) -> Result<u64, ItemFault>
    ensures { result ≡ number_in part name.now (value_view value.now) }
{
    let Some(member) = value.get(name) else {
        return Err(ItemFault::form_at(part));
    };
    match whole_number(member) {
        Some(n) => Ok(n),
        None => Err(ItemFault::form_at(part)),
    }
}

/// The addition of the feature that a value says.
fn feature_added<A: Allocator + Copy>(
    alloc: A,
    grid: &Grid,
    value: &Value<'_, A>,
) -> Result<Edit, ChangeFault>
    ensures { Gives result (feature_added grid.now (value_view value.now)) }
{
    match feature_of(alloc, grid, FOR_ADDING, value) {
        Ok(given) => added_by(Layer::All, &given),
        Err(fault) => Err(ChangeFault::Feature(fault)),
    }
}

/// The addition of the feature of a member.
#[tactic(auto, unfolding(crate::specs::Items::added))]
fn added<A: Allocator + Copy>(
    alloc: A,
    grid: &Grid,
    value: &Value<'_, A>,
) -> Result<Change, ItemFault>
    ensures { GivesItem result (added grid.now (value_view value.now)) }
{
    let Some(feature) = value.get("feature") else {
        return Err(ItemFault::form_at(Part::Feature));
    };
    match feature_added(alloc, grid, feature) {
        Ok(edit) => Ok(edit.change),
        Err(fault) => Err(ItemFault {
            part: Part::Feature,
            fault,
        }),
    }
}

/// The shape of the geometry of a member.
fn shape_of<A: Allocator + Copy>(
    alloc: A,
    grid: &Grid,
    value: &Value<'_, A>,
) -> Result<Shape, ChangeFault>
    ensures { GivesPart result (shape_of grid.now (value_view value.now)) }
{
    match geometry_of(alloc, grid, value) {
        Ok(geometry) => shape_in(geometry.paths.as_slice()),
        Err(fault) => Err(ChangeFault::Feature(fault)),
    }
}

/// The change of a feature's shape.
#[tactic(auto, unfolding(crate::specs::Items::reshaped))]
fn reshaped<A: Allocator + Copy>(
    alloc: A,
    grid: &Grid,
    value: &Value<'_, A>,
) -> Result<Change, ItemFault>
    ensures { GivesItem result (reshaped grid.now (value_view value.now)) }
{
    let id = number_in(value, Part::Id, "id")?;
    let version = number_in(value, Part::Version, "version")?;
    match shape_of(alloc, grid, value) {
        Ok(shape) => Ok(Change::Reshape { id, version, shape }),
        Err(fault) => Err(ItemFault {
            part: Part::Whole,
            fault,
        }),
    }
}

/// The removal of a feature.
#[tactic(auto, unfolding(crate::specs::Items::deleted))]
fn deleted<A: Allocator>(value: &Value<'_, A>) -> Result<Change, ItemFault>
    ensures { result ≡ deleted (value_view value.now) }
{
    let id = number_in(value, Part::Id, "id")?;
    let version = number_in(value, Part::Version, "version")?;
    Ok(Change::Delete { id, version })
}

/// The change of a value by what is to be done.
fn change_by<A: Allocator + Copy>(
    alloc: A,
    grid: &Grid,
    value: &Value<'_, A>,
    action: Action,
) -> Result<Change, ItemFault>
    ensures { GivesItem result (change_by grid.now (value_view value.now) action) }
{
    match action {
        Action::Add => added(alloc, grid, value),
        Action::Reshape => reshaped(alloc, grid, value),
        Action::Delete => deleted(value),
    }
}

/// The change that a value says.
#[tactic(auto, unfolding(crate::specs::Items::change_in))]
pub(crate) fn change_in<A: Allocator + Copy>(
    alloc: A,
    grid: &Grid,
    value: &Value<'_, A>,
) -> Result<Change, ItemFault>
    ensures { GivesItem result (change_in grid.now (value_view value.now)) }
{
    let action = action_in(value)?;
    change_by(alloc, grid, value, action)
}
