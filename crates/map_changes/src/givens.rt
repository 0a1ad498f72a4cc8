//! What a feature in a request changes.

ghost use Rattle.std.specs.Prelude.{◌≡◌};
ghost use Rattle.geojson.specs.Given.{given_view};
ghost use Rattle.map_changes.specs.Givens.{added_by, class_in, is_of, reshaped_by};

use crate::edits::Edit;
use crate::faults::ChangeFault;
use crate::shapes::shape_in;
use features::{Change, Name};
use geojson::Given;
use map_asks::Layer;
use std::alloc::Allocator;

/// Whether what is said of a feature's id, if anything, is this one.
fn is_of(id: u64, given: Option<u64>) -> bool
    ensures { result ≡ is_of id given }
{
    match given {
        Some(other) => other == id,
        None => true,
    }
}

/// The class of a feature that is added in a collection.
fn class_in(layer: &Layer, given: Option<Name>) -> Result<Name, ChangeFault>
    ensures { result ≡ class_in layer.now given }
{
    match (layer, given) {
        (Layer::All, Some(class)) => Ok(class),
        (Layer::All, None) => Err(ChangeFault::Class),
        (Layer::Class(class), None) => Ok(*class),
        (Layer::Class(class), Some(other)) => {
            if other == *class {
                Ok(*class)
            } else {
                Err(ChangeFault::Class)
            }
        }
    }
}

/// The addition of a feature in a collection. `Id` where the feature has none; `Class` where it has
/// none at `features`, or another one than the collection; then `Parts` and `Shape`.
pub fn added_by<A: Allocator>(layer: Layer, given: &Given<A>) -> Result<Edit, ChangeFault>
    ensures { result ≡ added_by layer (given_view given.now) }
{
    let Some(id) = given.id else {
        return Err(ChangeFault::Id);
    };
    let class = class_in(&layer, given.class)?;
    let shape = shape_in(given.geometry.paths.as_slice())?;
    let change = Change::Add { id, class, shape };
    Ok(Edit { layer, change })
}

/// The change of a feature's shape.
pub(crate) fn reshaped_by<A: Allocator>(
    id: u64,
    version: u64,
    given: &Given<A>,
) -> Result<Edit, ChangeFault>
    ensures { result ≡ reshaped_by id version (given_view given.now) }
{
    if !is_of(id, given.id) {
        return Err(ChangeFault::Id);
    }
    let shape = shape_in(given.geometry.paths.as_slice())?;
    let change = Change::Reshape { id, version, shape };
    Ok(Edit {
        layer: Layer::All,
        change,
    })
}
