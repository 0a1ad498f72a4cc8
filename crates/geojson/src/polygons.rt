//! Reads the coordinates of several polygons.

ghost use Rattle.std.specs.Prelude.{map};
ghost use Rattle.json.specs.Value.{value_view, items_view};
ghost use Rattle.geojson.specs.Faults.{Gives};
ghost use Rattle.geojson.specs.Paths.{path_view};
ghost use Rattle.geojson.specs.Reading.{list_from, with_all};
ghost use Rattle.geojson.specs.Given.{joined, polygon_at, polygons_in};

use crate::faults::{Cause, CoordinatesFault};
use crate::geometries::{Layout, Path};
use crate::reading::put_paths;
use grid::Grid;
use json::Value;
use std::alloc::Allocator;

/// Appends the paths of the polygon at an index.
#[tactic(auto, using(crate::proofs::Joined::polygon_put, crate::proofs::Joined::polygon_fault))]
fn put_polygon<A: Allocator + Copy>(
    alloc: A,
    grid: &Grid,
    value: &Value<'_, A>,
    index: usize,
    all: &mut Vec<Path<A>, A>,
) -> Result<(), CoordinatesFault>
    ensures { Gives (λ _. map path_view all.new.items) result
        (with_all (map path_view all.old.items) (polygon_at grid.now index (value_view value.now))) }
{
    match put_paths(alloc, grid, Layout::Rings, value, all) {
        Ok(()) => Ok(()),
        Err(fault) => Err(fault.in_polygon(index)),
    }
}

/// The paths of an array of polygons.
pub(crate) fn polygons<A: Allocator + Copy>(
    alloc: A,
    grid: &Grid,
    value: &Value<'_, A>,
) -> Result<Vec<Path<A>, A>, CoordinatesFault>
    ensures { Gives (λ paths. map path_view paths.items) result
        (polygons_in grid.now (value_view value.now)) }
{
    let Value::Array(items) = value else {
        return Err(CoordinatesFault::here(Cause::Form));
    };
    polygons_of(alloc, grid, items.as_slice())
}

/// The paths of polygons.
fn polygons_of<A: Allocator + Copy>(
    alloc: A,
    grid: &Grid,
    items: &[Value<'_, A>],
) -> Result<Vec<Path<A>, A>, CoordinatesFault>
    ensures { Gives (λ paths. map path_view paths.items) result
        (joined (list_from (polygon_at grid.now) 0 (items_view items.now))) }
{
    let mut all = Vec::new(alloc);
    for (index, item) in items.iter().enumerate() {
        match put_polygon(alloc, grid, item, index, &mut all) {
            Ok(()) => {}
            Err(fault) => return Err(fault),
        }
    }
    Ok(all)
}
