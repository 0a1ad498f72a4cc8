//! Reads the coordinates of geometries from JSON values.

ghost use Rattle.std.specs.Prelude.{◌≡◌, map};
ghost use Rattle.json.specs.Value.{value_view, items_view};
ghost use Rattle.geojson.specs.Faults.{Gives, at_axis};
ghost use Rattle.geojson.specs.Paths.{path_view};
ghost use Rattle.geojson.specs.Reading.{coordinate_in, position_in, point_at, list_from, points_in, path_at, paths_in, role_at, with_all};

use crate::faults::{Cause, CoordinatesFault};
use crate::geometries::{Layout, Path, Role};
use grid::{Axis, Grid};
use json::Value;
use memory::GrowVec;
use plane::Point;
use std::alloc::Allocator;

/// The coordinate that a value is.
#[tactic(auto, unfolding(crate::specs::Reading::coordinate_in))]
fn coordinate<A: Allocator>(grid: &Grid, axis: Axis, value: &Value<'_, A>) -> Result<i32, Cause>
    ensures { result ≡ coordinate_in grid.now axis (value_view value.now) }
{
    match value.as_number() {
        Some(text) => match grid::coordinate_of(grid, axis, text.as_bytes()) {
            Ok(n) => Ok(n),
            Err(fault) => Err(Cause::Number(fault)),
        },
        None => Err(Cause::Form),
    }
}

/// The coordinate that a number of a position is.
fn number<A: Allocator>(
    grid: &Grid,
    axis: Axis,
    value: &Value<'_, A>,
    index: usize,
) -> Result<i32, CoordinatesFault>
    ensures { result ≡ at_axis index (coordinate_in grid.now axis (value_view value.now)) }
{
    match coordinate(grid, axis, value) {
        Ok(n) => Ok(n),
        Err(cause) => Err(CoordinatesFault::at_axis(cause, index)),
    }
}

/// The point of a position.
#[tactic(auto, unfolding(crate::specs::Reading::position_in))]
pub(crate) fn position<A: Allocator>(
    grid: &Grid,
    value: &Value<'_, A>,
) -> Result<Point, CoordinatesFault>
    ensures { result ≡ position_in grid.now (value_view value.now) }
{
    let Some(x) = value.at(0) else {
        return Err(CoordinatesFault::here(Cause::Form));
    };
    let Some(y) = value.at(1) else {
        return Err(CoordinatesFault::here(Cause::Form));
    };
    let x = number(grid, Axis::X, x, 0)?;
    let y = number(grid, Axis::Y, y, 1)?;
    Ok(Point { x, y })
}

/// The point of the position at an index.
fn position_at<A: Allocator>(
    grid: &Grid,
    value: &Value<'_, A>,
    index: usize,
) -> Result<Point, CoordinatesFault>
    ensures { result ≡ point_at grid.now index (value_view value.now) }
{
    match position(grid, value) {
        Ok(point) => Ok(point),
        Err(fault) => Err(fault.in_point(index)),
    }
}

/// The points of an array of positions.
pub(crate) fn points<A: Allocator + Copy>(
    alloc: A,
    grid: &Grid,
    value: &Value<'_, A>,
) -> Result<Vec<Point, A>, CoordinatesFault>
    ensures { Gives (λ points. points.items) result (points_in grid.now (value_view value.now)) }
{
    let Value::Array(items) = value else {
        return Err(CoordinatesFault::here(Cause::Form));
    };
    points_of(alloc, grid, items.as_slice())
}

/// The points of positions.
fn points_of<A: Allocator + Copy>(
    alloc: A,
    grid: &Grid,
    items: &[Value<'_, A>],
) -> Result<Vec<Point, A>, CoordinatesFault>
    ensures { Gives (λ points. points.items) result (list_from (point_at grid.now) 0 (items_view items.now)) }
{
    let mut points = Vec::new(alloc);
    for (index, item) in items.iter().enumerate() {
        match position_at(grid, item, index) {
            Ok(point) => points.try_push(point)?,
            Err(fault) => return Err(fault),
        }
    }
    Ok(points)
}

/// What the path at an index is.
fn role(layout: Layout, index: usize) -> Role
    ensures { result ≡ role_at layout index }
{
    match layout {
        Layout::Lines => Role::Line,
        Layout::Rings => if index == 0 { Role::Outer } else { Role::Hole },
    }
}

/// The path at an index.
#[tactic(auto, using(crate::proofs::Lists::path_fault))]
fn path_at<A: Allocator + Copy>(
    alloc: A,
    grid: &Grid,
    layout: Layout,
    value: &Value<'_, A>,
    index: usize,
) -> Result<Path<A>, CoordinatesFault>
    ensures { Gives path_view result (path_at grid.now layout index (value_view value.now)) }
{
    match points(alloc, grid, value) {
        Ok(points) => Ok(Path {
            role: role(layout, index),
            points,
        }),
        Err(fault) => Err(fault.in_path(index)),
    }
}

/// The paths of an array of arrays of positions.
#[tactic(auto, using(crate::proofs::Lists::none_told))]
pub(crate) fn paths<A: Allocator + Copy>(
    alloc: A,
    grid: &Grid,
    layout: Layout,
    value: &Value<'_, A>,
) -> Result<Vec<Path<A>, A>, CoordinatesFault>
    ensures { Gives (λ paths. map path_view paths.items) result
        (paths_in grid.now layout (value_view value.now)) }
{
    let mut all = Vec::new(alloc);
    match put_paths(alloc, grid, layout, value, &mut all) {
        Ok(()) => Ok(all),
        Err(fault) => Err(fault),
    }
}

/// Appends the paths of an array of arrays of positions.
pub(crate) fn put_paths<A: Allocator + Copy>(
    alloc: A,
    grid: &Grid,
    layout: Layout,
    value: &Value<'_, A>,
    all: &mut Vec<Path<A>, A>,
) -> Result<(), CoordinatesFault>
    ensures { Gives (λ _. map path_view all.new.items) result
        (with_all (map path_view all.old.items) (paths_in grid.now layout (value_view value.now))) }
{
    let Value::Array(items) = value else {
        return Err(CoordinatesFault::here(Cause::Form));
    };
    put_each_path(alloc, grid, layout, items.as_slice(), all)
}

/// Appends the paths of arrays of positions.
fn put_each_path<A: Allocator + Copy>(
    alloc: A,
    grid: &Grid,
    layout: Layout,
    items: &[Value<'_, A>],
    all: &mut Vec<Path<A>, A>,
) -> Result<(), CoordinatesFault>
    ensures { Gives (λ _. map path_view all.new.items) result
        (with_all (map path_view all.old.items)
        (list_from (path_at grid.now layout) 0 (items_view items.now))) }
{
    for (index, item) in items.iter().enumerate() {
        match path_at(alloc, grid, layout, item, index) {
            Ok(path) => all.try_push(path)?,
            Err(fault) => return Err(fault),
        }
    }
    Ok(())
}
