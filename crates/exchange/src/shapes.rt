//! The shapes of a geometry.

use crate::faults::RowFault;
use convex_parts::{PartsFault, convex_parts, segments};
use geojson::{Geometry, Path, Role};
use memory::{GrowVec, copied};
use plane::{Point, Shape, ShapeFault};
use std::alloc::Allocator;

/// The shape that a path is by itself. `Several` for a line of more than two points, and for a hole.
fn shape_of(role: Role, points: &[Point]) -> Result<Shape, RowFault> {
    let shape = match (role, points) {
        (Role::Point, [point]) => Shape::point(*point),
        (Role::Line, [first, last]) => Shape::segment(*first, *last),
        (Role::Outer, ring) => Shape::polygon(ring),
        (Role::Line, []) | (Role::Line, [_]) | (Role::Point, []) => Err(ShapeFault::TooFew),
        (Role::Line, _) | (Role::Point, _) | (Role::Hole, _) => return Err(RowFault::Several),
    };
    match shape {
        Ok(shape) => Ok(shape),
        Err(fault) => Err(RowFault::Shape(fault)),
    }
}

/// The one shape that a geometry is. `Several` if it has several paths, or one that is no shape.
fn whole_shape<A: Allocator + Copy>(
    alloc: A,
    paths: &[Path<A>],
) -> Result<Vec<Shape, A>, RowFault> {
    let [path] = paths else {
        return Err(RowFault::Several);
    };
    let shape = shape_of(path.role, path.points.as_slice())?;
    let mut shapes = Vec::new(alloc);
    shapes.try_push(shape)?;
    Ok(shapes)
}

/// Appends parts to the shapes of a geometry.
fn put_parts<A: Allocator>(
    parts: Result<Vec<Shape, A>, PartsFault>,
    shapes: &mut Vec<Shape, A>,
) -> Result<(), RowFault> {
    match parts {
        Ok(parts) => {
            for part in parts.as_slice() {
                shapes.try_push(*part)?;
            }
            Ok(())
        }
        Err(PartsFault::Memory(_)) => Err(RowFault::Memory),
        Err(fault) => Err(RowFault::Parts(fault)),
    }
}

/// Appends the parts of the region whose rings were listed, if there are any, and forgets the rings.
fn put_region<A: Allocator + Copy>(
    alloc: A,
    rings: &mut Vec<Vec<Point, A>, A>,
    shapes: &mut Vec<Shape, A>,
) -> Result<(), RowFault> {
    if !rings.is_empty() {
        put_parts(convex_parts(alloc, rings.as_slice()), shapes)?;
        rings.clear();
    }
    Ok(())
}

/// The shapes into which a geometry is cut: points as they are, the segments of lines, and the
/// convex parts of regions less their holes. `Parts` with `TooFew` where there are none: a row that
/// adds nothing is not settled in silence.
fn cut_shapes<A: Allocator + Copy>(alloc: A, paths: &[Path<A>]) -> Result<Vec<Shape, A>, RowFault> {
    let mut shapes = Vec::new(alloc);
    let mut rings = Vec::new(alloc);
    for path in paths {
        if path.role != Role::Hole {
            put_region(alloc, &mut rings, &mut shapes)?;
        }
        match path.role {
            Role::Point => shapes.try_push(shape_of(path.role, path.points.as_slice())?)?,
            Role::Line => put_parts(segments(alloc, path.points.as_slice()), &mut shapes)?,
            Role::Outer | Role::Hole => {
                let ring = copied(alloc, path.points.as_slice())?;
                rings.try_push(ring)?;
            }
        }
    }
    put_region(alloc, &mut rings, &mut shapes)?;
    if shapes.is_empty() {
        return Err(RowFault::Parts(PartsFault::TooFew));
    }
    Ok(shapes)
}

/// The shapes of a geometry: the one that it is, or, if `split` is set, those into which it is cut.
/// Faults: `Several` if it is not one shape and is not to be cut; `Shape`, `Parts`, `Memory`. So there
/// is a shape at least.
pub fn shapes_of<A: Allocator + Copy>(
    alloc: A,
    split: bool,
    geometry: &Geometry<A>,
) -> Result<Vec<Shape, A>, RowFault> {
    if split {
        cut_shapes(alloc, geometry.paths.as_slice())
    } else {
        whole_shape(alloc, geometry.paths.as_slice())
    }
}
