//! The shape that a geometry is.

ghost use Rattle.std.specs.Prelude.{◌≡◌, map};
ghost use Rattle.geojson.specs.Paths.{path_view};
ghost use Rattle.map_changes.specs.Shapes.{line_shape, path_shape, point_shape, shape_in, shaped};

use crate::faults::ChangeFault;
use geojson::{Path, Role};
use plane::{Point, Shape, ShapeFault};
use std::alloc::Allocator;

/// A shape, or its fault as one of a request.
fn shaped(shape: Result<Shape, ShapeFault>) -> Result<Shape, ChangeFault>
    ensures { result ≡ shaped shape }
{
    match shape {
        Ok(shape) => Ok(shape),
        Err(fault) => Err(ChangeFault::Shape(fault)),
    }
}

/// The shape of a point.
fn point_shape(points: &[Point]) -> Result<Shape, ChangeFault>
    ensures { result ≡ point_shape points.now }
{
    match points {
        [point] => shaped(Shape::point(*point)),
        _ => Err(ChangeFault::Parts),
    }
}

/// The shape of a line of two points.
fn line_shape(points: &[Point]) -> Result<Shape, ChangeFault>
    ensures { result ≡ line_shape points.now }
{
    match points {
        [first, last] => shaped(Shape::segment(*first, *last)),
        _ => Err(ChangeFault::Parts),
    }
}

/// The shape of a path.
fn path_shape(role: Role, points: &[Point]) -> Result<Shape, ChangeFault>
    ensures { result ≡ path_shape (role, points.now) }
{
    match role {
        Role::Point => point_shape(points),
        Role::Line => line_shape(points),
        Role::Outer => shaped(Shape::polygon(points)),
        Role::Hole => Err(ChangeFault::Parts),
    }
}

/// The one shape that the paths of a geometry are. `Parts` where that is not one point, one line of
/// two points or one ring without holes; `Shape` where its points are no shape.
pub fn shape_in<A: Allocator>(paths: &[Path<A>]) -> Result<Shape, ChangeFault>
    ensures { result ≡ shape_in (map path_view paths.now) }
{
    match paths {
        [path] => path_shape(path.role, path.points.as_slice()),
        _ => Err(ChangeFault::Parts),
    }
}
