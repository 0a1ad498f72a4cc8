//! Geometries as paths of points.

use plane::Point;
use std::alloc::Allocator;

/// What a path of a geometry is.
#[derive(Clone, Copy, Debug, PartialEq, Eq)]
pub enum Role {
    /// A point by itself.
    Point,
    /// A line.
    Line,
    /// The outer ring of a polygon.
    Outer,
    /// A hole of the polygon whose outer ring is before it.
    Hole,
}

/// How the paths of a geometry are arranged.
#[derive(Clone, Copy, Debug, PartialEq, Eq)]
pub(crate) enum Layout {
    /// Each is a line.
    Lines,
    /// The first is the outer ring of a polygon, the others are its holes.
    Rings,
}

/// A path of a geometry.
#[derive(Debug, Drop)]
pub struct Path<A: Allocator> {
    /// What it is.
    pub role: Role,
    /// Its points as listed: of a ring, the first is there again at the end.
    pub points: Vec<Point, A>,
}

/// A geometry: its paths in order. A Point, a LineString has one, a Polygon its outer ring and its
/// holes; a MultiLineString, a MultiPolygon has those of its parts.
#[derive(Debug, Drop)]
pub struct Geometry<A: Allocator> {
    pub paths: Vec<Path<A>, A>,
}
