//! Shapes: a point, a segment or a convex polygon, as a fixed array of corners.

ghost use Rattle.std.specs.Prelude.{◌≡◌, ◌↔◌, ◌-◌, ◌<◌, ◌≤◌, ◌++◌, All, IsTrue, List, length, replicate};
ghost use Rattle.plane.specs.Points.{IsInRange};
ghost use Rattle.plane.specs.Canonical.{point_of, segment_of, polygon_of, ring_of, corners_of, IsCanonical};
ghost use Rattle.plane.specs.Convex.{IsConvexRing};

use crate::fault::ShapeFault;
use crate::point::Point;
use crate::ring::{
    LISTED_LIMIT, all_in_range, corners_from_least, goes_left, has_repeat, is_flat, reversed,
};
use std::marker::Model;

/// The most corners of a polygon.
pub const CORNER_LIMIT: usize = 16;

const ORIGIN: Point = Point { x: 0, y: 0 };

/// A point, a segment or a convex polygon. A contract sees the list of its corners in canonical
/// order: a segment's lesser end first, a polygon's corners counter-clockwise from the one with the
/// least x, then least y.
#[derive(Clone, Copy, Debug)]
pub struct Shape {
    count: u8,
    places: [Point; CORNER_LIMIT],
}

// The unused places hold the origin, so that equal shapes have equal places.
impl Model for Shape {
    ghost use Rattle.std.specs.Prelude.{List, take};
    ghost use Rattle.plane.specs.declared.point.Point.{Point};

    ghost Value = { List Point };

    ghost use Rattle.plane.specs.Places.{IsKept, places_of, places_of-take};

    ghost view = { λ s. take s.count s.places };

    ghost invariant = { λ s. IsKept s.count s.places };

    ghost inverse = { λ corners. places_of corners };

    ghost inverse_ok = { λ s kept. places_of-take s kept };
}

impl PartialEq for Shape {
    ghost use Rattle.std.specs.Cmp.{decided, partial_equiv_from_equiv};
    ghost use Rattle.plane.specs.Equality.{same_shape, same_shape_decides};

    ghost eq = { same_shape };

    ghost laws = { partial_equiv_from_equiv (decided same_shape same_shape_decides) };

    /// Whether the two shapes have the same corners.
    fn eq(&self, other: &Shape) -> bool
        ensures tested { result ≡ same_shape self.now other.now }
        ensures exact { IsTrue result ↔ (self.now ≡ other.now) }
    {
        corners(self) == corners(other)
    }
}

impl Eq for Shape {
    ghost use Rattle.std.specs.Cmp.{decided};
    ghost use Rattle.plane.specs.Equality.{same_shape, same_shape_decides};

    ghost laws = { decided same_shape same_shape_decides };
}

impl Shape {
    /// The shape that is this point alone. P1 if the point is out of range.
    pub fn point(p: Point) -> Result<Shape, ShapeFault>
        ensures { result ≡ point_of p }
    {
        if p.is_in_range() {
            let mut places = [ORIGIN; CORNER_LIMIT];
            places[0] = p;
            Ok(Shape { places, count: 1 })
        } else {
            Err(ShapeFault::OutOfRange)
        }
    }

    /// The segment between two points, in either order. P1 if one is out of range, P2 if equal.
    pub fn segment(p: Point, q: Point) -> Result<Shape, ShapeFault>
        ensures { result ≡ segment_of p q }
    {
        if !p.is_in_range() || !q.is_in_range() {
            return Err(ShapeFault::OutOfRange);
        }
        if p == q {
            return Err(ShapeFault::SameEnds);
        }
        let mut places = [ORIGIN; CORNER_LIMIT];
        if q.is_before(p) {
            places[0] = q;
            places[1] = p;
        } else {
            places[0] = p;
            places[1] = q;
        }
        Ok(Shape { places, count: 2 })
    }

    /// The convex polygon of a ring, listed in either direction and with its closing point. P1, P3,
    /// P4, P5, P6, P7, P8 or P9: the first of them, in this order, that applies.
    pub fn polygon(listed: &[Point]) -> Result<Shape, ShapeFault>
        ensures { result ≡ polygon_of listed.now }
    {
        if !all_in_range(listed) {
            return Err(ShapeFault::OutOfRange);
        }
        if listed.len() > LISTED_LIMIT {
            return Err(ShapeFault::TooManyPoints);
        }
        if listed.len() < 4 {
            return Err(ShapeFault::TooFew);
        }
        if listed[0] != listed[listed.len() - 1] {
            return Err(ShapeFault::NotClosed);
        }
        of_ring(&listed[..listed.len() - 1])
    }

    /// The shape with these corners, which are in canonical order, as `corners` has them.
    pub fn of_corners(corners: &[Point]) -> Shape
        requires { IsCanonical corners.now }
        ensures { result ≡ corners.now }
    {
        let places = places_of(corners);
        Shape {
            places,
            count: corners.len() as u8,
        }
    }
}

/// The polygon of a ring without its closing point.
fn of_ring(ring: &[Point]) -> Result<Shape, ShapeFault>
    requires in_range { All IsInRange ring.now }
    requires at_least { 3 ≤ length ring.now }
    requires at_most { length ring.now < LISTED_LIMIT }
    ensures { result ≡ ring_of ring.now }
{
    if has_repeat(ring) {
        return Err(ShapeFault::Repeated);
    }
    if is_flat(ring) {
        return Err(ShapeFault::Flat);
    }
    if goes_left(ring) {
        return of_convex_ring(ring);
    }
    let other_way = reversed(ring);
    if goes_left(other_way.as_slice()) {
        of_convex_ring(other_way.as_slice())
    } else {
        Err(ShapeFault::NotConvex)
    }
}

/// The corners, and the origin in the unused places.
fn places_of(corners: &[Point]) -> [Point; CORNER_LIMIT]
    requires { length corners.now ≤ CORNER_LIMIT }
    ensures { result ≡ corners.now ++ replicate (CORNER_LIMIT - length corners.now) ORIGIN }
{
    let mut places = [ORIGIN; CORNER_LIMIT];
    places[..corners.len()].copy_from_slice(corners);
    places
}

/// The polygon of a convex and counter-clockwise ring. `TooManyCorners` is the only fault left.
fn of_convex_ring(ring: &[Point]) -> Result<Shape, ShapeFault>
    requires { IsConvexRing ring.now }
    ensures { result ≡ corners_of ring.now }
{
    let found = corners_from_least(ring);
    if found.len() > CORNER_LIMIT {
        return Err(ShapeFault::TooManyCorners);
    }
    let places = places_of(found.as_slice());
    Ok(Shape {
        places,
        count: found.len() as u8,
    })
}

/// The shape's corners in canonical order: a segment's lesser end first, a polygon's corners
/// counter-clockwise from the one with the least x, then least y.
pub fn corners(shape: &Shape) -> &[Point]
    ensures value { result.now ≡ shape.now }
    ensures canonical { IsCanonical shape.now }
{
    &shape.places[..shape.count as usize]
}
