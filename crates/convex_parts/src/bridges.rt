//! Holes are cut away by bridges: from a corner of the ring to a corner of the hole, round the
//! hole, and back.

ghost use Rattle.std.specs.Prelude.{◌≡◌, ◌+◌, ◌<◌, ℤ, ◌+ℤ◌, length, IfOk, IfSome};
ghost use Rattle.plane.specs.declared.point.Point.{Point};
ghost use Rattle.convex_parts.specs.Paths.{along, AddsOnLines};

use crate::faults::PartsFault;
use crate::turns::{are_equal, is_on_segment, segments_touch, turn};
use memory::try_extend;
use plane::Point;
use std::alloc::Allocator;

/// Whether a point is seen from a corner into the inside of the ring, which is on its left.
fn is_inward(before: Point, corner: Point, after: Point, point: Point) -> bool {
    let left_of_next = turn(corner, after, point) > 0;
    let left_of_last = turn(before, corner, point) > 0;
    if turn(before, corner, after) > 0 {
        left_of_next && left_of_last
    } else {
        left_of_next || left_of_last
    }
}

/// Whether no side of the ring touches the segment from a corner of it to a point, but at that
/// corner.
fn is_visible(ring: &[Point], corner: Point, point: Point) -> bool {
    for (index, from) in ring.iter().enumerate() {
        if *from != corner && is_on_segment(*from, corner, point) {
            return false;
        }
        if index + 1 < ring.len() {
            let to = ring[index + 1];
            if *from != corner && to != corner && segments_touch(*from, to, corner, point) {
                return false;
            }
        }
    }
    true
}

/// The square of the distance between two points.
fn distance(p: Point, q: Point) -> u128 {
    let across = u128::from(p.x.abs_diff(q.x));
    let up = u128::from(p.y.abs_diff(q.y));
    across * across + up * up
}

/// The index of the nearest corner before a point from which the point is seen inside the ring.
fn nearest_corner(ring: &[Point], point: Point) -> Option<usize>
    ensures { IfSome result (λ at. at < length ring.now) }
{
    let mut nearest = ring.len();
    for (index, corner) in ring.iter().enumerate() {
        if index + 1 < ring.len() && corner.is_before(point) {
            let before = if index == 0 {
                ring[ring.len() - 2]
            } else {
                ring[index - 1]
            };
            let is_nearer = nearest == ring.len()
                || distance(*corner, point) < distance(ring[nearest], point);
            if is_nearer
                && is_inward(before, *corner, ring[index + 1], point)
                && is_visible(ring, *corner, point)
            {
                nearest = index;
            }
        }
    }
    if nearest < ring.len() {
        Some(nearest)
    } else {
        None
    }
}

/// The ring with a closed list put in behind a corner, and that corner again.
fn detour<A: Allocator + Copy>(
    alloc: A,
    ring: &[Point],
    at: usize,
    hole: &[Point],
) -> Result<Vec<Point, A>, PartsFault>
    requires { at < length ring.now }
    ensures { IfOk result (λ whole. (f : Point → Point → ℤ) → AddsOnLines f
        → along f whole.items ≡ along f ring.now +ℤ along f hole.now) }
{
    if hole.len() < 2 {
        return Err(PartsFault::NotClosed);
    }
    if are_equal(hole[0], hole[hole.len() - 1]) {
        let mut whole = Vec::new(alloc);
        try_extend(&mut whole, &ring[..at + 1])?;
        try_extend(&mut whole, hole)?;
        try_extend(&mut whole, &ring[at..])?;
        Ok(whole)
    } else {
        Err(PartsFault::NotClosed)
    }
}

/// The ring that goes round a hole as well. `HoleOutside` if the hole's first point, which is its
/// least, is not inside the ring.
pub fn with_hole<A: Allocator + Copy>(
    alloc: A,
    ring: &[Point],
    hole: &[Point],
) -> Result<Vec<Point, A>, PartsFault>
    ensures { IfOk result (λ whole. (f : Point → Point → ℤ) → AddsOnLines f
        → along f whole.items ≡ along f ring.now +ℤ along f hole.now) }
{
    let Some(first) = hole.first() else {
        return Err(PartsFault::TooFew);
    };
    match nearest_corner(ring, *first) {
        Some(at) => detour(alloc, ring, at, hole),
        None => Err(PartsFault::HoleOutside),
    }
}
