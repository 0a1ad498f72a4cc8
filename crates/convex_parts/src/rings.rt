//! Rings as they are cut: closed lists that begin at their least point, without points at which
//! they do not turn.

ghost use Rattle.std.specs.Prelude.{◌≡◌, ◌+◌, ◌<◌, ◌≤◌, ◌^◌, ℤ, pos, ◌+ℤ◌, neg_ℤ, int_lt, unsigned_abs, length, drop, reverse, slice_index_or, IsTrue, OnOk, IfOk, if◌then◌else◌};
ghost use Rattle.plane.specs.Points.{origin};
ghost use Rattle.plane.specs.Rings.{turn};
ghost use Rattle.plane.specs.declared.point.Point.{Point};
ghost use Rattle.convex_parts.specs.Paths.{along, closed, AddsOnLines, doubled_area};
ghost use Rattle.convex_parts.specs.Regions.{around};

use crate::faults::{PartsFault, RING_LIMIT};
use crate::turns::{are_equal, doubled_area, turn};
use memory::{GrowVec, NoMemory, copied};
use plane::Point;
use std::alloc::Allocator;

/// What the step from a point of a ring to the next, if there is one, adds to its area.
fn step_area(ring: &[Point], index: usize) -> i128
    requires { index < length ring.now }
    ensures value { result +ℤ along doubled_area (drop (index + 1) ring.now)
        ≡ along doubled_area (drop index ring.now) }
    ensures size { unsigned_abs result ≤ 2 ^ 65 }
{
    if index + 1 < ring.len() {
        doubled_area(ring[index], ring[index + 1])
    } else {
        0
    }
}

/// Twice the signed area inside a closed ring, above 0 if it goes counter-clockwise.
fn area(ring: &[Point]) -> i128
    requires { length ring.now ≤ RING_LIMIT }
    ensures { result ≡ along doubled_area ring.now }
{
    let mut sum = 0;
    for index in 0..ring.len() {
        sum += step_area(ring, index);
    }
    sum
}

/// Whether a closed ring goes clockwise.
fn is_clockwise(ring: &[Point]) -> bool
    requires { length ring.now ≤ RING_LIMIT }
    ensures { result ≡ int_lt (along doubled_area ring.now) (pos 0) }
{
    area(ring) < 0
}

/// The index of the first of the least points, 0 if there is none.
fn least_index(points: &[Point]) -> usize
    ensures { result ≤ length points.now }
{
    let mut least = 0;
    for (index, point) in points.iter().enumerate() {
        if point.is_before(points[least]) {
            least = index;
        }
    }
    least
}

/// Turns a ring, listed without its closing point, so that it begins at its least point.
pub fn begin_at_least(points: &mut [Point])
    ensures { (f : Point → Point → ℤ) → along f (closed points.new) ≡ along f (closed points.old) }
{
    let least = least_index(points);
    points.rotate_left(least);
}

/// Turns a closed ring so that it begins at its least point.
fn begin_closed_at_least<A: Allocator>(ring: &mut Vec<Point, A>) -> Result<(), PartsFault>
    ensures { OnOk result ((f : Point → Point → ℤ) → along f ring.new.items ≡ along f ring.old.items) }
{
    let Some(last) = ring.pop() else {
        return Err(PartsFault::TooFew);
    };
    if ring.is_empty() || !are_equal(ring[0], last) {
        return Err(PartsFault::NotClosed);
    }
    begin_at_least(ring.as_mut_slice());
    let first = ring[0];
    ring.try_push(first)?;
    Ok(())
}

/// Whether a list does not turn at the point after an index.
fn is_straight(points: &[Point], at: usize) -> bool
    requires { at + 2 < length points.now }
    ensures { IsTrue result → turn (slice_index_or points.now at origin)
        (slice_index_or points.now (at + 1) origin)
        (slice_index_or points.now (at + 2) origin) ≡ pos 0 }
{
    turn(points[at], points[at + 1], points[at + 2]) == 0
}

/// Drops each point between the first and the last at which a list does not turn.
fn drop_straight<A: Allocator>(ring: &mut Vec<Point, A>)
    ensures { (f : Point → Point → ℤ) → AddsOnLines f → along f ring.new.items ≡ along f ring.old.items }
{
    let mut at = 0;
    while at + 2 < ring.len() {
        if is_straight(ring.as_slice(), at) {
            ring.remove(at + 1);
            at = at.saturating_sub(1);
        } else {
            at += 1;
        }
    }
}

/// The points in the opposite order.
fn opposite<A: Allocator + Copy>(alloc: A, points: &[Point]) -> Result<Vec<Point, A>, NoMemory>
    ensures { IfOk result (λ made. made.items ≡ reverse points.now) }
{
    let mut made = copied(alloc, points)?;
    made.reverse();
    Ok(made)
}

/// A closed ring counter-clockwise, or clockwise as a hole.
fn directed<A: Allocator + Copy>(
    alloc: A,
    listed: &[Point],
    is_hole: bool,
) -> Result<Vec<Point, A>, NoMemory>
    requires { length listed.now ≤ RING_LIMIT }
    ensures { IfOk result (λ ring. (f : Point → Point → ℤ) → AddsOnLines f
        → along f ring.items
        ≡ (if is_hole then neg_ℤ (around f listed.now) else around f listed.now)) }
{
    if is_clockwise(listed) {
        if is_hole {
            Ok(copied(alloc, listed)?)
        } else {
            Ok(opposite(alloc, listed)?)
        }
    } else if is_hole {
        Ok(opposite(alloc, listed)?)
    } else {
        Ok(copied(alloc, listed)?)
    }
}

/// A listed ring as it is cut, counter-clockwise, or clockwise as a hole. The faults are
/// `OutOfRange`, `TooManyPoints`, `TooFew`, `NotClosed`, `Flat` and `Memory`.
pub fn ring_of<A: Allocator + Copy>(
    alloc: A,
    listed: &[Point],
    is_hole: bool,
) -> Result<Vec<Point, A>, PartsFault>
    ensures { IfOk result (λ ring. (f : Point → Point → ℤ) → AddsOnLines f
        → along f ring.items
        ≡ (if is_hole then neg_ℤ (around f listed.now) else around f listed.now)) }
{
    if !listed.iter().all(|point| point.is_in_range()) {
        return Err(PartsFault::OutOfRange);
    }
    if listed.len() > RING_LIMIT {
        return Err(PartsFault::TooManyPoints);
    }
    if listed.len() < 4 {
        return Err(PartsFault::TooFew);
    }
    if listed[0] != listed[listed.len() - 1] {
        return Err(PartsFault::NotClosed);
    }
    if area(listed) == 0 {
        return Err(PartsFault::Flat);
    }
    let mut ring = directed(alloc, listed, is_hole)?;
    begin_closed_at_least(&mut ring)?;
    drop_straight(&mut ring);
    Ok(ring)
}
