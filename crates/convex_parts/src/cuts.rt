//! Convex parts are cut off a ring, one by one.

ghost use Rattle.std.specs.Prelude.{◌≡◌, ◌+◌, ◌-◌, ◌<◌, ◌≤◌, ℤ, ◌+ℤ◌, pos, length, vec_len, IfOk, IfSome, IfNone, IsTrue, ◌↔◌};
ghost use Rattle.std.specs.List.{remove_range};
ghost use Rattle.plane.specs.declared.point.Point.{Point};
ghost use Rattle.convex_parts.specs.Paths.{along, closed, AddsOnLines};
ghost use Rattle.convex_parts.specs.Regions.{around_parts};

use crate::faults::{PART_LIMIT, PartsFault};
use crate::rings::begin_at_least;
use crate::turns::{are_equal, is_clear, turn};
use arrayvec::ArrayVec;
use memory::GrowVec;
use plane::{Point, Shape, corners};
use std::alloc::Allocator;

/// The most corners of a part.
const PART_CORNERS: usize = 16;

/// Whether the points from one index to before another, a triangle at least or a convex polygon,
/// are still convex with the point there, and no other point of the ring lies in the triangle that
/// is added.
fn is_extended(ring: &[Point], at: usize, next: usize) -> bool
    requires at { at + 2 ≤ next }
    requires next { next < length ring.now }
{
    let (first, second, point) = (ring[at], ring[at + 1], ring[next]);
    let last = ring[next - 1];
    let is_convex = if next == at + 2 {
        turn(first, last, point) > 0
    } else {
        turn(ring[next - 2], last, point) > 0
            && turn(last, point, first) > 0
            && turn(point, first, second) > 0
    };
    is_convex && is_clear(ring, first, last, point)
}

/// The last index of the longest run from an index that is a convex part, or the index after it if
/// there is none.
fn run_end(ring: &[Point], at: usize) -> usize
    requires { at + 2 < length ring.now }
    ensures start { at + 1 ≤ result }
    ensures end { result < length ring.now }
    ensures short { result < at + PART_CORNERS }
{
    let mut end = at + 1;
    for next in at + 2..ring.len().min(at + PART_CORNERS) {
        if !is_extended(ring, at, next) {
            break;
        }
        end = next;
    }
    end
}

/// Whether two lists have the same points.
fn are_same(points: &[Point], others: &[Point]) -> bool
    ensures { IsTrue result ↔ (points.now ≡ others.now) }
{
    points == others
}

/// The convex polygon with exactly these corners, listed in a shape's order.
fn polygon_with(points: &[Point]) -> Option<Shape>
    requires { length points.now ≤ PART_CORNERS }
    ensures { IfSome result (λ part. part ≡ points.now) }
{
    let mut listed: ArrayVec<Point, 17> = ArrayVec::new();
    listed.try_extend_from_slice(points).ok()?;
    let first = *points.first()?;
    listed.try_push(first).ok()?;
    let part = Shape::polygon(listed.as_slice()).ok()?;
    if are_same(corners(&part), points) {
        Some(part)
    } else {
        None
    }
}

/// The convex polygon with exactly these corners, listed counter-clockwise.
fn part_of(run: &[Point]) -> Option<Shape>
    requires { length run.now ≤ PART_CORNERS }
    ensures { IfSome result (λ part. (f : Point → Point → ℤ)
        → along f (closed part) ≡ along f (closed run.now)) }
{
    let mut points: ArrayVec<Point, PART_CORNERS> = ArrayVec::new();
    points.try_extend_from_slice(run).ok()?;
    begin_at_least(points.as_mut_slice());
    polygon_with(points.as_slice())
}

/// Drops the points between two indices.
fn pass_by<A: Allocator>(ring: &mut Vec<Point, A>, at: usize, end: usize)
    requires order { at < end }
    requires within { end < vec_len ring.old }
    ensures items { ring.new.items ≡ remove_range ring.old.items (at + 1) end }
    ensures len { vec_len ring.new + (end - (at + 1)) ≡ vec_len ring.old }
{
    ring.drain(at + 1..end);
}

/// Cuts off the part that begins at an index, if there is one.
fn cut_at<A: Allocator>(ring: &mut Vec<Point, A>, at: usize) -> Option<Shape>
    requires { at + 2 < vec_len ring.old }
    ensures some { IfSome result (λ part. (f : Point → Point → ℤ) → AddsOnLines f
        → along f (closed part) +ℤ along f ring.new.items ≡ along f ring.old.items) }
    ensures shorter { IfSome result (λ part. vec_len ring.new < vec_len ring.old) }
    ensures none { IfNone result (ring.new.items ≡ ring.old.items) }
{
    let end = run_end(ring.as_slice(), at);
    if end < at + 2 {
        return None;
    }
    let part = part_of(&ring.as_slice()[at..end + 1])?;
    pass_by(ring, at, end);
    Some(part)
}

/// Cuts off a part that begins at an index or later, or else from the start; the index is then that
/// at which it began.
fn next_part<A: Allocator>(ring: &mut Vec<Point, A>, from: &mut usize) -> Option<Shape>
    ensures some { IfSome result (λ part. (f : Point → Point → ℤ) → AddsOnLines f
        → along f (closed part) +ℤ along f ring.new.items ≡ along f ring.old.items) }
    ensures shorter { IfSome result (λ part. vec_len ring.new < vec_len ring.old) }
    ensures none { IfNone result (ring.new.items ≡ ring.old.items) }
{
    for at in *from..ring.len() {
        if at + 2 < ring.len() {
            if let Some(part) = cut_at(ring, at) {
                *from = at;
                return Some(part);
            }
        }
    }
    for at in 0..ring.len() {
        if at + 2 < ring.len() {
            if let Some(part) = cut_at(ring, at) {
                *from = at;
                return Some(part);
            }
        }
    }
    None
}

/// Whether nothing is left of a ring: it goes to one point and back.
fn is_spent(ring: &[Point]) -> bool
    ensures { IsTrue result → (f : Point → Point → ℤ) → AddsOnLines f → along f ring.now ≡ pos 0 }
{
    ring.len() == 3 && are_equal(ring[0], ring[2])
}

/// Convex parts of the inside of a closed ring. `TooManyParts`, `Memory`; `Crossing` if no part can
/// be cut off.
pub fn cut_all<A: Allocator + Copy>(
    alloc: A,
    mut ring: Vec<Point, A>,
) -> Result<Vec<Shape, A>, PartsFault>
    ensures value { IfOk result (λ parts. (f : Point → Point → ℤ) → AddsOnLines f
        → around_parts f parts.items ≡ along f ring.items) }
    ensures limit { IfOk result (λ parts. vec_len parts ≤ PART_LIMIT) }
{
    let mut parts = Vec::new(alloc);
    let mut from = 0;
    while ring.len() > 3 {
        let Some(part) = next_part(&mut ring, &mut from) else {
            return Err(PartsFault::Crossing);
        };
        if parts.len() == PART_LIMIT {
            return Err(PartsFault::TooManyParts);
        }
        parts.try_push(part)?;
    }
    if is_spent(ring.as_slice()) {
        Ok(parts)
    } else {
        Err(PartsFault::Crossing)
    }
}
