//! Rings of points: the points in order, each once. The last point is followed by the first.

ghost use Rattle.std.specs.Prelude.{◌≡◌, ◌+◌, ◌<◌, ◌≤◌, ◌↔◌, pos, ◌≤ℤ◌, All, IsTrue, length, not, drop, reverse, slice_index_or};
ghost use Rattle.std.specs.List.{list_all, list_any, position_or_len};
ghost use Rattle.plane.specs.Points.{IsInRange, is_in_range, is_same};
ghost use Rattle.plane.specs.Rings.{first_of, last_of, turn, sides, is_on_or_left, is_on_line, goes_left, is_flat, is_apart, has_repeat, is_least, from_least, turning_points};

use crate::point::Point;
use crate::products::{cross, difference};
use arrayvec::ArrayVec;

/// The most points that a ring lists, its closing one included.
pub const LISTED_LIMIT: usize = 64;

/// Whether all points are in range.
pub fn all_in_range(points: &[Point]) -> bool
    ensures test { result ≡ list_all is_in_range points.now }
    ensures range { IsTrue result → All IsInRange points.now }
{
    points.iter().all(|point| point.is_in_range())
}

/// The point after the one at an index; after the last point comes the first.
pub fn next_point(ring: &[Point], index: usize) -> Point
    requires { index < length ring.now }
    ensures { result ≡ slice_index_or (drop (index + 1) ring.now) 0 (first_of ring.now) }
{
    if index + 1 < ring.len() {
        ring[index + 1]
    } else {
        ring[0]
    }
}

/// Twice the signed area of the triangle of three points: above 0 if the third is left of the
/// directed line from the first to the second, below 0 if it is right of it, and 0 if the three are
/// on one line.
fn turn(p: Point, q: Point, r: Point) -> i64
    requires p { IsInRange p }
    requires q { IsInRange q }
    requires r { IsInRange r }
    ensures { result ≡ turn p q r }
{
    cross(
        difference(p.x, q.x),
        difference(p.y, r.y),
        difference(p.y, q.y),
        difference(p.x, r.x),
    )
}

/// Whether a point is on or left of the directed line from one point to another.
fn is_on_or_left(from: Point, to: Point, point: Point) -> bool
    requires from { IsInRange from }
    requires to { IsInRange to }
    requires point { IsInRange point }
    ensures { result ≡ is_on_or_left (from, to) point }
{
    turn(from, to, point) >= 0
}

/// Whether a point is on the line through two others.
fn is_on_line(from: Point, to: Point, point: Point) -> bool
    requires from { IsInRange from }
    requires to { IsInRange to }
    requires point { IsInRange point }
    ensures { result ≡ is_on_line (from, to) point }
{
    turn(from, to, point) == 0
}

/// Whether every point of a ring is on or left of a side.
fn all_on_or_left(from: Point, to: Point, ring: &[Point]) -> bool
    requires from { IsInRange from }
    requires to { IsInRange to }
    requires ring { All IsInRange ring.now }
    ensures { result ≡ list_all (is_on_or_left (from, to)) ring.now }
{
    ring.iter().all(|point| is_on_or_left(from, to, *point))
}

/// Whether every point of a ring is on the line of a side.
fn all_on_line(from: Point, to: Point, ring: &[Point]) -> bool
    requires from { IsInRange from }
    requires to { IsInRange to }
    requires ring { All IsInRange ring.now }
    ensures { result ≡ list_all (is_on_line (from, to)) ring.now }
{
    ring.iter().all(|point| is_on_line(from, to, *point))
}

/// Whether every point of a ring is on or left of every side.
pub fn goes_left(ring: &[Point]) -> bool
    requires { All IsInRange ring.now }
    ensures { result ≡ goes_left ring.now }
{
    for (index, point) in ring.iter().enumerate() {
        if !all_on_or_left(*point, next_point(ring, index), ring) {
            return false;
        }
    }
    true
}

/// Whether every point of a ring is on the line of every side.
pub fn is_flat(ring: &[Point]) -> bool
    requires { All IsInRange ring.now }
    ensures { result ≡ is_flat ring.now }
{
    for (index, point) in ring.iter().enumerate() {
        if !all_on_line(*point, next_point(ring, index), ring) {
            return false;
        }
    }
    true
}

/// Whether a point is on or left of every side of a ring.
pub fn is_left_of_sides(point: Point, ring: &[Point]) -> bool
    requires point { IsInRange point }
    requires ring { All IsInRange ring.now }
    ensures { result ≡ list_all (λ side. is_on_or_left side point) (sides ring.now) }
{
    for (index, from) in ring.iter().enumerate() {
        if !is_on_or_left(*from, next_point(ring, index), point) {
            return false;
        }
    }
    true
}

/// Whether all points are strictly right of the directed line from one point to another.
fn all_right(from: Point, to: Point, points: &[Point]) -> bool
    requires from { IsInRange from }
    requires to { IsInRange to }
    requires points { All IsInRange points.now }
    ensures { result ≡ list_all (λ r. not (is_on_or_left (from, to) r)) points.now }
{
    points.iter().all(|point| !is_on_or_left(from, to, *point))
}

/// Whether some side of a ring has all these points strictly on its right.
pub fn is_apart(ring: &[Point], points: &[Point]) -> bool
    requires ring { All IsInRange ring.now }
    requires points { All IsInRange points.now }
    ensures { result ≡ is_apart ring.now points.now }
{
    for (index, from) in ring.iter().enumerate() {
        if all_right(*from, next_point(ring, index), points) {
            return true;
        }
    }
    false
}

/// Whether a point is one of the others.
fn is_among(point: Point, others: &[Point]) -> bool
    ensures { result ≡ list_any (is_same point) others.now }
{
    others.contains(&point)
}

/// Whether a point occurs twice in a list.
pub fn has_repeat(points: &[Point]) -> bool
    ensures { result ≡ has_repeat points.now }
{
    for (index, point) in points.iter().enumerate() {
        if is_among(*point, &points[index + 1..]) {
            return true;
        }
    }
    false
}

/// Whether no point of a ring has a lesser x, or the same x and a lesser y.
fn is_least(ring: &[Point], point: Point) -> bool
    ensures { result ≡ is_least ring.now point }
{
    ring.iter().all(|other| !other.is_before(point))
}

/// The index of the least point of a ring.
fn least_index(ring: &[Point]) -> usize
    ensures value { result ≡ position_or_len (is_least ring.now) ring.now }
    ensures within { result ≤ length ring.now }
{
    for (index, point) in ring.iter().enumerate() {
        if is_least(ring, *point) {
            return index;
        }
    }
    ring.len()
}

/// The ring, starting at its least point.
fn from_least(ring: &[Point]) -> ArrayVec<Point, LISTED_LIMIT>
    requires { length ring.now ≤ LISTED_LIMIT }
    ensures { result.items ≡ from_least ring.now }
{
    let (before, after) = ring.split_at(least_index(ring));
    let mut points = ArrayVec::new();
    points.try_extend_from_slice(after).unwrap();
    points.try_extend_from_slice(before).unwrap();
    points
}

/// The ring in the opposite direction.
pub fn reversed(ring: &[Point]) -> ArrayVec<Point, LISTED_LIMIT>
    requires { length ring.now ≤ LISTED_LIMIT }
    ensures { result.items ≡ reverse ring.now }
{
    let mut points = ArrayVec::new();
    points.try_extend_from_slice(ring).unwrap();
    points.reverse();
    points
}

/// The points at which a ring turns.
fn turning_points(ring: &[Point]) -> ArrayVec<Point, LISTED_LIMIT>
    requires in_range { All IsInRange ring.now }
    requires within { length ring.now ≤ LISTED_LIMIT }
    requires not_empty { 1 ≤ length ring.now }
    ensures { result.items ≡ turning_points ring.now }
{
    let mut corners = ArrayVec::new();
    let mut before = ring[ring.len() - 1];
    for (index, point) in ring.iter().enumerate() {
        if !is_on_line(before, *point, next_point(ring, index)) {
            corners.push(*point);
        }
        before = *point;
    }
    corners
}

/// The points at which a ring turns, starting at its least point.
pub fn corners_from_least(ring: &[Point]) -> ArrayVec<Point, LISTED_LIMIT>
    requires in_range { All IsInRange ring.now }
    requires within { length ring.now ≤ LISTED_LIMIT }
    requires not_empty { 1 ≤ length ring.now }
    ensures { result.items ≡ turning_points (from_least ring.now) }
{
    turning_points(from_least(ring).as_slice())
}
