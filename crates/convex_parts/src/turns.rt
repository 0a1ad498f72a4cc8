//! Turns of three points, exact in 128 bits.

ghost use Rattle.std.specs.Prelude.{◌≡◌, ◌≤◌, ◌^◌, ◌-ℤ◌, ◌*ℤ◌, unsigned_abs, IsTrue, ◌↔◌};
ghost use Rattle.plane.specs.Rings.{turn};
ghost use Rattle.convex_parts.specs.Paths.{doubled_area};

use plane::Point;

/// The coordinate `to` minus the coordinate `from`.
fn difference(from: i32, to: i32) -> i128
    ensures value { result ≡ to -ℤ from }
    ensures size { unsigned_abs result ≤ 2 ^ 32 }
{
    i128::from(to) - i128::from(from)
}

/// `a b - c d`.
fn cross(a: i128, b: i128, c: i128, d: i128) -> i128
    requires a { unsigned_abs a ≤ 2 ^ 32 }
    requires b { unsigned_abs b ≤ 2 ^ 32 }
    requires c { unsigned_abs c ≤ 2 ^ 32 }
    requires d { unsigned_abs d ≤ 2 ^ 32 }
    ensures value { result ≡ a *ℤ b -ℤ c *ℤ d }
    ensures size { unsigned_abs result ≤ 2 ^ 65 }
{
    a * b - c * d
}

/// Twice the signed area of the triangle of three points: above 0 if the third is left of the
/// directed line from the first to the second, below 0 if it is right of it, and 0 if the three are
/// on one line.
pub fn turn(p: Point, q: Point, r: Point) -> i128
    ensures { result ≡ turn p q r }
{
    cross(
        difference(p.x, q.x),
        difference(p.y, r.y),
        difference(p.y, q.y),
        difference(p.x, r.x),
    )
}

/// A coordinate as a number of 128 bits.
fn wide(value: i32) -> i128
    ensures value { result ≡ value }
    ensures size { unsigned_abs result ≤ 2 ^ 32 }
{
    i128::from(value)
}

/// Twice the signed area of the triangle of the origin and two points.
pub fn doubled_area(p: Point, q: Point) -> i128
    ensures value { result ≡ doubled_area p q }
    ensures size { unsigned_abs result ≤ 2 ^ 65 }
{
    cross(wide(p.x), wide(q.y), wide(p.y), wide(q.x))
}

/// Whether two points are one.
pub fn are_equal(p: Point, q: Point) -> bool
    ensures { IsTrue result ↔ (p ≡ q) }
{
    p == q
}

/// Whether a number is within two others, in either order.
fn is_between(value: i32, one: i32, other: i32) -> bool {
    one.min(other) <= value && value <= one.max(other)
}

/// Whether a point lies on the segment between two others, its ends included.
pub fn is_on_segment(point: Point, from: Point, to: Point) -> bool {
    is_between(point.x, from.x, to.x)
        && is_between(point.y, from.y, to.y)
        && turn(from, to, point) == 0
}

/// Whether two intervals have a common number.
fn overlap(one: i32, other: i32, third: i32, fourth: i32) -> bool {
    one.min(other) <= third.max(fourth) && third.min(fourth) <= one.max(other)
}

/// Whether the ends of a segment lie strictly on two sides of a line.
fn is_parted(from: Point, to: Point, one: Point, other: Point) -> bool {
    let first = turn(from, to, one);
    let second = turn(from, to, other);
    (first > 0 && second < 0) || (first < 0 && second > 0)
}

/// Whether two segments have a common point.
pub fn segments_touch(p: Point, q: Point, r: Point, s: Point) -> bool {
    if !overlap(p.x, q.x, r.x, s.x) || !overlap(p.y, q.y, r.y, s.y) {
        return false;
    }
    (is_parted(p, q, r, s) && is_parted(r, s, p, q))
        || is_on_segment(r, p, q)
        || is_on_segment(s, p, q)
        || is_on_segment(p, r, s)
        || is_on_segment(q, r, s)
}

/// Whether a point lies in a triangle that turns left, its sides included.
fn lies_in_triangle(point: Point, p: Point, q: Point, r: Point) -> bool {
    turn(p, q, point) >= 0 && turn(q, r, point) >= 0 && turn(r, p, point) >= 0
}

/// Whether none of the points lies in a triangle that turns left, its own corners aside.
pub fn is_clear(points: &[Point], p: Point, q: Point, r: Point) -> bool {
    let (low, high) = (p.x.min(q.x).min(r.x), p.x.max(q.x).max(r.x));
    points.iter().all(|point| {
        point.x < low
            || high < point.x
            || *point == p
            || *point == q
            || *point == r
            || !lies_in_triangle(*point, p, q, r)
    })
}
