//! Whether two shapes meet.
//!
//! Quick tests decide most pairs: by their frames, by a corner of one shape that lies in the other,
//! or by a side of one that has the whole other shape on its right. Elimination decides the rest.

ghost use Rattle.std.specs.Prelude.{◌≡◌, ◌≤◌, ◌↔◌, All, Contains, IfSome, IfNone, IsSome, IsTrue, length, pos};
ghost use Rattle.plane.specs.Extents.{extent_of};
ghost use Rattle.plane.specs.Points.{IsInRange};
ghost use Rattle.plane.specs.Rows.{LiesIn, Meet};

use crate::elimination::solution;
use crate::fraction::Fraction;
use crate::frame::{Frame, covers, frame_of, frames_meet, point_frame};
use crate::point::Point;
use crate::ring::{is_apart, is_left_of_sides};
use crate::shape::{Shape, corners};
use crate::shape_rows::push_rows;
use arrayvec::ArrayVec;

/// A fraction point that lies in both shapes; `None` if there is none.
pub fn common_point(first: &Shape, second: &Shape) -> Option<Fraction>
    ensures common { IfSome result
        (λ p. LiesIn p.x p.y p.w first.now × LiesIn p.x p.y p.w second.now) }
    ensures found { IsSome result ↔ Meet first.now second.now }
{
    let first_frame = frame_of(first);
    let second_frame = frame_of(second);
    if !frames_meet(first_frame, second_frame) {
        return None;
    }
    if let Some(corner) = corner_in(first, second, second_frame) {
        return Some(corner);
    }
    if let Some(corner) = corner_in(second, first, first_frame) {
        return Some(corner);
    }
    if is_apart(corners(first), corners(second)) || is_apart(corners(second), corners(first)) {
        return None;
    }
    by_elimination(first, second)
}

/// Whether a point lies in a shape; `frame` is the shape's.
fn lies_in(point: Point, shape: &Shape, frame: Frame) -> bool
    requires point { IsInRange point }
    requires frame { frame ≡ extent_of shape.now }
    ensures { IsTrue result ↔ LiesIn point.x point.y (pos 1) shape.now }
{
    covers(frame, point_frame(point)) && is_left_of_sides(point, corners(shape))
}

/// A point with whole coordinates as a fraction point.
fn whole_point(point: Point) -> Fraction
    requires { IsInRange point }
    ensures x { result.x ≡ point.x }
    ensures y { result.y ≡ point.y }
    ensures w { result.w ≡ pos 1 }
{
    Fraction {
        x: i128::from(point.x),
        y: i128::from(point.y),
        w: 1,
    }
}

/// The first corner of a shape that lies in `other`; `frame` is that of `other`.
fn corner_in(shape: &Shape, other: &Shape, frame: Frame) -> Option<Fraction>
    requires { frame ≡ extent_of other.now }
    ensures { IfSome result (λ p. LiesIn p.x p.y p.w shape.now × LiesIn p.x p.y p.w other.now) }
{
    for corner in corners(shape) {
        if lies_in(*corner, other, frame) {
            return Some(whole_point(*corner));
        }
    }
    None
}

/// A common point of the rows of both shapes.
fn by_elimination(first: &Shape, second: &Shape) -> Option<Fraction>
    ensures common { IfSome result
        (λ p. LiesIn p.x p.y p.w first.now × LiesIn p.x p.y p.w second.now) }
    ensures none { IfNone result (Meet first.now second.now → ⊥) }
{
    let mut rows = ArrayVec::new();
    push_rows(&mut rows, first);
    push_rows(&mut rows, second);
    solution(rows.as_slice())
}

/// Whether some fraction point lies in both shapes.
pub fn meets(first: &Shape, second: &Shape) -> bool
    ensures { IsTrue result ↔ Meet first.now second.now }
{
    common_point(first, second).is_some()
}
