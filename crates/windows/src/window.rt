//! The window, and whether a shape meets it.

ghost use Rattle.std.specs.Prelude.{◌≡◌, ◌↔◌, All, IsTrue};
ghost use Rattle.plane.specs.Extents.{extent_of};
ghost use Rattle.plane.specs.Points.{IsInRange};
ghost use Rattle.plane.specs.Rows.{Meet};
ghost use Rattle.windows.specs.Rectangles.{HasCornerIn, IsBetween, IsWithin, rectangle_of, is_upright};

use plane::{Frame, Point, Shape, corners, frame_of, frames_meet, meets};
use std::marker::Model;

/// A shape with which many others are compared: what each comparison needs of it is found once. A
/// contract sees the list of its corners, as it does of the shape.
#[derive(Clone, Copy, Debug)]
pub struct Window {
    shape: Shape,
    frame: Frame,
    /// The shape is a rectangle with sides along the axes.
    upright: bool,
}

impl Model for Window {
    ghost use Rattle.std.specs.Prelude.{List};
    ghost use Rattle.plane.specs.Extents.{extent_of};
    ghost use Rattle.plane.specs.declared.point.Point.{Point};
    ghost use Rattle.windows.specs.Rectangles.{IsPrepared, is_upright};
    ghost use Rattle.windows.specs.Prepared.{prepared_back};

    ghost Value = { List Point };

    ghost view = { λ w. w.shape };

    ghost invariant = { λ w. IsPrepared w.shape w.frame w.upright };

    ghost inverse = { λ corners. record {
      shape = corners;
      frame = extent_of corners;
      upright = is_upright corners;
    } };

    ghost inverse_ok = { λ w kept. prepared_back w kept };
}

impl Window {
    /// The window that is this shape.
    pub fn new(shape: Shape) -> Window
        ensures { result ≡ shape }
    {
        let frame = frame_of(&shape);
        let upright = is_upright(&shape, frame);
        Window {
            shape,
            frame,
            upright,
        }
    }

    /// The shape.
    pub fn shape(&self) -> &Shape
        ensures { result.now ≡ self.now }
    {
        &self.shape
    }

    /// The least frame that contains its corners.
    pub fn frame(&self) -> Frame
        ensures { result ≡ extent_of self.now }
    {
        self.frame
    }

    /// Whether some fraction point lies in the window and in a shape. Most shapes are told by their
    /// corners alone where the window is a rectangle with sides along the axes.
    pub fn meets(&self, shape: &Shape) -> bool
        ensures { IsTrue result ↔ Meet shape.now self.now }
    {
        if !frames_meet(frame_of(shape), self.frame) {
            return false;
        }
        if self.upright && has_corner_in(corners(shape), self.frame) {
            return true;
        }
        meets(shape, &self.shape)
    }
}

/// The corners of the rectangle that a frame is, in canonical order.
fn rectangle_of(frame: Frame) -> [Point; 4]
    ensures { result ≡ rectangle_of frame }
{
    let (x0, y0, x1, y1) = (frame.x0(), frame.y0(), frame.x1(), frame.y1());
    [
        Point { x: x0, y: y0 },
        Point { x: x1, y: y0 },
        Point { x: x1, y: y1 },
        Point { x: x0, y: y1 },
    ]
}

/// Whether a shape is a rectangle with sides along the axes: that of its frame.
fn is_upright(shape: &Shape, frame: Frame) -> bool
    requires { frame ≡ extent_of shape.now }
    ensures { result ≡ is_upright shape.now }
{
    let sides = rectangle_of(frame);
    corners(shape) == sides.as_slice()
}

/// Whether a number is from `low` to `high`.
fn is_between(low: i32, number: i32, high: i32) -> bool
    ensures { IsTrue result → IsBetween low number high }
{
    low <= number && number <= high
}

/// Whether a point lies in a frame.
fn is_within(point: Point, frame: Frame) -> bool
    requires { IsInRange point }
    ensures { IsTrue result → IsWithin point frame }
{
    is_between(frame.x0(), point.x, frame.x1()) && is_between(frame.y0(), point.y, frame.y1())
}

/// Whether one of these points lies in a frame.
fn has_corner_in(points: &[Point], frame: Frame) -> bool
    requires { All IsInRange points.now }
    ensures { IsTrue result → HasCornerIn points.now frame }
{
    for point in points {
        if is_within(*point, frame) {
            return true;
        }
    }
    false
}
