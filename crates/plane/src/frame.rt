//! Frames: rectangles with sides along the axes.

ghost use Rattle.std.specs.Prelude.{◌≡◌, ◌↔◌, IsTrue, All};
ghost use Rattle.plane.specs.Extents.{Extent, IsFrame, joined, point_extent, extent_of, whole_extent, Overlap, Spans};
ghost use Rattle.plane.specs.Points.{IsInRange};
ghost use Rattle.plane.specs.Rows.{FramesMeet, Covers, IsLeastCover, IsLeastFrame};

use crate::point::{LIMIT, Point};
use crate::shape::{Shape, corners};
use std::marker::Model;

/// A rectangle from `x0` to `x1` and from `y0` to `y1`, both inclusive, within the
/// range of coordinates.
#[derive(Clone, Copy, Debug)]
pub struct Frame {
    x0: i32,
    y0: i32,
    x1: i32,
    y1: i32,
}

// A contract sees the extent. The ends are in order and in range.
impl Model for Frame {
    ghost use Rattle.plane.specs.Extents.{Extent, IsFrame};

    ghost Value = { Extent };

    ghost view = { λ f. record { x0 = f.x0; y0 = f.y0; x1 = f.x1; y1 = f.y1 } };

    ghost invariant = { λ f. IsFrame (record { x0 = f.x0; y0 = f.y0; x1 = f.x1; y1 = f.y1 }) };

    ghost inverse = { λ e. record { x0 = e.x0; y0 = e.y0; x1 = e.x1; y1 = e.y1 } };
}

impl PartialEq for Frame {
    ghost use Rattle.std.specs.Cmp.{decided, partial_equiv_from_equiv};
    ghost use Rattle.plane.specs.Equality.{same_frame, same_frame_decides};

    ghost eq = { same_frame };

    ghost laws = { partial_equiv_from_equiv (decided same_frame same_frame_decides) };

    /// Whether the two frames have the same ends.
    fn eq(&self, other: &Frame) -> bool
        ensures tested { result ≡ same_frame self.now other.now }
        ensures exact { IsTrue result ↔ (self.now ≡ other.now) }
    {
        self.x0 == other.x0 && self.y0 == other.y0 && self.x1 == other.x1 && self.y1 == other.y1
    }
}

impl Eq for Frame {
    ghost use Rattle.std.specs.Cmp.{decided};
    ghost use Rattle.plane.specs.Equality.{same_frame, same_frame_decides};

    ghost laws = { decided same_frame same_frame_decides };
}

impl Frame {
    /// The frame of all points in range.
    pub fn whole() -> Frame
        ensures value { result ≡ whole_extent }
        ensures whole { (e : Extent) → IsFrame e → Covers result e }
    {
        Frame {
            x0: -LIMIT,
            y0: -LIMIT,
            x1: LIMIT,
            y1: LIMIT,
        }
    }

    /// The left side. The ends of each frame are in order and in range.
    pub fn x0(self) -> i32
        ensures value { result ≡ self.x0 }
        ensures frame { IsFrame self }
    {
        self.x0
    }

    /// The lower side.
    pub fn y0(self) -> i32
        ensures { result ≡ self.y0 }
    {
        self.y0
    }

    /// The right side.
    pub fn x1(self) -> i32
        ensures { result ≡ self.x1 }
    {
        self.x1
    }

    /// The upper side.
    pub fn y1(self) -> i32
        ensures { result ≡ self.y1 }
    {
        self.y1
    }
}

/// The frame of one point.
pub fn point_frame(p: Point) -> Frame
    requires { IsInRange p }
    ensures { result ≡ point_extent p }
{
    Frame {
        x0: p.x,
        y0: p.y,
        x1: p.x,
        y1: p.y,
    }
}

/// The least frame that contains both frames.
pub fn hull(first: Frame, second: Frame) -> Frame
    ensures value { result ≡ joined first second }
    ensures least { IsLeastCover result first second }
{
    Frame {
        x0: first.x0.min(second.x0),
        y0: first.y0.min(second.y0),
        x1: first.x1.max(second.x1),
        y1: first.y1.max(second.y1),
    }
}

/// The least frame that contains a shape's corners.
pub fn frame_of(shape: &Shape) -> Frame
    ensures value { result ≡ extent_of shape.now }
    ensures least { IsLeastFrame result shape.now }
{
    let points = corners(shape);
    let mut frame = point_frame(points[0]);
    for point in points {
        frame = hull(frame, point_frame(*point));
    }
    frame
}

/// Whether two intervals, each with its ends in order, have a common number.
fn overlap(low: i32, high: i32, other_low: i32, other_high: i32) -> bool
    ensures { IsTrue result ↔ Overlap low high other_low other_high }
{
    low <= other_high && other_low <= high
}

/// Whether the first interval contains the second.
fn spans(low: i32, high: i32, other_low: i32, other_high: i32) -> bool
    ensures { IsTrue result ↔ Spans low high other_low other_high }
{
    low <= other_low && other_high <= high
}

/// Whether some fraction point lies in both frames.
pub fn frames_meet(first: Frame, second: Frame) -> bool
    ensures { IsTrue result ↔ FramesMeet first second }
{
    overlap(first.x0, first.x1, second.x0, second.x1)
        && overlap(first.y0, first.y1, second.y0, second.y1)
}

/// Whether each fraction point of the second frame lies in the first.
pub fn covers(first: Frame, second: Frame) -> bool
    ensures { IsTrue result ↔ Covers first second }
{
    spans(first.x0, first.x1, second.x0, second.x1)
        && spans(first.y0, first.y1, second.y0, second.y1)
}
