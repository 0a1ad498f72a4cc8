//! Worked shapes: their corners, faults and frames, and which of them meet.
use crate::lines::{is_first, parted, point};
use arrayvec::ArrayVec;
use plane::{
    Fraction, Frame, Point, Shape, ShapeFault, common_point, corners, covers, frame_of,
    frames_meet, hull, meets,
};
use std::alloc::{AllocError, Global};
use std::process::Abort;
use std::test::Fail;

/// Listed points, with the corners of their shape, or with the code of their fault and the fault.
/// The star of five points, the first line of P8, turns left at every point. The long rings have
/// the points `x, x * x` and turn at each of them.
const SHAPES: &str = r#"0 0, 0 4, 4 4, 4 2, 4 0, 0 0 => 0 0, 4 0, 4 4, 0 4
4 4, 0 4, 0 0, 4 0, 4 4 => 0 0, 4 0, 4 4, 0 4
0 0, 1 1, 2 4, 3 9, 4 16, 5 25, 6 36, 7 49, 8 64, 9 81, 10 100, 11 121, 12 144, 13 169, 14 196, 15 225, 0 0 => 0 0, 1 1, 2 4, 3 9, 4 16, 5 25, 6 36, 7 49, 8 64, 9 81, 10 100, 11 121, 12 144, 13 169, 14 196, 15 225
3 -1, 3 -2 => 3 -2, 3 -1
10000000 -10000000 => 10000000 -10000000
10000001 0 => P1 OutOfRange
0 -10000001 => P1 OutOfRange
10000001 2, 1 2 => P1 OutOfRange
0 0, 10000001 0, 0 4 => P1 OutOfRange
1 2, 1 2 => P2 SameEnds
0 0, 4 0, 0 0 => P4 TooFew
0 0, 4 0, 0 4, 1 1 => P5 NotClosed
0 0, 4 0, 4 4, 4 0, 0 0 => P6 Repeated
0 0, 1 1, 2 2, 0 0 => P7 Flat
0 0, 6 4, -2 4, 4 0, 2 7, 0 0 => P8 NotConvex
0 0, 4 0, 1 1, 0 4, 0 0 => P8 NotConvex
0 0, 1 1, 2 4, 3 9, 4 16, 5 25, 6 36, 7 49, 8 64, 9 81, 10 100, 11 121, 12 144, 13 169, 14 196, 15 225, 16 256, 0 0 => P9 TooManyCorners
"#;

/// Pairs of shapes that meet or are apart: long parallel segments; a square with shapes that touch
/// it, cross it or only overlap its frame; a segment with segments of its line and with points;
/// shapes at the greatest coordinates that meet or miss by one unit; and a tilted square with
/// shapes that have a corner in it, are separated from it by a side, or neither.
const MEETINGS: &str =
    r#"-10000000 -10000000, 10000000 9999999 | -10000000 -9999999, 10000000 10000000 => apart
0 0, 4 0, 4 4, 0 4, 0 0 | 4 4 => meet
0 0, 4 0, 4 4, 0 4, 0 0 | 2 3 => meet
0 0, 4 0, 4 4, 0 4, 0 0 | 5 4 => apart
0 0, 4 0, 4 4, 0 4, 0 0 | 4 4, 8 4, 8 8, 4 8, 4 4 => meet
0 0, 4 0, 4 4, 0 4, 0 0 | 4 1, 9 1, 9 3, 4 3, 4 1 => meet
0 0, 4 0, 4 4, 0 4, 0 0 | 1 1, 2 1, 2 2, 1 2, 1 1 => meet
0 0, 4 0, 4 4, 0 4, 0 0 | -1 1, 5 1, 5 2, -1 2, -1 1 => meet
0 0, 4 0, 4 4, 0 4, 0 0 | 5 0, 9 0, 9 4, 5 4, 5 0 => apart
0 0, 4 0, 4 4, 0 4, 0 0 | 3 6, 6 3 => apart
0 0, 4 0, 4 4, 0 4, 0 0 | 2 6, 6 2 => meet
0 0, 4 0, 4 4, 0 4, 0 0 | 3 6, 6 2 => apart
0 0, 2 4 | 2 4, 3 6 => meet
0 0, 2 4 | 3 6, 4 8 => apart
0 0, 2 4 | 1 2 => meet
0 0, 2 4 | 1 3 => apart
-10000000 -10000000, 10000000 -10000000, 10000000 10000000, -10000000 -10000000 | -9999999 -9999999 => meet
-10000000 -10000000, 10000000 -10000000, 10000000 10000000, -10000000 -10000000 | -9999999 -9999998 => apart
-10000000 -10000000, 10000000 -10000000, 10000000 10000000, -10000000 -10000000 | -10000000 -9999999, 9999999 10000000 => apart
-10000000 -10000000, 10000000 -10000000, 10000000 10000000, -10000000 -10000000 | -10000000 -9999999, 10000000 10000000 => meet
0 -6, 6 0, 0 6, -6 0, 0 -6 | 3 3, 7 3, 7 7, 3 7, 3 3 => meet
0 -6, 6 0, 0 6, -6 0, 0 -6 | 4 3, 7 3, 7 7, 4 7, 4 3 => apart
0 -6, 6 0, 0 6, -6 0, 0 -6 | -9 -1, 9 -1, 9 1, -9 1, -9 -1 => meet
0 -6, 6 0, 0 6, -6 0, 0 -6 | 3 3 => meet
0 -6, 6 0, 0 6, -6 0, 0 -6 | 4 3 => apart
0 -6, 6 0, 0 6, -6 0, 0 -6 | 0 7, 7 0 => apart
0 -6, 6 0, 0 6, -6 0, 0 -6 | 0 6, 7 0 => meet
"#;

/// Pairs of shapes that are equal, in whatever order they are listed, or differ in a corner or in
/// the number of corners.
const EQUALITIES: &str = r#"0 0, 4 0, 0 4, 0 0 | 0 4, 0 0, 4 0, 0 4 => equal
0 0, 4 0, 0 4, 0 0 | 0 4, 4 0, 0 0, 0 4 => equal
0 0, 4 0, 0 4, 0 0 | 0 0, 4 0, 0 5, 0 0 => unequal
0 0, 4 0, 0 4, 0 0 | 0 0, 4 0, 4 4, 0 4, 0 0 => unequal
0 0, 4 0 | 4 0, 0 0 => equal
0 0, 4 0 | 0 0, 4 0, 0 4, 0 0 => unequal
0 0 | 0 0, 4 0 => unequal
0 0 | 0 0 => equal
0 0, 0 4, 4 4, 4 2, 4 0, 0 0 | 4 4, 0 4, 0 0, 4 0, 4 4 => equal
"#;

/// Pairs of shapes, and whether their frames are in a relation.
const FRAMES: &str = r#"1 -1, 9 -1, 9 7, 1 7, 1 -1 | covers | 1 2, 5 3, 2 7, 1 2 => yes
1 -1, 9 -1, 9 7, 1 7, 1 -1 | covers | 9 -1 => yes
1 2, 5 3, 2 7, 1 2 | covers | 1 -1, 9 -1, 9 7, 1 7, 1 -1 => no
1 2, 5 3, 2 7, 1 2 | covers | 9 -1 => no
9 -1 | covers | 9 -1 => yes
1 2, 5 3, 2 7, 1 2 | meets | 9 -1 => no
1 -1, 9 -1, 9 7, 1 7, 1 -1 | meets | 9 -1 => yes
1 2, 5 3, 2 7, 1 2 | meets | 5 7 => yes
5 7 | meets | 1 2, 5 3, 2 7, 1 2 => yes
0 0, 4 0, 0 4, 0 0 | equals | 0 0, 4 0, 4 4, 0 4, 0 0 => yes
0 0, 4 0, 0 4, 0 0 | equals | 0 0, 4 0 => no
0 0, 4 0, 0 4, 0 0 | differs from | 0 0, 4 0 => yes
"#;

/// The points of a text such as `3 -4, 0 0`.
fn points(rt: &impl Abort, text: &str) -> ArrayVec<Point, 64> {
    let mut points = ArrayVec::new();
    for part in text.split(", ") {
        assert!(rt; points.try_push(point(rt, part)).is_ok(), "{text}");
    }
    points
}

/// The shape of listed points: one is a point, two are the ends of a segment, others are a ring.
fn shape(rt: &impl Abort, text: &str) -> Result<Shape, ShapeFault> {
    let points = points(rt, text);
    match points.as_slice() {
        [point] => Shape::point(*point),
        [start, end] => Shape::segment(*start, *end),
        ring => Shape::polygon(ring),
    }
}

/// The shape of a text, which has to have one.
fn worked(rt: &impl Abort, text: &str) -> Shape {
    let shape = shape(rt, text);
    assert!(rt; shape.is_ok(), "{text}");
    shape.unwrap()
}

/// Checks the corners or the fault of the listed points of a line.
fn check_shape(rt: &impl Abort, alloc: Global, line: &str) -> Result<(), AllocError> {
    let (listed, told) = parted(rt, line, " => ");
    match shape(rt, listed) {
        Ok(shape) => assert_eq!(rt; corners(&shape), points(rt, told).as_slice(), "{line}"),
        Err(fault) => {
            assert_eq!(rt;
                format!(in alloc; "{fault} {fault:?}")?.as_str(),
                told,
                "{line}"
            );
            assert!(rt; told.starts_with(fault.code()), "{line}");
        }
    }
    Ok(())
}

#[test]
fn corners_and_faults(rt: HostRuntime) -> Result<(), Fail> {
    for line in SHAPES.lines() {
        check_shape(&rt, rt.alloc(), line)?;
    }
    Ok(())
}

/// No point is too few, at most 64 points may be listed, and the range is checked before the count.
#[test]
fn limits_of_rings(rt: HostRuntime) -> Result<(), Fail> {
    let none = Shape::polygon(&[]);
    assert_eq!(rt; none.err(), Some(ShapeFault::TooFew));
    for (x, count, fault) in [
        (0, 64, ShapeFault::Repeated),
        (0, 65, ShapeFault::TooManyPoints),
        (10_000_001, 65, ShapeFault::OutOfRange),
    ] {
        let listed = [Point { x, y: 0 }; 65];
        let ring = Shape::polygon(listed.get(..count).unwrap_or(&[]));
        assert_eq!(rt; ring.err(), Some(fault), "{x} {count}");
    }
    Ok(())
}

/// Checks whether the two shapes of a line meet, in both orders.
fn check_meeting(rt: &impl Abort, line: &str) {
    let (pair, told) = parted(rt, line, " => ");
    let (first, second) = parted(rt, pair, " | ");
    let (first, second) = (worked(rt, first), worked(rt, second));
    let expected = is_first(rt, told, "meet", "apart");
    assert_eq!(rt; meets(&first, &second), expected, "{line}");
    assert_eq!(rt; meets(&second, &first), expected, "{line}");
    assert_eq!(rt; common_point(&first, &second).is_some(), expected, "{line}");
}

#[test]
fn touching_and_missing(rt: HostRuntime) -> Result<(), Fail> {
    for line in MEETINGS.lines() {
        check_meeting(&rt, line);
    }
    Ok(())
}

/// A common point of the shapes of two texts.
fn common(rt: &impl Abort, first: &str, second: &str) -> Fraction {
    let common = common_point(&worked(rt, first), &worked(rt, second));
    assert!(rt; common.is_some(), "{first} {second}");
    common.unwrap()
}

/// The point where two segments cross; for a shape with a corner in the other one, such a corner.
#[test]
fn common_points(rt: HostRuntime) -> Result<(), Fail> {
    let p = common(&rt, "0 0, 3 1", "0 1, 3 0");
    assert_eq!(rt; p.x.checked_mul(2), p.w.checked_mul(3));
    assert_eq!(rt; p.y.checked_mul(2), Some(p.w));
    let near = "3 3, 7 3, 7 7, 3 7, 3 3";
    let p = common(&rt, near, "0 -6, 6 0, 0 6, -6 0, 0 -6");
    assert_eq!(rt; (p.x, p.y, p.w), (3, 3, 1));
    Ok(())
}

fn check_equality(rt: &impl Abort, line: &str) {
    let (pair, told) = parted(rt, line, " => ");
    let (first, second) = parted(rt, pair, " | ");
    let (first, second) = (worked(rt, first), worked(rt, second));
    let equal = is_first(rt, told, "equal", "unequal");
    assert_eq!(rt; first == second, equal, "{line}");
    assert_eq!(rt; first != second, !equal, "{line}");
}

#[test]
fn equal_shapes(rt: HostRuntime) -> Result<(), Fail> {
    for line in EQUALITIES.lines() {
        check_equality(&rt, line);
    }
    assert!(rt; Point { x: 0, y: 1 } != Point { x: 1, y: 0 });
    Ok(())
}

/// Whether the first frame is in this relation to the second.
fn stands(rt: &impl Abort, first: Frame, relation: &str, second: Frame) -> bool {
    match relation {
        "covers" => covers(first, second),
        "meets" => frames_meet(first, second),
        "equals" => first == second,
        "differs from" => first != second,
        _ => panic!(rt; "no relation: {relation}"),
    }
}

fn check_frames(rt: &impl Abort, line: &str) {
    let (given, told) = parted(rt, line, " => ");
    let (first, others) = parted(rt, given, " | ");
    let (relation, second) = parted(rt, others, " | ");
    let (first, second) = (frame(rt, first), frame(rt, second));
    let expected = is_first(rt, told, "yes", "no");
    assert_eq!(rt; stands(rt, first, relation, second), expected, "{line}");
}

fn frame(rt: &impl Abort, text: &str) -> Frame {
    frame_of(&worked(rt, text))
}

/// `x0`, `y0`, `x1` and `y1` of a frame.
fn ends(frame: Frame) -> (i32, i32, i32, i32) {
    (frame.x0(), frame.y0(), frame.x1(), frame.y1())
}

#[test]
fn frames(rt: HostRuntime) -> Result<(), Fail> {
    for line in FRAMES.lines() {
        check_frames(&rt, line);
    }
    let triangle = frame(&rt, "1 2, 5 3, 2 7, 1 2");
    let both = hull(triangle, frame(&rt, "9 -1"));
    assert_eq!(rt; ends(triangle), (1, 2, 5, 7));
    assert_eq!(rt; ends(both), (1, -1, 9, 7));
    assert!(rt; covers(Frame::whole(), both) && covers(both, triangle));
    Ok(())
}
