//! Texts of shapes: how each is read and printed, or the fault with which it is rejected.
use crate::lines::parted;
use plane::{Point, Shape, ShapeFault};
use std::alloc::{AllocError, Global};
use std::process::Abort;
use std::test::Fail;
use wkt::{WktFault, print_shape, read_shape, shape_text};

/// Texts, each with the printed form of its shape.
const SHAPES: &str = r#"POINT (3 4) => POINT (3 4)
point(3 4) => POINT (3 4)
POINT (+3 -4) => POINT (3 -4)
POINT (-0 +0.) => POINT (0 0)
POINT (007.000 -12.0) => POINT (7 -12)
POINT (10000000 -10000000) => POINT (10000000 -10000000)
POINT (0000000000000000000000010000000. 0) => POINT (10000000 0)
LINESTRING (3 1, 0 0) => LINESTRING (0 0, 3 1)
lineString(0 -1,0 -2) => LINESTRING (0 -2, 0 -1)
POLYGON ((4 4, 0 4, 0 0, 4 0, 4 4)) => POLYGON ((0 0, 4 0, 4 4, 0 4, 0 0))
POLYGON((0 0,2 0,1 2,0 0)) => POLYGON ((0 0, 2 0, 1 2, 0 0))
point(+3.00 -0) => POINT (3 0)
polygon((0 0,0 4,4 4,4 2,4 0,0 0)) => POLYGON ((0 0, 4 0, 4 4, 0 4, 0 0))
"#;

/// Texts that are rejected, each with the code of its fault and the fault: a byte offset, or the
/// fault of the listed points. The pentagram, the second line of P8, turns left at every point.
const REFUSED: &str = r#" => K3 Syntax(0)
   => K3 Syntax(2)
(3 4) => K3 Syntax(0)
 , => K3 Syntax(1)
POINTZ (1 2) => K1 UnknownWord(0)
SRID=4326;POINT (1 2) => K1 UnknownWord(0)
 EMPTY => K1 UnknownWord(1)
CIRCULARSTRING (1 2) => K1 UnknownWord(0)
  MultiPoint (1 2) => K2 LeftOut(2)
MULTILINESTRING => K2 LeftOut(0)
MULTIPOLYGON => K2 LeftOut(0)
GEOMETRYCOLLECTION => K2 LeftOut(0)
POINT EMPTY => K2 LeftOut(6)
POINT z (1 2 3) => K2 LeftOut(6)
POINT M (1 2 3) => K2 LeftOut(6)
POINT  ZM (1 2 3 4) => K2 LeftOut(7)
POINT => K3 Syntax(5)
POINT  => K3 Syntax(6)
POINT 3 4 => K3 Syntax(6)
POINT ) => K3 Syntax(6)
POINT (EMPTY) => K4 Number(7)
POINT ( => K3 Syntax(7)
POINT ((3 4)) => K3 Syntax(7)
POINT (,) => K3 Syntax(7)
POINT (1.5 2) => K4 Number(7)
POINT (1e3 2) => K4 Number(7)
POINT (.5 2) => K4 Number(7)
POINT (1.0x 2) => K4 Number(7)
POINT (+-1 2) => K4 Number(7)
POINT (- 1) => K4 Number(7)
POINT (1 10000001) => K5 OutOfRange(9)
POINT (1 -10000001.0) => K5 OutOfRange(9)
POINT (99999999999999999999999999 x) => K5 OutOfRange(7)
POINT (10000001.5 1) => K4 Number(7)
POINT (3) => K3 Syntax(8)
POINT (3, 4) => K3 Syntax(8)
POINT (3 4 => K3 Syntax(10)
POINT (3 4 5) => K3 Syntax(11)
POINT (3 4, 5 6) => K3 Syntax(10)
POINT (3 4)) => K3 Syntax(11)
POINT (3 4) x => K3 Syntax(12)
LINESTRING EMPTY => K2 LeftOut(11)
LINESTRINGS (0 0, 1 1) => K1 UnknownWord(0)
LINESTRING (0 0) => K3 Syntax(15)
LINESTRING (0 0 1 1) => K3 Syntax(16)
LINESTRING (0 0,, 1 1) => K3 Syntax(16)
LINESTRING (0 0, 1 1, 2 2) => K2 LeftOut(20)
LINESTRING (0 0, 1 1 => K3 Syntax(20)
LINESTRING (0 0, 1 1)( => K3 Syntax(21)
LINESTRING ((0 0, 1 1)) => K3 Syntax(12)
POLYGON ZM ((0 0)) => K2 LeftOut(8)
POLYGON (EMPTY) => K3 Syntax(9)
POLYGON (0 0, 1 0, 0 1, 0 0) => K3 Syntax(9)
POLYGON (()) => K3 Syntax(10)
POLYGON ((0 0 => K3 Syntax(13)
POLYGON ((0 0 1 0 => K3 Syntax(14)
POLYGON ((0 0, 1 0, 0 1.5 => K4 Number(22)
POLYGON ((0 0, 1 0, 0 1,)) => K3 Syntax(24)
POLYGON ((0 0, 4 0, 0 4, 0 0) => K3 Syntax(29)
POLYGON ((0 0, 4 0, 0 4, 0 0), (1 1, 2 1, 1 2, 1 1)) => K2 LeftOut(29)
POLYGON ((0 0, 4 0, 0 4, 0 0)( => K3 Syntax(29)
POLYGON ((0 0, 4 0, 0 4, 0 0))) => K3 Syntax(30)
POLYGON ((0 0), x => K2 LeftOut(14)
LINESTRING (1 1, 1 1.0) => P2 Bad(SameEnds)
POLYGON ((0 0, 4 0, 0 0)) => P4 Bad(TooFew)
POLYGON ((0 0)) => P4 Bad(TooFew)
POLYGON ((0 0, 4 0, 0 4, 1 1)) => P5 Bad(NotClosed)
POLYGON ((0 0, 4 0, 4 0, 4 4, 0 0)) => P6 Bad(Repeated)
POLYGON ((0 0, 1 1, 2 2, 0 0)) => P7 Bad(Flat)
POLYGON ((0 0, 4 0, 1 1, 0 4, 0 0)) => P8 Bad(NotConvex)
POLYGON ((0 0, 6 4, -2 4, 4 0, 2 7, 0 0)) => P8 Bad(NotConvex)
POINT (10000001 0) => K5 OutOfRange(7)
POINT (0 -10000001) => K5 OutOfRange(9)
POLYGON EMPTY => K2 LeftOut(8)
POLYGON ((0 0, 1 1, 2 4, 3 9, 4 16, 5 25, 6 36, 7 49, 8 64, 9 81, 10 100, 11 121, 12 144, 13 169, 14 196, 15 225, 16 256, 0 0)) => P9 Bad(TooManyCorners)
"#;

/// A shape of sixteen corners, the most that a polygon has.
const SIXTEEN_CORNERS: &str =
    "POLYGON ((-9999999 -9999998, -9999998 -9999999, -9999996 -10000000, -9999993 -10000000, -9999989 -9999999, -9999985 -9999997, -9999982 -9999994, -9999980 -9999990, -9999980 -9999987, -9999981 -9999984, -9999983 -9999981, -9999986 -9999979, -9999989 -9999978, -9999993 -9999980, -9999996 -9999984, -9999998 -9999989, -9999999 -9999998))";

/// The printed form of the shape that is read, or the code of the fault and the fault.
fn told(alloc: Global, text: &str) -> Result<String, AllocError> {
    match read_shape(text.as_bytes()) {
        Ok(shape) => String::from_str(alloc, shape_text(&shape).as_str()),
        Err(fault) => format!(in alloc; "{} {fault:?}", fault.code()),
    }
}

fn check_text(rt: &impl Abort, alloc: Global, text: &str, want: &str) -> Result<(), AllocError> {
    assert_eq!(rt; told(alloc, text)?.as_str(), want, "{text}");
    Ok(())
}

/// Each text of the table has the printed form of its line, which is read and printed as itself.
#[test]
fn texts_read_and_printed(rt: HostRuntime) -> Result<(), Fail> {
    for line in SHAPES.lines() {
        let (text, printed) = parted(&rt, line, " => ");
        check_text(&rt, rt.alloc(), text, printed)?;
        check_text(&rt, rt.alloc(), printed, printed)?;
    }
    Ok(())
}

#[test]
fn texts_of_several_lines(rt: HostRuntime) -> Result<(), Fail> {
    for (text, printed) in [
        (" \t\r\nPoInT\n(\t3  4\r) ", "POINT (3 4)"),
        (
            "polygon\t( ( 0 0 , 0 4 , 2 4 , 4 4 , 4 0 , 2 0 , 0 0 ) )\n",
            "POLYGON ((0 0, 4 0, 4 4, 0 4, 0 0))",
        ),
    ] {
        check_text(&rt, rt.alloc(), text, printed)?;
    }
    Ok(())
}

#[test]
fn faults_and_their_places(rt: HostRuntime) -> Result<(), Fail> {
    for line in REFUSED.lines() {
        let (text, fault) = parted(&rt, line, " => ");
        check_text(&rt, rt.alloc(), text, fault)?;
    }
    assert_eq!(rt;
        read_shape(&[80, 200, 0]).err(),
        Some(WktFault::UnknownWord(0))
    );
    Ok(())
}

/// Checks the shape's printed form, as `print_shape` allocates it.
fn check_printed(rt: &impl Abort, alloc: Global, shape: &Shape, want: &str) {
    match print_shape(alloc, shape) {
        Ok(text) => assert_eq!(rt; text.as_str(), want),
        Err(_) => panic!(rt; "no memory"),
    }
}

#[test]
fn coordinate_limits(rt: HostRuntime) -> Result<(), Fail> {
    let corner = Point {
        x: 10_000_000,
        y: -10_000_000,
    };
    let shape = Shape::point(corner);
    assert!(rt; shape.is_ok());
    check_printed(
        &rt,
        rt.alloc(),
        &shape.unwrap(),
        "POINT (10000000 -10000000)",
    );
    Ok(())
}

#[test]
fn sixteen_corners(rt: HostRuntime) -> Result<(), Fail> {
    check_text(&rt, rt.alloc(), SIXTEEN_CORNERS, SIXTEEN_CORNERS)?;
    let read = read_shape(SIXTEEN_CORNERS.as_bytes());
    assert!(rt; read.is_ok());
    check_printed(&rt, rt.alloc(), &read.unwrap(), SIXTEEN_CORNERS);
    Ok(())
}

/// Checks that the text is rejected with this fault.
fn check_fault(rt: &impl Abort, text: &str, fault: WktFault) {
    assert_eq!(rt; read_shape(text.as_bytes()).err(), Some(fault), "{text}");
}

/// The text of a ring of `1 + more` points, followed by a letter.
fn ring_text(alloc: Global, more: usize) -> Result<String, AllocError> {
    let points = ", 7 7".repeat(alloc, more)?;
    format!(in alloc; "POLYGON ((0 0{points})) x")
}

/// Checks that the text is rejected for the letter at its end, and without the letter for this
/// fault of its ring.
fn check_ring(rt: &impl Abort, text: &str, fault: ShapeFault) {
    let ring = text.strip_suffix(" x").unwrap_or("");
    check_fault(rt, ring, WktFault::Bad(fault));
    check_fault(rt, text, WktFault::Syntax(ring.len().saturating_add(1)));
}

/// Rings of 64 points, the most that may be listed, of one and two more, and of many more.
#[test]
fn long_rings(rt: HostRuntime) -> Result<(), Fail> {
    for (more, fault) in [
        (63, ShapeFault::NotClosed),
        (64, ShapeFault::TooManyPoints),
        (65, ShapeFault::TooManyPoints),
        (999, ShapeFault::TooManyPoints),
    ] {
        check_ring(&rt, ring_text(rt.alloc(), more)?.as_str(), fault);
    }
    Ok(())
}

fn check_code(
    rt: &impl Abort,
    alloc: Global,
    fault: WktFault,
    code: &str,
) -> Result<(), AllocError> {
    assert_eq!(rt; fault.code(), code);
    assert_eq!(rt; format!(in alloc; "{fault}")?.as_str(), code);
    Ok(())
}

#[test]
fn faults_are_displayed_by_their_codes(rt: HostRuntime) -> Result<(), Fail> {
    for (fault, code) in [
        (WktFault::UnknownWord(3), "K1"),
        (WktFault::LeftOut(3), "K2"),
        (WktFault::Syntax(3), "K3"),
        (WktFault::Number(3), "K4"),
        (WktFault::OutOfRange(3), "K5"),
        (WktFault::Bad(ShapeFault::TooManyCorners), "P9"),
    ] {
        check_code(&rt, rt.alloc(), fault, code)?;
    }
    Ok(())
}
