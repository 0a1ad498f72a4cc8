//! Well-known texts.
use crate::streams::Sent;
use exchange::{read_geometry, shapes_of};
use grid::{Between, Grid};
use std::alloc::Global;
use std::io::Write;
use std::process::Abort;
use std::test::Fail;
use wkt::shape_text;

/// The shapes of a text, each with a bar behind it, or its fault.
fn shapes(alloc: Global, grid: &Grid, split: bool, text: &str) -> Result<Vec<u8>, Fail> {
    let mut told = Vec::new(alloc);
    let geometry = match read_geometry(alloc, grid, text.as_bytes()) {
        Ok(geometry) => geometry,
        Err(fault) => {
            write!(Sent(&mut told), "{fault}")?;
            return Ok(told);
        }
    };
    match shapes_of(alloc, split, &geometry) {
        Ok(found) => {
            for shape in found.as_slice() {
                told.extend_from_slice(shape_text(shape).as_bytes())?;
                told.extend_from_slice(b"|")?;
            }
        }
        Err(fault) => write!(Sent(&mut told), "{fault}")?,
    }
    Ok(told)
}

/// Checks the shapes of texts.
fn have(rt: &impl Abort, alloc: Global, split: bool, cases: &[(&str, &str)]) -> Result<(), Fail> {
    let grid = Grid::whole_numbers();
    for (text, wanted) in cases {
        let told = shapes(alloc, &grid, split, text)?;
        assert_eq!(rt; told.as_slice(), wanted.as_bytes(), "{text}");
    }
    Ok(())
}

#[test]
fn geometries_are_shapes(rt: HostRuntime) -> Result<(), Fail> {
    let cases = [
        ("POINT (1 2)", "POINT (1 2)|"),
        ("point z(1 2.0 -7)", "POINT (1 2)|"),
        ("LINESTRING (3 4,1 2)", "LINESTRING (1 2, 3 4)|"),
        (
            "POLYGON ((0 0, 0 5, 5 5, 0 0))",
            "POLYGON ((0 0, 5 5, 0 5, 0 0))|",
        ),
        (
            "MULTIPOLYGON (((0 0, 5 0, 5 5, 0 0)))",
            "POLYGON ((0 0, 5 0, 5 5, 0 0))|",
        ),
        ("MULTILINESTRING ((0 0, 5 0), (1 1, 2 2))", "L4"),
        ("LINESTRING (3 4, 1 2, 5 5)", "L4"),
        ("POLYGON ((0 0, 0 5, 5 5, 0 1))", "P5"),
        ("POINT EMPTY", "K2 byte 6"),
        ("MULTIPOINT ((1 2))", "K2 byte 0"),
        ("CIRCLE (1 2)", "K1 byte 0"),
        ("", "K1 byte 0"),
        ("POINT (1 2", "K3 byte 10"),
        ("POINT (1)", "K3 byte 8"),
        ("POINT (1 2) x", "K3 byte 12"),
        ("POINT (1 a)", "M1 byte 9"),
        ("POINT (1 0.5)", "M2 byte 9"),
        ("POINT (1 10000001)", "M3 byte 9"),
    ];
    have(&rt, rt.alloc(), false, &cases)
}

#[test]
fn geometries_are_cut(rt: HostRuntime) -> Result<(), Fail> {
    let cases = [
        ("POINT (1 2)", "POINT (1 2)|"),
        (
            "LINESTRING (3 4, 1 2, 1 2, 5 5)",
            "LINESTRING (1 2, 3 4)|LINESTRING (1 2, 5 5)|",
        ),
        (
            "POLYGON ((0 0, 4 0, 4 4, 2 1, 0 0))",
            "POLYGON ((2 1, 4 0, 4 4, 2 1))|POLYGON ((0 0, 4 0, 2 1, 0 0))|",
        ),
        ("POLYGON ((0 0, 4 4, 4 0, 0 3, 0 0))", "L1"),
        ("POLYGON ((0 0, 4 0, 4 4, 0 0), (9 9, 9 8, 8 8, 9 9))", "L2"),
    ];
    have(&rt, rt.alloc(), true, &cases)
}

#[test]
fn coordinates_are_those_of_the_grid(rt: HostRuntime) -> Result<(), Fail> {
    let Ok(grid) = Grid::new(b"7", b"46", 7, Between::Refuse) else {
        return Err("no grid".into());
    };
    let told = shapes(rt.alloc(), &grid, false, "POINT (7.0000003 45.9)")?;
    assert_eq!(&rt; told.as_slice(), "POINT (3 -1000000)|".as_bytes());
    Ok(())
}
