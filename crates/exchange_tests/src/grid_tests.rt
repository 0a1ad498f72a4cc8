//! Numbers on grids: which coordinate a text means, or its fault, and the text of a coordinate.
use grid::{
    Axis, Between, Grid, GridFault, NumberFault, coordinate_of, coordinate_text, reach, step_text,
};
use std::process::Abort;

/// Texts and the coordinates that they mean where 7 is the origin and a step is 0.0000001. Exact
/// values by Python's `decimal`.
const READ: [(&str, i32); 16] = [
    ("7", 0),
    ("7.0", 0),
    ("+7.", 0),
    ("007", 0),
    ("70e-1", 0),
    ("0.07E+2", 0),
    ("7.0000003", 3),
    ("7.000000300000000000000000000000000000000", 3),
    ("70000003e-7", 3),
    ("6.9999999", -1),
    ("8", 10_000_000),
    ("6", -10_000_000),
    (".65e1", -5_000_000),
    ("7.1234567", 1_234_567),
    ("0.00000000071234567e10", 1_234_567),
    ("712345670000000000000000000000e-29", 1_234_567),
];

/// Texts that are no coordinates there, each with its fault.
const REFUSED: [(&str, NumberFault); 18] = [
    ("", NumberFault::NotANumber),
    ("-", NumberFault::NotANumber),
    (".", NumberFault::NotANumber),
    ("e5", NumberFault::NotANumber),
    ("7,0", NumberFault::NotANumber),
    (" 7", NumberFault::NotANumber),
    ("7e", NumberFault::NotANumber),
    ("7e+", NumberFault::NotANumber),
    ("7e1.0", NumberFault::NotANumber),
    ("0x7", NumberFault::NotANumber),
    ("nan", NumberFault::NotANumber),
    ("7e10000", NumberFault::NotANumber),
    ("7.00000005", NumberFault::Between),
    (
        "7.00000000000000000000000000000000000001",
        NumberFault::Between,
    ),
    ("1e-9999", NumberFault::Between),
    ("8.0000001", NumberFault::Beyond),
    ("-7", NumberFault::Beyond),
    ("7e9999", NumberFault::Beyond),
];

fn degrees(rt: &impl Abort, between: Between) -> Grid {
    Grid::new(b"7", b"46", 7, between).expect(rt, "a grid")
}

#[test]
fn texts_are_read(rt: HostRuntime) {
    let grid = degrees(&rt, Between::Refuse);
    for (text, n) in READ {
        assert!(rt;
            coordinate_of(&grid, Axis::X, text.as_bytes()) == Ok(n),
            "{text}"
        );
    }
    for (text, fault) in REFUSED {
        assert!(rt;
            coordinate_of(&grid, Axis::X, text.as_bytes()) == Err(fault),
            "{text}"
        );
    }
}

/// The nearest step; of two equally near ones, the one farther from 0.
#[test]
fn nearest_steps(rt: HostRuntime) {
    let grid = degrees(&rt, Between::Nearest);
    for (text, n) in [
        ("7.00000004999", 0),
        ("7.00000005", 1),
        ("6.99999995", 0),
        ("6.99999994", -1),
        ("7.5", 5_000_000),
        ("7.99999999", 10_000_000),
    ] {
        assert!(rt;
            coordinate_of(&grid, Axis::X, text.as_bytes()) == Ok(n),
            "{text}"
        );
    }
    let west = Grid::new(b"-7", b"46", 0, Between::Nearest).expect(&rt, "a grid");
    assert!(rt; coordinate_of(&west, Axis::X, b"-7.5") == Ok(-1));
    assert!(rt; coordinate_of(&west, Axis::X, b"-7.4999") == Ok(0));
}

#[test]
fn coordinates_have_texts(rt: HostRuntime) {
    let grid = degrees(&rt, Between::Refuse);
    for (axis, n, text) in [
        (Axis::X, 3, "7.0000003"),
        (Axis::X, 0, "7.0000000"),
        (Axis::Y, -1, "45.9999999"),
        (Axis::Y, 10_000_000, "47.0000000"),
    ] {
        assert!(rt; coordinate_text(&grid, axis, n).as_str() == text, "{text}");
    }
    let zero = Grid::new(b"0", b"0", 7, Between::Refuse).expect(&rt, "a grid");
    assert!(rt; coordinate_text(&zero, Axis::X, -1).as_str() == "-0.0000001");
    let whole = Grid::whole_numbers();
    assert!(rt; coordinate_text(&whole, Axis::X, -3).as_str() == "-3");
    assert!(rt; coordinate_of(&whole, Axis::X, b"3.0") == Ok(3));
    assert!(rt; coordinate_of(&whole, Axis::X, b"1e-05") == Err(NumberFault::Between));
    assert!(rt; step_text(&grid).as_str() == "0.0000001");
    assert!(rt; step_text(&whole).as_str() == "1");
    let (least, greatest) = reach(&grid, Axis::Y);
    assert!(rt; least.as_str() == "45.0000000");
    assert!(rt; greatest.as_str() == "47.0000000");
}

#[test]
fn grids_are_refused(rt: HostRuntime) {
    for (x, y, decimals, fault) in [
        ("7", "46", 10, GridFault::TooManyDecimals),
        (
            "x",
            "y",
            7,
            GridFault::Origin(Axis::X, NumberFault::NotANumber),
        ),
        (
            "7",
            "46.5",
            0,
            GridFault::Origin(Axis::Y, NumberFault::Between),
        ),
        (
            "1000000001",
            "0",
            9,
            GridFault::Origin(Axis::X, NumberFault::Beyond),
        ),
    ] {
        let made = Grid::new(x.as_bytes(), y.as_bytes(), decimals, Between::Refuse);
        match made {
            Ok(_) => assert!(rt; false, "{x}"),
            Err(found) => assert!(rt; found == fault, "{x}"),
        }
    }
}
