//! What paths and queries ask for, or their fault.
use features::Name;
use grid::{Between, Grid};
use map_asks::{Ask, AskFault, FixedPage, Layer, Source, Window, everywhere, read_ask};
use plane::{Point, Shape, corners};
use std::process::Abort;

/// Paths, queries, and the code of their fault, or `ok`.
const ASKED: [(&str, &str, &str); 83] = [
    ("/", "", "ok"),
    ("/", "&&", "ok"),
    ("/", "f=json", "U2"),
    ("/api", "", "ok"),
    ("/conformance", "", "ok"),
    ("/collections", "", "ok"),
    ("/map", "", "ok"),
    ("/map", "bbox=7,46,7,46", "U2"),
    ("/map/", "", "U1"),
    ("/collections/", "", "U1"),
    ("/collections/mast", "", "ok"),
    ("/collections/mast", "x", "U2"),
    ("/collections/road", "", "U1"),
    ("/collections/Mast", "", "U1"),
    ("/collections/ma%73t", "", "U1"),
    ("/collections/features", "", "ok"),
    ("/collections/features/items", "", "ok"),
    ("/collections/mast/items/", "", "U1"),
    ("/collections/mast/itemsx", "", "U1"),
    ("/collections/mast/items/7", "", "ok"),
    ("/collections/mast/items/7", "limit=1", "U2"),
    ("/collections/mast/items/18446744073709551615", "", "ok"),
    ("/collections/mast/items/18446744073709551616", "", "U1"),
    ("/collections/mast/items/7/x", "", "U1"),
    ("/nowhere", "bbox=x", "U1"),
    ("", "", "U1"),
    ("*", "", "U1"),
    ("/collections/mast/items", "limit=1", "ok"),
    ("/collections/mast/items", "limit=10000", "ok"),
    ("/collections/mast/items", "limit=99999999999", "ok"),
    ("/collections/mast/items", "limit=0", "U4"),
    ("/collections/mast/items", "limit=", "U4"),
    ("/collections/mast/items", "limit=-1", "U4"),
    ("/collections/mast/items", "limit=1.0", "U4"),
    ("/collections/mast/items", "limit=1&limit=1", "U3"),
    ("/collections/mast/items", "Limit=1", "U2"),
    ("/collections/mast/items", "%6Cimit=%31", "ok"),
    ("/collections/mast/items", "bbox=7,46,7,46", "ok"),
    ("/collections/mast/items", "bbox=7%2C46%2C7%2C46", "ok"),
    ("/collections/mast/items", "bbox=7,46,0,7,46,99.5", "ok"),
    ("/collections/mast/items", "bbox=7,46,x,7,46,99.5", "U4"),
    ("/collections/mast/items", "bbox=7,46,7", "U4"),
    ("/collections/mast/items", "bbox=7,46,7,46,7", "U4"),
    ("/collections/mast/items", "bbox=7,46,7,", "U4"),
    ("/collections/mast/items", "bbox=7,46,7,x", "U4"),
    ("/collections/mast/items", "bbox=7,47,7,46", "U4"),
    ("/collections/mast/items", "bbox=8,46,7,46", "U4"),
    ("/collections/mast/items", "bbox=-180,-90,180,90", "ok"),
    ("/collections/mast/items", "bbox=7e0,4.6E1,7.5,46.5", "ok"),
    (
        "/collections/mast/items",
        "bbox=7,46,7,46&bbox=7,46,7,46",
        "U3",
    ),
    (
        "/collections/mast/items",
        "datetime=2026-11-28T05:00:00Z",
        "ok",
    ),
    (
        "/collections/mast/items",
        "datetime=2026-11-28T05:00:00.25%2B01:00",
        "ok",
    ),
    (
        "/collections/mast/items",
        "datetime=2026-11-28t05:00:00z",
        "ok",
    ),
    (
        "/collections/mast/items",
        "datetime=2026-11-28u05:00:00z",
        "U4",
    ),
    ("/collections/mast/items", "datetime=2026-11-28", "ok"),
    ("/collections/mast/items", "datetime=2026-11-28/..", "ok"),
    ("/collections/mast/items", "datetime=2024-02-29", "ok"),
    ("/collections/mast/items", "datetime=2026-02-29", "U4"),
    ("/collections/mast/items", "datetime=2000-02-29", "ok"),
    ("/collections/mast/items", "datetime=1900-02-29", "U4"),
    ("/collections/mast/items", "datetime=2026-04-30", "ok"),
    ("/collections/mast/items", "datetime=2026-04-31", "U4"),
    ("/collections/mast/items", "datetime=2026-12-31", "ok"),
    ("/collections/mast/items", "datetime=2026-12-32", "U4"),
    ("/collections/mast/items", "datetime=2026-11-00", "U4"),
    ("/collections/mast/items", "datetime=2026-00-01", "U4"),
    ("/collections/mast/items", "datetime=2026-13-01", "U4"),
    (
        "/collections/mast/items",
        "datetime=2026-11-28T23:59:60Z",
        "ok",
    ),
    (
        "/collections/mast/items",
        "datetime=2026-11-28T24:00:00Z",
        "U4",
    ),
    (
        "/collections/mast/items",
        "datetime=2026-11-28T00:60:00Z",
        "U4",
    ),
    (
        "/collections/mast/items",
        "datetime=2026-11-28T00:00:61Z",
        "U4",
    ),
    (
        "/collections/mast/items",
        "datetime=2026-11-28T00:00:00-23:59",
        "ok",
    ),
    (
        "/collections/mast/items",
        "datetime=2026-11-28T00:00:00-24:00",
        "U4",
    ),
    (
        "/collections/mast/items",
        "datetime=2026-11-28T00:00:00-23:60",
        "U4",
    ),
    (
        "/collections/mast/items",
        "datetime=2026-02-30T00:00:00Z",
        "U4",
    ),
    (
        "/collections/mast/items",
        "datetime=2026-11-28/2026-11-31",
        "U4",
    ),
    ("/collections/mast/items", "datetime=../..", "U4"),
    ("/collections/mast/items", "datetime=/2026-11-28", "ok"),
    ("/collections/mast/items", "datetime=yesterday", "U4"),
    ("/collections/mast/items", "kept=3&after=9&limit=2", "ok"),
    ("/collections/mast/items", "kept=3&bbox=7,46,7,46", "U5"),
    ("/collections/mast/items", "after=3", "U5"),
    ("/collections/mast/items", "kept=x", "U4"),
];

/// The grid of the tests: steps of a tenth of a millionth, from 7 and 46.
fn degrees(rt: &impl Abort) -> Grid {
    Grid::new(b"7", b"46", 7, Between::Refuse).expect(rt, "a grid")
}

/// What is asked for where `mast` is a collection.
fn asked(rt: &impl Abort, path: &str, query: &str) -> Result<Ask, AskFault> {
    let classes = [Name::new(b"mast").expect(rt, "a name")];
    read_ask(&degrees(rt), &classes, path.as_bytes(), query.as_bytes())
}

#[test]
fn first_fault_of_each_ask(rt: HostRuntime) {
    for (path, query, wanted) in ASKED {
        let code = match asked(&rt, path, query) {
            Ok(_) => "ok",
            Err(fault) => fault.code(),
        };
        assert_eq!(rt; code, wanted, "{path} {query}");
    }
}

/// Boxes, and the corners of their windows; none where nothing is left.
const BOXES: [(&str, &[(i32, i32)]); 8] = [
    ("7.0000001,46.0000002,7.0000001,46.0000002", &[(1, 2)]),
    (
        "7.0000001,46.0000002,7.0000004,46.0000002",
        &[(1, 2), (4, 2)],
    ),
    (
        "7.0000001,46.0000002,7.0000001,46.0000005",
        &[(1, 2), (1, 5)],
    ),
    (
        "7,46,7.0000003,46.0000004",
        &[(0, 0), (3, 0), (3, 4), (0, 4)],
    ),
    (
        "7.00000001,45.99999999,7.00000021,46.00000001",
        &[(0, -1), (3, -1), (3, 1), (0, 1)],
    ),
    (
        "-180,45.9,180,90",
        &[
            (-10_000_000, -1_000_000),
            (10_000_000, -1_000_000),
            (10_000_000, 10_000_000),
            (-10_000_000, 10_000_000),
        ],
    ),
    ("9,46,10,47", &[]),
    ("7,80,8,80", &[]),
];

/// The shape where a search looks that a query asks for.
fn window(rt: &impl Abort, query: &str) -> Option<Shape> {
    match asked(rt, "/collections/mast/items", query) {
        Ok(Ask::Items(_, items)) => match items.source {
            Source::Search(Window::Shape(shape)) => Some(shape),
            _ => None,
        },
        _ => None,
    }
}

/// Whether a shape has these corners.
fn has_corners(shape: &Shape, wanted: &[(i32, i32)]) -> bool {
    let found = corners(shape);
    found.len() == wanted.len()
        && found
            .iter()
            .zip(wanted)
            .all(|(p, q)| p.x == q.0 && p.y == q.1)
}

#[test]
fn windows_of_boxes(rt: HostRuntime) -> Result<(), std::test::Fail> {
    for (text, wanted) in BOXES {
        let query = format!(in rt.alloc(); "bbox={text}")?;
        match window(&rt, query.as_str()) {
            Some(shape) => assert!(rt; has_corners(&shape, wanted), "{text}"),
            None => assert!(rt; wanted.is_empty(), "{text}"),
        }
    }
    Ok(())
}

/// Each box in order and in range has a window: its corners are a shape.
#[test]
fn each_box_has_a_window(rt: HostRuntime) {
    assert!(rt; matches!(everywhere(), Some(Window::Shape(_))));
    let ends = [
        -10_000_000i32,
        -9_999_999,
        -1,
        0,
        1,
        3,
        9_999_999,
        10_000_000,
    ];
    for west in ends {
        for east in ends {
            if west <= east {
                let right = Shape::polygon(&[
                    Point { x: west, y: -5 },
                    Point { x: east, y: -5 },
                    Point { x: east, y: 5 },
                    Point { x: west, y: 5 },
                    Point { x: west, y: -5 },
                ]);
                assert!(rt; right.is_ok() || west == east);
            }
        }
    }
}

#[test]
fn kept_pages_are_asked_for(rt: HostRuntime) {
    match asked(
        &rt,
        "/collections/features/items",
        "kept=12&after=303&limit=10",
    ) {
        Ok(Ask::Items(layer, items)) => {
            assert!(rt; matches!(layer, Layer::All));
            assert!(rt; items.limit == 10);
            assert!(rt;
                matches!(
                    items.source,
                    Source::Kept {
                        number: 12,
                        after: Some(303)
                    }
                )
            );
        }
        _ => assert!(rt; false, "no page"),
    }
    assert!(rt; matches!(asked(&rt, "/", ""), Ok(Ask::Fixed(FixedPage::Landing))));
}
