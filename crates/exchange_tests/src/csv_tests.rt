//! Features as rows of comma-separated values.
use feature_csv::{HEADER, row_text};
use features::{Feature, Name};
use grid::{Between, Grid};
use plane::{Point, Shape};
use std::process::Abort;

/// The feature of a shape.
fn feature(rt: &impl Abort, shape: Shape) -> Feature {
    Feature {
        id: 201,
        version: 13,
        office: Name::new(b"north").expect(rt, "a name"),
        class: Name::new(b"mast").expect(rt, "a name"),
        shape,
    }
}

#[test]
fn features_have_rows(rt: HostRuntime) {
    let degrees = Grid::new(b"7", b"46", 7, Between::Refuse).expect(&rt, "a grid");
    let whole = Grid::whole_numbers();
    assert!(rt; HEADER == b"id,version,office,class,WKT\n".as_slice());
    let point = Shape::point(Point { x: 1, y: 2 }).expect(&rt, "a point");
    let row = row_text(&degrees, &feature(&rt, point));
    let wanted = "201,13,north,mast,\"POINT (7.0000001 46.0000002)\"\n";
    assert!(rt; row.as_slice() == wanted.as_bytes());
    let road = Shape::segment(Point { x: 3, y: 1 }, Point { x: 0, y: -4 }).expect(&rt, "a segment");
    let row = row_text(&whole, &feature(&rt, road));
    let wanted = "201,13,north,mast,\"LINESTRING (0 -4, 3 1)\"\n";
    assert!(rt; row.as_slice() == wanted.as_bytes());
    let corners = [
        Point { x: 0, y: 0 },
        Point { x: 0, y: 4 },
        Point { x: 4, y: 4 },
        Point { x: 0, y: 0 },
    ];
    let parcel = Shape::polygon(&corners).expect(&rt, "a triangle");
    let row = row_text(&whole, &feature(&rt, parcel));
    let wanted = "201,13,north,mast,\"POLYGON ((0 0, 4 4, 0 4, 0 0))\"\n";
    assert!(rt; row.as_slice() == wanted.as_bytes());
}
