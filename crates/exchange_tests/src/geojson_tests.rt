//! Features as GeoJSON: their texts, and what texts say, or their fault and its place.
use features::{Feature, Name};
use geojson::{Role, feature_text, geometry_text, read_feature};
use grid::{Between, Grid};
use plane::{Point, Shape};
use std::process::Abort;
use std::test::Fail;

/// The examples of RFC 7946, A.1 to A.6, with how many paths they have, and points in the last.
const EXAMPLES: [(&str, usize, usize); 6] = [
    (r#"{ "type": "Point", "coordinates": [100.0, 0.0] }"#, 1, 1),
    (
        r#"{ "type": "LineString", "coordinates": [ [100.0, 0.0], [101.0, 1.0] ] }"#,
        1,
        2,
    ),
    (
        r#"{ "type": "Polygon", "coordinates": [ [ [100.0, 0.0], [101.0, 0.0], [101.0, 1.0], [100.0, 1.0], [100.0, 0.0] ] ] }"#,
        1,
        5,
    ),
    (
        r#"{ "type": "Polygon", "coordinates": [ [ [100.0, 0.0], [110.0, 0.0], [110.0, 10.0], [100.0, 10.0], [100.0, 0.0] ], [ [108, 8], [108, 2], [102, 2], [108, 8] ] ] }"#,
        2,
        4,
    ),
    (
        r#"{ "type": "MultiLineString", "coordinates": [ [ [100.0, 0.0], [101.0, 1.0] ], [ [102.0, 2.0], [103.0, 3.0], [104, 4] ] ] }"#,
        2,
        3,
    ),
    (
        r#"{ "type": "MultiPolygon", "coordinates": [ [ [ [102.0, 2.0], [103.0, 2.0], [103.0, 3.0], [102.0, 3.0], [102.0, 2.0] ] ], [ [ [100.0, 0.0], [101.0, 0.0], [101.0, 1.0], [100.0, 1.0], [100.0, 0.0] ], [ [100, 0], [101, 0], [101, 1], [100, 0] ] ] ] }"#,
        3,
        4,
    ),
];

/// Texts that are no features on the grid of whole numbers, each with its fault and its place.
const REFUSED: [(&str, &str); 18] = [
    ("", "J1"),
    ("{", "J1"),
    ("[]", "J2"),
    (r#"{"type":7}"#, "J2 /type"),
    (r#"{"type":"MultiPoint","coordinates":[]}"#, "J3 /type"),
    (r#"{"type":"Point"}"#, "J2 /coordinates"),
    (r#"{"type":"Point","coordinates":[1]}"#, "J2 /coordinates"),
    (
        r#"{"type":"Point","coordinates":[1,"2"]}"#,
        "J2 /coordinates/1",
    ),
    (
        r#"{"type":"Point","coordinates":[1.5,2]}"#,
        "M2 /coordinates/0",
    ),
    (
        r#"{"type":"LineString","coordinates":[[1,2],[3,10000001]]}"#,
        "M3 /coordinates/1/1",
    ),
    (
        r#"{"type":"Polygon","coordinates":[[[0,0],[1,0],[1,0.5],[0,0]]]}"#,
        "M2 /coordinates/0/2/1",
    ),
    (
        r#"{"type":"MultiPolygon","coordinates":[[],[[[0,0],7]]]}"#,
        "J2 /coordinates/1/0/1",
    ),
    (r#"{"type":"Feature","geometry":null}"#, "J2 /geometry"),
    (r#"{"type":"Feature","properties":{}}"#, "J2 /geometry"),
    (
        r#"{"type":"Feature","geometry":{"type":"Polygon","coordinates":[[[0,0],[1,0],[1,0.5],[0,0]]]}}"#,
        "M2 /geometry/coordinates/0/2/1",
    ),
    (r#"{"type":"Feature","id":"x","geometry":null}"#, "J2 /id"),
    (
        r#"{"type":"Feature","properties":{"class":"Mast"},"geometry":null}"#,
        "J2 /properties/class",
    ),
    (
        r#"{"type":"Feature","properties":{"version":-1},"geometry":null}"#,
        "J2 /properties/version",
    ),
];

#[test]
fn examples_are_read(rt: HostRuntime) -> Result<(), Fail> {
    let grid = Grid::whole_numbers();
    for (text, paths, points) in EXAMPLES {
        let given = read_feature(rt.alloc(), &grid, text.as_bytes()).expect(&rt, "a geometry");
        assert!(rt; given.geometry.paths.len() == paths, "{text}");
        let last = &given.geometry.paths[paths - 1];
        assert!(rt; last.points.len() == points, "{text}");
        assert!(rt; given.id.is_none());
    }
    Ok(())
}

/// As GDAL 3.6 writes a feature: whole numbers as `3.0`, the id as a property and a text.
#[test]
fn a_feature_of_gdal(rt: HostRuntime) -> Result<(), Fail> {
    let text =
        r#"{ "type": "Feature", "properties": { "id": "201", "office": "north", "class": "mast", "version": 13, "height": 1e-05 }, "geometry": { "type": "Point", "coordinates": [ 3.0, -4.0, 410.25 ] } }"#;
    let given = read_feature(rt.alloc(), &Grid::whole_numbers(), text.as_bytes()).expect(
        &rt,
        "a feature",
    );
    assert!(rt; given.id == Some(201));
    assert!(rt; given.version == Some(13));
    assert!(rt; given.office == Name::new(b"north"));
    assert!(rt; given.class == Name::new(b"mast"));
    let path = &given.geometry.paths[0];
    assert!(rt; path.role == Role::Point);
    assert!(rt; path.points[0] == Point { x: 3, y: -4 });
    Ok(())
}

#[test]
fn faults_have_places(rt: HostRuntime) -> Result<(), Fail> {
    let grid = Grid::whole_numbers();
    for (text, wanted) in REFUSED {
        match read_feature(rt.alloc(), &grid, text.as_bytes()) {
            Ok(_) => assert!(rt; false, "{text}"),
            Err(fault) => {
                let shown = format!(in rt.alloc(); "{fault}")?;
                assert!(rt; shown.as_str() == wanted, "{text}: {shown}");
            }
        }
    }
    Ok(())
}

fn square(rt: &impl Abort) -> Shape {
    let corners = [
        Point { x: 0, y: 0 },
        Point { x: 0, y: 4 },
        Point { x: 4, y: 4 },
        Point { x: 4, y: 0 },
        Point { x: 0, y: 0 },
    ];
    Shape::polygon(&corners).expect(rt, "a square")
}

#[test]
fn features_have_texts(rt: HostRuntime) -> Result<(), Fail> {
    let grid = Grid::new(b"7", b"46", 7, Between::Refuse).expect(&rt, "a grid");
    let feature = Feature {
        id: 201,
        version: 13,
        office: Name::new(b"north").expect(&rt, "a name"),
        class: Name::new(b"mast").expect(&rt, "a name"),
        shape: Shape::point(Point { x: 1, y: 2 }).expect(&rt, "a point"),
    };
    let text = feature_text(&grid, &feature);
    let wanted =
        r#"{"type":"Feature","id":201,"geometry":{"type":"Point","coordinates":[7.0000001,46.0000002]},"properties":{"id":201,"office":"north","class":"mast","version":13}}"#;
    assert!(rt; text.as_slice() == wanted.as_bytes());
    let read = read_feature(rt.alloc(), &grid, text.as_slice()).expect(&rt, "a feature");
    assert!(rt; read.id == Some(201));
    assert!(rt; read.geometry.paths[0].points[0] == Point { x: 1, y: 2 });
    let ring = geometry_text(&Grid::whole_numbers(), &square(&rt));
    let wanted = r#"{"type":"Polygon","coordinates":[[[0,0],[4,0],[4,4],[0,4],[0,0]]]}"#;
    assert!(rt; ring.as_slice() == wanted.as_bytes());
    Ok(())
}
