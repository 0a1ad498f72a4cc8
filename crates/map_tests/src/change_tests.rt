//! What requests to change a feature ask for, or their fault.
use features::{Change, Name};
use grid::{Between, Grid};
use map_asks::Layer;
use map_changes::{ChangeFault, ChangeRequest, Edit, Method, read_change};
use plane::{Point, Shape};
use refusing::Refusing;
use std::alloc::Allocator;
use std::process::Abort;

/// A mast.
const MAST: &str =
    r#"{"type":"Feature","id":7,"geometry":{"type":"Point","coordinates":[7.0000001,46.0000002]},"properties":{"class":"mast","version":"x"}}"#;

/// Methods, paths, queries, the fields `if-match` and `content-type`, and the code of the fault of
/// such a request with a mast, or `ok`.
const ASKED: [(Method, &str, &str, &str, &str, &str); 40] = [
    (Method::Post, "/nowhere", "x=1", "", "", "U1"),
    (Method::Put, "/collections/road/items/7", "", "", "", "U1"),
    (Method::Post, "/", "x=1", "", "", "method"),
    (Method::Post, "/collections/mast", "", "", "", "method"),
    (
        Method::Post,
        "/collections/mast/items/7",
        "",
        "",
        "",
        "method",
    ),
    (
        Method::Put,
        "/collections/features/items",
        "",
        "",
        "",
        "method",
    ),
    (
        Method::Put,
        "/collections/mast/items/7",
        "",
        "",
        "",
        "method",
    ),
    (
        Method::Patch,
        "/collections/mast/items/7",
        "",
        "",
        "",
        "method",
    ),
    (
        Method::Delete,
        "/collections/mast/items/7",
        "",
        "",
        "",
        "method",
    ),
    (Method::Delete, "/", "", "", "", "method"),
    (
        Method::Post,
        "/collections/mast/items",
        "limit=1",
        "",
        "",
        "U2",
    ),
    (
        Method::Delete,
        "/collections/features/items/7",
        "f=x",
        "",
        "",
        "U2",
    ),
    (
        Method::Delete,
        "/collections/features/items/7",
        "&&",
        "\"3\"",
        "",
        "ok",
    ),
    (
        Method::Delete,
        "/collections/features/items/7",
        "",
        "",
        "",
        "version",
    ),
    (
        Method::Delete,
        "/collections/features/items/7",
        "",
        "*",
        "",
        "version",
    ),
    (
        Method::Put,
        "/collections/features/items/7",
        "",
        "*",
        "x",
        "version",
    ),
    (
        Method::Patch,
        "/collections/features/items/7",
        "",
        "",
        "x",
        "version",
    ),
    (
        Method::Put,
        "/collections/features/items/7",
        "",
        "3",
        "x",
        "stale",
    ),
    (
        Method::Put,
        "/collections/features/items/7",
        "",
        "\"",
        "x",
        "stale",
    ),
    (
        Method::Put,
        "/collections/features/items/7",
        "",
        "\"\"",
        "x",
        "stale",
    ),
    (
        Method::Put,
        "/collections/features/items/7",
        "",
        "\"3",
        "x",
        "stale",
    ),
    (
        Method::Put,
        "/collections/features/items/7",
        "",
        "\"03\"",
        "x",
        "stale",
    ),
    (
        Method::Put,
        "/collections/features/items/7",
        "",
        "W/\"3\"",
        "x",
        "stale",
    ),
    (
        Method::Put,
        "/collections/features/items/7",
        "",
        "\"3\", \"4\"",
        "x",
        "stale",
    ),
    (
        Method::Put,
        "/collections/features/items/7",
        "",
        "\"-3\"",
        "x",
        "stale",
    ),
    (
        Method::Put,
        "/collections/features/items/7",
        "",
        "\"18446744073709551616\"",
        "",
        "stale",
    ),
    (
        Method::Put,
        "/collections/features/items/7",
        "",
        "\"3\"",
        "",
        "media",
    ),
    (
        Method::Put,
        "/collections/features/items/7",
        "",
        "\"3\"",
        "text/plain",
        "media",
    ),
    (
        Method::Put,
        "/collections/features/items/7",
        "",
        "\"3\"",
        "application/geo+jsons",
        "media",
    ),
    (
        Method::Put,
        "/collections/features/items/7",
        "",
        "\"3\"",
        " application/json",
        "media",
    ),
    (
        Method::Put,
        "/collections/features/items/7",
        "",
        "\"3\"",
        "application/merge-patch+json",
        "media",
    ),
    (
        Method::Patch,
        "/collections/features/items/7",
        "",
        "\"3\"",
        "Application/Merge-Patch+JSON;x=y",
        "ok",
    ),
    (
        Method::Patch,
        "/collections/features/items/7",
        "",
        "\"3\"",
        "application/json",
        "ok",
    ),
    (
        Method::Put,
        "/collections/features/items/7",
        "",
        "\"3\"",
        "application/geo+json",
        "ok",
    ),
    (
        Method::Put,
        "/collections/features/items/8",
        "",
        "\"3\"",
        "application/geo+json",
        "id",
    ),
    (Method::Post, "/collections/mast/items", "", "", "", "media"),
    (
        Method::Post,
        "/collections/mast/items",
        "",
        "",
        "application/merge-patch+json",
        "media",
    ),
    (
        Method::Post,
        "/collections/mast/items",
        "",
        "*",
        "APPLICATION/GEO+JSON",
        "ok",
    ),
    (
        Method::Post,
        "/collections/mast/items",
        "",
        "",
        "application/json ; charset=utf-8",
        "ok",
    ),
    (
        Method::Post,
        "/collections/buoy/items",
        "",
        "",
        "application/json",
        "class",
    ),
];

/// The grid of the tests: steps of a tenth of a millionth, from 7 and 46.
fn degrees(rt: &impl Abort) -> Grid {
    Grid::new(b"7", b"46", 7, Between::Refuse).expect(rt, "a grid")
}

/// What a request asks for where `mast` and `buoy` are collections.
fn asked<A: Allocator + Copy>(
    rt: &impl Abort,
    alloc: A,
    request: &ChangeRequest,
) -> Result<Edit, ChangeFault> {
    let classes = [
        Name::new(b"mast").expect(rt, "a name"),
        Name::new(b"buoy").expect(rt, "a name"),
    ];
    read_change(alloc, &degrees(rt), &classes, request)
}

/// The code of a fault, or `ok`.
fn code_of(outcome: &Result<Edit, ChangeFault>) -> &'static str {
    match outcome {
        Ok(_) => "ok",
        Err(fault) => fault.code(),
    }
}

#[test]
fn first_fault_of_each_request(rt: HostRuntime) {
    for (method, path, query, tag, media, wanted) in ASKED {
        let request = ChangeRequest {
            method,
            path: path.as_bytes(),
            query: query.as_bytes(),
            media: media.as_bytes(),
            if_match: tag.as_bytes(),
            body: MAST.as_bytes(),
        };
        let code = code_of(&asked(&rt, rt.alloc(), &request));
        assert_eq!(rt; code, wanted, "{path} {query} {tag} {media}");
    }
}

/// A request with a body: a feature to add, or another shape for feature 7.
fn with_body<'a>(method: Method, path: &'a str, body: &'a str) -> ChangeRequest<'a> {
    ChangeRequest {
        method,
        path: path.as_bytes(),
        query: b"",
        media: b"application/geo+json",
        if_match: b"\"3\"",
        body: body.as_bytes(),
    }
}

/// Methods, paths, bodies, and the code of the fault of such a request, or `ok`.
const BODIES: [(Method, &str, &str, &str); 21] = [
    (Method::Post, "/collections/mast/items", "", "J1"),
    (Method::Post, "/collections/mast/items", "[]", "J2"),
    (
        Method::Post,
        "/collections/mast/items",
        r#"{"type":"Feature","id":"x","geometry":null}"#,
        "J2",
    ),
    (
        Method::Post,
        "/collections/mast/items",
        r#"{"type":"Feature","id":7,"geometry":{"type":"MultiPoint","coordinates":[]}}"#,
        "J3",
    ),
    (
        Method::Post,
        "/collections/mast/items",
        r#"{"type":"Feature","id":7,"geometry":{"type":"Point","coordinates":[7.00000001,46]}}"#,
        "M2",
    ),
    (
        Method::Post,
        "/collections/mast/items",
        r#"{"type":"Feature","geometry":{"type":"Point","coordinates":[7,46]}}"#,
        "id",
    ),
    (
        Method::Post,
        "/collections/mast/items",
        r#"{"type":"Point","coordinates":[7,46]}"#,
        "id",
    ),
    (
        Method::Post,
        "/collections/features/items",
        r#"{"type":"Feature","id":7,"geometry":{"type":"Point","coordinates":[7,46]}}"#,
        "class",
    ),
    (
        Method::Post,
        "/collections/mast/items",
        r#"{"type":"Feature","id":7,"geometry":{"type":"Point","coordinates":[7,46]}}"#,
        "ok",
    ),
    (
        Method::Post,
        "/collections/features/items",
        r#"{"type":"Feature","properties":{"id":"7","class":"road"},"geometry":{"type":"Point","coordinates":[7,46]}}"#,
        "ok",
    ),
    (
        Method::Post,
        "/collections/mast/items",
        r#"{"type":"Feature","id":7,"geometry":{"type":"LineString","coordinates":[[7,46],[7,46]]}}"#,
        "P2",
    ),
    (
        Method::Post,
        "/collections/mast/items",
        r#"{"type":"Feature","id":7,"geometry":{"type":"LineString","coordinates":[[7,46]]}}"#,
        "parts",
    ),
    (
        Method::Post,
        "/collections/mast/items",
        r#"{"type":"Feature","id":7,"geometry":{"type":"LineString","coordinates":[[7,46],[7.1,46],[7.2,46]]}}"#,
        "parts",
    ),
    (
        Method::Put,
        "/collections/features/items/7",
        r#"{"type":"Feature","geometry":{"type":"Polygon","coordinates":[[[7,46],[7.1,46],[7,46.1],[7,46]]]}}"#,
        "ok",
    ),
    (
        Method::Put,
        "/collections/features/items/7",
        r#"{"type":"Feature","geometry":{"type":"Polygon","coordinates":[[[7,46],[7.1,46],[7,46.1]]]}}"#,
        "P4",
    ),
    (
        Method::Put,
        "/collections/features/items/7",
        r#"{"type":"Feature","geometry":{"type":"Polygon","coordinates":[[[7,46],[7.1,46],[7,46.1],[7,46]],[[7.01,46.01],[7.01,46.02],[7.02,46.01],[7.01,46.01]]]}}"#,
        "parts",
    ),
    (
        Method::Put,
        "/collections/features/items/7",
        r#"{"type":"Feature","geometry":{"type":"Polygon","coordinates":[]}}"#,
        "parts",
    ),
    (
        Method::Put,
        "/collections/features/items/7",
        r#"{"type":"Feature","geometry":{"type":"MultiLineString","coordinates":[[[7,46],[7.1,46]],[[7,46],[7.2,46]]]}}"#,
        "parts",
    ),
    (
        Method::Patch,
        "/collections/features/items/7",
        r#"{"type":"Feature","geometry":{"type":"Point","coordinates":[7,46]},"properties":{"class":7,"office":7}}"#,
        "ok",
    ),
    (
        Method::Patch,
        "/collections/features/items/7",
        r#"{"type":"Feature","id":8,"geometry":{"type":"Polygon","coordinates":[]}}"#,
        "id",
    ),
    (
        Method::Delete,
        "/collections/features/items/7",
        "not JSON",
        "ok",
    ),
];

#[test]
fn first_fault_of_each_body(rt: HostRuntime) {
    for (method, path, body, wanted) in BODIES {
        let code = code_of(&asked(&rt, rt.alloc(), &with_body(method, path, body)));
        assert_eq!(rt; code, wanted, "{path} {body}");
    }
}

/// The shape of the mast.
fn place_of_mast(rt: &impl Abort) -> Shape {
    Shape::point(Point { x: 1, y: 2 }).expect(rt, "a point")
}

#[test]
fn what_is_added(rt: HostRuntime) {
    let class = Name::new(b"mast").expect(&rt, "a name");
    let request = with_body(Method::Post, "/collections/mast/items", MAST);
    let edit = asked(&rt, rt.alloc(), &request).expect(&rt, "a change");
    assert!(rt; matches!(edit.layer, Layer::Class(layer) if layer == class));
    let shape = place_of_mast(&rt);
    let wanted = Change::Add {
        id: 7,
        class,
        shape,
    };
    assert!(rt; edit.change == wanted);
}

#[test]
fn what_is_changed(rt: HostRuntime) {
    let request = with_body(Method::Patch, "/collections/features/items/7", MAST);
    let edit = asked(&rt, rt.alloc(), &request).expect(&rt, "a change");
    assert!(rt; matches!(edit.layer, Layer::All));
    let shape = place_of_mast(&rt);
    let wanted = Change::Reshape {
        id: 7,
        version: 3,
        shape,
    };
    assert!(rt; edit.change == wanted);
}

#[test]
fn what_is_deleted(rt: HostRuntime) {
    let request = with_body(Method::Delete, "/collections/features/items/9", "");
    let edit = asked(&rt, rt.alloc(), &request).expect(&rt, "a change");
    assert!(rt; matches!(edit.layer, Layer::All));
    let wanted = Change::Delete { id: 9, version: 3 };
    assert!(rt; edit.change == wanted);
}

/// Each allocation of a reading is refused in turn; then the request is read.
#[test]
fn changes_without_memory(rt: HostRuntime) {
    let request = with_body(Method::Post, "/collections/mast/items", MAST);
    let heap = Refusing::new(rt.alloc(), 0);
    let mut at = 0u64;
    for number in 1..100u64 {
        heap.refuse(number);
        match asked(&rt, &heap, &request) {
            Ok(_) => break,
            Err(fault) => {
                assert_eq!(rt; fault.code(), "J4");
                at = number;
            }
        }
    }
    assert!(rt; at > 1 && at < 99);
}
