//! Requests to make lists of changes, answered by a session over a world.
use crate::visits_tests::{degrees, filled};
use features::Name;
use map_answers::Status;
use map_lists::{ListRequest, answer_list, read_list};
use map_pages::Site;
use map_sessions::Host;
use refusing::Refusing;
use scripts::Solo;
use std::alloc::Global;
use std::process::Abort;
use std::test::Fail;

/// A mast to add.
const MAST: &str =
    r#"{"action":"add","feature":{"type":"Feature","id":20,"geometry":{"type":"Point","coordinates":[7,46]},"properties":{"class":"mast"}}}"#;

/// The field `content-type`, the query, the body, and the status and the end of what is answered,
/// one behind the other, to the subject `north`.
type Asked = (
    &'static str,
    &'static str,
    &'static str,
    Status,
    &'static str,
);

const JSON: &str = "application/json; charset=utf-8";

const ASKED: [Asked; 30] = [
    (
        JSON,
        "",
        r#"{"changes":[{"action":"add","feature":{"type":"Feature","id":20,"geometry":{"type":"Point","coordinates":[7,46]},"properties":{"class":"mast"}}},{"action":"reshape","id":4,"version":1,"geometry":{"type":"Point","coordinates":[7.0000005,46]}},{"action":"delete","id":"9","version":"1","x":[]}]}"#,
        Status::Success,
        r#"{"version":2,"changes":3}"#,
    ),
    (
        JSON,
        "",
        r#"{"changes":[{"action":"delete","id":4,"version":2},{"action":"add","feature":{"type":"Feature","id":20,"geometry":{"type":"Point","coordinates":[7,46]},"properties":{"class":"mast"}}}]}"#,
        Status::Conflict,
        r#""code":"exists","change":2}"#,
    ),
    (
        JSON,
        "",
        r#"{"changes":[{"action":"delete","id":9,"version":1}]}"#,
        Status::Conflict,
        r#""code":"absent","change":1}"#,
    ),
    (
        JSON,
        "",
        r#"{"changes":[{"action":"delete","id":20,"version":2},{"action":"delete","id":4,"version":1}]}"#,
        Status::Conflict,
        r#""code":"stale","current":2,"change":2}"#,
    ),
    (
        JSON,
        "",
        r#"{"changes":[{"action":"delete","id":4,"version":2}],"changes":[{"action":"delete","id":20,"version":2}]}"#,
        Status::Success,
        r#"{"version":3,"changes":1}"#,
    ),
    (
        JSON,
        "",
        r#"{"changes":[{"action":"delete","id":4,"version":2},{"action":"reshape","id":4,"version":2,"geometry":{"type":"Point","coordinates":[7,46]}}]}"#,
        Status::Unprocessable,
        r#""code":"X5","place":"/changes/1"}"#,
    ),
    (
        JSON,
        "",
        r#"{"changes":[]}"#,
        Status::Unprocessable,
        r#""code":"E7","place":"/changes"}"#,
    ),
    (
        JSON,
        "",
        r#"{"changes":[1,2,3,4,5,6,7,8,9,10,11,12,13,14,15,16,17]}"#,
        Status::Unprocessable,
        r#""code":"X6","place":"/changes"}"#,
    ),
    (
        JSON,
        "",
        r#"{"changes":[1,2,3,4,5,6,7,8,9,10,11,12,13,14,15,16]}"#,
        Status::BadRequest,
        r#""code":"J2","place":"/changes/0/action"}"#,
    ),
    (
        JSON,
        "",
        r#"{"changes":{}}"#,
        Status::BadRequest,
        r#""code":"J2","place":"/changes"}"#,
    ),
    (
        JSON,
        "",
        "[]",
        Status::BadRequest,
        r#""code":"J2","place":"/changes"}"#,
    ),
    (
        JSON,
        "",
        r#"{"changes":["#,
        Status::BadRequest,
        r#""code":"J1","place":""}"#,
    ),
    (
        "application/geo+json",
        "",
        "{}",
        Status::UnsupportedMedia,
        r#""code":"media"}"#,
    ),
    ("", "", "{}", Status::UnsupportedMedia, r#""code":"media"}"#),
    ("", "x=1", "{}", Status::BadRequest, r#""code":"U2"}"#),
    (
        JSON,
        "",
        r#"{"changes":[{"action":"move"}]}"#,
        Status::BadRequest,
        r#""code":"J2","place":"/changes/0/action"}"#,
    ),
    (
        JSON,
        "",
        r#"{"changes":[{"action":"add"}]}"#,
        Status::BadRequest,
        r#""code":"J2","place":"/changes/0/feature"}"#,
    ),
    (
        JSON,
        "",
        r#"{"changes":[{"action":"add","feature":7}]}"#,
        Status::BadRequest,
        r#""code":"J2","place":"/changes/0/feature"}"#,
    ),
    (
        JSON,
        "",
        r#"{"changes":[{"action":"add","feature":{"type":"Feature","id":21,"geometry":{"type":"Point","coordinates":[7]},"properties":{"class":"mast"}}}]}"#,
        Status::BadRequest,
        r#""code":"J2","place":"/changes/0/feature/geometry/coordinates"}"#,
    ),
    (
        JSON,
        "",
        r#"{"changes":[{"action":"add","feature":{"type":"Feature","geometry":{"type":"Point","coordinates":[7,46]},"properties":{"class":"mast"}}}]}"#,
        Status::Unprocessable,
        r#""code":"id","place":"/changes/0/feature/id"}"#,
    ),
    (
        JSON,
        "",
        r#"{"changes":[{"action":"add","feature":{"type":"Feature","id":21,"geometry":{"type":"Point","coordinates":[7,46]}}}]}"#,
        Status::Unprocessable,
        r#""code":"class","place":"/changes/0/feature/properties/class"}"#,
    ),
    (
        JSON,
        "",
        r#"{"changes":[{"action":"delete","id":4,"version":2},{"action":"add","feature":{"type":"Feature","id":21,"geometry":{"type":"LineString","coordinates":[[7,46],[7,46]]},"properties":{"class":"mast"}}}]}"#,
        Status::Unprocessable,
        r#""code":"P2","place":"/changes/1/feature/geometry"}"#,
    ),
    (
        JSON,
        "",
        r#"{"changes":[{"action":"reshape","version":1}]}"#,
        Status::BadRequest,
        r#""code":"J2","place":"/changes/0/id"}"#,
    ),
    (
        JSON,
        "",
        r#"{"changes":[{"action":"reshape","id":4,"version":1.5}]}"#,
        Status::BadRequest,
        r#""code":"J2","place":"/changes/0/version"}"#,
    ),
    (
        JSON,
        "",
        r#"{"changes":[{"action":"reshape","id":4,"version":2}]}"#,
        Status::BadRequest,
        r#""code":"J2","place":"/changes/0/geometry"}"#,
    ),
    (
        JSON,
        "",
        r#"{"changes":[{"action":"reshape","id":4,"version":2,"geometry":{"type":"Point","coordinates":[7,46.00000001]}}]}"#,
        Status::BadRequest,
        r#""code":"M2","place":"/changes/0/geometry/coordinates/1"}"#,
    ),
    (
        JSON,
        "",
        r#"{"changes":[{"action":"reshape","id":4,"version":2,"geometry":{"type":"Circle"}}]}"#,
        Status::BadRequest,
        r#""code":"J3","place":"/changes/0/geometry/type"}"#,
    ),
    (
        JSON,
        "",
        r#"{"changes":[{"action":"reshape","id":4,"version":2,"geometry":{"type":"LineString","coordinates":[[7,46],[7.0000001,46],[7.0000001,46.0000001]]}}]}"#,
        Status::Unprocessable,
        r#""code":"parts","place":"/changes/0/geometry"}"#,
    ),
    (
        JSON,
        "",
        r#"{"changes":[{"action":"delete","id":4,"version":null}]}"#,
        Status::BadRequest,
        r#""code":"J2","place":"/changes/0/version"}"#,
    ),
    (
        JSON,
        "",
        r#"{"changes":[{"action":"delete","id":4,"version":2},{"action":"delete","id":3,"version":1},{"action":"delete","id":2,"version":1}]}"#,
        Status::Success,
        r#"{"version":4,"changes":3}"#,
    ),
];

/// A list is made whole or not at all, and its first fault is told with its place.
#[test]
fn lists_one_behind_the_other(rt: HostRuntime) -> Result<(), Fail> {
    let heap: Global = rt.alloc();
    let mut world = filled(&rt, heap);
    let mut service = Solo::new(&mut world, heap);
    let classes = [Name::new(b"mast").ok_or("a name")?];
    let grid = degrees(&rt);
    let site = Site {
        base: b"http://m",
        grid: &grid,
        classes: &classes,
        map: b"",
    };
    let host = Host {
        site: &site,
        anonymous: None,
        keys: &[],
        trusted_field: false,
    };
    let asker = Name::new(b"north");
    for (media, query, body, status, wanted) in ASKED {
        let request = ListRequest {
            query: query.as_bytes(),
            media: media.as_bytes(),
            body: body.as_bytes(),
        };
        let answer = match answer_list(heap, &host, asker, &mut service, &request) {
            Ok(answer) => answer,
            Err(_) => panic!(rt; "no memory"),
        };
        let text = str::from_utf8(answer.body.as_slice())?;
        assert_eq!(rt; answer.status, status, "{body} {text}");
        assert!(rt; text.ends_with(wanted), "{body} {text} {wanted}");
    }
    let nobody = ListRequest {
        query: b"",
        media: b"application/json",
        body: br#"{"changes":[{"action":"delete","id":4,"version":2}]}"#,
    };
    match answer_list(heap, &host, None, &mut service, &nobody) {
        Ok(answer) => assert_eq!(rt; answer.status, Status::Forbidden),
        Err(_) => panic!(rt; "no memory"),
    }
    Ok(())
}

/// A list is read, or an allocation is refused.
#[test]
fn a_list_read_with_refusals(rt: HostRuntime) -> Result<(), Fail> {
    let grid = degrees(&rt);
    let body = format!(in rt.alloc(); "{{\"changes\":[{MAST}]}}")?;
    let request = ListRequest {
        query: b"",
        media: b"application/json",
        body: body.as_bytes(),
    };
    let heap = Refusing::new(rt.alloc(), 0);
    for at in 1..100 {
        heap.refuse(at);
        let outcome = read_list(&heap, &grid, &request);
        let has_refused = heap.has_refused();
        match outcome {
            Ok(changes) => {
                assert_eq!(rt; changes.len(), 1);
                assert!(rt; at > 3);
                assert!(rt; !has_refused);
                return Ok(());
            }
            Err(_) => assert!(rt; has_refused),
        }
    }
    panic!(rt; "no list is read");
}
