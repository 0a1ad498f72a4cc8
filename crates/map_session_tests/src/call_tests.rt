//! Questions to the policy, documents and the trail by HTTP, answered by a session over a world.
use crate::visits_tests::{degrees, filled};
use features::Name;
use map_answers::{Answer, Status};
use map_calls::{Action, CallRequest, Pieces, answer_call, call_of};
use map_changes::Method;
use map_pages::Site;
use map_sessions::Host;
use scripts::{Service, Solo};
use std::alloc::Global;
use std::process::Abort;
use std::test::Fail;

/// Who asks, by which method, at which path, with which query and body; the status and the beginning
/// of the body that they are answered.
type Asked = (
    &'static str,
    Action,
    &'static str,
    &'static str,
    &'static str,
    Status,
    &'static str,
);

const READ: Action = Action::Read;

const PUT: Action = Action::Change(Method::Put);

const POST: Action = Action::Change(Method::Post);

const DELETE: Action = Action::Change(Method::Delete);

const QUESTION: &str =
    "action=delete&office=roads&class=mast&geometry={\"type\":\"Point\",\"coordinates\":[7,46]}";

/// A document by which nobody deletes.
const DOCUMENT: &str =
    "{\"root\":{\"combine\":\"first-applicable\",\"policy\":\"p\",\"rules\":[{\"effect\":\"deny\",\"rule\":\"none-deletes\",\"target\":[[[{\"action\":\"delete\"}]]]}]}}";

/// Requests one after another.
const ASKED: [Asked; 35] = [
    (
        "north",
        READ,
        "/explain",
        QUESTION,
        "",
        Status::Success,
        "{\"decision\":\"permit\",\"rule\":\"open\",\"edition\":1}",
    ),
    (
        "north",
        READ,
        "/explain",
        "",
        "",
        Status::BadRequest,
        "\"code\":\"U4\"}",
    ),
    (
        "north",
        READ,
        "/explain",
        "x=1",
        "",
        Status::BadRequest,
        "\"code\":\"U2\"}",
    ),
    (
        "",
        READ,
        "/explain",
        QUESTION,
        "",
        Status::Forbidden,
        "\"code\":\"H1\"}",
    ),
    (
        "nobody",
        READ,
        "/explain",
        QUESTION,
        "",
        Status::Forbidden,
        "\"code\":\"H1\"}",
    ),
    (
        "north",
        POST,
        "/explain",
        "",
        "",
        Status::MethodNotAllowed,
        "\"code\":\"method\"}",
    ),
    (
        "north",
        READ,
        "/policy",
        "",
        "",
        Status::MethodNotAllowed,
        "\"code\":\"method\"}",
    ),
    (
        "north",
        PUT,
        "/policy",
        "",
        "{",
        Status::BadRequest,
        "\"code\":\"D1\"}",
    ),
    (
        "north",
        PUT,
        "/policy",
        "",
        "{\"root\":1}",
        Status::Unprocessable,
        "\"code\":\"D2\",\"place\":\"/root",
    ),
    (
        "north",
        PUT,
        "/policy",
        "",
        "{\"root\":{},\"x\":1}",
        Status::Unprocessable,
        "\"code\":\"D3\",\"place\":\"",
    ),
    (
        "north",
        PUT,
        "/policy",
        "",
        r#"{"root":{"policy":"p","combine":"deny-overrides","rules":[{"rule":"p","effect":"deny"}]}}"#,
        Status::Unprocessable,
        "\"code\":\"D4\",\"place\":\"/root/rules/0/rule\"}",
    ),
    (
        "north",
        PUT,
        "/policy",
        "",
        r#"{"root":{"policy":"p","combine":"deny-overrides","target":[[[{"zone":"z"}]]],"rules":[]}}"#,
        Status::Unprocessable,
        "\"code\":\"D5\",\"place\":\"/root/target/0/0/0/zone\"}",
    ),
    (
        "north",
        PUT,
        "/policy",
        "",
        r#"{"zones":[{"zone":"z","shape":"POINT (1)"}],"root":1}"#,
        Status::Unprocessable,
        "\"code\":\"D6\",\"place\":\"/zones/0/shape\"}",
    ),
    (
        "north",
        PUT,
        "/policy",
        "x=1",
        DOCUMENT,
        Status::BadRequest,
        "\"code\":\"U2\"}",
    ),
    (
        "south",
        PUT,
        "/policy",
        "",
        DOCUMENT,
        Status::Forbidden,
        "\"code\":\"X7\"}",
    ),
    (
        "south",
        POST,
        "/trail",
        "",
        "",
        Status::Forbidden,
        "\"code\":\"X7\"}",
    ),
    (
        "chief",
        PUT,
        "/policy",
        "",
        DOCUMENT,
        Status::Success,
        "{\"edition\":2}",
    ),
    (
        "north",
        READ,
        "/explain",
        QUESTION,
        "",
        Status::Success,
        "{\"decision\":\"deny\",\"rule\":\"none-deletes\",\"edition\":2}",
    ),
    (
        "chief",
        POST,
        "/trail",
        "x",
        "",
        Status::BadRequest,
        "\"code\":\"U2\"}",
    ),
    (
        "chief",
        POST,
        "/trail",
        "",
        "",
        Status::Created,
        "{\"piece\":1,\"records\":2}",
    ),
    (
        "chief",
        POST,
        "/trail",
        "",
        "",
        Status::Created,
        "{\"piece\":2,\"records\":0}",
    ),
    (
        "chief",
        POST,
        "/trail",
        "",
        "",
        Status::Created,
        "{\"piece\":3,\"records\":0}",
    ),
    (
        "chief",
        POST,
        "/trail",
        "",
        "",
        Status::Created,
        "{\"piece\":4,\"records\":0}",
    ),
    (
        "chief",
        POST,
        "/trail",
        "",
        "",
        Status::Conflict,
        "\"code\":\"pieces\"}",
    ),
    (
        "chief",
        READ,
        "/trail/1",
        "",
        "",
        Status::Success,
        "{\"changes\":[{\"class\":\"mast\",",
    ),
    ("chief", READ, "/trail/2", "", "", Status::Success, ""),
    (
        "south",
        READ,
        "/trail/1",
        "",
        "",
        Status::NotFound,
        "\"code\":\"absent\"}",
    ),
    (
        "",
        READ,
        "/trail/1",
        "",
        "",
        Status::Forbidden,
        "\"code\":\"H1\"}",
    ),
    (
        "south",
        DELETE,
        "/trail/1",
        "",
        "",
        Status::NotFound,
        "\"code\":\"absent\"}",
    ),
    (
        "chief",
        READ,
        "/trail/1",
        "x=1",
        "",
        Status::BadRequest,
        "\"code\":\"U2\"}",
    ),
    ("chief", DELETE, "/trail/1", "", "", Status::NoContent, ""),
    (
        "chief",
        DELETE,
        "/trail/1",
        "",
        "",
        Status::NotFound,
        "\"code\":\"absent\"}",
    ),
    (
        "chief",
        READ,
        "/trail/1",
        "",
        "",
        Status::NotFound,
        "\"code\":\"absent\"}",
    ),
    (
        "chief",
        POST,
        "/trail",
        "",
        "",
        Status::Created,
        "{\"piece\":5,\"records\":0}",
    ),
    (
        "chief",
        PUT,
        "/trail/5",
        "",
        "",
        Status::MethodNotAllowed,
        "\"code\":\"method\"}",
    ),
];

/// The answer to a request, where nobody is named for those who do not say who they are.
fn answered<S: Service>(
    rt: &impl Abort,
    heap: Global,
    service: &mut S,
    pieces: &mut Pieces<S::Memory>,
    media: &str,
    asked: &Asked,
) -> Answer<Global> {
    let classes = [Name::new(b"mast").expect(rt, "a name")];
    let grid = degrees(rt);
    let site = Site {
        base: b"http://m",
        grid: &grid,
        classes: &classes,
        map: b"",
    };
    let host = Host {
        site: &site,
        anonymous: None,
        keys: &[],
        trusted_field: false,
    };
    let (name, action, path, query, body, ..) = *asked;
    let request = CallRequest {
        query: query.as_bytes(),
        media: media.as_bytes(),
        body: body.as_bytes(),
    };
    let call = call_of(path.as_bytes()).expect(rt, "a call");
    let asker = Name::new(name.as_bytes());
    match answer_call(heap, &host, asker, service, pieces, action, call, &request) {
        Ok(answer) => answer,
        Err(_) => panic!(rt; "no memory"),
    }
}

/// The text of a body.
fn text_of(answer: &Answer<Global>) -> Result<&str, Fail> {
    Ok(str::from_utf8(answer.body.as_slice())?)
}

#[test]
fn calls_one_after_another(rt: HostRuntime) -> Result<(), Fail> {
    let mut world = filled(&rt, rt.alloc());
    let mut solo = Solo::new(&mut world, rt.alloc());
    let mut pieces = Pieces::new(rt.alloc());
    for asked in &ASKED {
        let (name, _, path, query, _, status, body) = *asked;
        let answer = answered(
            &rt,
            rt.alloc(),
            &mut solo,
            &mut pieces,
            "application/json",
            asked,
        );
        assert_eq!(rt; answer.status, status, "{name} {path} {query}");
        let text = text_of(&answer)?;
        assert!(rt; text.contains(body), "{name} {path} {query} {text}");
    }
    Ok(())
}

/// Where a piece is, and its lines: one for each record, each with its end.
#[test]
fn lines_of_a_piece(rt: HostRuntime) -> Result<(), Fail> {
    let mut world = filled(&rt, rt.alloc());
    let mut solo = Solo::new(&mut world, rt.alloc());
    let mut pieces = Pieces::new(rt.alloc());
    let taken = answered(&rt, rt.alloc(), &mut solo, &mut pieces, "", &ASKED[19]);
    let Some(address) = &taken.location else {
        panic!(rt; "no address");
    };
    assert!(rt; address.as_slice() == b"http://m/trail/1".as_slice());
    let shown = answered(&rt, rt.alloc(), &mut solo, &mut pieces, "", &ASKED[24]);
    let text = text_of(&shown)?;
    assert!(rt; text.starts_with("{\"changes\":[{"), "{text}");
    assert!(rt; text.ends_with("}\n"), "{text}");
    assert!(rt; text.contains("\"kind\":\"applied\""), "{text}");
    Ok(())
}

/// A document is read only where its type is told.
#[test]
fn types_of_documents(rt: HostRuntime) {
    let mut world = filled(&rt, rt.alloc());
    let mut solo = Solo::new(&mut world, rt.alloc());
    let mut pieces = Pieces::new(rt.alloc());
    let wanted = [
        ("", Status::UnsupportedMedia),
        ("text/plain", Status::UnsupportedMedia),
        ("application/geo+json", Status::UnsupportedMedia),
        ("Application/JSON;charset=utf-8", Status::Success),
        ("application/json\t; charset=utf-8", Status::Success),
    ];
    for (media, status) in wanted {
        let answer = answered(&rt, rt.alloc(), &mut solo, &mut pieces, media, &ASKED[16]);
        assert_eq!(rt; answer.status, status, "{media}");
    }
}
