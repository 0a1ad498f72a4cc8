//! Requests to read, answered by a session over a world.
use credentials::{Key, digest_of};
use features::Name;
use grid::{Between, Grid};
use map_answers::{Answer, MediaType, Status};
use map_pages::Site;
use map_sessions::{Host, Kept, Visit, answer_visit};
use policy_text::read_document;
use scripts::{Service, Solo, built_in_subjects, serve_world};
use std::alloc::Global;
use std::process::Abort;
use std::test::Fail;
use world::World;

/// The grid of the tests: steps of a tenth of a millionth, from 7 and 46.
pub(crate) fn degrees(rt: &impl Abort) -> Grid {
    Grid::new(b"7", b"46", 7, Between::Refuse).expect(rt, "a grid")
}

/// A world in which everything is permitted, with three masts and a road.
pub(crate) fn filled(rt: &impl Abort, heap: Global) -> World<Global> {
    let text =
        br#"{"root":{"combine":"first-applicable","policy":"start","rules":[{"effect":"permit","rule":"open"}]}}"#;
    let document = match read_document(heap, heap, text) {
        Ok(document) => document,
        Err(_) => panic!(rt; "no document"),
    };
    let mut world = match World::open(heap, heap, built_in_subjects(), document) {
        Ok(world) => world,
        Err(_) => panic!(rt; "no world"),
    };
    let mut lines: &[u8] =
        b"HELLO north\nADD 2 mast POINT (2 2)\nADD 3 road POINT (3 3)\nADD 4 mast POINT (4 4)\nADD 9 mast POINT (9 9)\nCOMMIT\nBYE\n";
    let mut output = Vec::new(heap);
    let end = serve_world(heap, heap, &mut world, &mut lines, &mut output);
    assert!(rt; end.is_ok());
    assert!(rt;
        output
            .as_slice()
            .starts_with(b"hello north\nstaged\nstaged\nstaged\nstaged\napplied")
    );
    world
}

/// A path, a query and the field `if-none-match`; the status, the type and the beginning of the body
/// that they are answered.
type Asked = (
    &'static str,
    &'static str,
    &'static str,
    Status,
    MediaType,
    &'static str,
);

const ASKED: [Asked; 15] = [
    (
        "/collections/mast/items",
        "limit=2",
        "",
        Status::Success,
        MediaType::GeoJson,
        r#"{"type":"FeatureCollection","numberMatched":3,"numberReturned":2,"links":[{"rel":"self","type":"application/geo+json","href":"http://m/collections/mast/items?limit=2"},{"rel":"next","type":"application/geo+json","href":"http://m/collections/mast/items?kept=1&after=4&limit=2"}],"features":[{"type":"Feature","id":2,"#,
    ),
    (
        "/collections/mast/items",
        "kept=1&after=4&limit=2",
        "",
        Status::Success,
        MediaType::GeoJson,
        r#"{"type":"FeatureCollection","numberMatched":3,"numberReturned":1,"links":[{"rel":"self","type":"application/geo+json","href":"http://m/collections/mast/items?kept=1&after=4&limit=2"}],"features":[{"type":"Feature","id":9,"#,
    ),
    (
        "/collections/features/items",
        "",
        "",
        Status::Success,
        MediaType::GeoJson,
        r#"{"type":"FeatureCollection","numberMatched":4,"numberReturned":4,"#,
    ),
    (
        "/collections/features/items",
        "bbox=7.0000003,46.0000003,7.0000004,46.0000004",
        "",
        Status::Success,
        MediaType::GeoJson,
        r#"{"type":"FeatureCollection","numberMatched":2,"numberReturned":2,"#,
    ),
    (
        "/collections/features/items",
        "bbox=9,46,10,47",
        "",
        Status::Success,
        MediaType::GeoJson,
        r#"{"type":"FeatureCollection","numberMatched":0,"numberReturned":0,"#,
    ),
    (
        "/collections/mast/items/4",
        "",
        "",
        Status::Success,
        MediaType::GeoJson,
        r#"{"type":"Feature","id":4,"#,
    ),
    (
        "/collections/mast/items/4",
        "",
        "\"1\"",
        Status::NotModified,
        MediaType::GeoJson,
        "",
    ),
    (
        "/collections/mast/items/3",
        "",
        "",
        Status::NotFound,
        MediaType::Problem,
        r#"{"type":"about:blank","title":"Not Found","status":404,"code":"absent"}"#,
    ),
    (
        "/collections/mast/items",
        "kept=7",
        "",
        Status::Gone,
        MediaType::Problem,
        r#"{"type":"about:blank","title":"Gone","status":410,"code":"gone"}"#,
    ),
    (
        "/collections/features/items",
        "kept=1",
        "",
        Status::Gone,
        MediaType::Problem,
        r#"{"type":"about:blank","title":"Gone","status":410,"code":"gone"}"#,
    ),
    (
        "/collections/mast/items",
        "limit=0",
        "",
        Status::BadRequest,
        MediaType::Problem,
        r#"{"type":"about:blank","title":"Bad Request","status":400,"code":"U4"}"#,
    ),
    (
        "/nowhere",
        "",
        "",
        Status::NotFound,
        MediaType::Problem,
        r#"{"type":"about:blank","title":"Not Found","status":404,"code":"U1"}"#,
    ),
    (
        "/",
        "",
        "",
        Status::Success,
        MediaType::Json,
        r#"{"title":"landmap","links":["#,
    ),
    (
        "/api",
        "",
        "",
        Status::Success,
        MediaType::OpenApi,
        r#"{"openapi":"3.0.3","#,
    ),
    (
        "/map",
        "",
        "",
        Status::Success,
        MediaType::Html,
        "<!DOCTYPE html>",
    ),
];

/// What a request is answered, to a subject or to nobody, where there are such keys.
fn answered<S: Service>(
    rt: &impl Abort,
    heap: Global,
    keys: &[Key],
    asker: Option<Name>,
    service: &mut S,
    kept: &mut Kept<Global>,
    asked: &Asked,
) -> Answer<Global> {
    let classes = [
        Name::new(b"mast").expect(rt, "a name"),
        Name::new(b"road").expect(rt, "a name"),
    ];
    let grid = degrees(rt);
    let site = Site {
        base: b"http://m",
        grid: &grid,
        classes: &classes,
        map: b"<!DOCTYPE html>",
    };
    let host = Host {
        site: &site,
        anonymous: None,
        keys,
        trusted_field: false,
    };
    let (path, query, known, ..) = *asked;
    let visit = Visit {
        path: path.as_bytes(),
        query: query.as_bytes(),
        known: known.as_bytes(),
    };
    match answer_visit(heap, &host, asker, service, kept, &visit) {
        Ok(answer) => answer,
        Err(_) => panic!(rt; "no memory"),
    }
}

#[test]
fn requests_and_answers(rt: HostRuntime) -> Result<(), Fail> {
    let mut world = filled(&rt, rt.alloc());
    let mut solo = Solo::new(&mut world, rt.alloc());
    let mut kept = Kept::new(rt.alloc());
    let north = Name::new(b"north");
    for asked in &ASKED {
        let (path, query, _, status, media, body) = *asked;
        let answer = answered(&rt, rt.alloc(), &[], north, &mut solo, &mut kept, asked);
        assert_eq!(rt; answer.status, status, "{path} {query}");
        assert_eq!(rt; answer.media, media, "{path} {query}");
        assert!(rt;
            answer.body.as_slice().starts_with(body.as_bytes()),
            "{path} {query}"
        );
    }
    Ok(())
}

/// Who asks: nobody is named, a name that no subject has, and a page for which nobody need ask.
#[test]
fn who_asks(rt: HostRuntime) {
    let mut world = filled(&rt, rt.alloc());
    let mut solo = Solo::new(&mut world, rt.alloc());
    let mut kept = Kept::new(rt.alloc());
    let nobody = answered(&rt, rt.alloc(), &[], None, &mut solo, &mut kept, &ASKED[0]);
    assert_eq!(rt; nobody.status, Status::Forbidden);
    let stranger = answered(
        &rt,
        rt.alloc(),
        &[],
        Name::new(b"stranger"),
        &mut solo,
        &mut kept,
        &ASKED[0],
    );
    assert_eq!(rt; stranger.status, Status::Forbidden);
    assert!(rt;
        stranger.body.as_slice()
            == br#"{"type":"about:blank","title":"Forbidden","status":403,"code":"H1"}"#.as_slice()
    );
    let landing = answered(&rt, rt.alloc(), &[], None, &mut solo, &mut kept, &ASKED[12]);
    assert_eq!(rt; landing.status, Status::Success);
}

/// Nobody asks, where there are keys by which it could be said: for rows, for kept rows, for a
/// feature, and for a page that nobody need ask for.
#[test]
fn nobody_beside_keys(rt: HostRuntime) -> Result<(), Fail> {
    let mut world = filled(&rt, rt.alloc());
    let mut solo = Solo::new(&mut world, rt.alloc());
    let mut kept = Kept::new(rt.alloc());
    let keys = [Key {
        subject: Name::new(b"north").ok_or("a name")?,
        digest: digest_of(b"secret"),
    }];
    let wanted = [
        (0, Status::Unauthorized),
        (1, Status::Gone),
        (5, Status::Unauthorized),
        (12, Status::Success),
    ];
    for (at, status) in wanted {
        let answer = answered(
            &rt,
            rt.alloc(),
            &keys,
            None,
            &mut solo,
            &mut kept,
            &ASKED[at],
        );
        assert_eq!(rt; answer.status, status);
    }
    Ok(())
}

/// Two subjects, one after another at one session: each has further pages of their own alone.
#[test]
fn subjects_one_after_another(rt: HostRuntime) {
    let mut world = filled(&rt, rt.alloc());
    let mut solo = Solo::new(&mut world, rt.alloc());
    let mut kept = Kept::new(rt.alloc());
    let wanted: [(&[u8], usize, Status); 6] = [
        (b"north", 0, Status::Success),
        (b"south", 1, Status::Gone),
        (b"south", 5, Status::Success),
        (b"north", 1, Status::Success),
        (b"stranger", 0, Status::Forbidden),
        (b"north", 1, Status::Success),
    ];
    for (name, at, status) in wanted {
        let asker = Name::new(name);
        let answer = answered(
            &rt,
            rt.alloc(),
            &[],
            asker,
            &mut solo,
            &mut kept,
            &ASKED[at],
        );
        assert_eq!(rt; answer.status, status);
    }
}
