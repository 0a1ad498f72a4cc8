//! What pages of features, single features and problems look like.
use features::{Feature, Name};
use grid::{Between, Grid};
use map_answers::{
    Answer, FeaturePage, ItemSite, MediaType, Problem, Status, feature_answer, feature_of,
    is_known, page, page_answer, problem_answer, problem_of_ask, rows_of, tag_of,
};
use map_asks::{AskFault, Layer, Parameter};
use plane::{Point, Shape};
use refusing::Refusing;
use std::alloc::Allocator;
use std::process::Abort;
use std::test::Fail;

/// The grid of the tests: steps of a tenth of a millionth, from 7 and 46.
fn degrees(rt: &impl Abort) -> Grid {
    Grid::new(b"7", b"46", 7, Between::Refuse).expect(rt, "a grid")
}

fn name(rt: &impl Abort, text: &str) -> Name {
    Name::new(text.as_bytes()).expect(rt, "a name")
}

/// A feature that is a point on the diagonal.
fn mast(rt: &impl Abort, id: u64, class: &str) -> Feature {
    Feature {
        id,
        version: id + 10,
        office: name(rt, "north"),
        class: name(rt, class),
        shape: Shape::point(Point {
            x: id as i32,
            y: id as i32,
        })
        .expect(rt, "a shape"),
    }
}

/// Whether an answer's body is this text.
fn has_body<A: Allocator>(answer: &Answer<A>, wanted: &str) -> bool {
    answer.body.as_slice() == wanted.as_bytes()
}

const BASE: &str = "https://maps.example";

/// Two of three masts, with the link to the third.
const FIRST_PAGE: &str =
    r#"{"type":"FeatureCollection","numberMatched":3,"numberReturned":2,"links":[{"rel":"self","type":"application/geo+json","href":"https://maps.example/collections/mast/items?limit=2"},{"rel":"next","type":"application/geo+json","href":"https://maps.example/collections/mast/items?kept=12&after=4&limit=2"}],"features":[{"type":"Feature","id":2,"geometry":{"type":"Point","coordinates":[7.0000002,46.0000002]},"properties":{"id":2,"office":"north","class":"mast","version":12}},{"type":"Feature","id":4,"geometry":{"type":"Point","coordinates":[7.0000004,46.0000004]},"properties":{"id":4,"office":"north","class":"mast","version":14}}]}"#;

/// The third, behind which there is no page.
const LAST_PAGE: &str =
    r#"{"type":"FeatureCollection","numberMatched":3,"numberReturned":1,"links":[{"rel":"self","type":"application/geo+json","href":"https://maps.example/collections/mast/items?limit=2"}],"features":[{"type":"Feature","id":9,"geometry":{"type":"Point","coordinates":[7.0000009,46.0000009]},"properties":{"id":9,"office":"north","class":"mast","version":19}}]}"#;

const NO_ROWS: &str =
    r#"{"type":"FeatureCollection","numberMatched":0,"numberReturned":0,"links":[{"rel":"self","type":"application/geo+json","href":"https://maps.example/collections/mast/items?limit=2"}],"features":[]}"#;

/// A page of these rows, as it is asked for.
fn asked<'a>(rt: &impl Abort, rows: &'a [Feature], after: Option<u64>) -> FeaturePage<'a> {
    FeaturePage {
        base: BASE.as_bytes(),
        address: b"https://maps.example/collections/mast/items?limit=2",
        layer: Layer::Class(name(rt, "mast")),
        rows,
        kept: Some(12),
        after,
        limit: 2,
    }
}

#[test]
fn pages_of_masts(rt: HostRuntime) -> Result<(), Fail> {
    let all = [
        mast(&rt, 2, "mast"),
        mast(&rt, 3, "road"),
        mast(&rt, 4, "mast"),
        mast(&rt, 9, "mast"),
    ];
    let grid = degrees(&rt);
    let rows = rows_of(rt.alloc(), &Layer::Class(name(&rt, "mast")), &all)?;
    assert_eq!(rt; rows.len(), 3);
    let first = page_answer(rt.alloc(), &grid, &asked(&rt, rows.as_slice(), None))?;
    assert!(rt; has_body(&first, FIRST_PAGE));
    assert_eq!(rt; first.status, Status::Success);
    assert_eq!(rt; first.media, MediaType::GeoJson);
    let last = page_answer(rt.alloc(), &grid, &asked(&rt, rows.as_slice(), Some(4)))?;
    assert!(rt; has_body(&last, LAST_PAGE));
    let none = page_answer(rt.alloc(), &grid, &asked(&rt, &[], None))?;
    assert!(rt; has_body(&none, NO_ROWS));
    Ok(())
}

/// The pages of rows are together the rows, each once.
#[test]
fn pages_are_all_rows(rt: HostRuntime) {
    let all = [
        mast(&rt, 2, "mast"),
        mast(&rt, 3, "mast"),
        mast(&rt, 4, "mast"),
        mast(&rt, 9, "mast"),
        mast(&rt, 11, "mast"),
    ];
    for limit in 1..7u64 {
        let mut after = None;
        let mut seen = 0usize;
        for _ in 0..6 {
            let found = page(&all, after, limit);
            assert!(rt; found.len() as u64 <= limit);
            for row in found {
                assert!(rt; seen < all.len());
                assert!(rt; all[seen] == *row);
                seen += 1;
                after = Some(row.id);
            }
        }
        assert_eq!(rt; seen, all.len());
    }
}

const ITEM: &str =
    r#"{"type":"Feature","id":2,"geometry":{"type":"Point","coordinates":[7.0000002,46.0000002]},"properties":{"id":2,"office":"north","class":"mast","version":12},"links":[{"rel":"self","type":"application/geo+json","href":"https://maps.example/collections/mast/items/2"},{"rel":"collection","type":"application/json","href":"https://maps.example/collections/mast"}]}"#;

#[test]
fn one_feature(rt: HostRuntime) -> Result<(), Fail> {
    let all = [mast(&rt, 2, "mast"), mast(&rt, 3, "road")];
    let layer = Layer::Class(name(&rt, "mast"));
    let grid = degrees(&rt);
    let site = ItemSite {
        base: BASE.as_bytes(),
        address: b"https://maps.example/collections/mast/items/2",
        layer,
    };
    assert!(rt; feature_of(&layer, 3, &all).is_none());
    assert!(rt; feature_of(&Layer::All, 3, &all).is_some());
    let found = feature_of(&layer, 2, &all).ok_or("no feature")?;
    let answer = feature_answer(rt.alloc(), &grid, &site, b"", &found)?;
    assert!(rt; has_body(&answer, ITEM));
    assert_eq!(rt; answer.version, Some(12));
    let known = feature_answer(rt.alloc(), &grid, &site, b"\"12\"", &found)?;
    assert_eq!(rt; known.status, Status::NotModified);
    assert!(rt; has_body(&known, ""));
    Ok(())
}

/// Fields, and whether they name the tag of version 12.
const FIELDS: [(&str, bool); 10] = [
    ("", false),
    ("*", true),
    ("\"12\"", true),
    ("W/\"12\"", true),
    ("\"1\", \"12\"", true),
    ("\"1\",W/\"12\" ,\"13\"", true),
    ("\"112\"", false),
    ("\"123\"", false),
    ("12", false),
    ("\"a,12\"", false),
];

#[test]
fn tags_that_are_known(rt: HostRuntime) {
    assert_eq!(rt; tag_of(12).as_slice(), b"\"12\"".as_slice());
    assert_eq!(rt; tag_of(u64::MAX).len(), 22);
    for (field, wanted) in FIELDS {
        assert_eq!(rt; is_known(field.as_bytes(), 12), wanted, "{field}");
    }
}

#[test]
fn problems_of_asks(rt: HostRuntime) -> Result<(), Fail> {
    let answer = problem_answer(rt.alloc(), &problem_of_ask(AskFault::NoPage))?;
    assert!(rt;
        has_body(
            &answer,
            r#"{"type":"about:blank","title":"Not Found","status":404,"code":"U1"}"#
        )
    );
    let answer = problem_answer(
        rt.alloc(),
        &problem_of_ask(AskFault::Value(Parameter::Bbox)),
    )?;
    assert!(rt;
        has_body(
            &answer,
            r#"{"type":"about:blank","title":"Bad Request","status":400,"code":"U4"}"#
        )
    );
    assert_eq!(rt; answer.media, MediaType::Problem);
    Ok(())
}

/// What is not plain in an address stands with its escape in the text.
#[test]
fn odd_bytes_are_escaped(rt: HostRuntime) -> Result<(), Fail> {
    let problem = Problem {
        status: Status::Gone,
        code: "a\"b\\c\u{1}\u{1f}",
        retry_after: Some(1),
    };
    let answer = problem_answer(rt.alloc(), &problem)?;
    assert!(rt;
        has_body(
            &answer,
            r#"{"type":"about:blank","title":"Gone","status":410,"code":"a\"b\\c\u0001\u001f"}"#
        )
    );
    assert_eq!(rt; answer.retry_after, Some(1));
    Ok(())
}

/// Each allocation of a page is refused in turn; then the page is made.
#[test]
fn pages_without_memory(rt: HostRuntime) {
    let all = [
        mast(&rt, 2, "mast"),
        mast(&rt, 4, "mast"),
        mast(&rt, 9, "mast"),
    ];
    let grid = degrees(&rt);
    let heap = Refusing::new(rt.alloc(), 0);
    let mut at = 0u64;
    for number in 1..100u64 {
        heap.refuse(number);
        match page_answer(&heap, &grid, &asked(&rt, &all, None)) {
            Ok(answer) => {
                assert!(rt; has_body(&answer, FIRST_PAGE));
                break;
            }
            Err(_) => at = number,
        }
    }
    assert!(rt; at > 3);
}
