//! What the pages look like that are the same whatever the map has.
use features::Name;
use grid::{Between, Grid};
use map_answers::{Answer, MediaType};
use map_asks::{FixedPage, Layer};
use map_page::PAGE;
use map_pages::{Site, fixed_answer};
use memory::json_value;
use std::alloc::Allocator;
use std::process::Abort;
use std::test::Fail;

/// The grid of the tests: steps of a tenth of a millionth, from 7 and 46.
fn degrees(rt: &impl Abort) -> Grid {
    Grid::new(b"7", b"46", 7, Between::Refuse).expect(rt, "a grid")
}

const LANDING: &str =
    r#"{"title":"landmap","links":[{"rel":"self","type":"application/json","href":"https://maps.example/"},{"rel":"service-desc","type":"application/vnd.oai.openapi+json;version=3.0","href":"https://maps.example/api"},{"rel":"conformance","type":"application/json","href":"https://maps.example/conformance"},{"rel":"data","type":"application/json","href":"https://maps.example/collections"},{"rel":"alternate","type":"text/html; charset=utf-8","href":"https://maps.example/map"}]}"#;

const COLLECTION: &str =
    r#"{"id":"mast","title":"mast","itemType":"feature","extent":{"spatial":{"bbox":[[6.0000000,45.0000000,8.0000000,47.0000000]]}},"crs":["http://www.opengis.net/def/crs/OGC/1.3/CRS84"],"links":[{"rel":"self","type":"application/json","href":"https://maps.example/collections/mast"},{"rel":"items","type":"application/geo+json","href":"https://maps.example/collections/mast/items"}]}"#;

/// Whether an answer's body is this text.
fn has_body<A: Allocator>(answer: &Answer<A>, wanted: &str) -> bool {
    answer.body.as_slice() == wanted.as_bytes()
}

#[test]
fn landing_and_collection(rt: HostRuntime) -> Result<(), Fail> {
    let classes = [Name::new(b"mast").ok_or("a name")?];
    let grid = degrees(&rt);
    let site = Site {
        base: b"https://maps.example",
        grid: &grid,
        classes: &classes,
        map: PAGE.as_bytes(),
    };
    let landing = fixed_answer(rt.alloc(), &site, &FixedPage::Landing)?;
    assert!(rt; has_body(&landing, LANDING));
    let mast = FixedPage::Collection(Layer::Class(classes[0]));
    let collection = fixed_answer(rt.alloc(), &site, &mast)?;
    assert!(rt; has_body(&collection, COLLECTION));
    let api = fixed_answer(rt.alloc(), &site, &FixedPage::Api)?;
    assert_eq!(rt; api.media, MediaType::OpenApi);
    let map = fixed_answer(rt.alloc(), &site, &FixedPage::Map)?;
    assert_eq!(rt; map.media.text(), "text/html; charset=utf-8");
    assert!(rt; has_body(&map, PAGE));
    Ok(())
}

/// Each page is JSON, and the list has the collection of all features and each class.
#[test]
fn pages_are_json(rt: HostRuntime) -> Result<(), Fail> {
    let classes = [
        Name::new(b"mast").ok_or("a name")?,
        Name::new(b"road").ok_or("a name")?,
    ];
    let grid = degrees(&rt);
    let site = Site {
        base: b"https://maps.example",
        grid: &grid,
        classes: &classes,
        map: PAGE.as_bytes(),
    };
    let pages = [
        FixedPage::Landing,
        FixedPage::Api,
        FixedPage::Conformance,
        FixedPage::Collections,
        FixedPage::Collection(Layer::All),
    ];
    for page in pages {
        let answer = fixed_answer(rt.alloc(), &site, &page)?;
        assert!(rt; json_value(rt.alloc(), answer.body.as_slice()).is_ok());
    }
    let list = fixed_answer(rt.alloc(), &site, &FixedPage::Collections)?;
    let value = json_value(rt.alloc(), list.body.as_slice())
        .ok()
        .ok_or("no JSON")?;
    let collections = value.get("collections").ok_or("no collections")?;
    let collections = collections.as_array().ok_or("no list")?;
    assert_eq!(rt; collections.len(), 3);
    Ok(())
}
