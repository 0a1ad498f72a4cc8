//! Names, shapes and documents, for worlds and trails. A function that takes an `Abort` may be in a
//! crate of tests only, so this repeats a part of `worlds.rt` of `world_tests`.
use features::Name;
use plane::{Point, Shape};
use policy_text::{Document, read_document};
use std::alloc::Global;
use std::process::Abort;

pub fn name(rt: &impl Abort, text: &str) -> Name {
    let name = Name::new(text.as_bytes());
    assert!(rt; name.is_some(), "{text}");
    name.unwrap()
}

pub fn point(rt: &impl Abort, x: i32, y: i32) -> Shape {
    let shape = Shape::point(Point { x, y });
    assert!(rt; shape.is_ok());
    shape.unwrap()
}

/// The square from (`low`, `low`) to (`high`, `high`).
pub fn square(rt: &impl Abort, low: i32, high: i32) -> Shape {
    let ring = [
        Point { x: low, y: low },
        Point { x: high, y: low },
        Point { x: high, y: high },
        Point { x: low, y: high },
        Point { x: low, y: low },
    ];
    let shape = Shape::polygon(&ring);
    assert!(rt; shape.is_ok());
    shape.unwrap()
}

/// The document of a text.
pub fn document(rt: &impl Abort, heap: Global, text: &str) -> Document<Global> {
    match read_document(heap, heap, text.as_bytes()) {
        Ok(document) => document,
        Err(_) => panic!(rt; "no document: {text}"),
    }
}
