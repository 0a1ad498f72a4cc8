//! How the lines of a table are read.
use plane::Point;
use std::process::Abort;

/// The parts of a text before and after the first occurrence of a mark, which it has to contain.
pub(crate) fn parted<'a>(rt: &impl Abort, text: &'a str, mark: &'static str) -> (&'a str, &'a str) {
    let Some(parts) = text.split_once(mark) else {
        panic!(rt; "no {mark} in {text}");
    };
    parts
}

/// Whether `told` is the first of two words. It has to be one of them.
pub(crate) fn is_first(
    rt: &impl Abort,
    told: &str,
    first: &'static str,
    second: &'static str,
) -> bool {
    assert!(rt; told == first || told == second, "{told}");
    told == first
}

fn coordinate(rt: &impl Abort, text: &str) -> i32 {
    match text.parse::<i32>() {
        Ok(number) => number,
        Err(_) => panic!(rt; "no coordinate: {text}"),
    }
}

/// The point of a text such as `3 -4`.
pub(crate) fn point(rt: &impl Abort, text: &str) -> Point {
    let (x, y) = parted(rt, text, " ");
    Point {
        x: coordinate(rt, x),
        y: coordinate(rt, y),
    }
}
