//! Worlds, subjects and policies to try events on.
use feature_store::{FEATURE_LIMIT, Meter};
use features::{Change, Name, Subject, Subjects};
use plane::{Point, Shape};
use policy_text::{Document, print_document, read_document};
use std::alloc::{Allocator, Global};
use std::process::Abort;
use world::{Advance, Answer, Limits, ROLLED_LIMIT, STEP_LIMIT, Starts, Visit, World};

/// Everything is permitted.
pub const OPEN: &str =
    r#"{"root":{"combine":"first-applicable","policy":"start","rules":[{"effect":"permit","rule":"open"}]}}"#;

/// Everything is permitted on roads, and no rule applies to anything else.
pub const ROADS: &str =
    r#"{"root":{"combine":"first-applicable","policy":"p","rules":[{"effect":"permit","rule":"roads","target":[[[{"class":"road"}]]]}]}}"#;

/// Nothing is permitted.
pub const CLOSED: &str =
    r#"{"root":{"combine":"first-applicable","policy":"p","rules":[{"effect":"deny","rule":"closed"}]}}"#;

/// The first numbers of a world that `World::open` makes.
pub const STARTS: Starts = Starts::FIRST;

/// Limits that no test reaches.
pub const LIMITS: Limits = Limits {
    steps: 1_000,
    records: 1_000,
    features: 1_000,
};

pub fn name(rt: &impl Abort, text: &str) -> Name {
    let name = Name::new(text.as_bytes());
    assert!(rt; name.is_some(), "{text}");
    name.unwrap()
}

pub fn point(rt: &impl Abort, x: i32, y: i32) -> Shape {
    let shape = Shape::point(Point { x, y });
    assert!(rt; shape.is_ok());
    shape.unwrap()
}

/// The square from (`low`, `low`) to (`high`, `high`).
pub fn square(rt: &impl Abort, low: i32, high: i32) -> Shape {
    let ring = [
        Point { x: low, y: low },
        Point { x: high, y: low },
        Point { x: high, y: high },
        Point { x: low, y: high },
        Point { x: low, y: low },
    ];
    let shape = Shape::polygon(&ring);
    assert!(rt; shape.is_ok());
    shape.unwrap()
}

pub fn document(rt: &impl Abort, heap: Global, text: &str) -> Document<Global> {
    match read_document(heap, heap, text.as_bytes()) {
        Ok(document) => document,
        Err(_) => panic!(rt; "no document: {text}"),
    }
}

/// A subject with the same name and office.
fn subject(rt: &impl Abort, office: &str, steward: bool) -> Subject {
    Subject {
        name: name(rt, office),
        office: name(rt, office),
        role: name(rt, "editor"),
        steward,
    }
}

/// Two subjects that are no stewards, and a steward.
pub fn subjects(rt: &impl Abort) -> Subjects {
    let made = Subjects::new(&[
        subject(rt, "north", false),
        subject(rt, "south", false),
        subject(rt, "chief", true),
    ]);
    assert!(rt; made.is_ok());
    made.unwrap()
}

/// A world of this policy.
fn opened<A: Allocator + Copy>(
    rt: &impl Abort,
    alloc: A,
    heap: Global,
    policy: &str,
    starts: Starts,
    limits: Limits,
) -> World<A> {
    assert!(rt; starts.rolled <= ROLLED_LIMIT && limits.steps <= STEP_LIMIT);
    assert!(rt; limits.records <= 1_000 && limits.features as usize <= FEATURE_LIMIT);
    let document = document(rt, heap, policy);
    match World::open_at(alloc, heap, subjects(rt), document, starts, limits) {
        Ok(world) => world,
        Err(_) => panic!(rt; "no world"),
    }
}

/// The same, with three seats: north has the first, south the second, chief the third.
pub fn seated<A: Allocator + Copy>(
    rt: &impl Abort,
    alloc: A,
    heap: Global,
    policy: &str,
    starts: Starts,
    limits: Limits,
) -> World<A> {
    let mut world = opened(rt, alloc, heap, policy, starts, limits);
    give_seats(rt, &mut world);
    world
}

/// Gives a seat to each of the three subjects.
pub fn give_seats<A: Allocator + Copy>(rt: &impl Abort, world: &mut World<A>) {
    assert!(rt; world.seat(name(rt, "north")) == Ok(1));
    assert!(rt; world.seat(name(rt, "south")) == Ok(2));
    assert!(rt; world.seat(name(rt, "chief")) == Ok(3));
}

/// The addition of a feature at the point (`at`, `at`).
pub fn add(rt: &impl Abort, id: u64, class: &str, at: i32) -> Change {
    Change::Add {
        id,
        class: name(rt, class),
        shape: point(rt, at, at),
    }
}

/// Opens a transaction of a seat and stages these changes, of which none is placed.
pub fn staged<A: Allocator + Copy>(
    rt: &impl Abort,
    world: &mut World<A>,
    seat: u32,
    changes: &[Change],
) -> u64 {
    let begun = world.begin(seat);
    assert!(rt; begun.is_ok());
    let number = begun.unwrap();
    for change in changes {
        assert!(rt; world.stage(seat, number, *change) == Ok(()));
    }
    number
}

/// The same, and places all shapes.
pub fn placed<A: Allocator + Copy>(
    rt: &impl Abort,
    world: &mut World<A>,
    seat: u32,
    changes: &[Change],
) -> u64 {
    let number = staged(rt, world, seat, changes);
    place_all(rt, world, seat, number);
    number
}

/// Advances the walks of a transaction until all shapes are placed.
pub fn place_all<A: Allocator + Copy>(
    rt: &impl Abort,
    world: &mut World<A>,
    seat: u32,
    number: u64,
) {
    for _ in 0..1_000 {
        let step = world.advance(seat, number);
        assert!(rt; step.is_ok());
        if step == Ok(Advance::AllPlaced) {
            return;
        }
    }
    panic!(rt; "a list makes more than 1,000 steps");
}

/// Visits until a search is ready.
pub fn see_all<A: Allocator + Copy>(rt: &impl Abort, world: &mut World<A>, seat: u32, number: u64) {
    for _ in 0..1_000 {
        let visited = world.visit(seat, number);
        assert!(rt; visited.is_ok());
        if visited == Ok(Visit::Ready) {
            return;
        }
    }
    panic!(rt; "a search makes more than 1,000 steps");
}

/// Opens a search of a seat, and visits until it is ready.
pub fn ready<A: Allocator + Copy>(
    rt: &impl Abort,
    world: &mut World<A>,
    seat: u32,
    window: Shape,
) -> u64 {
    let opened = world.open_search(seat, window);
    assert!(rt; opened.is_ok());
    let number = opened.unwrap();
    see_all(rt, world, seat, number);
    number
}

/// The answer that a seat gets for a window.
pub fn found<A: Allocator + Copy>(
    rt: &impl Abort,
    world: &mut World<A>,
    seat: u32,
    window: Shape,
) -> Answer<A> {
    let number = ready(rt, world, seat, window);
    let mut meter = Meter::new();
    match world.finish(seat, number, &mut meter) {
        Ok(answer) => answer,
        Err(fault) => panic!(rt; "{fault}"),
    }
}

/// What is read from a world without an event, as one text: how many features there are, the
/// edition, the document in force, and the trail's records with the number of the first.
pub fn picture<A: Allocator>(rt: &impl Abort, heap: Global, world: &World<A>) -> String {
    let printed = print_document(heap, world.document());
    assert!(rt; printed.is_ok());
    let document = printed.unwrap();
    let head = format!(in heap;
        "{} {} {} {}\n{document}\n",
        world.len(),
        world.edition(),
        world.trail().first(),
        world.trail().len()
    );
    assert!(rt; head.is_ok());
    let mut told = head.unwrap();
    put_lines(rt, heap, world, world.trail().first(), &mut told);
    told
}

/// Appends the lines of a world's trail from this number on to a text.
pub fn put_lines<A: Allocator>(
    rt: &impl Abort,
    heap: Global,
    world: &World<A>,
    first: u64,
    told: &mut String,
) {
    let trail = world.trail();
    for number in first..trail.first().saturating_add(u64::from(trail.len())) {
        let line = trail.json_line(heap, number);
        assert!(rt; line.is_ok());
        assert!(rt; told.push_str(line.unwrap().as_str()).is_ok() && told.push('\n').is_ok());
    }
}
