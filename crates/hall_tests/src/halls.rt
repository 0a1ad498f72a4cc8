//! Halls, and what is done in them.
ghost use Rattle.std.specs.Prelude.{◌≡◌, ◌≤◌};

use audit_trail::RECORD_LIMIT;
use combining::Question;
use feature_store::FEATURE_LIMIT;
use features::{Action, Change, Name, Subject, Subjects};
use hall::{Closed, Hall, HallName, LEDGER_PARTS, Pause, Seat, Unnamed, View};
use plane::{Point, Shape};
use policy_text::{Document, read_document};
use std::alloc::{Allocator, Global};
use std::process::Abort;
use std::sync::Wait;
use std::sync::atomic::{AtomicU64, Ordering};
use std::thread;
use world::{Limits, Outcome, STEP_LIMIT};

/// A document that permits everything.
pub const OPEN: &str =
    r#"{"root":{"combine":"first-applicable","policy":"start","rules":[{"effect":"permit","rule":"open"}]}}"#;

/// A document that permits everything for roads; for anything else no rule applies.
pub const ROADS: &str =
    r#"{"root":{"combine":"first-applicable","policy":"p","rules":[{"effect":"permit","rule":"roads","target":[[[{"class":"road"}]]]}]}}"#;

/// How often a thread yields while it waits for another, at most.
pub const TURNS: u64 = 1_000_000;

pub fn name(rt: &impl Abort, text: &str) -> Name {
    let name = Name::new(text.as_bytes());
    assert!(rt; name.is_some(), "{text}");
    name.unwrap()
}

pub fn point(rt: &impl Abort, x: i32, y: i32) -> Shape {
    let shape = Shape::point(Point { x, y });
    assert!(rt; shape.is_ok());
    shape.unwrap()
}

/// The square from (0, 0) to (4, 4).
pub fn square(rt: &impl Abort) -> Shape {
    let ring = [
        Point { x: 0, y: 0 },
        Point { x: 4, y: 0 },
        Point { x: 4, y: 4 },
        Point { x: 0, y: 4 },
        Point { x: 0, y: 0 },
    ];
    let shape = Shape::polygon(&ring);
    assert!(rt; shape.is_ok());
    shape.unwrap()
}

/// A change that adds a road at a point.
pub fn road(rt: &impl Abort, id: u64, x: i32, y: i32) -> Change {
    Change::Add {
        id,
        class: name(rt, "road"),
        shape: point(rt, x, y),
    }
}

pub fn document(rt: &impl Abort, heap: Global, text: &str) -> Document<Global> {
    match read_document(heap, heap, text.as_bytes()) {
        Ok(document) => document,
        Err(_) => panic!(rt; "no document: {text}"),
    }
}

/// A subject whose name is also its office.
fn subject(rt: &impl Abort, office: &str, steward: bool) -> Subject {
    Subject {
        name: name(rt, office),
        office: name(rt, office),
        role: name(rt, "editor"),
        steward,
    }
}

/// Two editors, and a steward.
pub fn subjects(rt: &impl Abort) -> Subjects {
    let made = Subjects::new(&[
        subject(rt, "north", false),
        subject(rt, "south", false),
        subject(rt, "chief", true),
    ]);
    assert!(rt; made.is_ok());
    made.unwrap()
}

/// A hall in which everything is permitted, with room for this many views.
pub fn opened<L: HallName, H: Wait + Drop>(
    rt: &impl Abort,
    own: H,
    heap: Global,
    unnamed: Unnamed<Global>,
    views: usize,
) -> Hall<L, H, Global>
    requires name { unnamed.ledger.name ≡ L.name }
    requires parts { (unnamed.ledger.parts ≡ L.parts) × (L.parts ≡ LEDGER_PARTS) }
    requires list { unnamed.list ≡ L.book }
    requires states { unnamed.states ≡ L.states }
{
    opened_in(rt, own, heap, heap, unnamed, views)
}

/// The same, with an allocator of the test's own.
pub fn opened_in<L: HallName, H: Wait + Drop, A: Allocator + Copy>(
    rt: &impl Abort,
    own: H,
    alloc: A,
    heap: Global,
    unnamed: Unnamed<A>,
    views: usize,
) -> Hall<L, H, A>
    requires name { unnamed.ledger.name ≡ L.name }
    requires parts { (unnamed.ledger.parts ≡ L.parts) × (L.parts ≡ LEDGER_PARTS) }
    requires list { unnamed.list ≡ L.book }
    requires states { unnamed.states ≡ L.states }
{
    let document = document(rt, heap, OPEN);
    match Hall::open(own, alloc, heap, unnamed, subjects(rt), document, views) {
        Ok(hall) => hall,
        Err(_) => panic!(rt; "no hall"),
    }
}

/// A hall in which everything is permitted, with no views, within these limits.
pub fn opened_within<L: HallName, H: Wait + Drop>(
    rt: &impl Abort,
    own: H,
    heap: Global,
    unnamed: Unnamed<Global>,
    limits: Limits,
) -> Hall<L, H, Global>
    requires name { unnamed.ledger.name ≡ L.name }
    requires parts { (unnamed.ledger.parts ≡ L.parts) × (L.parts ≡ LEDGER_PARTS) }
    requires list { unnamed.list ≡ L.book }
    requires states { unnamed.states ≡ L.states }
    requires records { limits.records ≤ RECORD_LIMIT }
    requires features { limits.features ≤ FEATURE_LIMIT }
    requires steps { limits.steps ≤ STEP_LIMIT }
{
    let document = document(rt, heap, OPEN);
    let subjects = subjects(rt);
    match Hall::open_within(own, heap, heap, unnamed, subjects, document, 0, limits) {
        Ok(hall) => hall,
        Err(_) => panic!(rt; "no hall"),
    }
}

/// A view of the policies.
pub fn view<L: HallName, H: Wait + Drop>(
    rt: &(impl Abort + Wait),
    hall: &Hall<L, H, Global>,
) -> View<L> {
    match hall.view(rt) {
        Ok(view) => view,
        Err(fault) => panic!(rt; "no view: {fault}"),
    }
}

/// The question whether an editor of `north` may add a parcel at a point.
pub fn question(rt: &impl Abort) -> Question {
    Question {
        subject: subject(rt, "north", false),
        action: Action::Add,
        owner: name(rt, "north"),
        class: name(rt, "parcel"),
        shape: point(rt, 2, 2),
    }
}

/// A seat for the subject of this name.
pub fn seat<'h, L: HallName, H: Wait + Drop, A: Allocator + Copy>(
    rt: &(impl Abort + Wait),
    hall: &'h Hall<L, H, A>,
    office: &str,
) -> Seat<'h, L, H, A> {
    match hall.seat(rt, name(rt, office)) {
        Ok(seat) => seat,
        Err(fault) => panic!(rt; "{office} has no seat: {fault}"),
    }
}

/// Commits a list of one change. Returns its version, or `None` if it is not applied.
pub fn applied<L: HallName, H: Wait + Drop, A: Allocator + Copy, P: Pause>(
    rt: &impl Wait,
    seat: &mut Seat<'_, L, H, A>,
    change: Change,
    pause: &mut P,
) -> Option<u64> {
    match seat.commit(rt, &[change], pause) {
        Ok(Outcome::Applied(version)) => Some(version),
        _ => None,
    }
}

/// How many rows a search returns; `None` if it fails.
pub fn rows<L: HallName, H: Wait + Drop, A: Allocator + Copy, P: Pause>(
    rt: &impl Wait,
    seat: &mut Seat<'_, L, H, A>,
    window: Shape,
    pause: &mut P,
) -> Option<usize> {
    match seat.search(rt, window, pause) {
        Ok(answer) => Some(answer.rows().len()),
        Err(_) => None,
    }
}

/// Rolls a piece, checks that it begins with the record of this number, and returns the number
/// after its last one.
pub fn roll_on<L: HallName, H: Wait + Drop, R: Wait + Abort>(
    rt: &R,
    chief: &mut Seat<'_, L, H, Global>,
    first: u64,
) -> u64 {
    match chief.roll(rt) {
        Ok(piece) => {
            let count = piece.trail().len();
            assert_eq!(rt; piece.trail().first(), first);
            assert_eq!(rt; piece.lines().len(), count as usize);
            first.saturating_add(u64::from(count))
        }
        Err(fault) => panic!(rt; "not rolled: {fault}"),
    }
}

/// A pause that wants steps, and sets `mine` at its second call, which is after the first visit of a search, and
/// waits there for `other`.
#[derive(Drop)]
struct Meeting<'a> {
    calls: u64,
    mine: &'a AtomicU64,
    other: &'a AtomicU64,
}

impl<'a> Meeting<'a> {
    fn new(mine: &'a AtomicU64, other: &'a AtomicU64) -> Self {
        Meeting {
            calls: 0,
            mine,
            other,
        }
    }
}

/// Waits until a flag is set, for at most `TURNS` turns, and returns whether it is set.
pub fn wait_for(flag: &AtomicU64) -> bool {
    for _ in 0..TURNS {
        if flag.load(Ordering::SeqCst) > 0 {
            return true;
        }
        thread::yield_now();
    }
    false
}

impl Pause for Meeting<'_> {
    fn between(&mut self) {
        self.calls = self.calls.saturating_add(1);
        if self.calls == 2 {
            self.mine.store(1, Ordering::SeqCst);
            if wait_for(self.other) {
                self.mine.store(2, Ordering::SeqCst);
            }
        }
    }

    fn wants_steps(&self) -> bool {
        true
    }
}

/// Searches the square, and waits after the first visit until a flag is set. Returns the seat and
/// the number of rows.
pub fn search_meeting<'h, L: HallName, H: Wait + Drop, R: Wait + Abort>(
    rt: &R,
    seat: Seat<'h, L, H, Global>,
    seen: &AtomicU64,
    done: &AtomicU64,
) -> (Seat<'h, L, H, Global>, Option<usize>) {
    let mut seat = seat;
    let mut pause = Meeting::new(seen, done);
    let found = rows(rt, &mut seat, square(rt), &mut pause);
    (seat, found)
}

/// Closes a hall with its two seats, and checks the number of records.
pub fn close_two<'h, L: HallName, H: Wait + Drop, R: Wait + Abort>(
    rt: &R,
    heap: Global,
    hall: &'h Hall<L, H, Global>,
    one: Seat<'h, L, H, Global>,
    two: Seat<'h, L, H, Global>,
    records: u64,
)
    requires { L.parts ≡ LEDGER_PARTS }
{
    let mut seats = Vec::new(heap);
    assert!(rt; seats.push(one).is_ok());
    assert!(rt; seats.push(two).is_ok());
    match hall.close(rt, seats) {
        Ok(closed) => assert_eq!(rt; closed, Closed { records, seats: 2 }),
        Err((fault, _)) => panic!(rt; "not closed: {fault}"),
    }
}
