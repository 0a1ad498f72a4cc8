//! How many critical sections a call has.
ghost use Rattle.std.specs.Prelude.{◌≡◌};

use crate::halls::{applied, opened, point, road, rows, seat, square};
use crate::pauses::Counting;
use features::Change;
use hall::{Hall, HallName, LEDGER_PARTS, NoPause, SECTION_EVENTS, Seat, Unnamed};
use plane::{Point, Shape};
use std::alloc::Global;
use std::marker::Brand;
use std::process::Abort;
use std::sync::Wait;
use std::sync::atomic::{AtomicU64, Ordering};
use std::thread::{Threads, join};
use world::Outcome;

/// A list of sixteen roads at points of a line, with ids from `first` on.
fn sixteen(rt: &impl Abort, first: u64, x: i32) -> [Change; 16] {
    let mut changes = [road(rt, first, x, 0); 16];
    for index in 0..16 {
        changes[index] = road(rt, first + index as u64, x, index as i32);
    }
    changes
}

/// Commits a list, and counts the calls of its pause.
fn calls_of_commit<L: HallName, H: Wait + Drop, R: Wait + Abort>(
    rt: &R,
    seat: &mut Seat<'_, L, H, Global>,
    changes: &[Change],
    steps: bool,
) -> u64 {
    let calls = AtomicU64::new(0);
    let outcome = seat.commit(
        rt,
        changes,
        &mut Counting {
            steps,
            calls: &calls,
        },
    );
    assert!(rt; matches!(outcome, Ok(Outcome::Applied(_))));
    calls.load(Ordering::SeqCst)
}

/// Searches a window, and counts the rows and the calls of the search's pause.
fn calls_of_search<L: HallName, H: Wait + Drop, R: Wait + Abort>(
    rt: &R,
    seat: &mut Seat<'_, L, H, Global>,
    window: Shape,
    steps: bool,
) -> (Option<usize>, u64) {
    let calls = AtomicU64::new(0);
    let found = rows(
        rt,
        seat,
        window,
        &mut Counting {
            steps,
            calls: &calls,
        },
    );
    (found, calls.load(Ordering::SeqCst))
}

fn sections_in<L: HallName, H: Wait + Drop, R: Wait + Abort>(
    rt: &R,
    own: H,
    heap: Global,
    unnamed: Unnamed<Global>,
)
    requires name { unnamed.ledger.name ≡ L.name }
    requires parts { (unnamed.ledger.parts ≡ L.parts) × (L.parts ≡ LEDGER_PARTS) }
    requires list { unnamed.list ≡ L.book }
    requires states { unnamed.states ≡ L.states }
{
    let hall = opened::<L, H>(rt, own, heap, unnamed, 0);
    let mut one = seat(rt, &hall, "north");
    // The beginning, sixteen changes, as many steps of walks at least, and the commit.
    assert!(rt; calls_of_commit(rt, &mut one, &sixteen(rt, 1, 0), true) > 32);
    assert_eq!(rt;
        calls_of_commit(rt, &mut one, &sixteen(rt, 17, 1), false),
        0
    );
    // The opening, two visits at least, and the finish.
    let (found, calls) = calls_of_search(rt, &mut one, square(rt), true);
    assert!(rt; found == Some(10) && calls > 2);
    assert_eq!(rt;
        calls_of_search(rt, &mut one, square(rt), false),
        (Some(10), 0)
    );
}

/// By steps each event is a critical section; otherwise all events of a call are one.
#[test]
fn one_section_or_one_an_event(rt: HostRuntime) {
    sections_in::<Brand, _, _>(&rt, rt, rt.alloc(), Unnamed::new());
}

/// How many calls each of two threads makes.
const CALLS: u64 = 400;

/// Searches again and again. Returns the seat and the calls of the pause.
fn search_all<'h, L: HallName, H: Wait + Drop, R: Wait + Abort>(
    rt: &R,
    seat: Seat<'h, L, H, Global>,
) -> (Seat<'h, L, H, Global>, u64) {
    let (mut seat, mut all) = (seat, 0);
    for _ in 0..CALLS {
        let (found, calls) = calls_of_search(rt, &mut seat, square(rt), false);
        assert!(rt; found.is_some());
        all += calls;
    }
    (seat, all)
}

/// Adds roads in the window of the searches. Returns the seat and the calls of the pause.
fn add_all<'h, L: HallName, H: Wait + Drop, R: Wait + Abort>(
    rt: &R,
    seat: Seat<'h, L, H, Global>,
) -> (Seat<'h, L, H, Global>, u64) {
    let (mut seat, mut all) = (seat, 0);
    for id in 1..CALLS + 1 {
        all += calls_of_commit(rt, &mut seat, &[road(rt, id, 2, 2)], false);
    }
    (seat, all)
}

fn beside_in<L, H, R>(rt: &R, own: H, heap: Global, unnamed: Unnamed<Global>)
where
    L: HallName + Send + Sync,
    H: Wait + Drop + Send,
    R: Threads + Wait + Abort + Sync,
    requires name { unnamed.ledger.name ≡ L.name }
    requires parts { (unnamed.ledger.parts ≡ L.parts) × (L.parts ≡ LEDGER_PARTS) }
    requires list { unnamed.list ≡ L.book }
    requires states { unnamed.states ≡ L.states }
{
    let hall = opened::<L, H>(rt, own, heap, unnamed, 0);
    let (one, two) = (seat(rt, &hall, "north"), seat(rt, &hall, "south"));
    let ((one, searches), (_two, commits)) = join(
        rt,
        move || search_all(rt, one),
        move || add_all(rt, two),
    );
    assert_eq!(rt; (searches, commits), (0, 0));
    let mut one = one;
    let found = rows(rt, &mut one, square(rt), &mut NoPause);
    assert_eq!(rt; found, Some(CALLS as usize));
}

/// Where no call wants steps, no list comes between two events of a search, so none is held back:
/// no call is tried twice, and no pause is called.
#[test]
fn whole_calls_hold_nothing_back(rt: HostRuntime) {
    beside_in::<Brand, _, _>(&rt, rt, rt.alloc(), Unnamed::new());
}

/// How many lists of sixteen the hall of the long search has.
const LISTS: u64 = 3_200;

/// Everything.
fn all(rt: &impl Abort) -> Shape {
    let (low, high) = (-10_000_000, 10_000_000);
    let ring = [
        Point { x: low, y: low },
        Point { x: high, y: low },
        Point { x: high, y: high },
        Point { x: low, y: high },
        Point { x: low, y: low },
    ];
    match Shape::polygon(&ring) {
        Ok(shape) => shape,
        Err(_) => panic!(rt; "no square"),
    }
}

fn long_in<L: HallName, H: Wait + Drop, R: Wait + Abort>(
    rt: &R,
    own: H,
    heap: Global,
    unnamed: Unnamed<Global>,
)
    requires name { unnamed.ledger.name ≡ L.name }
    requires parts { (unnamed.ledger.parts ≡ L.parts) × (L.parts ≡ LEDGER_PARTS) }
    requires list { unnamed.list ≡ L.book }
    requires states { unnamed.states ≡ L.states }
{
    let hall = opened::<L, H>(rt, own, heap, unnamed, 0);
    let mut one = seat(rt, &hall, "north");
    for list in 0..LISTS {
        let changes = sixteen(rt, 16 * list + 1, (list * 7_919 % LISTS) as i32);
        assert_eq!(rt; calls_of_commit(rt, &mut one, &changes, false), 0);
    }
    let every = Some((16 * LISTS) as usize);
    let (found, events) = calls_of_search(rt, &mut one, all(rt), true);
    assert_eq!(rt; found, every);
    assert!(rt; events > u64::from(SECTION_EVENTS));
    let (found, calls) = calls_of_search(rt, &mut one, all(rt), false);
    assert_eq!(rt; found, every);
    assert_eq!(rt; calls, 0);
}

/// A search that by steps has more events than a critical section is one event, and so one section,
/// where no steps are wanted. It lists the same.
#[test]
fn a_long_search_is_one_event(rt: HostRuntime) {
    long_in::<Brand, _, _>(&rt, rt, rt.alloc(), Unnamed::new());
}
