//! Threads in one hall.
ghost use Rattle.std.specs.Prelude.{◌≡◌};

use crate::halls::{
    ROADS, applied, close_two, document, opened, point, question, road, rows, search_meeting, seat,
    view, wait_for,
};
use decision::Ruling;
use hall::{Hall, HallName, LEDGER_PARTS, NoPause, Seat, Unnamed};
use std::alloc::Global;
use std::marker::Brand;
use std::process::Abort;
use std::sync::Wait;
use std::sync::atomic::{AtomicU64, Ordering};
use std::test::Fail;
use std::thread::{Threads, join};

/// Commits once the other seat's search waits, then sets `done` to let it go on. Returns the seat,
/// and the version if all went well.
fn commit_meeting<'h, L: HallName, H: Wait + Drop, R: Wait + Abort>(
    rt: &R,
    seat: Seat<'h, L, H, Global>,
    seen: &AtomicU64,
    done: &AtomicU64,
) -> (Seat<'h, L, H, Global>, Option<u64>) {
    let mut seat = seat;
    let met = wait_for(seen);
    let version = applied(rt, &mut seat, road(rt, 2, 100, 100), &mut NoPause);
    done.store(1, Ordering::SeqCst);
    (seat, if met { version } else { None })
}

/// Runs two seats concurrently: a search that waits after its first step until the other seat's
/// list is applied.
fn meet<'h, L: HallName + Send + Sync, H: Wait + Drop + Send, R: Threads + Wait + Abort + Sync>(
    rt: &R,
    one: Seat<'h, L, H, Global>,
    two: Seat<'h, L, H, Global>,
    seen: &AtomicU64,
    done: &AtomicU64,
) -> (Seat<'h, L, H, Global>, Seat<'h, L, H, Global>) {
    let ((one, found), (two, version)) = join(
        rt,
        move || search_meeting(rt, one, seen, done),
        move || commit_meeting(rt, two, seen, done),
    );
    assert_eq!(rt; found, Some(1));
    assert_eq!(rt; version, Some(2));
    assert_eq!(rt; seen.load(Ordering::SeqCst), 2);
    (one, two)
}

fn two_threads_in<
    L: HallName + Send + Sync,
    H: Wait + Drop + Send,
    R: Threads + Wait + Abort + Sync,
>(rt: &R, own: H, heap: Global, unnamed: Unnamed<Global>)
    requires name { unnamed.ledger.name ≡ L.name }
    requires parts { (unnamed.ledger.parts ≡ L.parts) × (L.parts ≡ LEDGER_PARTS) }
    requires list { unnamed.list ≡ L.book }
    requires states { unnamed.states ≡ L.states }
{
    let hall = opened::<L, H>(rt, own, heap, unnamed, 1);
    let chief = seat(rt, &hall, "chief");
    let mut north = seat(rt, &hall, "north");
    assert_eq!(rt;
        applied(rt, &mut north, road(rt, 1, 1, 1), &mut NoPause),
        Some(1)
    );
    let (seen, done) = (AtomicU64::new(0), AtomicU64::new(0));
    let (mut chief, north) = meet(rt, chief, north, &seen, &done);
    assert_eq!(rt;
        rows(rt, &mut chief, point(rt, 100, 100), &mut NoPause),
        Some(1)
    );
    assert_told(rt, heap, &hall, &mut chief);
    assert!(rt; chief.roll(rt).is_ok());
    close_two(rt, heap, &hall, chief, north, 5);
}

/// The steward puts a document in force; a view that is told of it explains by it.
fn assert_told<L: HallName, H: Wait + Drop, R: Wait + Abort>(
    rt: &R,
    heap: Global,
    hall: &Hall<L, H, Global>,
    chief: &mut Seat<'_, L, H, Global>,
) {
    let mut view = view(rt, hall);
    assert_eq!(rt; view.edition(), 1);
    match chief.govern(rt, document(rt, heap, ROADS)) {
        Ok(edition) => {
            assert_eq!(rt; edition.number(), 2);
            view.catch_up(edition);
        }
        Err(fault) => panic!(rt; "not in force: {fault}"),
    }
    let explained = view.explain(&question(rt)).expect(rt, "a policy to read");
    assert_eq!(rt; explained.edition, 2);
    assert!(rt; matches!(explained.ruling, Ruling::NoneApplied));
    assert!(rt; explained.rule.is_none());
}

#[test]
fn two_threads(rt: HostRuntime) {
    two_threads_in::<Brand, _, _>(&rt, rt, rt.alloc(), Unnamed::new());
}
