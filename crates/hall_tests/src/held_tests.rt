//! Lists that a search holds back.
ghost use Rattle.std.specs.Prelude.{◌≡◌};

use crate::halls::{TURNS, applied, opened, point, road, rows, search_meeting, seat, wait_for};
use crate::pauses::Steps;
use hall::{
    CloseFault, Hall, HallFault, HallName, LEDGER_PARTS, NoPause, Seat, TRY_LIMIT, Unnamed,
};
use std::alloc::Global;
use std::marker::Brand;
use std::process::Abort;
use std::sync::Wait;
use std::sync::atomic::{AtomicU64, Ordering};
use std::thread::{Threads, join};

/// The state of the list, shared between threads: not answered yet.
const OPEN: u64 = 0;

/// Answered `Held`: searches held it back.
const HELD: u64 = 1;

/// Answered otherwise.
const OTHER: u64 = 2;

/// Commits a list once the first search waits, and stores how it was answered.
fn commit_held<'h, L: HallName, H: Wait + Drop, R: Wait + Abort>(
    rt: &R,
    seat: Seat<'h, L, H, Global>,
    seen: &AtomicU64,
    answered: &AtomicU64,
) -> Seat<'h, L, H, Global> {
    let mut seat = seat;
    let met = wait_for(seen);
    let held = matches!(
        seat.commit(rt, &[road(rt, 2, 2, 2)], &mut NoPause),
        Err(HallFault::Held)
    );
    answered.store(if met && held { HELD } else { OTHER }, Ordering::SeqCst);
    seat
}

/// Searches elsewhere repeatedly until the list is answered. Returns the seat and the number of
/// searches.
fn search_elsewhere<'h, L: HallName, H: Wait + Drop, R: Wait + Abort>(
    rt: &R,
    seat: Seat<'h, L, H, Global>,
    answered: &AtomicU64,
) -> (Seat<'h, L, H, Global>, u64) {
    let mut seat = seat;
    let mut searches = 0u64;
    for _ in 0..TURNS {
        if answered.load(Ordering::SeqCst) != OPEN {
            break;
        }
        if rows(rt, &mut seat, point(rt, 100, 100), &mut Steps) == Some(0) {
            searches = searches.saturating_add(1);
        }
    }
    (seat, searches)
}

/// Commits with the second seat, and searches with the third concurrently. Returns both seats and
/// the number of searches.
fn hold_beside<
    'h,
    L: HallName + Send + Sync,
    H: Wait + Drop + Send,
    R: Threads + Wait + Abort + Sync,
>(
    rt: &R,
    others: Vec<Seat<'h, L, H, Global>>,
    seen: &AtomicU64,
    answered: &AtomicU64,
) -> (Vec<Seat<'h, L, H, Global>>, u64) {
    let mut others = others;
    let third = last_of(rt, &mut others);
    let second = last_of(rt, &mut others);
    let (second, (third, searches)) = join(
        rt,
        move || commit_held(rt, second, seen, answered),
        move || search_elsewhere(rt, third, answered),
    );
    assert!(rt; others.push(second).is_ok());
    assert!(rt; others.push(third).is_ok());
    (others, searches)
}

/// Removes and returns the last seat.
fn last_of<'h, L: HallName, H: Wait + Drop>(
    rt: &impl Abort,
    seats: &mut Vec<Seat<'h, L, H, Global>>,
) -> Seat<'h, L, H, Global> {
    match seats.pop() {
        Some(seat) => seat,
        None => panic!(rt; "a seat is missing"),
    }
}

/// The search of the first seat waits and holds back the second seat's list until that is answered
/// `Held`. Meanwhile the third seat's searches end one after another.
fn hold<'h, L: HallName + Send + Sync, H: Wait + Drop + Send, R: Threads + Wait + Abort + Sync>(
    rt: &R,
    first: Seat<'h, L, H, Global>,
    others: Vec<Seat<'h, L, H, Global>>,
    seen: &AtomicU64,
    answered: &AtomicU64,
) -> (Seat<'h, L, H, Global>, Vec<Seat<'h, L, H, Global>>) {
    let ((first, found), (others, searches)) = join(
        rt,
        move || search_meeting(rt, first, seen, answered),
        move || hold_beside(rt, others, seen, answered),
    );
    assert_eq!(rt; found, Some(1));
    assert_eq!(rt; answered.load(Ordering::SeqCst), HELD);
    assert!(rt; searches >= u64::from(TRY_LIMIT));
    (first, others)
}

fn held_sixty_four_times_in<
    L: HallName + Send + Sync,
    H: Wait + Drop + Send,
    R: Threads + Wait + Abort + Sync,
>(rt: &R, own: H, heap: Global, unnamed: Unnamed<Global>)
    requires name { unnamed.ledger.name ≡ L.name }
    requires parts { (unnamed.ledger.parts ≡ L.parts) × (L.parts ≡ LEDGER_PARTS) }
    requires list { unnamed.list ≡ L.book }
    requires states { unnamed.states ≡ L.states }
{
    let hall = opened::<L, H>(rt, own, heap, unnamed, 0);
    let mut first = seat(rt, &hall, "north");
    let mut others = Vec::new(heap);
    assert!(rt; others.push(seat(rt, &hall, "south")).is_ok());
    assert!(rt; others.push(seat(rt, &hall, "north")).is_ok());
    assert_eq!(rt;
        applied(rt, &mut first, road(rt, 1, 1, 1), &mut NoPause),
        Some(1)
    );
    let (seen, answered) = (AtomicU64::new(0), AtomicU64::new(OPEN));
    let (first, others) = hold(rt, first, others, &seen, &answered);
    let mut others = others;
    let third = last_of(rt, &mut others);
    let mut second = last_of(rt, &mut others);
    assert_eq!(rt;
        applied(rt, &mut second, road(rt, 2, 2, 2), &mut NoPause),
        Some(2)
    );
    close_three(rt, heap, &hall, first, second, third);
}

/// The hall cannot be closed without the third seat, and can be closed with all three.
fn close_three<'h, L: HallName, H: Wait + Drop, R: Wait + Abort>(
    rt: &R,
    heap: Global,
    hall: &'h Hall<L, H, Global>,
    first: Seat<'h, L, H, Global>,
    second: Seat<'h, L, H, Global>,
    third: Seat<'h, L, H, Global>,
)
    requires { L.parts ≡ LEDGER_PARTS }
{
    let mut seats = Vec::new(heap);
    assert!(rt; seats.push(first).is_ok());
    assert!(rt; seats.push(second).is_ok());
    match hall.close(rt, seats) {
        Ok(_) => panic!(rt; "closed without a seat"),
        Err((fault, back)) => {
            assert_eq!(rt; fault, CloseFault::SeatOut);
            assert_eq!(rt; back.len(), 2);
            let mut seats = back;
            assert!(rt; seats.push(third).is_ok());
            close_all(rt, hall, seats);
        }
    }
}

/// Closes the hall with all three seats.
fn close_all<'h, L: HallName, H: Wait + Drop, R: Wait + Abort>(
    rt: &R,
    hall: &'h Hall<L, H, Global>,
    seats: Vec<Seat<'h, L, H, Global>>,
)
    requires { L.parts ≡ LEDGER_PARTS }
{
    match hall.close(rt, seats) {
        Ok(closed) => assert_eq!(rt; closed.seats, 3),
        Err((fault, _)) => panic!(rt; "not closed: {fault}"),
    }
}

#[test]
fn held_sixty_four_times(rt: HostRuntime) {
    held_sixty_four_times_in::<Brand, _, _>(&rt, rt, rt.alloc(), Unnamed::new());
}
