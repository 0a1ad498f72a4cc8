//! Rolls while another thread works in the hall.
ghost use Rattle.std.specs.Prelude.{◌≡◌};

use crate::halls::{TURNS, applied, close_two, opened, road, roll_on, rows, seat, square};
use hall::{HallName, LEDGER_PARTS, NoPause, Seat, Unnamed};
use std::alloc::Global;
use std::marker::Brand;
use std::process::Abort;
use std::sync::Wait;
use std::sync::atomic::{AtomicU64, Ordering};
use std::thread::{Threads, join, yield_now};

/// How often the steward rolls.
const ROLLS: u32 = 10;

/// How many rounds the editor makes between two rolls, at least.
const BETWEEN: u64 = 10;

/// An upper bound on the editor's rounds, so that the test ends.
const MOST: u64 = 2_000;

/// How many turns the steward waits for the editor, at most; a busy machine needs fewer.
const PATIENCE: u64 = 100 * TURNS;

/// In each round, adds a road and finds all roads added so far, until the steward has rolled for
/// the last time. Returns the seat and the number of rounds.
fn work<'h, L: HallName, H: Wait + Drop, R: Wait + Abort>(
    rt: &R,
    seat: Seat<'h, L, H, Global>,
    rounds: &AtomicU64,
    done: &AtomicU64,
) -> (Seat<'h, L, H, Global>, u64) {
    let mut seat = seat;
    for round in 1..MOST {
        let version = applied(rt, &mut seat, road(rt, round, 1, 1), &mut NoPause);
        assert_eq!(rt; version, Some(round));
        let found = rows(rt, &mut seat, square(rt), &mut NoPause);
        assert_eq!(rt; found, Some(round as usize));
        rounds.store(round, Ordering::SeqCst);
        // Lets the steward get the lock, too.
        yield_now();
        if done.load(Ordering::SeqCst) > 0 {
            return (seat, round);
        }
    }
    panic!(rt; "the steward does not roll");
}

/// Waits until the editor has made `least` rounds.
fn wait_for_rounds(rt: &impl Abort, rounds: &AtomicU64, least: u64) {
    for _ in 0..PATIENCE {
        if rounds.load(Ordering::SeqCst) >= least {
            return;
        }
        yield_now();
    }
    panic!(rt; "the editor does not work");
}

/// Rolls repeatedly, each time after the editor has made some more rounds. Returns the seat and the
/// number after the last rolled record.
fn roll_beside<'h, L: HallName, H: Wait + Drop, R: Wait + Abort>(
    rt: &R,
    chief: Seat<'h, L, H, Global>,
    rounds: &AtomicU64,
    done: &AtomicU64,
) -> (Seat<'h, L, H, Global>, u64) {
    let mut chief = chief;
    let mut first = 1;
    for _ in 0..ROLLS {
        let made = rounds.load(Ordering::SeqCst);
        wait_for_rounds(rt, rounds, made.saturating_add(BETWEEN));
        let next = roll_on(rt, &mut chief, first);
        assert!(rt; next > first);
        first = next;
    }
    done.store(1, Ordering::SeqCst);
    (chief, first)
}

/// Runs both seats concurrently. Returns the steward's with the number after the last rolled
/// record, and the editor's with the number of its rounds.
fn roll_and_work<
    'h,
    L: HallName + Send + Sync,
    H: Wait + Drop + Send,
    R: Threads + Wait + Abort + Sync,
>(
    rt: &R,
    chief: Seat<'h, L, H, Global>,
    north: Seat<'h, L, H, Global>,
    rounds: &AtomicU64,
    done: &AtomicU64,
) -> ((Seat<'h, L, H, Global>, u64), (Seat<'h, L, H, Global>, u64)) {
    let (chief, north) = join(
        rt,
        move || roll_beside(rt, chief, rounds, done),
        move || work(rt, north, rounds, done),
    );
    (chief, north)
}

fn rolls_beside_work_in<
    L: HallName + Send + Sync,
    H: Wait + Drop + Send,
    R: Threads + Wait + Abort + Sync,
>(rt: &R, own: H, heap: Global, unnamed: Unnamed<Global>)
    requires name { unnamed.ledger.name ≡ L.name }
    requires parts { (unnamed.ledger.parts ≡ L.parts) × (L.parts ≡ LEDGER_PARTS) }
    requires list { unnamed.list ≡ L.book }
    requires states { unnamed.states ≡ L.states }
{
    let hall = opened::<L, H>(rt, own, heap, unnamed, 0);
    let chief = seat(rt, &hall, "chief");
    let north = seat(rt, &hall, "north");
    let (rounds, done) = (AtomicU64::new(0), AtomicU64::new(0));
    let (rolled, worked) = roll_and_work(rt, chief, north, &rounds, &done);
    let (mut chief, first) = rolled;
    let (north, last) = worked;
    // A round leaves two records. This roll takes the records since the last roll.
    let records = last.saturating_mul(2);
    let next = roll_on(rt, &mut chief, first);
    assert_eq!(rt; next, records.saturating_add(1));
    close_two(rt, heap, &hall, chief, north, records);
}

#[test]
fn rolls_beside_work(rt: HostRuntime) {
    rolls_beside_work_in::<Brand, _, _>(&rt, rt, rt.alloc(), Unnamed::new());
}
