//! As many searches and transactions open as may be.
ghost use Rattle.std.specs.Prelude.{◌≡◌};

use crate::halls::{applied, opened, road, rows, seat, square, wait_for};
use crate::pauses::{Steps, wait_for_at_least};
use hall::{Hall, HallName, LEDGER_PARTS, NoPause, Pause, Seat, Unnamed};
use std::alloc::Global;
use std::marker::Brand;
use std::process::Abort;
use std::sync::Wait;
use std::sync::atomic::{AtomicU64, Ordering};
use std::thread::{Threads, join, yield_now};
use world::{SEARCH_LIMIT, TRANSACTION_LIMIT};

/// How many turns the others have to come and wait, while as many calls as may be are open.
const PATIENCE: u32 = 50_000;

/// What a nest and the thread beside it tell one another.
#[derive(Drop)]
struct Crowd {
    /// Set when as many calls as may be are open.
    full: AtomicU64,
    /// Set when the call that found none more to be open is answered.
    answered: AtomicU64,
}

/// A pause of calls one in another, by steps: at its first call within a call it makes the next
/// call, with another seat. The innermost one waits while all are open.
#[derive(Drop)]
struct Nest<'a, 'h, L: HallName, H: Wait + Drop, R: Wait + Abort> {
    rt: &'a R,
    /// The seats of the calls that are still to be made.
    waiting: Vec<Seat<'h, L, H, Global>>,
    /// Whether the calls are searches, and not lists.
    searches: bool,
    crowd: &'a Crowd,
    /// How many calls were answered.
    answered: u64,
}

impl<'a, 'h, L: HallName, H: Wait + Drop, R: Wait + Abort> Nest<'a, 'h, L, H, R> {
    /// Makes a call with the next seat, and returns whether there was one.
    fn call_next(&mut self) -> bool {
        let rt = self.rt;
        let Some(mut seat) = self.waiting.pop() else {
            return false;
        };
        let number = seat.number();
        let is_answered = if self.searches {
            rows(rt, &mut seat, square(rt), self).is_some()
        } else {
            let place = 10 * number as i32;
            applied(
                rt,
                &mut seat,
                road(rt, u64::from(number), place, place),
                self,
            )
            .is_some()
        };
        assert!(rt; is_answered, "{number}");
        self.answered += 1;
        true
    }
}

impl<'a, 'h, L: HallName, H: Wait + Drop, R: Wait + Abort> Pause for Nest<'a, 'h, L, H, R> {
    fn between(&mut self) {
        if self.crowd.full.load(Ordering::SeqCst) > 0 || self.call_next() {
            return;
        }
        self.crowd.full.store(1, Ordering::SeqCst);
        for _ in 0..PATIENCE {
            yield_now();
        }
        // As many as may be are open, so no other call was answered.
        assert_eq!(self.rt; self.crowd.answered.load(Ordering::SeqCst), 0);
    }

    fn wants_steps(&self) -> bool {
        true
    }
}

/// Makes the calls of a nest. The call of the other thread is then answered, too.
fn make_calls<'h, L: HallName, H: Wait + Drop, R: Wait + Abort>(
    rt: &R,
    seats: Vec<Seat<'h, L, H, Global>>,
    searches: bool,
    crowd: &Crowd,
) -> u64 {
    let mut nest = Nest {
        rt,
        waiting: seats,
        searches,
        crowd,
        answered: 0,
    };
    assert!(rt; nest.call_next());
    assert!(rt; wait_for(&crowd.answered), "a call waits on");
    nest.answered
}

/// Makes one more call while as many as may be are open.
fn one_more<'h, L: HallName, H: Wait + Drop, R: Wait + Abort>(
    rt: &R,
    seat: Seat<'h, L, H, Global>,
    searches: bool,
    crowd: &Crowd,
) -> bool {
    let mut seat = seat;
    assert!(rt; wait_for(&crowd.full), "there is room");
    let is_answered = if searches {
        rows(rt, &mut seat, square(rt), &mut Steps).is_some()
    } else {
        applied(rt, &mut seat, road(rt, 1_000, 5_000, 0), &mut NoPause).is_some()
    };
    crowd.answered.store(1, Ordering::SeqCst);
    is_answered
}

fn crowded_in<L, H, R>(
    rt: &R,
    own: H,
    heap: Global,
    unnamed: Unnamed<Global>,
    searches: bool,
    most: usize,
)
where
    L: HallName + Send + Sync,
    H: Wait + Drop + Send,
    R: Threads + Wait + Abort + Sync,
    requires name { unnamed.ledger.name ≡ L.name }
    requires parts { (unnamed.ledger.parts ≡ L.parts) × (L.parts ≡ LEDGER_PARTS) }
    requires list { unnamed.list ≡ L.book }
    requires states { unnamed.states ≡ L.states }
{
    let hall = opened::<L, H>(rt, own, heap, unnamed, 0);
    let mut seats = Vec::new(heap);
    for _ in 0..most {
        assert!(rt; seats.push(seat(rt, &hall, "north")).is_ok());
    }
    let other = seat(rt, &hall, "south");
    let crowd = Crowd {
        full: AtomicU64::new(0),
        answered: AtomicU64::new(0),
    };
    let crowd = &crowd;
    let (answered, other_is) = join(
        rt,
        move || make_calls(rt, seats, searches, crowd),
        move || one_more(rt, other, searches, crowd),
    );
    assert_eq!(rt; answered, most as u64);
    assert!(rt; other_is);
}

/// A search that finds sixteen open waits until one of them ends.
#[test]
fn the_seventeenth_search_waits(rt: HostRuntime) {
    crowded_in::<Brand, _, _>(&rt, rt, rt.alloc(), Unnamed::new(), true, SEARCH_LIMIT);
}

/// A list that finds 64 transactions open waits until one of them ends.
#[test]
fn the_65th_list_waits(rt: HostRuntime) {
    crowded_in::<Brand, _, _>(
        &rt,
        rt,
        rt.alloc(),
        Unnamed::new(),
        false,
        TRANSACTION_LIMIT,
    );
}
