//! A server tends the index of its hall by itself.
ghost use Rattle.std.specs.Prelude.{◌≡◌};

use crate::servers::{open_document, three_subjects};
use crossbeam_channel::bounded;
use features::{Change, Name};
use hall::{Hall, HallName, LEDGER_PARTS, NoPause, Seat, Unnamed};
use hall_workers::tend;
use log::Log;
use plane::{Point, Shape};
use std::alloc::Global;
use std::marker::Brand;
use std::process::Abort;
use std::sync::Wait;
use std::thread;
use std::thread::Threads;
use std::time::{Clock, Duration};
use world::Outcome;

/// How many roads are added and deleted: more than a leaf of the index holds.
const ROADS: u64 = 40;

/// How long the hall is tended, in milliseconds. A pause has 20, so one round would come much sooner;
/// the machine may be busy.
const TENDED: u64 = 1_000;

/// Commits a list of one change, which has to be applied.
fn commit<L: HallName, H: Wait + Drop, R: Wait + Abort>(
    rt: &R,
    north: &mut Seat<'_, L, H, Global>,
    change: Change,
) {
    let outcome = north.commit(rt, &[change], &mut NoPause);
    assert!(rt; matches!(outcome, Ok(Outcome::Applied(_))));
}

/// Adds roads, each at a place of its own, and deletes them again.
fn add_and_delete<L: HallName, H: Wait + Drop, R: Wait + Abort>(
    rt: &R,
    north: &mut Seat<'_, L, H, Global>,
) {
    for id in 1..=ROADS {
        let place = Point {
            x: id as i32,
            y: id as i32,
        };
        let change = Change::Add {
            id,
            class: Name::new(b"road").expect(rt, "a name"),
            shape: Shape::point(place).expect(rt, "a point"),
        };
        commit(rt, north, change);
    }
    for id in 1..=ROADS {
        commit(rt, north, Change::Delete { id, version: id });
    }
}

fn tended_in<L, H, R>(rt: &R, own: H, heap: Global, unnamed: Unnamed<Global>)
where
    L: HallName + Send + Sync,
    H: Wait + Drop + Send,
    R: Threads + Wait + Clock + Log + Abort + Sync,
    requires name { unnamed.ledger.name ≡ L.name }
    requires parts { (unnamed.ledger.parts ≡ L.parts) × (L.parts ≡ LEDGER_PARTS) }
    requires list { unnamed.list ≡ L.book }
    requires states { unnamed.states ≡ L.states }
{
    let document = open_document(rt, heap);
    let opened = Hall::<L, H, Global>::open(
        own,
        heap,
        heap,
        unnamed,
        three_subjects(rt),
        document,
        0,
    );
    let Ok(hall) = opened else {
        panic!(rt; "no hall");
    };
    let north = Name::new(b"north").expect(rt, "a name");
    let Ok(mut north) = hall.seat(rt, north) else {
        panic!(rt; "no seat");
    };
    add_and_delete(rt, &mut north);
    let Ok((stop, stopped)) = bounded::<(), _>(heap, 1) else {
        panic!(rt; "no channel");
    };
    let hall = &hall;
    let ((), ()) = thread::join(
        rt,
        move || tend(rt, hall, stopped, None, None),
        move || {
            thread::sleep(rt, Duration::from_millis(TENDED));
            drop(stop);
        },
    );
    assert!(rt; hall.tend_round(rt) == Ok(0), "something is left to tend");
}

/// What a hall's lists have left to do in its index is done by the server's tending, soon and
/// without a call; it ends when it is told.
#[test]
fn a_hall_is_tended_beside_its_sessions(rt: HostRuntime) {
    tended_in::<Brand, _, _>(&rt, rt, rt.alloc(), Unnamed::new());
}
