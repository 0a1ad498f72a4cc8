//! What a hall refuses, how it is tended, and how it closes.
ghost use Rattle.std.specs.Prelude.{◌≡◌};

use crate::halls::{ROADS, applied, document, name, opened, road, rows, seat, square};
use features::Change;
use hall::{Closed, Hall, HallFault, HallName, LEDGER_PARTS, NoPause, Seat, Unnamed};
use std::alloc::Global;
use std::marker::Brand;
use std::process::Abort;
use std::sync::Wait;
use world::Fault;

/// A refused call leaves no receipt.
fn refuse_one<L: HallName, H: Wait + Drop, R: Wait + Abort>(
    rt: &R,
    heap: Global,
    hall: &Hall<L, H, Global>,
    north: &mut Seat<'_, L, H, Global>,
) {
    assert!(rt; matches!(hall.seat(rt, name(rt, "nobody")), Err(HallFault::NoSubject)));
    let refused = north.govern(rt, document(rt, heap, ROADS));
    assert!(rt; matches!(refused, Err(HallFault::Core(Fault::NotSteward))));
    assert!(rt; matches!(north.roll(rt), Err(HallFault::Core(Fault::NotSteward))));
    let twice = [road(rt, 1, 1, 1), road(rt, 1, 2, 2)];
    let refused = north.commit(rt, &twice, &mut NoPause);
    assert!(rt; matches!(refused, Err(HallFault::Core(Fault::NamedTwice))));
    assert_eq!(rt; north.receipts().len(), 0);
}

/// Adds and deletes features, and tends the index in between.
fn tend_all<L: HallName, H: Wait + Drop, R: Wait + Abort>(
    rt: &R,
    hall: &Hall<L, H, Global>,
    north: &mut Seat<'_, L, H, Global>,
) {
    for id in 1..41 {
        assert!(rt; applied(rt, north, road(rt, id, 1, 1), &mut NoPause).is_some());
    }
    assert_eq!(rt; rows(rt, north, square(rt), &mut NoPause), Some(40));
    for id in 1..41 {
        let gone = Change::Delete { id, version: id };
        assert!(rt; applied(rt, north, gone, &mut NoPause).is_some());
        assert!(rt; hall.tend_round(rt).is_ok());
    }
    assert_eq!(rt; rows(rt, north, square(rt), &mut NoPause), Some(0));
    assert_eq!(rt; north.receipts().len(), 82);
}

/// Closes a hall with its one seat. It then gives no seats and cannot be tended.
fn close_one<'h, L: HallName, H: Wait + Drop, R: Wait + Abort>(
    rt: &R,
    heap: Global,
    hall: &'h Hall<L, H, Global>,
    seat: Seat<'h, L, H, Global>,
)
    requires { L.parts ≡ LEDGER_PARTS }
{
    let mut seats = Vec::new(heap);
    assert!(rt; seats.push(seat).is_ok());
    match hall.close(rt, seats) {
        Ok(closed) => assert_eq!(rt;
            closed,
            Closed {
                records: 82,
                seats: 1
            }
        ),
        Err((fault, _)) => panic!(rt; "not closed: {fault}"),
    }
    assert!(rt; matches!(hall.seat(rt, name(rt, "north")), Err(HallFault::Closed)));
    assert!(rt; hall.tend_round(rt) == Err(HallFault::Closed));
}

fn opens_and_closes_in<L: HallName, H: Wait + Drop, R: Wait + Abort>(
    rt: &R,
    own: H,
    heap: Global,
    unnamed: Unnamed<Global>,
)
    requires name { unnamed.ledger.name ≡ L.name }
    requires parts { (unnamed.ledger.parts ≡ L.parts) × (L.parts ≡ LEDGER_PARTS) }
    requires list { unnamed.list ≡ L.book }
    requires states { unnamed.states ≡ L.states }
{
    let hall = opened::<L, H>(rt, own, heap, unnamed, 0);
    let mut north = seat(rt, &hall, "north");
    assert_eq!(rt; north.number(), 1);
    refuse_one(rt, heap, &hall, &mut north);
    tend_all(rt, &hall, &mut north);
    close_one(rt, heap, &hall, north);
}

#[test]
fn opens_and_closes(rt: HostRuntime) {
    opens_and_closes_in::<Brand, _, _>(&rt, rt, rt.alloc(), Unnamed::new());
}

/// A hall that gave no seat can be closed, and closed again.
fn empty_in<L: HallName, H: Wait + Drop, R: Wait + Abort>(
    rt: &R,
    own: H,
    heap: Global,
    unnamed: Unnamed<Global>,
)
    requires name { unnamed.ledger.name ≡ L.name }
    requires parts { (unnamed.ledger.parts ≡ L.parts) × (L.parts ≡ LEDGER_PARTS) }
    requires list { unnamed.list ≡ L.book }
    requires states { unnamed.states ≡ L.states }
{
    let hall = opened::<L, H>(rt, own, heap, unnamed, 0);
    for _ in 0..2 {
        match hall.close(rt, Vec::new(heap)) {
            Ok(closed) => assert_eq!(rt;
                closed,
                Closed {
                    records: 0,
                    seats: 0
                }
            ),
            Err((fault, _)) => panic!(rt; "not closed: {fault}"),
        }
    }
}

#[test]
fn closes_empty(rt: HostRuntime) {
    empty_in::<Brand, _, _>(&rt, rt, rt.alloc(), Unnamed::new());
}
