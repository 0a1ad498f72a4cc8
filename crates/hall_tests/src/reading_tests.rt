//! The records of a hall, read while it is in use.
ghost use Rattle.std.specs.Prelude.{◌≡◌};

use crate::halls::{applied, opened, road, rows, seat, square};
use audit_trail::Record;
use hall::{COPIED_AT_ONCE, Hall, HallName, LEDGER_PARTS, NoPause, Seat, Unnamed};
use std::alloc::Global;
use std::marker::Brand;
use std::process::Abort;
use std::sync::{Arc, Wait};

/// Applies a list, searches, and lets a list be turned away, and looks after each of them how many
/// records there are and where the last change is.
fn count<L: HallName, H: Wait + Drop, R: Wait + Abort>(
    rt: &R,
    hall: &Hall<L, H, Global>,
    north: &mut Seat<'_, L, H, Global>,
) {
    assert_eq!(rt; (hall.record_count(rt), hall.last_change(rt)), (0, 0));
    assert_eq!(rt; rows(rt, north, square(rt), &mut NoPause), Some(0));
    assert_eq!(rt; (hall.record_count(rt), hall.last_change(rt)), (1, 0));
    assert_eq!(rt;
        applied(rt, north, road(rt, 1, 1, 1), &mut NoPause),
        Some(1)
    );
    assert_eq!(rt; (hall.record_count(rt), hall.last_change(rt)), (2, 2));
    assert_eq!(rt; applied(rt, north, road(rt, 1, 2, 2), &mut NoPause), None);
    assert_eq!(rt; rows(rt, north, square(rt), &mut NoPause), Some(1));
    assert_eq!(rt; (hall.record_count(rt), hall.last_change(rt)), (4, 2));
}

/// How many records are appended from a place on, to a list that has room for so many.
fn copied<L: HallName, H: Wait + Drop, R: Wait + Abort>(
    rt: &R,
    heap: Global,
    hall: &Hall<L, H, Global>,
    place: u64,
    room: usize,
) -> Vec<Arc<Record<Global>>> {
    let made = Vec::with_capacity(heap, room);
    assert!(rt; made.is_ok());
    let mut records = made.unwrap();
    assert!(rt; hall.records_from(rt, place, &mut records).is_ok());
    records
}

/// Copies records from several places on, across a roll.
fn copy<L: HallName, H: Wait + Drop, R: Wait + Abort>(
    rt: &R,
    heap: Global,
    hall: &Hall<L, H, Global>,
    north: &Seat<'_, L, H, Global>,
) {
    assert_eq!(rt; copied(rt, heap, hall, 0, 0).len(), 0);
    assert_eq!(rt; copied(rt, heap, hall, 0, 3).len(), 3);
    assert_eq!(rt; copied(rt, heap, hall, 1, 10).len(), 3);
    assert_eq!(rt; copied(rt, heap, hall, 4, 10).len(), 0);
    assert_eq!(rt; copied(rt, heap, hall, u64::MAX, 10).len(), 0);
    let all = copied(rt, heap, hall, 0, 10);
    assert_eq!(rt; all.len(), 4);
    for (record, receipt) in all.iter().zip(north.receipts().iter()) {
        assert!(rt; **record == **receipt);
    }
}

/// At most `COPIED_AT_ONCE` records are copied by one call.
fn copy_many<L: HallName, H: Wait + Drop, R: Wait + Abort>(
    rt: &R,
    heap: Global,
    hall: &Hall<L, H, Global>,
    north: &mut Seat<'_, L, H, Global>,
) {
    for _ in 0..300 {
        assert_eq!(rt; rows(rt, north, square(rt), &mut NoPause), Some(1));
    }
    assert_eq!(rt; (hall.record_count(rt), hall.last_change(rt)), (304, 2));
    let most = COPIED_AT_ONCE as usize;
    assert_eq!(rt; copied(rt, heap, hall, 0, 1_000).len(), most);
    assert_eq!(rt; copied(rt, heap, hall, 256, 1_000).len(), 48);
}

fn records_in<L: HallName, H: Wait + Drop, R: Wait + Abort>(
    rt: &R,
    own: H,
    heap: Global,
    unnamed: Unnamed<Global>,
)
    requires name { unnamed.ledger.name ≡ L.name }
    requires parts { (unnamed.ledger.parts ≡ L.parts) × (L.parts ≡ LEDGER_PARTS) }
    requires list { unnamed.list ≡ L.book }
    requires states { unnamed.states ≡ L.states }
{
    let hall = opened::<L, H>(rt, own, heap, unnamed, 0);
    let mut north = seat(rt, &hall, "north");
    let mut chief = seat(rt, &hall, "chief");
    count(rt, &hall, &mut north);
    copy(rt, heap, &hall, &north);
    assert!(rt; chief.roll(rt).is_ok());
    copy(rt, heap, &hall, &north);
    assert_eq!(rt; (hall.record_count(rt), hall.last_change(rt)), (4, 2));
    copy_many(rt, heap, &hall, &mut north);
}

#[test]
fn records_are_read(rt: HostRuntime) {
    records_in::<Brand, _, _>(&rt, rt, rt.alloc(), Unnamed::new());
}
