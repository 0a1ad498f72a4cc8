//! A hall that begins with the state that another one has left.

ghost use Rattle.std.specs.Prelude.{◌≡◌};

use crate::halls::{
    ROADS, applied, document, name, opened, point, road, rows, seat, square, subjects,
};
use features::Change;
use hall::{Hall, HallName, LEDGER_PARTS, NoPause, OpenFault, Unnamed, VIEW_LIMIT};
use std::alloc::Global;
use std::marker::Brand;
use std::process::Abort;
use std::sync::Wait;
use world::{Base, Limits, Outcome};

/// A hall in which two roads are added, one of them is deleted, and a document that permits roads
/// alone is put in force: the state that it leaves.
fn first_life<L: HallName, H: Wait + Drop, R: Wait + Abort>(
    rt: &R,
    own: H,
    heap: Global,
    unnamed: Unnamed<Global>,
) -> Base<Global>
    requires name { unnamed.ledger.name ≡ L.name }
    requires parts { (unnamed.ledger.parts ≡ L.parts) × (L.parts ≡ LEDGER_PARTS) }
    requires list { unnamed.list ≡ L.book }
    requires states { unnamed.states ≡ L.states }
{
    let hall: Hall<L, H, Global> = opened(rt, own, heap, unnamed, 0);
    let mut north = seat(rt, &hall, "north");
    let mut chief = seat(rt, &hall, "chief");
    for id in 1..3 {
        assert!(rt; applied(rt, &mut north, road(rt, id, 1, 1), &mut NoPause).is_some());
    }
    let gone = Change::Delete { id: 1, version: 1 };
    assert!(rt; applied(rt, &mut north, gone, &mut NoPause).is_some());
    assert!(rt; chief.govern(rt, document(rt, heap, ROADS)).is_ok());
    drop(north);
    drop(chief);
    match hall.into_state() {
        Ok(base) => base,
        Err(fault) => panic!(rt; "no state: {fault}"),
    }
}

/// A hall that begins with that state: its feature, its version, and its policy under its edition.
fn second_life<L: HallName, H: Wait + Drop, R: Wait + Abort>(
    rt: &R,
    own: H,
    heap: Global,
    unnamed: Unnamed<Global>,
    base: Base<Global>,
)
    requires name { unnamed.ledger.name ≡ L.name }
    requires parts { (unnamed.ledger.parts ≡ L.parts) × (L.parts ≡ LEDGER_PARTS) }
    requires list { unnamed.list ≡ L.book }
    requires states { unnamed.states ≡ L.states }
{
    let limits = Limits::GREATEST;
    let subjects = subjects(rt);
    let hall: Hall<L, H, Global> = match Hall::open_from(
        own, heap, heap, unnamed, subjects, base, 4, 1, limits,
    ) {
        Ok(hall) => hall,
        Err(_) => panic!(rt; "no hall"),
    };
    let mut north = seat(rt, &hall, "north");
    assert_eq!(rt; north.number(), 1);
    assert_eq!(rt; rows(rt, &mut north, square(rt), &mut NoPause), Some(1));
    assert_eq!(rt;
        applied(rt, &mut north, road(rt, 3, 2, 2), &mut NoPause),
        Some(4)
    );
    let mast = Change::Add {
        id: 4,
        class: name(rt, "mast"),
        shape: point(rt, 3, 3),
    };
    assert!(rt;
        matches!(
            north.commit(rt, &[mast], &mut NoPause),
            Ok(Outcome::Refused(_, Some(_)))
        )
    );
    let view = hall.view(rt).expect(rt, "a view");
    assert_eq!(rt; view.edition(), 2);
    let mut chief = seat(rt, &hall, "chief");
    let edition = chief
        .govern(rt, document(rt, heap, ROADS))
        .expect(rt, "an edition");
    assert_eq!(rt; edition.number(), 3);
    let piece = chief.roll(rt).expect(rt, "a piece");
    assert_eq!(rt; piece.trail().first(), 5);
    assert_eq!(rt; piece.trail().len(), 4);
    let mut seats = Vec::new(heap);
    for seat in [north, chief] {
        assert!(rt; seats.push(seat).is_ok());
    }
    match hall.close(rt, seats) {
        Ok(closed) => assert_eq!(rt; closed.records, 4),
        Err((fault, _)) => panic!(rt; "not closed: {fault}"),
    }
}

#[test]
fn a_hall_goes_on_from_the_state_of_another(rt: HostRuntime) {
    let heap = rt.alloc();
    let base = first_life::<Brand, _, _>(&rt, rt, heap, Unnamed::new());
    assert_eq!(rt; base.features.len(), 1);
    assert_eq!(rt; base.version, 3);
    assert_eq!(rt; base.decider.edition(), 2);
    second_life::<Brand, _, _>(&rt, rt, heap, Unnamed::new(), base);
}

/// More views than there may be.
fn refused_in<L: HallName, H: Wait + Drop, R: Wait + Abort>(
    rt: &R,
    own: H,
    heap: Global,
    unnamed: Unnamed<Global>,
    base: Base<Global>,
)
    requires name { unnamed.ledger.name ≡ L.name }
    requires parts { (unnamed.ledger.parts ≡ L.parts) × (L.parts ≡ LEDGER_PARTS) }
    requires list { unnamed.list ≡ L.book }
    requires states { unnamed.states ≡ L.states }
{
    let limits = Limits::GREATEST;
    let subjects = subjects(rt);
    let views = VIEW_LIMIT + 1;
    let opened: Result<Hall<L, H, Global>, OpenFault> = Hall::open_from(
        own, heap, heap, unnamed, subjects, base, 0, views, limits,
    );
    assert!(rt; matches!(opened, Err(OpenFault::NoPlace)));
}

#[test]
fn too_many_views_from_a_state(rt: HostRuntime) {
    let heap = rt.alloc();
    let base = first_life::<Brand, _, _>(&rt, rt, heap, Unnamed::new());
    refused_in::<Brand, _, _>(&rt, rt, heap, Unnamed::new(), base);
}
