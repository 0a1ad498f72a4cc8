//! Tending goes where something has changed, and leaves nothing behind.
ghost use Rattle.std.specs.Prelude.{◌≡◌};

use crate::halls::{OPEN, document, name, opened, point, seat, subjects};
use chronicle::Chronicle;
use features::Change;
use hall::{Hall, HallName, NoPause, Seat, Unnamed};
use plane::{Point, Shape};
use std::alloc::Global;
use std::marker::Brand;
use std::process::Abort;
use std::sync::Wait;
use world::{Advance, Outcome, Tending, Visit};

/// More than the steps of a search or of the walks of a list, and more than the slots that are due.
const MOST: u32 = 100_000;

/// What tending has done.
#[derive(Clone, Copy, Debug)]
struct Done {
    cleaned: u32,
    retired: u32,
    freed: u32,
}

/// A chronicle in which everything is permitted, with a seat for north.
fn begun(rt: &impl Abort, heap: Global) -> Chronicle<Global> {
    let opened = Chronicle::open(heap, heap, subjects(rt), document(rt, heap, OPEN));
    assert!(rt; opened.is_ok());
    let mut chronicle = opened.ok().unwrap();
    assert!(rt; chronicle.seat(name(rt, "north")) == Ok(1));
    chronicle
}

/// A place that looks like chance.
fn place(rt: &impl Abort, number: u64) -> Shape {
    let mixed = number.wrapping_mul(0x9e37_79b9_7f4a_7c15) >> 20;
    let x = i32::try_from(mixed % 10_000).unwrap_or(0);
    let y = i32::try_from(mixed / 10_000 % 10_000).unwrap_or(0);
    point(rt, x, y)
}

/// The square of all places.
fn everywhere(rt: &impl Abort) -> Shape {
    let ring = [
        Point { x: 0, y: 0 },
        Point { x: 9_999, y: 0 },
        Point { x: 9_999, y: 9_999 },
        Point { x: 0, y: 9_999 },
        Point { x: 0, y: 0 },
    ];
    let shape = Shape::polygon(&ring);
    assert!(rt; shape.is_ok());
    shape.unwrap()
}

fn addition(rt: &impl Abort, id: u64) -> Change {
    Change::Add {
        id,
        class: name(rt, "road"),
        shape: place(rt, id),
    }
}

/// Opens a transaction that stages and places these changes.
fn placed(rt: &impl Abort, chronicle: &mut Chronicle<Global>, changes: &[Change]) -> u64 {
    let begun = chronicle.begin(1);
    assert!(rt; begun.is_ok());
    let number = begun.unwrap();
    for change in changes {
        assert!(rt; chronicle.stage(1, number, *change) == Ok(()));
    }
    for _ in 0..MOST {
        match chronicle.advance(1, number) {
            Ok(Advance::AllPlaced) => return number,
            Ok(Advance::Walked(_)) => {}
            Err(fault) => panic!(rt; "not placed: {fault}"),
        }
    }
    panic!(rt; "a walk has no end")
}

/// Commits a list, and returns its version; 0 if it is rejected.
fn version(rt: &impl Abort, chronicle: &mut Chronicle<Global>, changes: &[Change]) -> u64 {
    let number = placed(rt, chronicle, changes);
    match chronicle.commit(1, number, changes) {
        Ok(Outcome::Applied(version)) => version,
        Ok(Outcome::Refused(..)) => 0,
        Err(fault) => panic!(rt; "not committed: {fault}"),
    }
}

/// Adds the features 1 to `last`, each by a list of its own, so that its version is its id.
fn fill(rt: &impl Abort, chronicle: &mut Chronicle<Global>, last: u64) {
    for id in 1..=last {
        let change = addition(rt, id);
        assert_eq!(rt; version(rt, chronicle, &[change]), id);
    }
}

/// Deletes these features, whose versions are their ids.
fn delete(rt: &impl Abort, chronicle: &mut Chronicle<Global>, first: u64, last: u64) {
    for id in first..=last {
        assert!(rt; version(rt, chronicle, &[Change::Delete { id, version: id }]) > 0);
    }
}

/// Tends what is due until nothing is.
fn tend_due(rt: &impl Abort, chronicle: &mut Chronicle<Global>) -> Done {
    let mut done = Done {
        cleaned: 0,
        retired: 0,
        freed: 0,
    };
    for _ in 0..MOST {
        let Some(slot) = chronicle.next_due() else {
            return done;
        };
        match chronicle.tend(slot) {
            Ok(Tending::Cleaned) => done.cleaned = done.cleaned.saturating_add(1),
            Ok(Tending::Retired) => done.retired = done.retired.saturating_add(1),
            Ok(Tending::Freed) => done.freed = done.freed.saturating_add(1),
            Ok(Tending::Idle) | Ok(Tending::Installed) => {}
            Err(fault) => panic!(rt; "not tended: {fault}"),
        }
    }
    panic!(rt; "there is always something due")
}

/// Tends each slot once, from 0 to the last one: there is nothing to do at any of them.
fn nothing_left(rt: &impl Abort, chronicle: &mut Chronicle<Global>) {
    for slot in 0..chronicle.slots() {
        assert!(rt; chronicle.tend(slot) == Ok(Tending::Idle), "slot {slot}");
    }
    assert!(rt; chronicle.next_due().is_none());
}

#[test]
fn the_first_slot_is_due(rt: HostRuntime) {
    let mut chronicle = begun(&rt, rt.alloc());
    fill(&rt, &mut chronicle, 3);
    assert_eq!(&rt; chronicle.slots(), 1);
    assert!(&rt; chronicle.next_due().is_none());
    delete(&rt, &mut chronicle, 2, 2);
    assert_eq!(&rt; chronicle.next_due(), Some(0));
    assert!(&rt; chronicle.tend(0) == Ok(Tending::Cleaned));
    assert_eq!(&rt; chronicle.next_due(), Some(0));
    nothing_left(&rt, &mut chronicle);
}

#[test]
fn deleted_pairs_go(rt: HostRuntime) {
    let mut chronicle = begun(&rt, rt.alloc());
    fill(&rt, &mut chronicle, 600);
    tend_due(&rt, &mut chronicle);
    nothing_left(&rt, &mut chronicle);
    for last in 1..8 {
        let first = (last - 1) * 80 + 1;
        delete(&rt, &mut chronicle, first, last * 80);
        assert!(&rt; tend_due(&rt, &mut chronicle).cleaned > 0);
        nothing_left(&rt, &mut chronicle);
    }
    assert!(&rt; !chronicle.begin_round());
}

#[test]
fn reshapes_do_not_grow_the_index(rt: HostRuntime) {
    let mut chronicle = begun(&rt, rt.alloc());
    fill(&rt, &mut chronicle, 50);
    let mut before = 50;
    for turn in 0..100 {
        let mut last = before;
        for id in 1..51 {
            let known = if turn == 0 { id } else { before - 50 + id };
            let shape = place(&rt, before * 50 + id);
            last = version(
                &rt,
                &mut chronicle,
                &[Change::Reshape {
                    id,
                    version: known,
                    shape,
                }],
            );
            assert!(&rt; last > 0);
        }
        before = last;
        tend_due(&rt, &mut chronicle);
    }
    nothing_left(&rt, &mut chronicle);
    assert!(&rt; chronicle.slots() < 60, "{} slots", chronicle.slots());
}

#[test]
fn what_was_placed_in_vain_goes(rt: HostRuntime) {
    let mut chronicle = begun(&rt, rt.alloc());
    fill(&rt, &mut chronicle, 200);
    tend_due(&rt, &mut chronicle);
    let number = placed(
        &rt,
        &mut chronicle,
        &[addition(&rt, 301), addition(&rt, 302)],
    );
    assert_eq!(&rt; tend_due(&rt, &mut chronicle).cleaned, 0);
    assert!(&rt; chronicle.abort(1, number) == Ok(()));
    assert!(&rt; tend_due(&rt, &mut chronicle).cleaned > 0);
    nothing_left(&rt, &mut chronicle);
    // A list that is rejected, since the feature 7 is there.
    assert_eq!(&rt;
        version(&rt, &mut chronicle, &[addition(&rt, 303), addition(&rt, 7)]),
        0
    );
    assert!(&rt; tend_due(&rt, &mut chronicle).cleaned > 0);
    nothing_left(&rt, &mut chronicle);
}

#[test]
fn retired_nodes_wait_for_searches(rt: HostRuntime) {
    let mut chronicle = begun(&rt, rt.alloc());
    fill(&rt, &mut chronicle, 300);
    tend_due(&rt, &mut chronicle);
    let search = chronicle.open_search(1, everywhere(&rt));
    assert!(&rt; search.is_ok());
    let search = search.unwrap();
    assert!(&rt; chronicle.visit(1, search) == Ok(Visit::More));
    delete(&rt, &mut chronicle, 1, 299);
    let done = tend_due(&rt, &mut chronicle);
    assert!(&rt; done.retired > 0 && done.freed == 0);
    assert!(&rt; chronicle.drop_search(1, search) == Ok(()));
    assert_eq!(&rt; tend_due(&rt, &mut chronicle).freed, done.retired);
    nothing_left(&rt, &mut chronicle);
}

#[test]
fn a_round_comes_where_too_much_is_due(rt: HostRuntime) {
    let mut chronicle = begun(&rt, rt.alloc());
    fill(&rt, &mut chronicle, 5_000);
    tend_due(&rt, &mut chronicle);
    assert!(&rt; !chronicle.begin_round());
    chronicle.want_round();
    assert!(&rt; chronicle.begin_round());
    chronicle.want_round();
    assert!(&rt; !chronicle.begin_round());
    delete(&rt, &mut chronicle, 1, 5_000);
    assert!(&rt; chronicle.begin_round());
    for slot in 0..chronicle.slots() {
        assert!(&rt; chronicle.tend(slot).is_ok());
        tend_due(&rt, &mut chronicle);
    }
    tend_due(&rt, &mut chronicle);
    nothing_left(&rt, &mut chronicle);
}

/// Commits a list of a seat, which has to be applied.
fn commit<L: HallName, H: Wait + Drop, R: Wait + Abort>(
    rt: &R,
    north: &mut Seat<'_, L, H, Global>,
    change: Change,
) {
    let outcome = north.commit(rt, &[change], &mut NoPause);
    assert!(rt; matches!(outcome, Ok(Outcome::Applied(_))));
}

/// Tends in rounds until one has nothing to do.
fn rounds<L: HallName, H: Wait + Drop, R: Wait + Abort>(rt: &R, hall: &Hall<L, H, Global>) {
    for _ in 0..MOST {
        if hall.tend_round(rt) == Ok(0) {
            return;
        }
    }
    panic!(rt; "there is always something due")
}

/// A round over all slots finds this many of them, and nothing to do.
fn swept<L: HallName, H: Wait + Drop, R: Wait + Abort>(
    rt: &R,
    hall: &Hall<L, H, Global>,
    slots: u32,
) {
    hall.want_round(rt);
    assert!(rt; hall.tend_round(rt) == Ok(slots));
    assert!(rt; hall.tend_round(rt) == Ok(0));
    // Nothing has changed since: no round is made.
    hall.want_round(rt);
    assert!(rt; hall.tend_round(rt) == Ok(0));
}

fn idle_rounds_in<L: HallName, H: Wait + Drop, R: Wait + Abort>(
    rt: &R,
    own: H,
    heap: Global,
    unnamed: Unnamed<Global>,
)
    requires name { unnamed.ledger.name ≡ L.name }
    requires parts { (unnamed.ledger.parts ≡ L.parts) × (L.parts ≡ 1025) }
    requires list { unnamed.list ≡ L.book }
    requires states { unnamed.states ≡ L.states }
{
    let hall = opened::<L, H>(rt, own, heap, unnamed, 0);
    assert!(rt; hall.tend_round(rt) == Ok(0));
    let mut north = seat(rt, &hall, "north");
    for id in 1..401 {
        commit(rt, &mut north, addition(rt, id));
    }
    rounds(rt, &hall);
    // The same lists make the same index.
    let mut alike = begun(rt, heap);
    fill(rt, &mut alike, 400);
    tend_due(rt, &mut alike);
    swept(rt, &hall, alike.slots());
    for id in 1..401 {
        commit(rt, &mut north, Change::Delete { id, version: id });
    }
    assert!(rt; hall.tend_round(rt) != Ok(0));
    rounds(rt, &hall);
    swept(rt, &hall, alike.slots());
    // What was tended is used again, as where the same slots are tended without a hall.
    delete(rt, &mut alike, 1, 400);
    tend_due(rt, &mut alike);
    for id in 1_001..1_601 {
        commit(rt, &mut north, addition(rt, id));
        assert!(rt; version(rt, &mut alike, &[addition(rt, id)]) > 0);
    }
    rounds(rt, &hall);
    swept(rt, &hall, alike.slots());
}

/// A round with nothing to do tends no slot, and one with something to do leaves nothing: the slots
/// of what was deleted are used again.
#[test]
fn idle_rounds_tend_no_slot(rt: HostRuntime) {
    idle_rounds_in::<Brand, _, _>(&rt, rt, rt.alloc(), Unnamed::new());
}

/// How often eight features are added and deleted: three times eight do not fit into one leaf.
const REFILLS: u64 = 20;

fn one_leaf_in<L: HallName, H: Wait + Drop, R: Wait + Abort>(
    rt: &R,
    own: H,
    heap: Global,
    unnamed: Unnamed<Global>,
)
    requires name { unnamed.ledger.name ≡ L.name }
    requires parts { (unnamed.ledger.parts ≡ L.parts) × (L.parts ≡ 1025) }
    requires list { unnamed.list ≡ L.book }
    requires states { unnamed.states ≡ L.states }
{
    let hall = opened::<L, H>(rt, own, heap, unnamed, 0);
    let mut north = seat(rt, &hall, "north");
    for turn in 0..REFILLS {
        // Each version is that of a list, and the id of what the list adds.
        let first = turn * 16 + 1;
        for id in first..first + 8 {
            commit(rt, &mut north, addition(rt, id));
        }
        for id in first..first + 8 {
            commit(rt, &mut north, Change::Delete { id, version: id });
        }
        rounds(rt, &hall);
    }
    swept(rt, &hall, 1);
}

/// The one leaf of a small map, which is the first slot, is tended too: however often features are
/// added and deleted, it has room.
#[test]
fn one_leaf_is_used_again(rt: HostRuntime) {
    one_leaf_in::<Brand, _, _>(&rt, rt, rt.alloc(), Unnamed::new());
}
