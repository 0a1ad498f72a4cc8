//! A world that begins at a state that another world has come to, beside that other world.
use crate::worlds::{
    LIMITS, OPEN, ROADS, STARTS, add, document, found, give_seats, name, placed, point, put_lines,
    seated, square, subjects,
};
use features::{Change, Subjects};
use refusing::Refusing;
use std::alloc::{Allocator, Global};
use std::process::Abort;
use std::test::Fail;
use world::{Base, Fault, Limits, Outcome, Starts, World};

/// How many lists of four features the first world begins with.
const LISTS: u64 = 12;

/// Commits these changes of a seat, and checks how that ends.
fn commit<A: Allocator + Copy>(
    rt: &impl Abort,
    world: &mut World<A>,
    seat: u32,
    changes: &[Change],
    version: Option<u64>,
) {
    let number = placed(rt, world, seat, changes);
    match world.commit(seat, number) {
        Ok(Outcome::Applied(given)) => assert!(rt; version == Some(given)),
        Ok(Outcome::Refused(_, _)) => assert!(rt; version.is_none()),
        Err(fault) => panic!(rt; "{fault}"),
    }
}

/// Four features behind a number: roads at even ids, masts at odd ones, each at the point of its
/// id.
fn four(rt: &impl Abort, last: u64) -> [Change; 4] {
    let at = last as i32;
    [
        add(rt, last + 1, "mast", at + 1),
        add(rt, last + 2, "road", at + 2),
        add(rt, last + 3, "mast", at + 3),
        add(rt, last + 4, "road", at + 4),
    ]
}

/// A world with the features 1 to 48, without the road 2, with the road 4 at another place, and
/// with a policy that shows roads alone.
fn grown<A: Allocator + Copy>(rt: &impl Abort, alloc: A, heap: Global) -> World<A> {
    let mut world = seated(rt, alloc, heap, OPEN, STARTS, LIMITS);
    for list in 0..LISTS {
        commit(rt, &mut world, 1, &four(rt, list * 4), Some(list + 1));
    }
    let changes = [
        Change::Delete { id: 2, version: 1 },
        Change::Reshape {
            id: 4,
            version: 1,
            shape: point(rt, 60, 60),
        },
    ];
    commit(rt, &mut world, 2, &changes, Some(LISTS + 1));
    assert!(rt; matches!(world.govern(heap, 3, document(rt, heap, ROADS)), Ok(2)));
    world
}

/// The world's present state.
fn state_of<A: Allocator + Copy>(rt: &impl Abort, world: &World<A>) -> Base<A> {
    match world.present() {
        Ok(base) => base,
        Err(fault) => panic!(rt; "{fault}"),
    }
}

/// A world that begins at the state of another, with the next record's number. It has the same
/// seats.
fn reopened(rt: &impl Abort, heap: Global, world: &World<Global>) -> World<Global> {
    let trail = world.trail();
    let next = trail.first().saturating_add(u64::from(trail.len()));
    let starts = Starts {
        rolled: next.saturating_sub(1),
        ..STARTS
    };
    match World::open_from(heap, subjects(rt), state_of(rt, world), starts, LIMITS) {
        Ok(mut second) => {
            give_seats(rt, &mut second);
            second
        }
        Err(fault) => panic!(rt; "{fault}"),
    }
}

/// The ids and versions of the roads that both worlds list, by the events that made them.
fn check_roads(rt: &impl Abort, world: &mut World<Global>) {
    let answer = found(rt, world, 1, square(rt, 0, 100));
    let rows = answer.rows();
    assert!(rt; rows.len() == 23 && answer.decider().edition() == 2);
    assert!(rt; rows[0].id == 4 && rows[0].version == 13 && rows[0].shape == point(rt, 60, 60));
    for (place, row) in rows.iter().enumerate() {
        let id = 4 + 2 * place as u64;
        assert!(rt; row.id == id && row.office == name(rt, "north"));
        assert!(rt; row.version == if id == 4 { 13 } else { (id + 3) / 4 });
    }
}

/// What is asked of both worlds: answers, a denied and two stale changes, an id that is there, a
/// list that is applied, a policy, a list of many features.
fn go_on(rt: &impl Abort, heap: Global, world: &mut World<Global>) {
    check_roads(rt, world);
    commit(rt, world, 2, &[Change::Delete { id: 1, version: 1 }], None);
    commit(rt, world, 1, &[Change::Delete { id: 4, version: 1 }], None);
    commit(rt, world, 1, &[Change::Delete { id: 2, version: 1 }], None);
    commit(rt, world, 1, &[add(rt, 4, "road", 4)], None);
    let moved = Change::Reshape {
        id: 6,
        version: 2,
        shape: point(rt, 61, 61),
    };
    commit(rt, world, 1, &[moved], Some(LISTS + 2));
    assert!(rt; found(rt, world, 2, square(rt, 5, 7)).rows().is_empty());
    assert!(rt; found(rt, world, 2, square(rt, 60, 61)).rows().len() == 2);
    assert!(rt; matches!(world.govern(heap, 3, document(rt, heap, OPEN)), Ok(3)));
    commit(rt, world, 1, &four(rt, 48), Some(LISTS + 3));
    assert!(rt; found(rt, world, 2, square(rt, 0, 100)).rows().len() == 51);
    assert!(rt; world.len() == 51);
}

/// The records of a world from this number on, as lines.
fn lines_from(rt: &impl Abort, heap: Global, world: &World<Global>, first: u64) -> String {
    let mut told = String::new(heap);
    put_lines(rt, heap, world, first, &mut told);
    told
}

#[test]
fn reopened_world_answers_as_the_first(rt: HostRuntime) -> Result<(), Fail> {
    let heap = rt.alloc();
    let mut first = grown(&rt, heap, heap);
    let mut second = reopened(&rt, heap, &first);
    let next = second.trail().first();
    assert!(rt; next == 15 && second.trail().is_empty() && second.len() == 47);
    go_on(&rt, heap, &mut first);
    go_on(&rt, heap, &mut second);
    let told = lines_from(&rt, heap, &first, next);
    assert!(rt; second.trail().len() == 11);
    assert!(rt; told == lines_from(&rt, heap, &second, next));
    Ok(())
}

/// A world that begins at the state of another.
fn continued<A: Allocator + Copy>(
    alloc: A,
    subjects: Subjects,
    world: &World<A>,
) -> Result<World<A>, Fault> {
    let base = world.present()?;
    World::open_from(alloc, subjects, base, STARTS, LIMITS)
}

/// Opens a world at the state of another with allocation number `at` refused, and returns whether
/// that was asked for.
fn try_continued(rt: &impl Abort, heap: Global, at: u64) -> bool {
    let memory = Refusing::new(heap, 0);
    let first = grown(rt, &memory, heap);
    memory.refuse(at);
    let told = continued(&memory, subjects(rt), &first);
    let refused = memory.has_refused();
    memory.refuse(0);
    match told {
        Ok(second) => assert!(rt; !refused && second.len() == 47),
        Err(Fault::Memory(_)) => assert!(rt; refused && first.len() == 47),
        Err(fault) => panic!(rt; "{fault}"),
    }
    refused
}

#[test]
fn each_allocation_of_an_opening_refused(rt: HostRuntime) -> Result<(), Fail> {
    for at in 1..200 {
        if !try_continued(&rt, rt.alloc(), at) {
            assert!(&rt; at > 5, "nothing was refused");
            return Ok(());
        }
    }
    assert!(&rt; false, "each allocation was refused");
    Ok(())
}

/// The numbers of records pass 32 bits, over a roll too.
#[test]
fn numbers_beyond_32_bits(rt: HostRuntime) -> Result<(), Fail> {
    let heap = rt.alloc();
    let starts = Starts {
        rolled: 4_294_967_294,
        ..STARTS
    };
    let mut world = seated(&rt, heap, heap, OPEN, starts, LIMITS);
    commit(&rt, &mut world, 1, &four(&rt, 0), Some(1));
    assert!(&rt; found(&rt, &mut world, 1, square(&rt, 0, 9)).rows().len() == 4);
    let told = lines_from(&rt, heap, &world, 4_294_967_295);
    assert!(&rt; told.as_str().contains("\"number\":4294967295,"));
    assert!(&rt; told.as_str().contains("\"number\":4294967296,"));
    assert!(&rt; world.roll(heap, 3).is_ok() && world.trail().first() == 4_294_967_297);
    commit(&rt, &mut world, 1, &four(&rt, 4), Some(2));
    let second = reopened(&rt, heap, &world);
    assert!(&rt; second.trail().first() == 4_294_967_298 && second.len() == 8);
    Ok(())
}

/// A world that begins at a state with more features than its limit takes lists that leave no more
/// than there are.
#[test]
fn more_features_than_the_limit(rt: HostRuntime) -> Result<(), Fail> {
    let heap = rt.alloc();
    let mut first = seated(&rt, heap, heap, OPEN, STARTS, LIMITS);
    commit(&rt, &mut first, 1, &four(&rt, 0), Some(1));
    let limits = Limits {
        features: 2,
        ..LIMITS
    };
    let base = state_of(&rt, &first);
    let opened = World::open_from(heap, subjects(&rt), base, STARTS, limits);
    assert!(&rt; opened.is_ok());
    let mut world = opened.unwrap();
    give_seats(&rt, &mut world);
    let moved = Change::Reshape {
        id: 1,
        version: 1,
        shape: point(&rt, 7, 7),
    };
    let gone = Change::Delete { id: 2, version: 1 };
    commit(&rt, &mut world, 1, &[moved], Some(2));
    let number = placed(&rt, &mut world, 1, &[add(&rt, 9, "road", 9)]);
    assert!(&rt; matches!(world.commit(1, number), Err(Fault::StoreFull)));
    commit(&rt, &mut world, 2, &[gone, add(&rt, 9, "road", 9)], Some(3));
    commit(
        &rt,
        &mut world,
        2,
        &[Change::Delete { id: 3, version: 1 }],
        Some(4),
    );
    assert!(&rt; matches!(world.commit(1, number), Ok(Outcome::Refused(_, _))));
    let number = placed(&rt, &mut world, 1, &[add(&rt, 10, "road", 9)]);
    assert!(&rt; matches!(world.commit(1, number), Err(Fault::StoreFull)));
    assert!(&rt; world.len() == 3);
    Ok(())
}

#[test]
fn reopened_without_features(rt: HostRuntime) -> Result<(), Fail> {
    let heap = rt.alloc();
    let first = seated(&rt, heap, heap, OPEN, STARTS, LIMITS);
    let mut second = reopened(&rt, heap, &first);
    assert!(&rt; second.len() == 0 && second.trail().first() == 1 && second.edition() == 1);
    commit(&rt, &mut second, 1, &four(&rt, 0), Some(1));
    assert!(&rt; found(&rt, &mut second, 1, square(&rt, 0, 9)).rows().len() == 4);
    Ok(())
}
