//! Events with each of their allocations refused in turn, and calls that allocate nothing.
use crate::worlds::{
    CLOSED, LIMITS, OPEN, STARTS, add, document, found, name, picture, place_all, placed, point,
    ready, seated, square, staged,
};
use feature_store::Meter;
use features::Change;
use refusing::Refusing;
use std::alloc::{Allocator, Global};
use std::process::Abort;
use std::test::Fail;
use world::{Advance, Fault, Outcome, Step, Tending, Visit, World};

/// An event that allocates.
#[derive(Clone, Copy, Debug, PartialEq, Eq)]
enum Taking {
    Seat,
    OpenSearch,
    Finish,
    Begin,
    Apply,
    TurnAway,
    Deny,
    Govern,
    Roll,
}

/// A world in which north has added the roads 1 to 4 and searched, and has a ready search and an
/// open transaction.
#[derive(Drop)]
struct Prepared<'a> {
    world: World<&'a Refusing<Global>>,
    search: u64,
    transaction: u64,
}

/// The change that is staged for a commit.
fn change_for(rt: &impl Abort, event: &Taking) -> Change {
    match event {
        Taking::TurnAway => Change::Delete { id: 9, version: 1 },
        _ => add(rt, 5, "road", 5),
    }
}

/// A world that is prepared for an event.
fn before_event<'a>(
    rt: &impl Abort,
    memory: &'a Refusing<Global>,
    heap: Global,
    event: &Taking,
) -> Prepared<'a> {
    let mut world = seated(rt, memory, heap, OPEN, STARTS, LIMITS);
    let (search, transaction) = prepare(rt, heap, &mut world, event);
    Prepared {
        world,
        search,
        transaction,
    }
}

/// Prepares a world for an event, and returns the numbers of north's search and transaction.
fn prepare(
    rt: &impl Abort,
    heap: Global,
    world: &mut World<&Refusing<Global>>,
    event: &Taking,
) -> (u64, u64) {
    add_four(rt, world);
    fill_lists(rt, world);
    let transaction = placed(rt, world, 1, &[change_for(rt, event)]);
    let search = ready(rt, world, 1, square(rt, 0, 9));
    if *event == Taking::Deny {
        assert!(rt; matches!(world.govern(heap, 3, document(rt, heap, CLOSED)), Ok(2)));
    }
    (search, transaction)
}

/// North adds the roads 1 to 4.
fn add_four(rt: &impl Abort, world: &mut World<&Refusing<Global>>) {
    let four = [
        add(rt, 1, "road", 1),
        add(rt, 2, "road", 2),
        add(rt, 3, "road", 3),
        add(rt, 4, "road", 4),
    ];
    let number = placed(rt, world, 1, &four);
    assert!(rt; matches!(world.commit(1, number), Ok(Outcome::Applied(1))));
}

/// A list first gets room for four entries. Adds entries, so that each list is full and has to grow
/// when the event comes.
fn fill_lists(rt: &impl Abort, world: &mut World<&Refusing<Global>>) {
    assert!(rt; world.seat(name(rt, "south")) == Ok(4));
    for _ in 0..3 {
        assert_eq!(rt; found(rt, world, 1, square(rt, 0, 9)).rows().len(), 4);
        ready(rt, world, 2, point(rt, 0, 0));
        staged(rt, world, 2, &[]);
    }
}

/// Makes the event, and returns its fault, if there is one.
fn run(
    rt: &impl Abort,
    heap: Global,
    prepared: &mut Prepared<'_>,
    event: &Taking,
) -> Option<Fault> {
    let mut meter = Meter::new();
    let world = &mut prepared.world;
    match event {
        Taking::Seat => world.seat(name(rt, "south")).err(),
        Taking::OpenSearch => world.open_search(1, point(rt, 1, 1)).err(),
        Taking::Finish => world.finish(1, prepared.search, &mut meter).err(),
        Taking::Begin => world.begin(1).err(),
        Taking::Govern => govern(rt, heap, world),
        Taking::Roll => world.roll(heap, 3).err(),
        _ => world.commit(1, prepared.transaction).err(),
    }
}

/// Puts a document in force, and returns the fault, if there is one. Checks that a fault comes with
/// the document.
fn govern(rt: &impl Abort, heap: Global, world: &mut World<&Refusing<Global>>) -> Option<Fault> {
    match world.govern(heap, 3, document(rt, heap, CLOSED)) {
        Ok(_) => None,
        Err((back, fault)) => {
            assert!(rt; back == document(rt, heap, CLOSED));
            Some(fault)
        }
    }
}

/// The ids and versions that the ready search lists after the event: the four roads, a fifth if its
/// list was applied, and none if nothing is permitted.
fn listed(event: &Taking) -> &'static [(u64, u64)] {
    match event {
        Taking::Apply => &[(1, 1), (2, 1), (3, 1), (4, 1), (5, 2)],
        Taking::Deny | Taking::Govern => &[],
        _ => &[(1, 1), (2, 1), (3, 1), (4, 1)],
    }
}

/// Finishes the ready search, and checks the ids and versions that it lists.
fn check_listed(rt: &impl Abort, prepared: &mut Prepared<'_>, expected: &[(u64, u64)]) {
    let mut meter = Meter::new();
    let answered = prepared.world.finish(1, prepared.search, &mut meter);
    assert!(rt; answered.is_ok());
    let answer = answered.unwrap();
    assert_eq!(rt; answer.rows().len(), expected.len());
    for (row, (id, version)) in answer.rows().iter().zip(expected) {
        assert!(rt; row.id == *id && row.version == *version, "{id}");
    }
}

/// Checks, after a refusal, that the world reads as before, that the event succeeds when it is made
/// again, and that the ready search then lists what it should.
fn check_refused(
    rt: &impl Abort,
    heap: Global,
    prepared: &mut Prepared<'_>,
    event: &Taking,
    before: &str,
) {
    assert_eq!(rt; picture(rt, heap, &prepared.world).as_str(), before);
    if *event != Taking::Finish {
        assert!(rt; run(rt, heap, prepared, event).is_none());
    }
    check_listed(rt, prepared, listed(event));
}

/// Makes the event with its allocation number `at` refused, and returns whether that was asked for.
fn try_refused(rt: &impl Abort, heap: Global, event: &Taking, at: u64) -> bool {
    let memory = Refusing::new(heap, 0);
    let mut prepared = before_event(rt, &memory, heap, event);
    run_refused(rt, heap, &memory, &mut prepared, event, at)
}

/// The same, in a world that is prepared for the event.
fn run_refused(
    rt: &impl Abort,
    heap: Global,
    memory: &Refusing<Global>,
    prepared: &mut Prepared<'_>,
    event: &Taking,
    at: u64,
) -> bool {
    let before = picture(rt, heap, &prepared.world);
    memory.refuse(at);
    let told = run(rt, heap, prepared, event);
    let refused = memory.has_refused();
    memory.refuse(0);
    if refused {
        assert!(rt; matches!(told, Some(Fault::Memory(_))), "{event:?} {at}");
        check_refused(rt, heap, prepared, event, before.as_str());
    } else {
        assert!(rt; told.is_none(), "{event:?} {at}");
    }
    refused
}

/// Refuses each of the event's allocations in turn, and returns how many there are.
fn refusals(rt: &impl Abort, heap: Global, event: &Taking) -> u64 {
    for at in 1..100 {
        if !try_refused(rt, heap, event, at) {
            return at.saturating_sub(1);
        }
    }
    0
}

#[test]
fn each_allocation_of_a_search_refused(rt: HostRuntime) -> Result<(), Fail> {
    for event in &[Taking::Seat, Taking::OpenSearch, Taking::Finish] {
        assert!(rt; refusals(&rt, rt.alloc(), event) > 0, "{event:?}");
    }
    Ok(())
}

#[test]
fn each_allocation_of_a_commit_refused(rt: HostRuntime) -> Result<(), Fail> {
    for event in &[Taking::Begin, Taking::Apply, Taking::TurnAway, Taking::Deny] {
        assert!(rt; refusals(&rt, rt.alloc(), event) > 0, "{event:?}");
    }
    Ok(())
}

#[test]
fn each_allocation_of_a_policy_and_a_roll_refused(rt: HostRuntime) -> Result<(), Fail> {
    for event in &[Taking::Govern, Taking::Roll] {
        assert!(rt; refusals(&rt, rt.alloc(), event) > 0, "{event:?}");
    }
    Ok(())
}

/// Opens a transaction of north's, and stages sixteen roads from the number `first` on.
fn sixteen_staged<A: Allocator + Copy>(rt: &impl Abort, world: &mut World<A>, first: u64) -> u64 {
    let number = staged(rt, world, 1, &[]);
    let mut at = 0i32;
    for id in first..first.saturating_add(16) {
        at = at.saturating_add(3);
        assert!(rt; world.stage(1, number, add(rt, id, "road", at)) == Ok(()));
    }
    number
}

/// North adds sixteen roads in one list, which is applied as this version.
fn add_sixteen<A: Allocator + Copy>(
    rt: &impl Abort,
    world: &mut World<A>,
    first: u64,
    version: u64,
) {
    let number = sixteen_staged(rt, world, first);
    place_all(rt, world, 1, number);
    assert!(rt; matches!(world.commit(1, number), Ok(Outcome::Applied(told)) if told == version));
}

/// Advances the walks of a transaction of north's until all is placed, and returns how many steps
/// were refused. A refused step is made again.
fn place_refused<A: Allocator + Copy>(rt: &impl Abort, world: &mut World<A>, number: u64) -> u64 {
    let mut refused = 0u64;
    for _ in 0..1_000 {
        match world.advance(1, number) {
            Ok(Advance::AllPlaced) => return refused,
            Ok(_) => {}
            Err(Fault::Memory(_)) => refused = refused.saturating_add(1),
            Err(fault) => assert!(rt; false, "{fault}"),
        }
    }
    panic!(rt; "a list makes more than 1,000 steps")
}

/// Places sixteen roads beside sixteen others with allocation number `at` refused, and returns
/// whether that was asked for.
fn try_walks(rt: &impl Abort, heap: Global, at: u64) -> bool {
    let memory = Refusing::new(heap, 0);
    let mut world = seated(rt, &memory, heap, OPEN, STARTS, LIMITS);
    walk_refused(rt, heap, &memory, &mut world, at)
}

/// The same, in a world without features.
fn walk_refused(
    rt: &impl Abort,
    heap: Global,
    memory: &Refusing<Global>,
    world: &mut World<&Refusing<Global>>,
    at: u64,
) -> bool {
    add_sixteen(rt, world, 1, 1);
    let second = sixteen_staged(rt, world, 17);
    let before = picture(rt, heap, world);
    memory.refuse(at);
    let refused = place_refused(rt, world, second);
    let reached = memory.has_refused();
    memory.refuse(0);
    assert_eq!(rt; refused, if reached { 1 } else { 0 });
    assert_eq!(rt; picture(rt, heap, world).as_str(), before.as_str());
    assert!(rt; matches!(world.commit(1, second), Ok(Outcome::Applied(2))));
    assert_eq!(rt; found(rt, world, 1, square(rt, 0, 99)).rows().len(), 32);
    reached
}

#[test]
fn each_allocation_of_a_walk_refused(rt: HostRuntime) -> Result<(), Fail> {
    for at in 1..200 {
        if !try_walks(&rt, rt.alloc(), at) {
            assert!(rt; at > 3, "nothing was refused");
            return Ok(());
        }
    }
    assert!(&rt; false, "each allocation was refused");
    Ok(())
}

/// Visits until a search is ready, and returns how many visits were refused. A refused visit is
/// made again.
fn see_refused<A: Allocator + Copy>(rt: &impl Abort, world: &mut World<A>, search: u64) -> u64 {
    let mut refused = 0u64;
    for _ in 0..1_000 {
        match world.visit(1, search) {
            Ok(Visit::Ready) => return refused,
            Ok(Visit::More) => {}
            Err(Fault::Memory(_)) => refused = refused.saturating_add(1),
            Err(fault) => assert!(rt; false, "{fault}"),
        }
    }
    panic!(rt; "a search makes more than 1,000 steps")
}

/// Visits until a search for 32 roads is ready, with allocation number `at` refused, and returns
/// whether that was asked for.
fn try_visits(rt: &impl Abort, heap: Global, at: u64) -> bool {
    let memory = Refusing::new(heap, 0);
    let mut world = seated(rt, &memory, heap, OPEN, STARTS, LIMITS);
    visit_refused(rt, heap, &memory, &mut world, at)
}

/// The same, in a world without features.
fn visit_refused(
    rt: &impl Abort,
    heap: Global,
    memory: &Refusing<Global>,
    world: &mut World<&Refusing<Global>>,
    at: u64,
) -> bool {
    add_sixteen(rt, world, 1, 1);
    add_sixteen(rt, world, 17, 2);
    assert!(rt; world.open_search(1, square(rt, 0, 99)) == Ok(1));
    let before = picture(rt, heap, world);
    memory.refuse(at);
    let refused = see_refused(rt, world, 1);
    let reached = memory.has_refused();
    memory.refuse(0);
    assert_eq!(rt; refused, if reached { 1 } else { 0 });
    assert_eq!(rt; picture(rt, heap, world).as_str(), before.as_str());
    check_finished(rt, world);
    reached
}

/// Checks that the search with the number 1 lists 32 roads.
fn check_finished(rt: &impl Abort, world: &mut World<&Refusing<Global>>) {
    let mut meter = Meter::new();
    let answered = world.finish(1, 1, &mut meter);
    assert!(rt; answered.is_ok());
    assert_eq!(rt; answered.unwrap().rows().len(), 32);
}

#[test]
fn each_allocation_of_the_visits_refused(rt: HostRuntime) -> Result<(), Fail> {
    for at in 1..200 {
        if !try_visits(&rt, rt.alloc(), at) {
            assert!(rt; at > 1, "nothing was refused");
            return Ok(());
        }
    }
    assert!(&rt; false, "each allocation was refused");
    Ok(())
}

/// Readers, and events of searches and of tending, that allocate nothing.
fn read_and_visit(rt: &impl Abort, prepared: &mut Prepared<'_>) {
    let world = &mut prepared.world;
    assert!(rt; world.trail().len() == 4 && world.trail().get(1).is_some());
    assert!(rt; world.edition() == 1 && world.len() == 4 && world.found_count(1) == 0);
    assert!(rt; world.document().rule_name(1) == Some(name(rt, "open")));
    assert!(rt; world.visit(1, prepared.search) == Ok(Visit::Ready));
    assert!(rt; world.drop_search(1, prepared.search) == Ok(()));
    assert!(rt; world.tend(0) == Ok(Tending::Idle));
}

/// Events of transactions that allocate nothing: fifteen more changes, one too many, one step, and
/// an abort.
fn stage_and_abort(rt: &impl Abort, prepared: &mut Prepared<'_>) {
    let world = &mut prepared.world;
    let number = prepared.transaction;
    for id in 10..25 {
        assert!(rt; world.stage(1, number, add(rt, id, "road", 1)) == Ok(()));
    }
    let beyond = world.stage(1, number, add(rt, 25, "road", 1));
    assert!(rt; beyond == Err(Fault::TooManyChanges));
    assert!(rt; world.advance(1, number) == Ok(Advance::Walked(Step::Placed)));
    assert!(rt; world.abort(1, number) == Ok(()));
}

#[test]
fn calls_that_take_no_memory(rt: HostRuntime) -> Result<(), Fail> {
    let memory = Refusing::new(rt.alloc(), 0);
    let mut prepared = before_event(&rt, &memory, rt.alloc(), &Taking::Apply);
    memory.refuse(1);
    read_and_visit(&rt, &mut prepared);
    stage_and_abort(&rt, &mut prepared);
    assert!(rt; !memory.has_refused());
    Ok(())
}
