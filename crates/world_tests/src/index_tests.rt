//! The world over its index: searches that go on while shapes are placed and policies change, walks
//! that are held, and what tending removes.
use crate::worlds::{
    LIMITS, OPEN, ROADS, STARTS, add, document, found, place_all, placed, ready, seated, see_all,
    square, staged,
};
use feature_store::Meter;
use features::Change;
use plane::Shape;
use std::alloc::Global;
use std::process::Abort;
use world::{Advance, Answer, Fault, Outcome, Step, Tending, TreeFault, Visit, World};

/// How often rounds of tending did what.
#[derive(Clone, Copy, Debug, PartialEq, Eq)]
struct Tended {
    cleaned: u32,
    retired: u32,
    freed: u32,
}

/// Where a feature is on the diagonal. Neighbours by number are far apart, and no two numbers below
/// 257 have the same place.
fn place_of(id: u64) -> i32 {
    let place = id.wrapping_mul(37) % 257;
    i32::try_from(place).unwrap_or(0)
}

/// The addition of a feature at its place. Odd numbers are roads, even ones masts.
fn addition(rt: &impl Abort, id: u64) -> Change {
    let class = if id % 2 == 1 { "road" } else { "mast" };
    add(rt, id, class, place_of(id))
}

/// North makes one change, in a list of its own.
fn make(rt: &impl Abort, world: &mut World<Global>, change: Change) {
    let number = placed(rt, world, 1, &[change]);
    assert!(rt; matches!(world.commit(1, number), Ok(Outcome::Applied(_))));
}

/// Places all shapes of a transaction of north's, and applies its list.
fn place_and_commit(rt: &impl Abort, world: &mut World<Global>, number: u64) {
    place_all(rt, world, 1, number);
    assert!(rt; matches!(world.commit(1, number), Ok(Outcome::Applied(_))));
}

/// North adds the features `first` to `last`, each in a list of its own.
fn fill(rt: &impl Abort, world: &mut World<Global>, first: u64, last: u64) {
    for id in first..=last {
        make(rt, world, addition(rt, id));
    }
}

/// A world of the features 1 to `last`.
fn filled(rt: &impl Abort, heap: Global, last: u64) -> World<Global> {
    let mut world = seated(rt, heap, heap, OPEN, STARTS, LIMITS);
    fill(rt, &mut world, 1, last);
    world
}

/// Opens a search of south's for all features up to `high` on the diagonal, and visits once, after
/// which it has more to see.
fn begun(rt: &impl Abort, world: &mut World<Global>, high: i32) -> u64 {
    let opened = world.open_search(2, square(rt, 0, high));
    assert!(rt; opened.is_ok());
    let search = opened.unwrap();
    assert!(rt; world.visit(2, search) == Ok(Visit::More));
    search
}

/// Finishes a ready search of south's, and checks that the meter counts at most one look-up for
/// each pair that it has found.
fn finished(rt: &impl Abort, world: &mut World<Global>, search: u64) -> Answer<Global> {
    let mut meter = Meter::new();
    let found = world.found_count(search);
    let answered = world.finish(2, search, &mut meter);
    assert!(rt; answered.is_ok());
    assert!(rt; meter.ticks() <= found as u64);
    answered.unwrap()
}

/// Checks that the answer lists exactly the features `first` to `last` whose place is at most
/// `high`, each once.
fn check_rows(rt: &impl Abort, answer: &Answer<Global>, first: u64, last: u64, high: i32) {
    let mut at = 0usize;
    for id in first..=last {
        if place_of(id) <= high {
            assert!(rt; answer.rows().get(at).map(|row| row.id) == Some(id), "{id}");
            at = at.saturating_add(1);
        }
    }
    assert_eq!(rt; answer.rows().len(), at);
}

/// Ends a search of south's, and checks that it lists exactly the features `first` to `last`.
fn check_ended(rt: &impl Abort, world: &mut World<Global>, search: u64, first: u64, last: u64) {
    see_all(rt, world, 2, search);
    let answer = finished(rt, world, search);
    check_rows(rt, &answer, first, last, 300);
}

/// Checks that south finds exactly the features `first` to `last`.
fn check_found(rt: &impl Abort, world: &mut World<Global>, first: u64, last: u64) {
    let answer = found(rt, world, 2, square(rt, 0, 300));
    check_rows(rt, &answer, first, last, 300);
}

/// A policy that permits only roads comes into force while a search has more to see.
fn govern_under_search(rt: &impl Abort, heap: Global, world: &mut World<Global>) {
    let search = begun(rt, world, 300);
    assert!(rt; matches!(world.govern(heap, 3, document(rt, heap, ROADS)), Ok(2)));
    see_all(rt, world, 2, search);
    let answer = finished(rt, world, search);
    assert_eq!(rt; answer.decider().edition(), 2);
    assert_eq!(rt; answer.rows().len(), 20);
    assert!(rt; answer.rows().iter().all(|row| row.id % 2 == 1));
}

/// Advances the walk of a transaction of north's until it splits a node or all is placed, and
/// returns whether it has split one.
fn splits(rt: &impl Abort, world: &mut World<Global>, number: u64) -> bool {
    for _ in 0..100 {
        let step = world.advance(1, number);
        assert!(rt; step.is_ok());
        if step == Ok(Advance::Walked(Step::Split)) {
            return true;
        }
        if step == Ok(Advance::AllPlaced) {
            return false;
        }
    }
    panic!(rt; "a walk makes more than 100 steps")
}

/// North adds features from 41 on, until a walk splits a node. Returns its transaction and its
/// feature's number.
fn fill_until_split(rt: &impl Abort, world: &mut World<Global>) -> (u64, u64) {
    for id in 41..=200 {
        let number = staged(rt, world, 1, &[addition(rt, id)]);
        if splits(rt, world, number) {
            return (number, id);
        }
        assert!(rt; matches!(world.commit(1, number), Ok(Outcome::Applied(_))));
    }
    panic!(rt; "no node is parted")
}

/// A walk splits a node while a search has more to see, and goes on once the search has ended.
fn split_meanwhile(rt: &impl Abort, world: &mut World<Global>) {
    let search = begun(rt, world, 300);
    let (number, id) = fill_until_split(rt, world);
    check_ended(rt, world, search, 1, id.saturating_sub(1));
    place_and_commit(rt, world, number);
    check_found(rt, world, 1, id);
}

/// Eighty features are added while a search has more to see.
fn fill_meanwhile(rt: &impl Abort, world: &mut World<Global>) {
    let search = begun(rt, world, 300);
    fill(rt, world, 41, 120);
    check_ended(rt, world, search, 1, 120);
}

/// How far the window of a search reaches, by its number.
fn reach_of(number: u64) -> i32 {
    i32::try_from(number.wrapping_mul(30)).unwrap_or(0)
}

/// Ends a search of south's, and checks that it lists exactly the features 1 to `last` in its
/// window.
fn end_search(rt: &impl Abort, world: &mut World<Global>, number: u64, last: u64) {
    see_all(rt, world, 2, number);
    let answer = finished(rt, world, number);
    check_rows(rt, &answer, 1, last, reach_of(number));
}

/// North adds a feature, and each search that holds it back is ended first. Returns how many were.
fn add_among(rt: &impl Abort, world: &mut World<Global>, id: u64) -> u32 {
    let number = staged(rt, world, 1, &[addition(rt, id)]);
    let mut ended = 0u32;
    for _ in 0..100 {
        match world.advance(1, number) {
            Ok(Advance::AllPlaced) => {
                assert!(rt; matches!(world.commit(1, number), Ok(Outcome::Applied(_))));
                return ended;
            }
            Ok(_) => {}
            Err(Fault::Tree(TreeFault::Held(search))) => {
                end_search(rt, world, search, id.saturating_sub(1));
                ended = ended.saturating_add(1);
            }
            Err(fault) => assert!(rt; false, "{fault}"),
        }
    }
    panic!(rt; "a walk makes more than 100 steps")
}

/// Ends the searches that still run.
fn end_the_others(rt: &impl Abort, world: &mut World<Global>, last: u64) {
    for number in 1..=8 {
        match world.visit(2, number) {
            Ok(_) => end_search(rt, world, number, last),
            Err(fault) => assert!(rt; fault == Fault::NoSuch),
        }
    }
}

/// Opens eight searches of south's, each with a wider window than the one before.
fn open_eight(rt: &impl Abort, world: &mut World<Global>) {
    for number in 1..=8 {
        let opened = world.open_search(2, square(rt, 0, reach_of(number)));
        assert!(rt; opened == Ok(number));
    }
}

/// Visits for one of the searches, by turns, before each addition. Returns how many searches held
/// an addition back.
fn step_and_add(rt: &impl Abort, world: &mut World<Global>) -> u32 {
    let mut ended = 0u32;
    for id in 41..=160 {
        let turn: u64 = id % 8;
        let stepped = world.visit(2, turn.saturating_add(1));
        assert!(rt; stepped.is_ok() || stepped == Err(Fault::NoSuch));
        ended = ended.saturating_add(add_among(rt, world, id));
    }
    ended
}

/// Eight searches and many additions interleave.
fn search_and_add(rt: &impl Abort, world: &mut World<Global>) {
    open_eight(rt, world);
    assert!(rt; step_and_add(rt, world) > 2);
    end_the_others(rt, world, 160);
}

/// Checks that the walk of a transaction of north's is held by this search whenever it is advanced,
/// and that its list cannot be committed.
fn check_held(rt: &impl Abort, world: &mut World<Global>, number: u64, search: u64) {
    let held = Err(Fault::Tree(TreeFault::Held(search)));
    let mut step = world.advance(1, number);
    for _ in 0..100 {
        if step.is_err() {
            break;
        }
        assert!(rt; step != Ok(Advance::Walked(Step::Placed)));
        step = world.advance(1, number);
    }
    assert!(rt; step == held && world.advance(1, number) == held);
    assert!(rt; matches!(world.commit(1, number), Err(Fault::NotPlaced)));
}

/// A ready search holds a walk until it is finished.
fn hold_until_finished(rt: &impl Abort, world: &mut World<Global>) {
    let search = ready(rt, world, 2, square(rt, 0, 300));
    let number = staged(rt, world, 1, &[addition(rt, 41)]);
    check_held(rt, world, number, search);
    let answer = finished(rt, world, search);
    check_rows(rt, &answer, 1, 40, 300);
    place_and_commit(rt, world, number);
    check_found(rt, world, 1, 41);
}

/// A ready search holds a walk until it is dropped.
fn hold_until_dropped(rt: &impl Abort, world: &mut World<Global>) {
    let search = ready(rt, world, 2, square(rt, 0, 300));
    let number = staged(rt, world, 1, &[addition(rt, 41)]);
    check_held(rt, world, number, search);
    assert!(rt; world.drop_search(2, search) == Ok(()));
    place_and_commit(rt, world, number);
}

/// A search that has made no step, and one that looks elsewhere, hold no walk.
fn hold_nobody(rt: &impl Abort, world: &mut World<Global>) {
    let opened = world.open_search(2, square(rt, 0, 300));
    assert!(rt; opened.is_ok());
    let other = ready(rt, world, 2, square(rt, -9, -1));
    fill(rt, world, 41, 60);
    check_ended(rt, world, opened.unwrap(), 1, 60);
    let answer = finished(rt, world, other);
    assert_eq!(rt; answer.rows().len(), 0);
}

/// The feature 7 is reshaped and the feature 40 deleted while a search has more to see.
fn change_under_search(rt: &impl Abort, world: &mut World<Global>) {
    let search = begun(rt, world, 300);
    let shape = square(rt, 3, 5);
    make(
        rt,
        world,
        Change::Reshape {
            id: 7,
            version: 7,
            shape,
        },
    );
    delete(rt, world, 40, 40);
    see_all(rt, world, 2, search);
    let answer = finished(rt, world, search);
    check_rows(rt, &answer, 1, 39, 300);
    check_reshaped(rt, &answer, shape);
}

/// Checks the row of the feature 7, which has this shape.
fn check_reshaped(rt: &impl Abort, answer: &Answer<Global>, shape: Shape) {
    let Some(row) = answer.rows().get(6) else {
        panic!(rt; "the row of the reshaped feature is missing")
    };
    assert!(rt; row.id == 7 && row.version == 41 && row.shape == shape);
}

/// Tends each slot, round after round, until there is nothing to do.
fn tend_all(rt: &impl Abort, world: &mut World<Global>) -> Tended {
    let mut tended = Tended {
        cleaned: 0,
        retired: 0,
        freed: 0,
    };
    for _ in 0..100 {
        if !tend_round(rt, world, &mut tended) {
            return tended;
        }
    }
    panic!(rt; "there is always something to tend")
}

/// Tends each slot once, and returns whether there was something to do.
fn tend_round(rt: &impl Abort, world: &mut World<Global>, tended: &mut Tended) -> bool {
    let mut busy = false;
    for slot in 0..world.slots() {
        let answer = world.tend(slot);
        assert!(rt; answer.is_ok());
        busy = busy || answer != Ok(Tending::Idle);
        match answer {
            Ok(Tending::Cleaned) => tended.cleaned = tended.cleaned.saturating_add(1),
            Ok(Tending::Retired) => tended.retired = tended.retired.saturating_add(1),
            Ok(Tending::Freed) => tended.freed = tended.freed.saturating_add(1),
            _ => {}
        }
    }
    busy
}

/// How many pairs of the index a search for all finds.
fn pairs(rt: &impl Abort, world: &mut World<Global>) -> usize {
    let search = ready(rt, world, 2, square(rt, 0, 300));
    let count = world.found_count(search);
    assert!(rt; world.drop_search(2, search) == Ok(()));
    count
}

/// Opens a transaction of north's, and places sixteen features from the number `first` on.
fn sixteen_placed(rt: &impl Abort, world: &mut World<Global>, first: u64) -> u64 {
    let number = staged(rt, world, 1, &[]);
    for id in first..first.saturating_add(16) {
        assert!(rt; world.stage(1, number, addition(rt, id)) == Ok(()));
    }
    place_all(rt, world, 1, number);
    number
}

/// What an open transaction has placed stays until the transaction is aborted.
fn place_and_abort(rt: &impl Abort, world: &mut World<Global>) {
    let number = sixteen_placed(rt, world, 101);
    check_tended(rt, world, 56);
    check_found(rt, world, 1, 40);
    assert!(rt; world.abort(1, number) == Ok(()));
    assert!(rt; tend_all(rt, world).cleaned > 0);
    assert_eq!(rt; pairs(rt, world), 40);
    check_found(rt, world, 1, 40);
}

/// Checks that tending removes nothing from the index, which has `count` pairs.
fn check_tended(rt: &impl Abort, world: &mut World<Global>, count: usize) {
    assert_eq!(rt; tend_all(rt, world).cleaned, 0);
    assert_eq!(rt; pairs(rt, world), count);
}

/// What a transaction has placed stays after its commit.
fn place_sixteen_and_commit(rt: &impl Abort, world: &mut World<Global>) {
    let number = sixteen_placed(rt, world, 41);
    assert!(rt; matches!(world.commit(1, number), Ok(Outcome::Applied(_))));
    check_tended(rt, world, 56);
    check_found(rt, world, 1, 56);
}

/// North deletes the features `first` to `last`, whose versions are their numbers.
fn delete(rt: &impl Abort, world: &mut World<Global>, first: u64, last: u64) {
    for id in first..=last {
        make(rt, world, Change::Delete { id, version: id });
    }
}

/// All features but the last are deleted, and tending frees slots.
fn delete_and_fill(rt: &impl Abort, world: &mut World<Global>) {
    let slots = world.slots();
    delete(rt, world, 1, 119);
    check_found(rt, world, 120, 120);
    let tended = tend_all(rt, world);
    assert!(rt; tended.cleaned > 4 && tended.retired > 4);
    assert_eq!(rt; tended.freed, tended.retired);
    assert_eq!(rt; pairs(rt, world), 1);
    check_found(rt, world, 120, 120);
    // The free slots are used again.
    fill(rt, world, 1, 40);
    assert!(rt; world.slots() <= slots);
}

/// Slots where nothing was to do are tended again once their features are deleted, and freed.
fn tend_and_delete(rt: &impl Abort, world: &mut World<Global>) {
    check_tended(rt, world, 120);
    check_tended(rt, world, 120);
    delete(rt, world, 1, 119);
    let tended = tend_all(rt, world);
    assert!(rt; tended.cleaned > 4 && tended.retired > 4);
    assert_eq!(rt; tended.freed, tended.retired);
    check_tended(rt, world, 1);
    check_found(rt, world, 120, 120);
}

/// All features but the last are deleted while a search has more to see.
fn delete_under_search(rt: &impl Abort, world: &mut World<Global>) {
    let search = begun(rt, world, 300);
    delete(rt, world, 1, 119);
    let under = tend_all(rt, world);
    assert!(rt; under.retired > 4);
    assert_eq!(rt; under.freed, 0);
    check_ended(rt, world, search, 120, 120);
    assert_eq!(rt; tend_all(rt, world).freed, under.retired);
    check_found(rt, world, 120, 120);
}

/// All features are deleted while a walk is below the root. Its leaf is freed, and it restarts.
fn delete_under_walk(rt: &impl Abort, world: &mut World<Global>) {
    let number = staged(rt, world, 1, &[addition(rt, 41)]);
    assert!(rt; world.advance(1, number) == Ok(Advance::Walked(Step::Moved)));
    delete(rt, world, 1, 40);
    assert!(rt; tend_all(rt, world).freed > 0);
    assert!(rt; world.advance(1, number) == Ok(Advance::Walked(Step::Restarted)));
    place_all(rt, world, 1, number);
    assert!(rt; matches!(world.commit(1, number), Ok(Outcome::Applied(81))));
    check_found(rt, world, 41, 41);
}

/// Opens a search for some of the features, and visits until it is ready. Returns its number, and
/// how many pairs it has found.
fn some_found(rt: &impl Abort, world: &mut World<Global>) -> (u64, usize) {
    let opened = world.open_search(2, square(rt, 0, 128));
    assert!(rt; opened.is_ok());
    let search = opened.unwrap();
    assert!(rt; world.found_count(search) == 0 && world.found_count(99) == 0);
    see_all(rt, world, 2, search);
    let count = world.found_count(search);
    assert!(rt; 10 < count && count < 40);
    (search, count)
}

/// Features that are deleted after a search has found them are not listed.
fn delete_what_was_found(rt: &impl Abort, world: &mut World<Global>) {
    let (search, count) = some_found(rt, world);
    delete(rt, world, 1, 2);
    assert_eq!(rt; world.found_count(search), count);
    let mut meter = Meter::new();
    let answered = world.finish(2, search, &mut meter);
    assert!(rt; answered.is_ok());
    assert!(rt; 0 < meter.ticks() && meter.ticks() <= count as u64);
    check_rows(rt, &answered.unwrap(), 3, 40, 128);
    assert_eq!(rt; world.found_count(search), 0);
}

/// A case over an index of several leaves.
#[derive(Clone, Copy, Debug, Drop)]
enum Course {
    PolicyChangedUnderSearch,
    SplitUnderSearch,
    ManyPlacedUnderSearch,
    SteppedBetweenPlacements,
    ReshapedUnderSearch,
    HeldByReadySearch,
    HeldUntilTheSearchIsDropped,
    HeldByNobody,
    AbortedShapesAreLetGo,
    CommittedShapesStay,
    DeletedFeaturesAreLetGo,
    TendedBeforeTheyAreDeleted,
    FreedOnceTheSearchHasEnded,
    WalksBeginAnew,
    FoundCountBoundsTheMeter,
}

/// The world for a case.
fn world_for(rt: &impl Abort, heap: Global, trial: Course) -> World<Global> {
    match trial {
        Course::DeletedFeaturesAreLetGo
        | Course::TendedBeforeTheyAreDeleted
        | Course::FreedOnceTheSearchHasEnded => filled(rt, heap, 120),
        _ => filled(rt, heap, 40),
    }
}

/// Runs a case.
fn go_on(rt: &impl Abort, heap: Global, world: &mut World<Global>, trial: Course) {
    match trial {
        Course::PolicyChangedUnderSearch => govern_under_search(rt, heap, world),
        Course::SplitUnderSearch => split_meanwhile(rt, world),
        Course::ManyPlacedUnderSearch => fill_meanwhile(rt, world),
        Course::SteppedBetweenPlacements => search_and_add(rt, world),
        Course::ReshapedUnderSearch => change_under_search(rt, world),
        Course::HeldByReadySearch => hold_until_finished(rt, world),
        Course::HeldUntilTheSearchIsDropped => hold_until_dropped(rt, world),
        Course::HeldByNobody => hold_nobody(rt, world),
        Course::AbortedShapesAreLetGo => place_and_abort(rt, world),
        Course::CommittedShapesStay => place_sixteen_and_commit(rt, world),
        Course::DeletedFeaturesAreLetGo => delete_and_fill(rt, world),
        Course::TendedBeforeTheyAreDeleted => tend_and_delete(rt, world),
        Course::FreedOnceTheSearchHasEnded => delete_under_search(rt, world),
        Course::WalksBeginAnew => delete_under_walk(rt, world),
        Course::FoundCountBoundsTheMeter => delete_what_was_found(rt, world),
    }
}

/// Runs each case, in a world of its own.
fn go_on_each(rt: &impl Abort, heap: Global, trials: &[Course]) {
    for trial in trials {
        let mut world = world_for(rt, heap, *trial);
        go_on(rt, heap, &mut world, *trial);
    }
}

#[test]
fn changed_under_search(rt: HostRuntime) {
    go_on_each(
        &rt,
        rt.alloc(),
        &[
            Course::PolicyChangedUnderSearch,
            Course::SplitUnderSearch,
            Course::ManyPlacedUnderSearch,
            Course::SteppedBetweenPlacements,
            Course::ReshapedUnderSearch,
        ],
    );
}

#[test]
fn held_by_searches(rt: HostRuntime) {
    go_on_each(
        &rt,
        rt.alloc(),
        &[
            Course::HeldByReadySearch,
            Course::HeldUntilTheSearchIsDropped,
            Course::HeldByNobody,
        ],
    );
}

#[test]
fn let_go_by_tending(rt: HostRuntime) {
    go_on_each(
        &rt,
        rt.alloc(),
        &[
            Course::AbortedShapesAreLetGo,
            Course::CommittedShapesStay,
            Course::DeletedFeaturesAreLetGo,
            Course::TendedBeforeTheyAreDeleted,
            Course::FreedOnceTheSearchHasEnded,
            Course::WalksBeginAnew,
            Course::FoundCountBoundsTheMeter,
        ],
    );
}
