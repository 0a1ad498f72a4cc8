//! The ends of counters and limits, and rolls of the trail.
use crate::worlds::{
    CLOSED, LIMITS, OPEN, STARTS, add, document, found, picture, placed, point, ready, seated,
    square, staged,
};
use audit_trail::{FIRST_LIMIT, RECORD_LIMIT};
use feature_store::{FEATURE_LIMIT, Meter};
use features::SUBJECT_LIMIT;
use plane::{LIMIT, LISTED_LIMIT};
use policy_text::{ZONE_LIMIT, print_document};
use std::alloc::Global;
use std::process::Abort;
use world::{
    Advance, CHANGE_LIMIT, Fault, Limits, Outcome, ROLLED_LIMIT, SEARCH_LIMIT, SEAT_LIMIT,
    STEP_LIMIT, Starts, Step, TRANSACTION_LIMIT, TreeFault, USUAL_FEATURES, Visit, World,
};

/// The line of the record of `add_mast`.
const ADDED: &str =
    r#"{"changes":[{"class":"mast","id":1,"shape":"POINT (4 4)","what":"add"}],"kind":"applied","number":1,"seat":1,"subject":"north","version":1}"#;

/// The line of the record of `find_mast` after it.
const LISTED: &str =
    r#"{"ids":[1],"kind":"answered","number":2,"seat":1,"subject":"north","window":"POLYGON ((0 0, 4 0, 4 4, 0 4, 0 0))"}"#;

/// The line of the record of a second `find_mast`.
const AGAIN: &str =
    r#"{"ids":[1],"kind":"answered","number":3,"seat":1,"subject":"north","window":"POLYGON ((0 0, 4 0, 4 4, 0 4, 0 0))"}"#;

/// North adds the mast 1 at (4, 4).
fn add_mast(rt: &impl Abort, world: &mut World<Global>) {
    let changes = [add(rt, 1, "mast", 4)];
    let number = placed(rt, world, 1, &changes);
    assert!(rt; matches!(world.commit(1, number), Ok(Outcome::Applied(1))));
}

/// North finds the mast in the square from (0, 0) to (4, 4).
fn find_mast(rt: &impl Abort, world: &mut World<Global>) {
    let answer = found(rt, world, 1, square(rt, 0, 4));
    let rows = answer.rows();
    assert!(rt; rows.len() == 1 && rows[0].id == 1 && rows[0].version == 1);
}

/// The steward rolls the trail. Checks the lines of the piece.
fn check_rolled(rt: &impl Abort, heap: Global, world: &mut World<Global>, lines: &[&str]) {
    let first = world.trail().first();
    let rolled = world.roll(heap, 3);
    assert!(rt; rolled.is_ok());
    let piece = rolled.unwrap();
    assert!(rt; piece.trail().first() == first);
    assert_eq!(rt; piece.trail().len() as usize, lines.len());
    assert_eq!(rt; piece.lines().len(), lines.len());
    for (line, expected) in piece.lines().iter().zip(lines) {
        assert_eq!(rt; line.as_str(), *expected);
    }
}

/// The trail is rolled with two records, with none and with one.
fn roll_three_times(rt: &impl Abort, heap: Global, world: &mut World<Global>) {
    add_mast(rt, world);
    find_mast(rt, world);
    check_rolled(rt, heap, world, &[ADDED, LISTED]);
    check_rolled(rt, heap, world, &[]);
    assert!(rt; world.trail().first() == 3 && world.trail().is_empty());
    find_mast(rt, world);
    check_rolled(rt, heap, world, &[AGAIN]);
    assert!(rt; world.trail().first() == 4);
}

/// The steward rolls the trail. Checks the base of the piece: its version, its edition, its
/// document and its features' ids.
fn check_base(
    rt: &impl Abort,
    heap: Global,
    world: &mut World<Global>,
    version: u64,
    edition: u64,
    policy: &str,
    ids: &[u64],
) {
    let rolled = world.roll(heap, 3);
    assert!(rt; rolled.is_ok());
    let piece = rolled.unwrap();
    let base = piece.base();
    assert!(rt; base.version == version && base.decider.edition() == edition);
    let printed = print_document(heap, base.decider.document());
    assert!(rt; printed.is_ok());
    assert_eq!(rt; printed.unwrap().as_str(), policy);
    assert_eq!(rt; base.features.len(), ids.len());
    assert!(rt; base.features.iter().zip(ids).all(|(row, id)| row.id == *id));
}

/// The trail is rolled before and after a policy comes into force, while a search and a transaction
/// are open.
fn roll_around_a_policy(rt: &impl Abort, heap: Global, world: &mut World<Global>) {
    let search = ready(rt, world, 1, point(rt, 9, 9));
    let open = placed(rt, world, 1, &[add(rt, 2, "mast", 4)]);
    add_mast(rt, world);
    check_base(rt, heap, world, 0, 1, OPEN, &[]);
    assert!(rt; matches!(world.govern(heap, 3, document(rt, heap, CLOSED)), Ok(2)));
    check_base(rt, heap, world, 1, 1, OPEN, &[1]);
    check_base(rt, heap, world, 1, 2, CLOSED, &[1]);
    end_both(rt, world, search, open);
}

/// The open search is finished, and the list of the open transaction is denied.
fn end_both(rt: &impl Abort, world: &mut World<Global>, search: u64, open: u64) {
    let mut meter = Meter::new();
    assert!(rt; world.finish(1, search, &mut meter).is_ok());
    assert!(rt; matches!(world.commit(1, open), Ok(Outcome::Refused(_, Some(_)))));
    assert!(rt; world.trail().first() == 3 && world.trail().len() == 2);
}

/// A world whose trail takes `records` records.
fn recording(rt: &impl Abort, heap: Global, records: u32) -> World<Global> {
    let limits = Limits {
        steps: 10,
        records,
        features: 10,
    };
    seated(rt, heap, heap, OPEN, STARTS, limits)
}

/// A search cannot be finished, however often it is tried, and is then dropped.
fn finish_in_vain(rt: &impl Abort, heap: Global, world: &mut World<Global>) {
    let before = picture(rt, heap, world);
    let search = ready(rt, world, 1, point(rt, 1, 1));
    let mut meter = Meter::new();
    for _ in 0..3 {
        assert!(rt; matches!(world.finish(1, search, &mut meter), Err(Fault::TrailFull)));
    }
    assert!(rt; world.drop_search(1, search) == Ok(()));
    assert_eq!(rt; picture(rt, heap, world).as_str(), before.as_str());
}

/// A search is finished once the trail, which takes one record, is rolled.
fn finish_after_a_roll(rt: &impl Abort, heap: Global, world: &mut World<Global>) {
    add_mast(rt, world);
    let search = ready(rt, world, 1, square(rt, 0, 4));
    let mut meter = Meter::new();
    assert!(rt; matches!(world.finish(1, search, &mut meter), Err(Fault::TrailFull)));
    check_rolled(rt, heap, world, &[ADDED]);
    assert!(rt; world.finish(1, search, &mut meter).is_ok());
    check_rolled(rt, heap, world, &[LISTED]);
}

/// North finds nothing at a point.
fn find_nothing(rt: &impl Abort, world: &mut World<Global>) {
    let answer = found(rt, world, 1, point(rt, 1, 1));
    assert_eq!(rt; answer.rows().len(), 0);
}

/// The trail can be rolled while it is empty, but not once it has a record.
fn roll_in_vain(rt: &impl Abort, heap: Global, world: &mut World<Global>) {
    assert!(rt; world.trail().first() == 4_611_686_018_427_387_904);
    check_rolled(rt, heap, world, &[]);
    find_nothing(rt, world);
    let before = picture(rt, heap, world);
    assert!(rt; matches!(world.roll(heap, 3), Err(Fault::Spent)));
    assert!(rt; matches!(world.roll(heap, 1), Err(Fault::NotSteward)));
    assert_eq!(rt; picture(rt, heap, world).as_str(), before.as_str());
}

/// No list is applied, but one with a failing change is still rejected.
fn commit_in_vain(rt: &impl Abort, heap: Global, world: &mut World<Global>) {
    let before = picture(rt, heap, world);
    let number = placed(rt, world, 1, &[add(rt, 1, "mast", 4)]);
    assert!(rt; matches!(world.commit(1, number), Err(Fault::Spent)));
    assert_eq!(rt; picture(rt, heap, world).as_str(), before.as_str());
    let absent = [features::Change::Delete { id: 9, version: 1 }];
    let other = placed(rt, world, 1, &absent);
    assert!(rt; matches!(world.commit(1, other), Ok(Outcome::Refused(_, None))));
}

/// A document is not put in force, and is returned.
fn govern_in_vain(rt: &impl Abort, heap: Global, world: &mut World<Global>) {
    let before = picture(rt, heap, world);
    match world.govern(heap, 3, document(rt, heap, CLOSED)) {
        Ok(_) => assert!(rt; false, "a document was put in force"),
        Err((back, fault)) => {
            assert!(rt; fault == Fault::Spent);
            assert!(rt; back == document(rt, heap, CLOSED));
        }
    }
    assert_eq!(rt; picture(rt, heap, world).as_str(), before.as_str());
}

/// After the last search no other is opened.
fn search_in_vain(rt: &impl Abort, heap: Global, world: &mut World<Global>) {
    find_nothing(rt, world);
    let before = picture(rt, heap, world);
    let spent = Err(Fault::Tree(TreeFault::Spent));
    assert!(rt; world.open_search(1, point(rt, 1, 1)) == spent);
    assert_eq!(rt; picture(rt, heap, world).as_str(), before.as_str());
}

/// A world whose searches and walks make at most `steps` steps. The counter of its index starts at
/// `counter`.
fn stepping(rt: &impl Abort, heap: Global, steps: u32, counter: u64) -> World<Global> {
    let limits = Limits { steps, ..LIMITS };
    let starts = Starts { counter, ..STARTS };
    seated(rt, heap, heap, OPEN, starts, limits)
}

/// North adds the masts 1 to `last`, mast `n` at (`n`, `n`), each in a list of its own.
fn add_masts(rt: &impl Abort, world: &mut World<Global>, last: u64) {
    let mut at = 0i32;
    for id in 1..=last {
        at = at.saturating_add(1);
        let number = placed(rt, world, 1, &[add(rt, id, "mast", at)]);
        assert!(rt; matches!(world.commit(1, number), Ok(Outcome::Applied(_))));
    }
}

/// North adds sixteen masts at one point, each by a walk of one step.
fn fill_leaf(rt: &impl Abort, world: &mut World<Global>) {
    for id in 1..=16 {
        let number = staged(rt, world, 1, &[add(rt, id, "mast", 4)]);
        assert!(rt; world.advance(1, number) == Ok(Advance::Walked(Step::Placed)));
        assert!(rt; matches!(world.commit(1, number), Ok(Outcome::Applied(_))));
    }
}

/// A walk that needs more than one step ends its transaction.
fn walk_too_far(rt: &impl Abort, heap: Global, world: &mut World<Global>) {
    fill_leaf(rt, world);
    let before = picture(rt, heap, world);
    let number = staged(rt, world, 1, &[add(rt, 17, "mast", 4)]);
    assert!(rt; world.advance(1, number) == Ok(Advance::Walked(Step::Split)));
    assert!(rt; world.advance(1, number) == Err(Fault::Tree(TreeFault::Overrun)));
    assert!(rt; world.advance(1, number) == Err(Fault::NoSuch));
    assert!(rt; matches!(world.commit(1, number), Err(Fault::NoSuch)));
    assert_eq!(rt; picture(rt, heap, world).as_str(), before.as_str());
}

/// How many steps a search makes before it is ended by S7.
fn steps_of(rt: &impl Abort, world: &mut World<Global>, search: u64) -> u32 {
    let mut steps = 0u32;
    for _ in 0..100 {
        match world.visit(1, search) {
            Ok(visit) => assert!(rt; visit == Visit::More),
            Err(fault) => {
                assert!(rt; fault == Fault::Tree(TreeFault::Overrun));
                return steps;
            }
        }
        steps = steps.saturating_add(1);
    }
    panic!(rt; "a search makes more than 100 steps")
}

/// A search that needs more than nine steps is ended.
fn search_too_far(rt: &impl Abort, heap: Global, world: &mut World<Global>) {
    add_masts(rt, world, 100);
    let before = picture(rt, heap, world);
    let opened = world.open_search(1, square(rt, 0, 200));
    assert!(rt; opened.is_ok());
    let search = opened.unwrap();
    assert_eq!(rt; steps_of(rt, world, search), 9);
    assert!(rt; world.visit(1, search) == Err(Fault::NoSuch));
    assert!(rt; world.drop_search(1, search) == Err(Fault::NoSuch));
    assert_eq!(rt; picture(rt, heap, world).as_str(), before.as_str());
}

/// Advances the walk of a transaction until all is placed, or until S6 since the index's counter is
/// at its end. Returns whether S6 came; it then comes again, and the list cannot be committed.
fn is_spent(rt: &impl Abort, world: &mut World<Global>, number: u64) -> bool {
    let spent = Err(Fault::Tree(TreeFault::Spent));
    for _ in 0..100 {
        let step = world.advance(1, number);
        if step == spent {
            assert!(rt; world.advance(1, number) == spent);
            assert!(rt; matches!(world.commit(1, number), Err(Fault::NotPlaced)));
            return true;
        }
        assert!(rt; step.is_ok());
        if step == Ok(Advance::AllPlaced) {
            return false;
        }
    }
    panic!(rt; "a walk makes more than 100 steps")
}

/// North adds masts at one point until a leaf below the root has split and its right node is to be
/// installed, which the index's counter does not allow.
fn add_until_spent(rt: &impl Abort, world: &mut World<Global>) {
    for id in 1..=64 {
        let number = staged(rt, world, 1, &[add(rt, id, "mast", 4)]);
        if is_spent(rt, world, number) {
            check_placed(rt, world, id.saturating_sub(1));
            assert!(rt; world.abort(1, number) == Ok(()));
            return;
        }
        assert!(rt; matches!(world.commit(1, number), Ok(Outcome::Applied(_))));
    }
    assert!(rt; false, "no leaf below the root is parted");
}

/// Checks that the masts that were added are found.
fn check_placed(rt: &impl Abort, world: &mut World<Global>, count: u64) {
    let answer = found(rt, world, 1, square(rt, 0, 9));
    assert_eq!(rt; answer.rows().len() as u64, count);
}

#[test]
fn limits_of_every_world(rt: HostRuntime) {
    assert_eq!(rt; (LIMIT, LISTED_LIMIT), (10_000_000, 64));
    assert_eq!(rt; (SUBJECT_LIMIT, ZONE_LIMIT), (64, 64));
    assert_eq!(rt; (FEATURE_LIMIT, USUAL_FEATURES), (4_000_000, 100_000));
    assert_eq!(rt;
        (Limits::USUAL.features, Limits::GREATEST.features),
        (100_000, 4_000_000)
    );
    assert_eq!(rt; RECORD_LIMIT, 1_048_576);
    assert_eq!(rt; FIRST_LIMIT, 4_611_686_018_427_387_904);
    assert_eq!(rt; ROLLED_LIMIT, 4_611_686_018_427_387_903);
    assert_eq!(rt; (SEAT_LIMIT, SEARCH_LIMIT), (1_024, 16));
    assert_eq!(rt; (TRANSACTION_LIMIT, CHANGE_LIMIT), (64, 16));
    assert_eq!(rt; STEP_LIMIT, 1_000_000);
}

/// A case of a counter or a limit at its end, or of a roll.
#[derive(Clone, Copy, Debug, Drop)]
enum End {
    PiecesAndTheirLines,
    EachPieceBeginsWhereTheLastEnded,
    EndsOfCounters,
    AFullTrailIsRolled,
    NumbersThatWouldNotFit,
    TheLastVersion,
    TheLastEdition,
    TheLastSearch,
    TheLastStepOfAWalk,
    TheLastStepOfASearch,
    TheLastCountOfTheIndex,
}

/// The world for a case.
fn world_for(rt: &impl Abort, heap: Global, trial: End) -> World<Global> {
    match trial {
        End::EndsOfCounters => recording(rt, heap, 0),
        End::AFullTrailIsRolled => recording(rt, heap, 1),
        End::NumbersThatWouldNotFit => seated(
            rt,
            heap,
            heap,
            OPEN,
            Starts {
                rolled: ROLLED_LIMIT,
                ..STARTS
            },
            LIMITS,
        ),
        End::TheLastVersion => seated(
            rt,
            heap,
            heap,
            OPEN,
            Starts {
                version: u64::MAX,
                ..STARTS
            },
            LIMITS,
        ),
        End::TheLastEdition => seated(
            rt,
            heap,
            heap,
            OPEN,
            Starts {
                edition: u64::MAX,
                ..STARTS
            },
            LIMITS,
        ),
        End::TheLastSearch => seated(
            rt,
            heap,
            heap,
            OPEN,
            Starts {
                search: u64::MAX - 1,
                ..STARTS
            },
            LIMITS,
        ),
        End::TheLastStepOfAWalk => stepping(rt, heap, 1, 0),
        End::TheLastStepOfASearch => stepping(rt, heap, 9, 0),
        End::TheLastCountOfTheIndex => stepping(rt, heap, 1_000, u64::MAX),
        _ => seated(rt, heap, heap, OPEN, STARTS, LIMITS),
    }
}

/// Runs a case.
fn come_to_end(rt: &impl Abort, heap: Global, world: &mut World<Global>, trial: End) {
    match trial {
        End::PiecesAndTheirLines => roll_three_times(rt, heap, world),
        End::EachPieceBeginsWhereTheLastEnded => roll_around_a_policy(rt, heap, world),
        End::EndsOfCounters => finish_in_vain(rt, heap, world),
        End::AFullTrailIsRolled => finish_after_a_roll(rt, heap, world),
        End::NumbersThatWouldNotFit => roll_in_vain(rt, heap, world),
        End::TheLastVersion => commit_in_vain(rt, heap, world),
        End::TheLastEdition => govern_in_vain(rt, heap, world),
        End::TheLastSearch => search_in_vain(rt, heap, world),
        End::TheLastStepOfAWalk => walk_too_far(rt, heap, world),
        End::TheLastStepOfASearch => search_too_far(rt, heap, world),
        End::TheLastCountOfTheIndex => add_until_spent(rt, world),
    }
}

/// Runs each case, in a world of its own.
fn come_to_end_each(rt: &impl Abort, heap: Global, trials: &[End]) {
    for trial in trials {
        let mut world = world_for(rt, heap, *trial);
        come_to_end(rt, heap, &mut world, *trial);
    }
}

#[test]
fn ends_of_trails_and_numbers(rt: HostRuntime) {
    come_to_end_each(
        &rt,
        rt.alloc(),
        &[
            End::PiecesAndTheirLines,
            End::EachPieceBeginsWhereTheLastEnded,
            End::EndsOfCounters,
            End::AFullTrailIsRolled,
            End::NumbersThatWouldNotFit,
            End::TheLastVersion,
            End::TheLastEdition,
            End::TheLastSearch,
        ],
    );
}

#[test]
fn ends_of_the_index(rt: HostRuntime) {
    come_to_end_each(
        &rt,
        rt.alloc(),
        &[
            End::TheLastStepOfAWalk,
            End::TheLastStepOfASearch,
            End::TheLastCountOfTheIndex,
        ],
    );
}
