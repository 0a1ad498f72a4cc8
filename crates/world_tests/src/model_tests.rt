//! Ten thousand random turns of sixteen seats, compared with a plain world of lists: answers,
//! outcomes, refusals by their codes, and the records of answers and of lists.
use crate::dice::Dice;
use crate::happened::Happened;
use crate::listed_world::{
    Area, Draft, Edit, FEATURES, Look, Mark, PlainWorld, RECORDS, Spot, check_seat, is_steward,
    office_of, shapes_of,
};
use crate::parts::{document, name, point, square};
use audit_trail::{Deed, Record};
use feature_store::Meter;
use features::{Change, Feature, Name, Subject, Subjects};
use kept_shapes::ChangeList;
use policy_text::Document;
use std::alloc::Global;
use std::process::Abort;
use std::test::Fail;
use world::{Advance, Answer, Fault, Limits, Outcome, Starts, Step, TreeFault, Visit, World};

/// How many turns there are. Each tries one event, or a few of a kind.
const EVENTS: u32 = 10_000;

/// Ids are drawn below this. It is above the greatest number of features.
const IDS: u32 = 450;

/// The document of the plain world's policy of this number.
fn policy(rt: &impl Abort, heap: Global, number: u32) -> Document<Global> {
    let text = match number {
        0 => {
            r#"{"root":{"combine":"first-applicable","policy":"p","rules":[{"effect":"permit","rule":"open"}]}}"#
        }
        1 => {
            r#"{"root":{"combine":"deny-overrides","policy":"p","rules":[{"effect":"permit","rule":"roads","target":[[[{"class":"class0"}]]]}]}}"#
        }
        2 => {
            r#"{"root":{"combine":"first-applicable","policy":"p","rules":[{"effect":"deny","rule":"none","target":[[[{"class":"class1"}]]]},{"effect":"permit","rule":"open"}]}}"#
        }
        3 => {
            r#"{"root":{"combine":"permit-overrides","policy":"p","rules":[{"effect":"permit","rule":"all-read","target":[[[{"action":"read"}]]]},{"effect":"permit","rule":"mine","when":[{"own":true}]}]}}"#
        }
        _ => {
            r#"{"root":{"combine":"first-applicable","policy":"p","rules":[{"effect":"permit","rule":"west","target":[[[{"zone":"west"}]]]}]},"zones":[{"shape":"POLYGON ((0 0, 31 0, 31 70, 0 70, 0 0))","zone":"west"}]}"#
        }
    };
    document(rt, heap, text)
}

fn office(rt: &impl Abort, number: u32) -> Name {
    match number {
        0 => name(rt, "east"),
        1 => name(rt, "north"),
        2 => name(rt, "south"),
        _ => name(rt, "chief"),
    }
}

fn class(rt: &impl Abort, number: u32) -> Name {
    match number {
        0 => name(rt, "class0"),
        1 => name(rt, "class1"),
        _ => name(rt, "class2"),
    }
}

/// The subject of a seat.
fn subject(rt: &impl Abort, seat: u32) -> Subject {
    let office = office(rt, office_of(seat));
    Subject {
        name: office,
        office,
        role: name(rt, "editor"),
        steward: is_steward(seat),
    }
}

/// A world of sixteen seats, four for each office.
fn opened(rt: &impl Abort, heap: Global) -> World<Global> {
    let made = Subjects::new(&[
        subject(rt, 1),
        subject(rt, 2),
        subject(rt, 3),
        subject(rt, 4),
    ]);
    assert!(rt; made.is_ok());
    let limits = Limits {
        steps: 1_000,
        records: RECORDS,
        features: FEATURES,
    };
    let opened = World::open_at(
        heap,
        heap,
        made.unwrap(),
        policy(rt, heap, 0),
        Starts::FIRST,
        limits,
    );
    assert!(rt; opened.is_ok());
    let mut world = opened.unwrap();
    give_seats(rt, &mut world);
    world
}

fn give_seats(rt: &impl Abort, world: &mut World<Global>) {
    for seat in 1..17 {
        assert!(rt; world.seat(office(rt, office_of(seat))) == Ok(seat));
    }
}

/// The result, with the code of a fault.
fn coded<T: Drop>(told: Result<T, Fault>) -> Result<T, &'static str> {
    match told {
        Ok(value) => Ok(value),
        Err(fault) => Err(fault.code()),
    }
}

/// The world's change for an edit.
fn change(rt: &impl Abort, edit: &Edit) -> Change {
    match edit {
        Edit::Add {
            id,
            class: number,
            x,
            y,
        } => Change::Add {
            id: *id,
            class: class(rt, *number),
            shape: point(rt, *x, *y),
        },
        Edit::Move { id, version, x, y } => Change::Reshape {
            id: *id,
            version: *version,
            shape: point(rt, *x, *y),
        },
        Edit::Remove { id, version } => Change::Delete {
            id: *id,
            version: *version,
        },
    }
}

/// The world's feature for a mark.
fn feature(rt: &impl Abort, mark: &Mark) -> Feature {
    Feature {
        id: mark.id,
        version: mark.version,
        office: office(rt, mark.office),
        class: class(rt, mark.class),
        shape: point(rt, mark.x, mark.y),
    }
}

/// Checks that the newest record is that of this seat and this deed.
fn check_newest(rt: &impl Abort, world: &World<Global>, seat: u32, deed: Deed<Global>) {
    let trail = world.trail();
    let behind = trail.first().saturating_add(u64::from(trail.len()));
    let found = trail.get(behind.saturating_sub(1));
    assert!(rt; found.is_some());
    assert!(rt; **found.unwrap() == Record::new(seat, deed));
}

/// Tries to open a search.
fn try_open(rt: &impl Abort, dice: &mut Dice, plain: &mut PlainWorld, world: &mut World<Global>) {
    let seat = dice.seat();
    let low = dice.place();
    let area = Area {
        low,
        high: low.saturating_add(1).saturating_add(dice.side()),
    };
    let told = coded(world.open_search(seat, square(rt, area.low, area.high)));
    if check_seat(seat).is_err() {
        assert!(rt; told == Err("X1"));
    } else if plain.looks.len() >= 16 {
        assert!(rt; told == Err("S2"));
    } else {
        assert!(rt; told == Ok(plain.next_look));
        let look = Look {
            number: plain.next_look,
            seat,
            area,
            visited: false,
            ready: false,
        };
        assert!(rt; plain.looks.push(look).is_ok());
        plain.next_look = plain.next_look.saturating_add(1);
    }
}

/// The seat and the number of a running search; at times another seat or another number.
fn a_look(dice: &mut Dice, plain: &PlainWorld) -> (u32, u64) {
    let at = dice.below(17) as usize;
    match plain.looks.get(at) {
        Some(look) if dice.below(8) > 0 => (look.seat, look.number),
        Some(look) => (dice.seat(), look.number),
        None => (dice.seat(), dice.below(100) as u64),
    }
}

/// Tries to visit a search a few times.
fn try_visit(
    rt: &impl Abort,
    dice: &mut Dice,
    plain: &mut PlainWorld,
    world: &mut World<Global>,
    happened: &mut Happened,
) {
    let (seat, number) = a_look(dice, plain);
    for _ in 0..dice.a_few() {
        visit_one(rt, plain, world, happened, seat, number);
    }
}

/// Tries to visit a search. Only the world knows whether there is more to see, but a search that
/// was ready has to stay ready.
fn visit_one(
    rt: &impl Abort,
    plain: &mut PlainWorld,
    world: &mut World<Global>,
    happened: &mut Happened,
    seat: u32,
    number: u64,
) {
    match (plain.look(seat, number), coded(world.visit(seat, number))) {
        (Err(expected), Err(code)) => assert_eq!(rt; code, expected),
        (Ok(look), Ok(visit)) => {
            assert!(rt; visit == Visit::Ready || !look.ready);
            if visit == Visit::More {
                happened.more = happened.more.saturating_add(1);
            }
            mark_visited(plain, number, visit);
        }
        _ => assert!(rt; false, "visit {seat} {number}"),
    }
}

/// Marks a search as visited, and as ready if the visit returned `Ready`.
fn mark_visited(plain: &mut PlainWorld, number: u64, visit: Visit) {
    for look in plain.looks.iter_mut() {
        if look.number == number {
            look.visited = true;
            look.ready = visit == Visit::Ready;
        }
    }
}

/// The search that is finished, by the plain world. X1, X2, X3 and X10, in this order.
fn finished(plain: &PlainWorld, seat: u32, number: u64) -> Result<Look, &'static str> {
    let look = plain.look(seat, number)?;
    if !look.ready {
        return Err("X3");
    }
    plain.check_trail()?;
    Ok(look)
}

/// Tries to finish a search.
fn try_finish(
    rt: &impl Abort,
    heap: Global,
    dice: &mut Dice,
    plain: &mut PlainWorld,
    world: &mut World<Global>,
) {
    let (seat, number) = a_look(dice, plain);
    let mut meter = Meter::new();
    let found = world.found_count(number);
    let told = coded(world.finish(seat, number, &mut meter));
    assert!(rt; meter.ticks() <= found as u64);
    match (finished(plain, seat, number), told) {
        (Err(expected), Err(code)) => assert_eq!(rt; code, expected),
        (Ok(look), Ok(answer)) => {
            check_answer(rt, plain, &look, &answer);
            check_newest(rt, world, seat, answered(rt, heap, &answer));
            plain.looks.retain(|other| other.number != number);
            plain.records = plain.records.saturating_add(1);
        }
        _ => assert!(rt; false, "finish {seat} {number}"),
    }
}

/// Checks that the answer lists what the plain world shows, and has the edition in force, the
/// subject and the window.
fn check_answer(rt: &impl Abort, plain: &PlainWorld, look: &Look, answer: &Answer<Global>) {
    let office = office_of(look.seat);
    let rows = answer.rows();
    let mut at = 0usize;
    for mark in plain.marks.iter() {
        if plain.shows(office, &look.area, mark) {
            assert!(rt; rows.get(at).copied() == Some(feature(rt, mark)));
            at = at.saturating_add(1);
        }
    }
    assert_eq!(rt; rows.len(), at);
    assert_eq!(rt; answer.decider().edition(), plain.edition);
    assert!(rt; answer.subject() == subject(rt, look.seat));
    assert!(rt; answer.window() == square(rt, look.area.low, look.area.high));
}

/// The deed that records an answer.
fn answered(rt: &impl Abort, heap: Global, answer: &Answer<Global>) -> Deed<Global> {
    let mut ids = Vec::new(heap);
    let mut versions = Vec::new(heap);
    for row in answer.rows() {
        assert!(rt; ids.push(row.id).is_ok() && versions.push(row.version).is_ok());
    }
    Deed::Answered {
        subject: answer.subject(),
        window: answer.window(),
        ids,
        versions,
    }
}

/// Tries to drop a search.
fn try_drop(rt: &impl Abort, dice: &mut Dice, plain: &mut PlainWorld, world: &mut World<Global>) {
    let (seat, number) = a_look(dice, plain);
    let told = coded(world.drop_search(seat, number));
    match plain.look(seat, number) {
        Err(code) => assert!(rt; told == Err(code)),
        Ok(_) => {
            assert!(rt; told == Ok(()));
            plain.looks.retain(|look| look.number != number);
        }
    }
}

/// Tries to open a transaction.
fn try_begin(
    rt: &impl Abort,
    heap: Global,
    dice: &mut Dice,
    plain: &mut PlainWorld,
    world: &mut World<Global>,
) {
    let seat = dice.seat();
    let told = coded(world.begin(seat));
    if check_seat(seat).is_err() {
        assert!(rt; told == Err("X1"));
    } else if plain.drafts.len() >= 64 {
        assert!(rt; told == Err("X15"));
    } else {
        assert!(rt; told == Ok(plain.next_draft));
        let draft = Draft {
            number: plain.next_draft,
            seat,
            edits: Vec::new(heap),
            placed: 0,
        };
        assert!(rt; plain.drafts.push(draft).is_ok());
        plain.next_draft = plain.next_draft.saturating_add(1);
    }
}

/// The seat and the number of an open transaction; at times another seat or another number.
fn a_draft(dice: &mut Dice, plain: &PlainWorld) -> (u32, u64) {
    let at = dice.below(8) as usize;
    match plain.drafts.get(at) {
        Some(draft) if dice.below(8) > 0 => (draft.seat, draft.number),
        Some(draft) => (dice.seat(), draft.number),
        None => (dice.seat(), dice.below(100) as u64),
    }
}

/// The id and the version of a mark; at times random ones.
fn a_mark(dice: &mut Dice, plain: &PlainWorld) -> (u64, u64) {
    let count = u32::try_from(plain.marks.len()).unwrap_or(0);
    let at = dice.below(count) as usize;
    match plain.marks.get(at) {
        Some(mark) if dice.below(16) > 0 => (mark.id, mark.version),
        _ => (dice.below(IDS) as u64, dice.below(30) as u64),
    }
}

/// An id that no mark has; at times any id.
fn a_new_id(dice: &mut Dice, plain: &PlainWorld) -> u64 {
    let drawn = dice.below(IDS) as u64;
    if dice.below(16) == 0 {
        return drawn;
    }
    for id in drawn..drawn.saturating_add(100) {
        if !plain.stands(id) {
            return id;
        }
    }
    drawn
}

/// A random addition.
fn an_addition(dice: &mut Dice, plain: &PlainWorld) -> Edit {
    Edit::Add {
        id: a_new_id(dice, plain),
        class: dice.below(3),
        x: dice.place(),
        y: dice.place(),
    }
}

/// A random edit: mostly an addition while the world grows, and mostly a removal while it does not.
fn an_edit(dice: &mut Dice, plain: &PlainWorld, grows: bool) -> Edit {
    let (id, version) = a_mark(dice, plain);
    match (dice.below(8), grows) {
        (0, _) => Edit::Move {
            id,
            version,
            x: dice.place(),
            y: dice.place(),
        },
        (1, _) => Edit::Remove { id, version },
        (2, _) => an_addition(dice, plain),
        (_, true) => an_addition(dice, plain),
        (_, false) => Edit::Remove { id, version },
    }
}

/// Whether an edit can be staged, by the plain world. X1, X2, X6 and X5, in this order.
fn stageable(plain: &PlainWorld, seat: u32, number: u64, edit: &Edit) -> Result<(), &'static str> {
    let draft = plain.draft(seat, number)?;
    if draft.edits.len() >= 16 {
        return Err("X6");
    }
    if draft.edits.iter().any(|other| other.id() == edit.id()) {
        return Err("X5");
    }
    Ok(())
}

/// Tries to stage a few changes.
fn try_stage(
    rt: &impl Abort,
    dice: &mut Dice,
    plain: &mut PlainWorld,
    world: &mut World<Global>,
    grows: bool,
) {
    let (seat, number) = a_draft(dice, plain);
    for _ in 0..dice.a_few() {
        let edit = an_edit(dice, plain, grows);
        stage_one(rt, plain, world, seat, number, edit);
    }
}

/// Tries to stage a change.
fn stage_one(
    rt: &impl Abort,
    plain: &mut PlainWorld,
    world: &mut World<Global>,
    seat: u32,
    number: u64,
    edit: Edit,
) {
    let expected = stageable(plain, seat, number, &edit);
    assert!(rt; coded(world.stage(seat, number, change(rt, &edit))) == expected);
    if expected.is_ok() {
        for draft in plain.drafts.iter_mut() {
            if draft.number == number {
                assert!(rt; draft.edits.push(edit).is_ok());
            }
        }
    }
}

/// Tries a few steps of the walks of a transaction.
fn try_advance(
    rt: &impl Abort,
    dice: &mut Dice,
    plain: &mut PlainWorld,
    world: &mut World<Global>,
    happened: &mut Happened,
) {
    let (seat, number) = a_draft(dice, plain);
    for _ in 0..dice.a_few() {
        advance_one(rt, plain, world, happened, seat, number);
    }
}

/// Tries a step of the walk of a transaction's next shape. Only the world knows where the walk is.
/// Checks that no shape is placed that a ready search looks for, and that only a search that has
/// made a step and looks for the shape holds it.
fn advance_one(
    rt: &impl Abort,
    plain: &mut PlainWorld,
    world: &mut World<Global>,
    happened: &mut Happened,
    seat: u32,
    number: u64,
) {
    let told = world.advance(seat, number);
    match (plain.next_spot(seat, number), told) {
        (Err(expected), Err(fault)) => assert_eq!(rt; fault.code(), expected),
        (Ok(None), Ok(Advance::AllPlaced)) => {}
        (Ok(Some(spot)), Ok(Advance::Walked(step))) => {
            check_step(rt, plain, number, &spot, step);
            happened.count_step(step);
        }
        (Ok(Some(spot)), Err(Fault::Tree(TreeFault::Held(search)))) => {
            assert!(rt; plain.may_hold(search, &spot));
            happened.held = happened.held.saturating_add(1);
        }
        _ => assert!(rt; false, "advance {seat} {number}"),
    }
}

/// Notes a step of a walk. The last one places the shape, which no ready search may look for; any
/// other changes nothing.
fn check_step(rt: &impl Abort, plain: &mut PlainWorld, number: u64, spot: &Spot, step: Step) {
    if step != Step::Placed {
        return;
    }
    assert!(rt; !plain.is_held(spot));
    for draft in plain.drafts.iter_mut() {
        if draft.number == number {
            draft.placed = draft.placed.saturating_add(1);
        }
    }
}

/// Tries to abort a transaction.
fn try_abort(rt: &impl Abort, dice: &mut Dice, plain: &mut PlainWorld, world: &mut World<Global>) {
    let (seat, number) = a_draft(dice, plain);
    let expected = match plain.draft(seat, number) {
        Ok(_) => Ok(()),
        Err(code) => Err(code),
    };
    assert!(rt; coded(world.abort(seat, number)) == expected);
    if expected.is_ok() {
        plain.drafts.retain(|draft| draft.number != number);
    }
}

/// The staged edits of a transaction that is committed, by the plain world. X1, X2, X4 and X10, in
/// this order.
fn committed(
    rt: &impl Abort,
    heap: Global,
    plain: &PlainWorld,
    seat: u32,
    number: u64,
) -> Result<Vec<Edit>, &'static str> {
    let draft = plain.draft(seat, number)?;
    if draft.placed < shapes_of(draft.edits.as_slice()) {
        return Err("X4");
    }
    plain.check_trail()?;
    let copied = Vec::from_slice(heap, draft.edits.as_slice());
    assert!(rt; copied.is_ok());
    Ok(copied.unwrap())
}

/// Tries to commit a transaction.
fn try_commit(
    rt: &impl Abort,
    heap: Global,
    dice: &mut Dice,
    plain: &mut PlainWorld,
    world: &mut World<Global>,
) {
    let (seat, number) = a_draft(dice, plain);
    let told = coded(world.commit(seat, number));
    match (committed(rt, heap, plain, seat, number), told) {
        (Err(expected), Err(code)) => assert_eq!(rt; code, expected),
        (Ok(edits), Ok(outcome)) => {
            check_outcome(rt, heap, plain, world, seat, edits.as_slice(), &outcome);
            plain.drafts.retain(|draft| draft.number != number);
            plain.records = plain.records.saturating_add(1);
        }
        (Ok(edits), Err(code)) => {
            assert_eq!(rt; code, "X11");
            assert!(rt; plain.judged(office_of(seat), edits.as_slice()).is_none());
            assert!(rt; plain.count_after(edits.as_slice()) > FEATURES as usize);
        }
        _ => assert!(rt; false, "commit {seat} {number}"),
    }
}

/// Checks that a list ended as the plain world judges it, and makes the edits of an applied list in
/// the plain world.
fn check_outcome(
    rt: &impl Abort,
    heap: Global,
    plain: &mut PlainWorld,
    world: &World<Global>,
    seat: u32,
    edits: &[Edit],
    outcome: &Outcome,
) {
    match (plain.judged(office_of(seat), edits), outcome) {
        (None, Outcome::Applied(version)) => {
            assert!(rt; plain.count_after(edits) <= FEATURES as usize);
            assert_eq!(rt; *version, plain.version.saturating_add(1));
            check_newest(rt, world, seat, applied(rt, heap, seat, *version, edits));
            plain.version = *version;
            make_all(rt, plain, office_of(seat), *version, edits);
        }
        (Some((number, cause)), Outcome::Refused(refusal, denial)) => {
            assert!(rt; refusal.change == number && refusal.cause == cause);
            let deed = Deed::Refused {
                subject: subject(rt, seat),
                changes: changes(rt, heap, edits),
                refusal: *refusal,
            };
            check_newest(rt, world, seat, deed);
            match denial {
                Some(denial) => {
                    assert_eq!(rt; denial.decider().edition(), plain.edition);
                    assert!(rt; cause == judging::Cause::Denied(denial.rule()));
                }
                None => assert!(rt; !matches!(cause, judging::Cause::Denied(_))),
            }
        }
        _ => assert!(rt; false, "an outcome of seat {seat}"),
    }
}

/// Makes the edits in the plain world.
fn make_all(rt: &impl Abort, plain: &mut PlainWorld, office: u32, version: u64, edits: &[Edit]) {
    for edit in edits {
        plain.make(rt, office, version, edit);
    }
}

/// The world's changes for edits, as a record keeps them.
fn changes(rt: &impl Abort, heap: Global, edits: &[Edit]) -> ChangeList<Global> {
    let mut changes = Vec::new(heap);
    for edit in edits {
        assert!(rt; changes.push(change(rt, edit)).is_ok());
    }
    let list = ChangeList::new(heap, changes.as_slice());
    assert!(rt; list.is_ok());
    list.unwrap()
}

/// The deed that records an applied list.
fn applied(rt: &impl Abort, heap: Global, seat: u32, version: u64, edits: &[Edit]) -> Deed<Global> {
    Deed::Applied {
        subject: subject(rt, seat),
        version,
        changes: changes(rt, heap, edits),
    }
}

/// Tries to put a policy in force.
fn try_govern(
    rt: &impl Abort,
    heap: Global,
    dice: &mut Dice,
    plain: &mut PlainWorld,
    world: &mut World<Global>,
) {
    let seat = dice.seat();
    let number = dice.policy();
    let told = match world.govern(heap, seat, policy(rt, heap, number)) {
        Ok(edition) => Ok(edition),
        Err((_, fault)) => Err(fault.code()),
    };
    if let Err(code) = plain.check_steward(seat) {
        assert!(rt; told == Err(code));
    } else if let Err(code) = plain.check_trail() {
        assert!(rt; told == Err(code));
    } else {
        plain.edition = plain.edition.saturating_add(1);
        plain.policy = number;
        plain.records = plain.records.saturating_add(1);
        assert!(rt; told == Ok(plain.edition));
        assert!(rt; *world.document() == policy(rt, heap, number));
    }
}

/// Tries to roll the trail.
fn try_roll(
    rt: &impl Abort,
    heap: Global,
    dice: &mut Dice,
    plain: &mut PlainWorld,
    world: &mut World<Global>,
) {
    let seat = dice.seat();
    match (plain.check_steward(seat), world.roll(heap, seat)) {
        (Err(code), Err(fault)) => assert_eq!(rt; fault.code(), code),
        (Ok(()), Ok(piece)) => {
            assert_eq!(rt; piece.trail().first(), plain.first);
            assert_eq!(rt; piece.lines().len(), plain.records as usize);
            check_marks(rt, piece.base().features.as_slice(), plain.base.as_slice());
            plain.first = plain.first.saturating_add(u64::from(plain.records));
            plain.records = 0;
            plain.base.clear();
            assert!(rt; plain.base.extend_from_slice(plain.marks.as_slice()).is_ok());
        }
        _ => assert!(rt; false, "roll {seat}"),
    }
}

/// Checks that the features are these marks.
fn check_marks(rt: &impl Abort, features: &[Feature], marks: &[Mark]) {
    assert_eq!(rt; features.len(), marks.len());
    for (row, mark) in features.iter().zip(marks) {
        assert!(rt; *row == feature(rt, mark), "{}", mark.id);
    }
}

/// Asks for a seat for nobody, which is not given.
fn try_nobody(rt: &impl Abort, world: &mut World<Global>) {
    assert!(rt; coded(world.seat(name(rt, "nobody"))) == Err("X13"));
}

/// Tends a slot of the index, which may be one that does not exist, or rarely all slots.
fn try_tend(rt: &impl Abort, dice: &mut Dice, world: &mut World<Global>, happened: &mut Happened) {
    let slots = world.slots();
    if dice.below(16) > 0 {
        tend_one(rt, world, dice.below(slots.saturating_add(3)), happened);
        return;
    }
    for slot in 0..slots {
        tend_one(rt, world, slot, happened);
    }
}

/// Tends a slot of the index.
fn tend_one(rt: &impl Abort, world: &mut World<Global>, slot: u32, happened: &mut Happened) {
    match world.tend(slot) {
        Ok(tending) => happened.count_tending(tending),
        Err(fault) => assert!(rt; false, "tend {slot}: {fault}"),
    }
}

/// One random turn.
fn try_one(
    rt: &impl Abort,
    heap: Global,
    dice: &mut Dice,
    plain: &mut PlainWorld,
    world: &mut World<Global>,
    happened: &mut Happened,
) {
    match dice.below(60) {
        0..=3 => try_open(rt, dice, plain, world),
        4..=9 => try_visit(rt, dice, plain, world, happened),
        10..=14 => try_finish(rt, heap, dice, plain, world),
        15 => try_drop(rt, dice, plain, world),
        16..=19 => try_begin(rt, heap, dice, plain, world),
        20..=27 => try_stage(rt, dice, plain, world, happened.grows()),
        28..=41 => try_advance(rt, dice, plain, world, happened),
        42..=50 => try_commit(rt, heap, dice, plain, world),
        51 => try_abort(rt, dice, plain, world),
        52 => try_govern(rt, heap, dice, plain, world),
        53 | 54 => try_roll(rt, heap, dice, plain, world),
        55 => try_nobody(rt, world),
        _ => try_tend(rt, dice, world, happened),
    }
}

/// Checks that both worlds have the same number of features and of records, the same edition and
/// the same first record.
fn check_told(rt: &impl Abort, plain: &PlainWorld, world: &World<Global>) {
    assert_eq!(rt; world.len(), plain.marks.len());
    assert_eq!(rt; world.edition(), plain.edition);
    assert_eq!(rt; world.trail().first(), plain.first);
    assert_eq!(rt; world.trail().len(), plain.records);
}

#[test]
fn ten_thousand_events(rt: HostRuntime) -> Result<(), Fail> {
    let heap = rt.alloc();
    let mut plain = PlainWorld::empty(heap);
    let mut world = opened(&rt, heap);
    let mut dice = Dice::new(2026);
    let mut happened = Happened::new();
    for _ in 0..EVENTS {
        try_one(&rt, heap, &mut dice, &mut plain, &mut world, &mut happened);
        check_told(&rt, &plain, &world);
        happened.event = happened.event.saturating_add(1);
    }
    check_enough(&rt, &plain, &happened);
    Ok(())
}

/// Checks that enough has happened.
fn check_enough(rt: &impl Abort, plain: &PlainWorld, happened: &Happened) {
    let told = plain.version > 100 && plain.edition > 10 && plain.first > 500;
    assert!(rt;
        told,
        "{} {} {} {}",
        plain.version,
        plain.edition,
        plain.first,
        plain.marks.len()
    );
    let walked = happened.split > 10 && happened.installed > 10 && happened.held > 100;
    let tended = happened.cleaned > 100 && happened.retired > 10 && happened.freed > 10;
    assert!(rt;
        happened.more > 100 && walked && tended,
        "{} {happened:?}",
        plain.version
    );
}
