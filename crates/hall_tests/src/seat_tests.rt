//! The seats of a hall, and what their subjects may do.
ghost use Rattle.std.specs.Prelude.{◌≡◌};

use crate::halls::{document, name, opened, point, road, seat, square, view};
use combining::Question;
use decision::Ruling;
use features::{Action, Change, Subject, Subjects};
use hall::{
    Closed, Hall, HallFault, HallName, LEDGER_PARTS, ListName, NoPause, Seat, Unnamed, View,
};
use std::alloc::Global;
use std::marker::Brand;
use std::process::Abort;
use std::sync::Wait;
use world::{Denial, Outcome, SEAT_LIMIT};

fn all_seats_in<L: HallName, H: Wait + Drop, R: Wait + Abort>(
    rt: &R,
    own: H,
    heap: Global,
    unnamed: Unnamed<Global>,
)
    requires name { unnamed.ledger.name ≡ L.name }
    requires parts { (unnamed.ledger.parts ≡ L.parts) × (L.parts ≡ LEDGER_PARTS) }
    requires list { unnamed.list ≡ L.book }
    requires states { unnamed.states ≡ L.states }
{
    let hall = opened::<L, H>(rt, own, heap, unnamed, 0);
    let mut seats = Vec::new(heap);
    for number in 0..SEAT_LIMIT {
        let given = seat(rt, &hall, "north");
        assert_eq!(rt; given.number() as usize, number + 1);
        assert!(rt; seats.push(given).is_ok());
    }
    assert!(rt; matches!(hall.seat(rt, name(rt, "south")), Err(HallFault::NoPlace)));
    match hall.close(rt, seats) {
        Ok(closed) => assert_eq!(rt;
            closed,
            Closed {
                records: 0,
                seats: SEAT_LIMIT
            }
        ),
        Err((fault, _)) => panic!(rt; "not closed: {fault}"),
    }
}

/// A hall gives 1,024 seats, and H2 for one more. It closes with all of them.
#[test]
fn the_last_seat(rt: HostRuntime) {
    all_seats_in::<Brand, _, _>(&rt, rt, rt.alloc(), Unnamed::new());
}

/// A document by which the office of harbours and the role of readers are ruled: editors may change
/// what is their office's own, everybody may read what is no mast, and no reader changes anything.
const OFFICES: &str = concat!(
    r#"{"root":{"combine":"first-applicable","policy":"offices","rules":["#,
    r#"{"effect":"deny","rule":"readers-change-nothing","target":"#,
    r#"[[[{"action":"add"}],[{"action":"reshape"}],[{"action":"delete"}]],[[{"role":"reader"}]]]},"#,
    r#"{"effect":"permit","rule":"own-features","when":[{"own":true}]},"#,
    r#"{"effect":"deny","rule":"masts-are-secret","target":[[[{"class":"mast"}]]]},"#,
    r#"{"effect":"permit","rule":"all-may-read","target":[[[{"action":"read"}]]]}]}}"#
);

/// A subject whose name is neither its office nor its role.
fn subject(rt: &impl Abort, words: [&str; 3], steward: bool) -> Subject {
    let [called, office, role] = words;
    Subject {
        name: name(rt, called),
        office: name(rt, office),
        role: name(rt, role),
        steward,
    }
}

/// An editor of harbours, a reader of harbours, and an editor of roads.
fn people(rt: &impl Abort) -> Subjects {
    let made = Subjects::new(&[
        subject(rt, ["ada", "harbours", "editor"], false),
        subject(rt, ["ben", "harbours", "reader"], false),
        subject(rt, ["cleo", "roads", "editor"], true),
    ]);
    assert!(rt; made.is_ok());
    made.unwrap()
}

/// A hall of these people under that document, with room for one view.
fn offices<L: HallName, H: Wait + Drop>(
    rt: &impl Abort,
    own: H,
    heap: Global,
    unnamed: Unnamed<Global>,
) -> Hall<L, H, Global>
    requires name { unnamed.ledger.name ≡ L.name }
    requires parts { (unnamed.ledger.parts ≡ L.parts) × (L.parts ≡ LEDGER_PARTS) }
    requires list { unnamed.list ≡ L.book }
    requires states { unnamed.states ≡ L.states }
{
    let document = document(rt, heap, OFFICES);
    match Hall::open(own, heap, heap, unnamed, people(rt), document, 1) {
        Ok(hall) => hall,
        Err(_) => panic!(rt; "no hall"),
    }
}

/// A mast at a point.
fn mast(rt: &impl Abort, id: u64, x: i32, y: i32) -> Change {
    Change::Add {
        id,
        class: name(rt, "mast"),
        shape: point(rt, x, y),
    }
}

/// The denial of a list of one change.
fn denied<L: HallName, H: Wait + Drop, R: Wait + Abort>(
    rt: &R,
    seat: &mut Seat<'_, L, H, Global>,
    change: Change,
) -> Denial {
    match seat.commit(rt, &[change], &mut NoPause) {
        Ok(Outcome::Refused(_, Some(denial))) => denial,
        _ => panic!(rt; "not denied"),
    }
}

/// The ids, the offices and the classes of the rows of a search of the square.
fn check_rows<L: HallName, H: Wait + Drop, R: Wait + Abort>(
    rt: &R,
    seat: &mut Seat<'_, L, H, Global>,
    expected: &[(u64, &str, &str)],
) {
    let answer = match seat.search(rt, square(rt), &mut NoPause) {
        Ok(answer) => answer,
        Err(fault) => panic!(rt; "not searched: {fault}"),
    };
    assert_eq!(rt; answer.rows().len(), expected.len());
    for (row, (id, office, class)) in answer.rows().iter().zip(expected) {
        assert_eq!(rt; row.id, *id);
        assert!(rt;
            row.office == name(rt, office) && row.class == name(rt, class),
            "{id}"
        );
    }
}

/// What each of the three is permitted and denied.
fn rule_people<L: HallName, H: Wait + Drop, R: Wait + Abort>(rt: &R, hall: &Hall<L, H, Global>) {
    let mut ada = seat(rt, hall, "ada");
    let mut ben = seat(rt, hall, "ben");
    let mut cleo = seat(rt, hall, "cleo");
    assert!(rt; ada.subject().office == name(rt, "harbours") && !ada.subject().steward);
    assert!(rt; ben.subject().role == name(rt, "reader"));
    assert!(rt; cleo.subject().office == name(rt, "roads") && cleo.subject().steward);
    for change in [mast(rt, 1, 1, 1), road(rt, 2, 2, 2)] {
        let outcome = ada.commit(rt, &[change], &mut NoPause);
        assert!(rt; matches!(outcome, Ok(Outcome::Applied(_))));
    }
    let denial = denied(rt, &mut ben, road(rt, 3, 3, 3));
    assert_eq!(rt; denial.rule(), Some(1));
    assert!(rt; denial.question().subject.role == name(rt, "reader"));
    let denial = denied(rt, &mut cleo, Change::Delete { id: 1, version: 1 });
    assert_eq!(rt; denial.rule(), Some(3));
    assert!(rt; denial.question().owner == name(rt, "harbours"));
    assert!(rt;
        matches!(
            cleo.commit(rt, &[mast(rt, 4, 4, 4)], &mut NoPause),
            Ok(Outcome::Applied(_))
        )
    );
    let (first, second) = ((1, "harbours", "mast"), (2, "harbours", "road"));
    check_rows(rt, &mut ada, &[first, second]);
    check_rows(rt, &mut ben, &[first, second]);
    check_rows(rt, &mut cleo, &[second, (4, "roads", "mast")]);
}

/// What a view says of a question.
fn check_ruling<L: ListName>(
    rt: &impl Abort,
    view: &mut View<L>,
    subject: Subject,
    action: Action,
    owner: &str,
    ruling: Ruling,
    rule: &str,
) {
    let question = Question {
        subject,
        action,
        owner: name(rt, owner),
        class: name(rt, "mast"),
        shape: point(rt, 1, 1),
    };
    let explained = view.explain(&question).expect(rt, "a policy to read");
    assert_eq!(rt; explained.edition, 1);
    assert_eq!(rt; explained.ruling, ruling);
    assert!(rt; explained.rule == Some(name(rt, rule)), "{rule}");
}

fn people_in<L: HallName, H: Wait + Drop, R: Wait + Abort>(
    rt: &R,
    own: H,
    heap: Global,
    unnamed: Unnamed<Global>,
)
    requires name { unnamed.ledger.name ≡ L.name }
    requires parts { (unnamed.ledger.parts ≡ L.parts) × (L.parts ≡ LEDGER_PARTS) }
    requires list { unnamed.list ≡ L.book }
    requires states { unnamed.states ≡ L.states }
{
    let hall: Hall<L, H, Global> = offices(rt, own, heap, unnamed);
    rule_people(rt, &hall);
    let mut view = view(rt, &hall);
    let ada = subject(rt, ["ada", "harbours", "editor"], false);
    let ben = subject(rt, ["ben", "harbours", "reader"], false);
    let (own, secret) = ("own-features", "masts-are-secret");
    check_ruling(
        rt,
        &mut view,
        ada,
        Action::Add,
        "harbours",
        Ruling::Permit(Some(2)),
        own,
    );
    check_ruling(
        rt,
        &mut view,
        ada,
        Action::Read,
        "roads",
        Ruling::DeniedBy(3),
        secret,
    );
    let (reads, nothing) = (Ruling::Permit(Some(2)), "readers-change-nothing");
    check_ruling(rt, &mut view, ben, Action::Read, "harbours", reads, own);
    check_ruling(
        rt,
        &mut view,
        ben,
        Action::Add,
        "harbours",
        Ruling::DeniedBy(1),
        nothing,
    );
}

/// The document and the subjects with which a hall is opened rule its rows, its denials and its
/// views.
#[test]
fn the_document_and_the_subjects_it_was_opened_with(rt: HostRuntime) {
    people_in::<Brand, _, _>(&rt, rt, rt.alloc(), Unnamed::new());
}
