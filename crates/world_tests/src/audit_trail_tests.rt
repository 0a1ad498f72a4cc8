//! A trail's records and their lines, and how lists of changes are judged.
use crate::parts::{document, name, point, square};
use audit_trail::{Deed, FIRST_LIMIT, RECORD_LIMIT, Record, Trail, TrailFault};
use decision::{Decider, InForce};
use feature_store::Store;
use features::{Action, Change, Name, Subject};
use judging::{Cause, Judgement, Refusal, judge};
use kept_shapes::ChangeList;
use std::alloc::{AllocError, Global};
use std::process::Abort;
use std::sync::Arc;
use std::test::Fail;

/// The editor of an office.
fn editor(rt: &impl Abort, office: &str) -> Subject {
    Subject {
        name: name(rt, office),
        office: name(rt, office),
        role: name(rt, "editor"),
        steward: false,
    }
}

/// The decider of a document under an edition.
fn decider(rt: &impl Abort, heap: Global, text: &str, edition: u64) -> Decider {
    match Decider::new(document(rt, heap, text), edition) {
        Ok(decider) => decider,
        Err(_) => panic!(rt; "no decider: {text}"),
    }
}

/// The decider of a document in force, of which some is kept for what the editor of the office south asks.
fn in_force(rt: &impl Abort, heap: Global, text: &str) -> InForce {
    let shared = Arc::new(heap, decider(rt, heap, text, 1));
    assert!(rt; shared.is_ok());
    let mut in_force = InForce::new(shared.unwrap());
    for (office, class) in [("south", "road"), ("north", "road"), ("south", "parcel")] {
        in_force.tell(name(rt, office), name(rt, class));
    }
    for action in [Action::Add, Action::Reshape, Action::Delete] {
        in_force.prepare(&editor(rt, "south"), &action, 2);
    }
    in_force
}

/// The changes as a record keeps them.
fn kept(rt: &impl Abort, heap: Global, changes: &[Change]) -> ChangeList<Global> {
    let list = ChangeList::new(heap, changes);
    assert!(rt; list.is_ok());
    list.unwrap()
}

/// Checks the line of a deed of seat 7, recorded as the first of a trail.
fn line(rt: &impl Abort, heap: Global, deed: Deed<Global>, expected: &str) {
    let mut trail = Trail::new(heap);
    let number = trail.push(Record::new(7, deed));
    assert!(rt; number.is_ok());
    let text = trail.json_line(heap, 1);
    assert!(rt; text.is_ok());
    assert_eq!(rt; text.unwrap().as_str(), expected);
}

#[test]
fn printed_forms(rt: HostRuntime) -> Result<(), Fail> {
    let heap = rt.alloc();
    let mut trail = Trail::new(heap);
    let mast = Change::Add {
        id: 1,
        class: name(&rt, "mast"),
        shape: point(&rt, 4, 4),
    };
    let applied = Deed::Applied {
        subject: editor(&rt, "north"),
        version: 1,
        changes: kept(&rt, heap, &[mast]),
    };
    let answered = Deed::Answered {
        subject: editor(&rt, "north"),
        window: square(&rt, 0, 4),
        ids: Vec::from_slice(heap, &[1])?,
        versions: Vec::from_slice(heap, &[1])?,
    };
    assert!(rt; trail.push(Record::new(1, applied)).ok() == Some(1));
    assert!(rt; trail.push(Record::new(1, answered)).ok() == Some(2));
    let first = trail.json_line(heap, 1);
    assert!(rt; first.is_ok());
    assert_eq!(rt;
        first.unwrap().as_str(),
        r#"{"changes":[{"class":"mast","id":1,"shape":"POINT (4 4)","what":"add"}],"kind":"applied","number":1,"seat":1,"subject":"north","version":1}"#
    );
    let second = trail.json_line(heap, 2);
    assert!(rt; second.is_ok());
    assert_eq!(rt;
        second.unwrap().as_str(),
        r#"{"ids":[1],"kind":"answered","number":2,"seat":1,"subject":"north","window":"POLYGON ((0 0, 4 0, 4 4, 0 4, 0 0))"}"#
    );
    assert!(rt; matches!(trail.json_line(heap, 0), Err(TrailFault::NoRecord)));
    assert!(rt; matches!(trail.json_line(heap, 3), Err(TrailFault::NoRecord)));
    let shown = format!(in heap; "{} {}", TrailFault::Full, TrailFault::NoRecord)?;
    assert_eq!(rt; shown.as_str(), "G1 G3");
    Ok(())
}

/// The deed of a list that was rejected for this cause.
fn refused(rt: &impl Abort, heap: Global, cause: Cause) -> Result<Deed<Global>, AllocError> {
    let reshape = Change::Reshape {
        id: 7,
        version: 3,
        shape: point(rt, 5, -5),
    };
    let delete = Change::Delete { id: 9, version: 12 };
    Ok(Deed::Refused {
        subject: editor(rt, "south"),
        changes: kept(rt, heap, &[reshape, delete]),
        refusal: Refusal { change: 2, cause },
    })
}

#[test]
fn lines_of_refusals(rt: HostRuntime) -> Result<(), Fail> {
    let heap = rt.alloc();
    for (cause, expected) in [
        (
            Cause::Denied(Some(3)),
            r#"{"cause":"denied","change":2,"changes":[{"id":7,"shape":"POINT (5 -5)","version":3,"what":"reshape"},{"id":9,"version":12,"what":"delete"}],"kind":"refused","number":1,"rule":3,"seat":7,"subject":"south"}"#,
        ),
        (
            Cause::Denied(None),
            r#"{"cause":"denied","change":2,"changes":[{"id":7,"shape":"POINT (5 -5)","version":3,"what":"reshape"},{"id":9,"version":12,"what":"delete"}],"kind":"refused","number":1,"rule":null,"seat":7,"subject":"south"}"#,
        ),
        (
            Cause::Exists,
            r#"{"cause":"exists","change":2,"changes":[{"id":7,"shape":"POINT (5 -5)","version":3,"what":"reshape"},{"id":9,"version":12,"what":"delete"}],"kind":"refused","number":1,"seat":7,"subject":"south"}"#,
        ),
        (
            Cause::Absent,
            r#"{"cause":"absent","change":2,"changes":[{"id":7,"shape":"POINT (5 -5)","version":3,"what":"reshape"},{"id":9,"version":12,"what":"delete"}],"kind":"refused","number":1,"seat":7,"subject":"south"}"#,
        ),
        (
            Cause::Stale(13),
            r#"{"cause":"stale","change":2,"changes":[{"id":7,"shape":"POINT (5 -5)","version":3,"what":"reshape"},{"id":9,"version":12,"what":"delete"}],"current":13,"kind":"refused","number":1,"seat":7,"subject":"south"}"#,
        ),
    ] {
        line(&rt, heap, refused(&rt, heap, cause)?, expected);
    }
    Ok(())
}

/// Nothing is permitted on parcels, and everything on other features in the square from (0, 0) to
/// (4, 4).
const INSIDE: &str =
    r#"{"root":{"combine":"first-applicable","policy":"p","rules":[{"effect":"deny","rule":"no-parcel","target":[[[{"class":"parcel"}]]]},{"effect":"permit","rule":"inside","target":[[[{"zone":"west"}]]]}]},"zones":[{"shape":"POLYGON ((0 0, 4 0, 4 4, 0 4, 0 0))","zone":"west"}]}"#;

#[test]
fn line_of_a_document(rt: HostRuntime) -> Result<(), Fail> {
    let heap = rt.alloc();
    let shared = Arc::new(heap, decider(&rt, heap, INSIDE, 2));
    assert!(rt; shared.is_ok());
    let governed = Deed::Governed {
        edition: 2,
        decider: shared.unwrap(),
    };
    let expected = format!(in heap;
        "{{\"document\":{INSIDE},\"edition\":2,\"kind\":\"governed\",\"number\":1,\"seat\":7}}"
    )?;
    line(&rt, heap, governed, expected.as_str());
    Ok(())
}

/// Three features of the office north, all of version 3: the road 7 and the parcel 8 inside the
/// square, the road 9 outside.
fn store(rt: &impl Abort, heap: Global) -> Store<Global> {
    let mut store = Store::new(heap);
    let changes = [
        Change::Add {
            id: 7,
            class: name(rt, "road"),
            shape: point(rt, 1, 1),
        },
        Change::Add {
            id: 8,
            class: name(rt, "parcel"),
            shape: point(rt, 2, 2),
        },
        Change::Add {
            id: 9,
            class: name(rt, "road"),
            shape: point(rt, 9, 9),
        },
    ];
    assert!(rt; store.apply(3, name(rt, "north"), &changes).is_ok());
    store
}

/// Why a list of this one change, by the editor of the office south, is rejected; `None` if it is
/// accepted.
fn cause(rt: &impl Abort, heap: Global, change: Change) -> Option<Cause> {
    let judgement = judge(
        &in_force(rt, heap, INSIDE),
        &store(rt, heap),
        &editor(rt, "south"),
        &[change],
    );
    match judgement {
        Judgement::Accepted => None,
        Judgement::Refused(refusal, question) => {
            assert_eq!(rt; refusal.change, 1);
            assert_eq!(rt;
                question.is_some(),
                matches!(refusal.cause, Cause::Denied(_))
            );
            Some(refusal.cause)
        }
    }
}

#[test]
fn judgements_of_additions(rt: HostRuntime) -> Result<(), Fail> {
    for (id, class, x, expected) in [
        (10, "road", 1, None),
        (10, "parcel", 1, Some(Cause::Denied(Some(1)))),
        (10, "road", 9, Some(Cause::Denied(None))),
        (7, "road", 1, Some(Cause::Exists)),
        (7, "parcel", 1, Some(Cause::Denied(Some(1)))),
    ] {
        let class = name(&rt, class);
        let shape = point(&rt, x, 1);
        let told = cause(&rt, rt.alloc(), Change::Add { id, class, shape });
        assert_eq!(rt; told, expected, "{id} {x}");
    }
    Ok(())
}

#[test]
fn judgements_of_reshapes(rt: HostRuntime) -> Result<(), Fail> {
    for (id, version, x, expected) in [
        (7, 3, 2, None),
        (7, 2, 2, Some(Cause::Stale(3))),
        (7, 4, 2, Some(Cause::Stale(3))),
        (7, 2, 9, Some(Cause::Denied(None))),
        (8, 3, 2, Some(Cause::Denied(Some(1)))),
        (9, 3, 2, Some(Cause::Denied(None))),
        (10, 3, 9, Some(Cause::Absent)),
    ] {
        let shape = point(&rt, x, 2);
        let told = cause(&rt, rt.alloc(), Change::Reshape { id, version, shape });
        assert_eq!(rt; told, expected, "{id} {version} {x}");
    }
    Ok(())
}

#[test]
fn judgements_of_deletions(rt: HostRuntime) -> Result<(), Fail> {
    for (id, version, expected) in [
        (7, 3, None),
        (7, 2, Some(Cause::Stale(3))),
        (8, 2, Some(Cause::Denied(Some(1)))),
        (9, 3, Some(Cause::Denied(None))),
        (10, 3, Some(Cause::Absent)),
    ] {
        let told = cause(&rt, rt.alloc(), Change::Delete { id, version });
        assert_eq!(rt; told, expected, "{id} {version}");
    }
    Ok(())
}

/// Each office may do everything with its own features.
const OWN: &str =
    r#"{"root":{"combine":"first-applicable","policy":"p","rules":[{"effect":"permit","rule":"mine","when":[{"own":true}]}]}}"#;

/// The first failing change of two by an office, with its cause, under the policy `OWN`.
fn first_of_two(
    rt: &impl Abort,
    heap: Global,
    office: &str,
    first: Change,
    second: Change,
) -> Option<(u64, Cause)> {
    let mut changes = Vec::new(heap);
    assert!(rt; changes.push(first).is_ok() && changes.push(second).is_ok());
    let judgement = judge(
        &in_force(rt, heap, OWN),
        &store(rt, heap),
        &editor(rt, office),
        changes.as_slice(),
    );
    match judgement {
        Judgement::Accepted => None,
        Judgement::Refused(refusal, _) => Some((refusal.change, refusal.cause)),
    }
}

/// The addition of the road 10, which is then the office's own.
fn added(rt: &impl Abort) -> Change {
    Change::Add {
        id: 10,
        class: name(rt, "road"),
        shape: point(rt, 1, 1),
    }
}

/// The deletion of a feature of version 3.
fn deleted(id: u64) -> Change {
    Change::Delete { id, version: 3 }
}

#[test]
fn owners_of_features(rt: HostRuntime) -> Result<(), Fail> {
    let heap = rt.alloc();
    let own = first_of_two(&rt, heap, "north", added(&rt), deleted(7));
    assert!(rt; own.is_none());
    let later = first_of_two(&rt, heap, "south", added(&rt), deleted(7));
    assert!(rt; later == Some((2, Cause::Denied(None))));
    let sooner = first_of_two(&rt, heap, "south", deleted(7), added(&rt));
    assert!(rt; sooner == Some((1, Cause::Denied(None))));
    Ok(())
}

#[test]
fn places_in_lists(rt: HostRuntime) -> Result<(), Fail> {
    let heap = rt.alloc();
    let second = first_of_two(&rt, heap, "north", added(&rt), deleted(10));
    assert!(rt; second == Some((2, Cause::Absent)));
    let first = first_of_two(&rt, heap, "north", deleted(10), deleted(7));
    assert!(rt; first == Some((1, Cause::Absent)));
    Ok(())
}

/// The records of four seats are numbered from `first` on.
fn check_numbers(rt: &impl Abort, heap: Global, first: u64) -> Result<(), AllocError> {
    assert!(rt; first <= FIRST_LIMIT);
    let mut trail = Trail::starting_at(heap, first);
    assert!(rt; trail.is_empty() && trail.first() == first);
    for seat in 0..3u32 {
        let entry = Record::new(seat, refused(rt, heap, Cause::Exists)?);
        assert!(rt; trail.push(entry).ok() == Some(first.saturating_add(u64::from(seat))));
    }
    assert_eq!(rt; trail.len(), 3);
    let entry = Record::new(3, refused(rt, heap, Cause::Absent)?);
    assert!(rt; trail.len() < RECORD_LIMIT);
    let prepared = trail.prepare(entry);
    assert!(rt; prepared.is_ok() && trail.len() == 3);
    trail.put(prepared.unwrap());
    for seat in 0..4u32 {
        let entry = trail.get(first.saturating_add(u64::from(seat)));
        assert!(rt; entry.is_some());
        assert_eq!(rt; entry.unwrap().seat(), seat);
    }
    assert!(rt; trail.get(first.saturating_add(4)).is_none());
    assert!(rt; first == 0 || trail.get(first.saturating_sub(1)).is_none());
    Ok(())
}

#[test]
fn numbers_of_records(rt: HostRuntime) -> Result<(), Fail> {
    for first in [0, 41, 4_294_967_294, 4_294_967_296, FIRST_LIMIT] {
        check_numbers(&rt, rt.alloc(), first)?;
    }
    Ok(())
}

/// Of a record whose number has more than 32 bits, the line shows all of it.
#[test]
fn lines_of_large_numbers(rt: HostRuntime) -> Result<(), Fail> {
    let heap = rt.alloc();
    let mut trail = Trail::starting_at(heap, FIRST_LIMIT);
    let entry = Record::new(1, refused(&rt, heap, Cause::Exists)?);
    assert!(rt; trail.push(entry).is_ok());
    let line = trail.json_line(heap, FIRST_LIMIT);
    assert!(rt; line.is_ok());
    let line = line.unwrap();
    assert!(rt;
        line.as_str().contains("\"number\":4611686018427387904,"),
        "{line}"
    );
    assert!(rt; matches!(trail.json_line(heap, 0), Err(TrailFault::NoRecord)));
    Ok(())
}
