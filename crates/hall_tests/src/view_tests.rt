//! Views of the policies, which need no lock.
ghost use Rattle.std.specs.Prelude.{◌≡◌};

use crate::halls::{OPEN, ROADS, document, opened, question, seat, subjects, view};
use combining::Question;
use decision::Ruling;
use hall::{
    Explained, Hall, HallFault, HallName, LEDGER_PARTS, ListName, OpenFault, Seat, Unnamed,
    VIEW_LIMIT, View,
};
use std::alloc::{AllocError, Global};
use std::marker::Brand;
use std::process::Abort;
use std::sync::Wait;
use std::test::Fail;
use std::thread;
use std::thread::{Threads, join};

/// The edition of the last document put in force.
const LAST: u64 = 1_001;

/// How many views explain, each in its own thread.
const VIEWS: usize = 4;

/// How often a view explains at most, so that the test ends.
const ROUNDS: u64 = 50_000_000;

/// The outcome of a view that explains until it has read the last policy.
#[derive(Debug, PartialEq, Eq, Drop)]
enum Watched {
    /// Each ruling was right, and no edition was less than the one before.
    Well,
    /// An edition was less than the one before.
    WentBack,
    /// A ruling was not that of its edition's document.
    RuledWrongly,
    /// There was no policy to read.
    NothingToRead,
    /// The last policy did not come.
    TooLong,
}

/// Whether this is the ruling of its edition's document: an odd edition permits everything, an even
/// one has no rule for parcels.
fn is_right(explained: &Explained) -> bool {
    match explained.ruling {
        Ruling::Permit(Some(1)) => explained.edition % 2 == 1 && explained.rule.is_some(),
        Ruling::NoneApplied => explained.edition % 2 == 0 && explained.rule.is_none(),
        _ => false,
    }
}

/// Explains until the last policy has come.
fn watch<L: ListName>(mut view: View<L>, question: &Question) -> Watched {
    let mut edition = view.edition();
    for _ in 0..ROUNDS {
        let Some(explained) = view.explain(question) else {
            return Watched::NothingToRead;
        };
        if explained.edition < edition {
            return Watched::WentBack;
        }
        if !is_right(&explained) {
            return Watched::RuledWrongly;
        }
        edition = explained.edition;
        if edition == LAST {
            return Watched::Well;
        }
    }
    Watched::TooLong
}

/// Explains with each view in its own thread, until the last policy has come.
fn watch_all<L: ListName + Send, R: Threads + Abort + Sync>(
    rt: &R,
    views: Vec<View<L>>,
) -> Result<Vec<Watched>, AllocError> {
    let question = question(rt);
    thread::map_vec(rt, views, &|view| watch(view, &question))
}

/// Puts documents in force, up to the last edition.
fn govern_all<'h, L: HallName, H: Wait + Drop, R: Wait + Abort>(
    rt: &R,
    heap: Global,
    seat: Seat<'h, L, H, Global>,
) -> Seat<'h, L, H, Global> {
    let mut seat = seat;
    for edition in 2..LAST + 1 {
        let text = if edition % 2 == 0 { ROADS } else { OPEN };
        match seat.govern(rt, document(rt, heap, text)) {
            Ok(told) => assert_eq!(rt; told.number(), edition),
            Err(fault) => panic!(rt; "edition {edition}: {fault}"),
        }
    }
    seat
}

/// A steward governs while views explain, each in its own thread.
fn govern_beside<'h, L, H, R>(
    rt: &R,
    heap: Global,
    chief: Seat<'h, L, H, Global>,
    views: Vec<View<L>>,
) -> Result<Vec<Watched>, AllocError>
where
    L: HallName + Send + Sync,
    H: Wait + Drop + Send,
    R: Threads + Wait + Abort + Sync,
{
    let (watched, chief) = join(
        rt,
        move || watch_all(rt, views),
        move || govern_all(rt, heap, chief),
    );
    assert_eq!(rt; chief.receipts().len(), 1_000);
    watched
}

fn editions_never_go_back_in<L, H, R>(
    rt: &R,
    own: H,
    heap: Global,
    unnamed: Unnamed<Global>,
) -> Result<(), Fail>
where
    L: HallName + Send + Sync,
    H: Wait + Drop + Send,
    R: Threads + Wait + Abort + Sync,
    requires name { unnamed.ledger.name ≡ L.name }
    requires parts { (unnamed.ledger.parts ≡ L.parts) × (L.parts ≡ LEDGER_PARTS) }
    requires list { unnamed.list ≡ L.book }
    requires states { unnamed.states ≡ L.states }
{
    let hall = opened::<L, H>(rt, own, heap, unnamed, VIEWS);
    let chief = seat(rt, &hall, "chief");
    let mut views = Vec::new(heap);
    for _ in 0..VIEWS {
        views.push(view(rt, &hall))?;
    }
    let watched = govern_beside(rt, heap, chief, views)?;
    assert_eq!(rt; watched.len(), VIEWS);
    assert!(rt;
        watched.iter().all(|outcome| *outcome == Watched::Well),
        "{watched:?}"
    );
    Ok(())
}

#[test]
fn editions_never_go_back(rt: HostRuntime) -> Result<(), Fail> {
    editions_never_go_back_in::<Brand, _, _>(&rt, rt, rt.alloc(), Unnamed::new())
}

/// A hall gives the number of views it was opened for, and none once it is closed. A view goes on
/// until the hall is dropped.
fn views_are_given_in<L: HallName, H: Wait + Drop, R: Wait + Abort>(
    rt: &R,
    own: H,
    heap: Global,
    unnamed: Unnamed<Global>,
)
    requires name { unnamed.ledger.name ≡ L.name }
    requires parts { (unnamed.ledger.parts ≡ L.parts) × (L.parts ≡ LEDGER_PARTS) }
    requires list { unnamed.list ≡ L.book }
    requires states { unnamed.states ≡ L.states }
{
    let hall = opened::<L, H>(rt, own, heap, unnamed, 2);
    let mut one = view(rt, &hall);
    drop(view(rt, &hall));
    assert!(rt; matches!(hall.view(rt), Err(HallFault::NoPlace)));
    assert!(rt; hall.close(rt, Vec::new(heap)).is_ok());
    assert!(rt; matches!(hall.view(rt), Err(HallFault::Closed)));
    let explained = one.explain(&question(rt)).expect(rt, "a policy to read");
    assert!(rt; is_right(&explained), "{explained:?}");
    drop(hall);
    assert!(rt; one.explain(&question(rt)).is_none());
    assert_eq!(rt; one.edition(), 1);
}

#[test]
fn views_are_given(rt: HostRuntime) {
    views_are_given_in::<Brand, _, _>(&rt, rt, rt.alloc(), Unnamed::new());
}

/// A hall opened for no views gives none.
fn no_views_in<L: HallName, H: Wait + Drop, R: Wait + Abort>(
    rt: &R,
    own: H,
    heap: Global,
    unnamed: Unnamed<Global>,
)
    requires name { unnamed.ledger.name ≡ L.name }
    requires parts { (unnamed.ledger.parts ≡ L.parts) × (L.parts ≡ LEDGER_PARTS) }
    requires list { unnamed.list ≡ L.book }
    requires states { unnamed.states ≡ L.states }
{
    let hall = opened::<L, H>(rt, own, heap, unnamed, 0);
    assert!(rt; matches!(hall.view(rt), Err(HallFault::NoPlace)));
}

#[test]
fn no_views(rt: HostRuntime) {
    no_views_in::<Brand, _, _>(&rt, rt, rt.alloc(), Unnamed::new());
}

/// A hall cannot be opened for more than 1,024 views.
fn too_many_views_in<L: HallName, H: Wait + Drop>(
    rt: &impl Abort,
    own: H,
    heap: Global,
    unnamed: Unnamed<Global>,
)
    requires name { unnamed.ledger.name ≡ L.name }
    requires parts { (unnamed.ledger.parts ≡ L.parts) × (L.parts ≡ LEDGER_PARTS) }
    requires list { unnamed.list ≡ L.book }
    requires states { unnamed.states ≡ L.states }
{
    let document = document(rt, heap, OPEN);
    let opened: Result<Hall<L, H, Global>, _> = Hall::open(
        own,
        heap,
        heap,
        unnamed,
        subjects(rt),
        document,
        VIEW_LIMIT + 1,
    );
    assert!(rt; matches!(opened, Err((_, OpenFault::NoPlace))));
}

#[test]
fn too_many_views(rt: HostRuntime) {
    too_many_views_in::<Brand, _>(&rt, rt, rt.alloc(), Unnamed::new());
}
