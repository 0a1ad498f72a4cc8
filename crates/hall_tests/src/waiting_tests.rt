//! Lists that wait until a search ends.
ghost use Rattle.std.specs.Prelude.{◌≡◌};

use crate::halls::{
    TURNS, applied, name, opened, opened_within, point, road, rows, seat, square, wait_for,
};
use crate::pauses::{Arriving, Counting, Holding, Signals, Steps, wait_for_at_least};
use features::Change;
use hall::{Hall, HallFault, HallName, LEDGER_PARTS, NoPause, Seat, TRY_LIMIT, Unnamed};
use plane::Shape;
use std::alloc::Global;
use std::marker::Brand;
use std::process::Abort;
use std::sync::Wait;
use std::sync::atomic::{AtomicU64, Ordering};
use std::thread::{Threads, join};
use world::{Fault, Limits, Outcome, TreeFault};

/// How a call of a thread ended.
#[derive(Debug, Drop, PartialEq, Eq)]
enum Ended {
    Well,
    By(HallFault),
}

/// Searches a window, and waits after its first visits until the lists are about to be placed. Then
/// all of them have to be answered, since no search is left that holds them back.
fn search_holding<'h, L: HallName, H: Wait + Drop, R: Wait + Abort>(
    rt: &R,
    seat: Seat<'h, L, H, Global>,
    window: Shape,
    pause: Holding<'_>,
) -> (Seat<'h, L, H, Global>, Ended) {
    let (mut seat, mut pause) = (seat, pause);
    let ended = match seat.search(rt, window, &mut pause) {
        Ok(_) => Ended::Well,
        Err(fault) => Ended::By(fault),
    };
    let all = wait_for_at_least(&pause.signals.answered, pause.lists);
    assert!(rt; all, "a list waits on");
    (seat, ended)
}

/// Commits a list while the search waits, by steps or at once.
fn commit_held<'h, L: HallName, H: Wait + Drop, R: Wait + Abort>(
    rt: &R,
    seat: Seat<'h, L, H, Global>,
    changes: &[Change],
    steps: bool,
    signals: &Signals,
) -> (Seat<'h, L, H, Global>, Ended) {
    let mut seat = seat;
    assert!(rt; wait_for(&signals.holds), "the search does not wait");
    let outcome = if steps {
        seat.commit(rt, changes, &mut Arriving { calls: 0, signals })
    } else {
        signals.arrived.fetch_add(1, Ordering::SeqCst);
        seat.commit(rt, changes, &mut NoPause)
    };
    signals.answered.fetch_add(1, Ordering::SeqCst);
    let ended = match outcome {
        Ok(Outcome::Applied(_)) => Ended::Well,
        Ok(Outcome::Refused(..)) => panic!(rt; "a list is refused"),
        Err(fault) => Ended::By(fault),
    };
    (seat, ended)
}

/// Two lists that one search holds back, each committed in a thread of its own.
fn commit_two<'h, L, H, R>(
    rt: &R,
    two: Seat<'h, L, H, Global>,
    three: Seat<'h, L, H, Global>,
    signals: &Signals,
) -> (Seat<'h, L, H, Global>, Seat<'h, L, H, Global>)
where
    L: HallName + Send + Sync,
    H: Wait + Drop + Send,
    R: Threads + Wait + Abort + Sync,
{
    let ((two, first), (three, second)) = join(
        rt,
        move || commit_held(rt, two, &[road(rt, 2, 2, 2)], true, signals),
        move || commit_held(rt, three, &[road(rt, 3, 2, 2)], true, signals),
    );
    assert_eq!(rt; first, Ended::Well);
    assert_eq!(rt; second, Ended::Well);
    (two, three)
}

fn two_lists_in<L, H, R>(rt: &R, own: H, heap: Global, unnamed: Unnamed<Global>)
where
    L: HallName + Send + Sync,
    H: Wait + Drop + Send,
    R: Threads + Wait + Abort + Sync,
    requires name { unnamed.ledger.name ≡ L.name }
    requires parts { (unnamed.ledger.parts ≡ L.parts) × (L.parts ≡ LEDGER_PARTS) }
    requires list { unnamed.list ≡ L.book }
    requires states { unnamed.states ≡ L.states }
{
    let hall = opened::<L, H>(rt, own, heap, unnamed, 0);
    let mut one = seat(rt, &hall, "north");
    let two = seat(rt, &hall, "south");
    let three = seat(rt, &hall, "north");
    assert!(rt; applied(rt, &mut one, road(rt, 1, 1, 1), &mut NoPause).is_some());
    let signals = Signals::new();
    let signals = &signals;
    let pause = Holding {
        at: 2,
        lists: 2,
        turns: 20_000,
        signals,
    };
    let ((mut one, ended), _) = join(
        rt,
        move || search_holding(rt, one, square(rt), pause),
        move || commit_two(rt, two, three, signals),
    );
    assert_eq!(rt; ended, Ended::Well);
    assert_eq!(rt; rows(rt, &mut one, square(rt), &mut NoPause), Some(3));
}

/// One search holds two lists back. Both are answered when it has ended.
#[test]
fn two_lists_held_by_one_search(rt: HostRuntime) {
    two_lists_in::<Brand, _, _>(&rt, rt, rt.alloc(), Unnamed::new());
}

/// A search and a list that it may hold back, each in a thread of its own. Returns the seats, and
/// how both calls ended.
fn search_and_list<'h, L, H, R>(
    rt: &R,
    one: Seat<'h, L, H, Global>,
    two: Seat<'h, L, H, Global>,
    changes: &[Change],
    steps: bool,
    window: Shape,
    pause: Holding<'_>,
) -> (
    (Seat<'h, L, H, Global>, Ended),
    (Seat<'h, L, H, Global>, Ended),
)
where
    L: HallName + Send + Sync,
    H: Wait + Drop + Send,
    R: Threads + Wait + Abort + Sync,
{
    let signals = pause.signals;
    join(
        rt,
        move || search_holding(rt, one, window, pause),
        move || commit_held(rt, two, changes, steps, signals),
    )
}

/// How often the search ends while a list is about to wait for its end.
const RACES: u64 = 1_000;

/// Asks for the lock of the world, and for that of those who wait, again and again, until the list
/// is answered. It ends no search.
fn contend<L: HallName, H: Wait + Drop, R: Wait + Abort>(
    rt: &R,
    hall: &Hall<L, H, Global>,
    signals: &Signals,
) {
    for _ in 0..TURNS {
        if signals.answered.load(Ordering::SeqCst) > 0 {
            return;
        }
        assert!(rt; hall.seat(rt, name(rt, "nobody")).is_err());
        hall.want_round(rt);
    }
}

/// A list of sixteen roads, of which the search below looks for the last one alone.
fn last_in_the_square(rt: &impl Abort) -> [Change; 16] {
    let mut changes = [road(rt, 16, 2, 2); 16];
    for index in 0..15 {
        changes[index] = road(rt, 1 + index as u64, 1_000, index as i32);
    }
    changes
}

/// A search, a list that it holds back, and a thread that asks for the locks.
fn race_in<L, H, R>(rt: &R, own: H, heap: Global, unnamed: Unnamed<Global>, race: u64)
where
    L: HallName + Send + Sync,
    H: Wait + Drop + Send,
    R: Threads + Wait + Abort + Sync,
    requires name { unnamed.ledger.name ≡ L.name }
    requires parts { (unnamed.ledger.parts ≡ L.parts) × (L.parts ≡ LEDGER_PARTS) }
    requires list { unnamed.list ≡ L.book }
    requires states { unnamed.states ≡ L.states }
{
    let hall = opened::<L, H>(rt, own, heap, unnamed, 0);
    let (one, two) = (seat(rt, &hall, "north"), seat(rt, &hall, "south"));
    let (hall, signals) = (&hall, Signals::new());
    let signals = &signals;
    let pause = Holding {
        at: 2,
        lists: 1,
        turns: race % 9,
        signals,
    };
    let list = last_in_the_square(rt);
    let (((one, searched), (_two, committed)), _) = join(
        rt,
        move || search_and_list(rt, one, two, &list, race % 8 == 0, square(rt), pause),
        move || contend(rt, hall, signals),
    );
    assert_eq!(rt; searched, Ended::Well);
    assert_eq!(rt; committed, Ended::Well);
    let mut one = one;
    assert_eq!(rt; rows(rt, &mut one, square(rt), &mut NoPause), Some(1));
}

/// The search ends at about the time at which the list is held back and begins to wait, a little
/// earlier or later each time. The list is answered each time.
#[test]
fn a_search_that_ends_as_a_list_begins_to_wait(rt: HostRuntime) {
    for race in 0..RACES {
        race_in::<Brand, _, _>(&rt, rt, rt.alloc(), Unnamed::new(), race);
    }
}

fn full_trail_in<L, H, R>(rt: &R, own: H, heap: Global, unnamed: Unnamed<Global>)
where
    L: HallName + Send + Sync,
    H: Wait + Drop + Send,
    R: Threads + Wait + Abort + Sync,
    requires name { unnamed.ledger.name ≡ L.name }
    requires parts { (unnamed.ledger.parts ≡ L.parts) × (L.parts ≡ LEDGER_PARTS) }
    requires list { unnamed.list ≡ L.book }
    requires states { unnamed.states ≡ L.states }
{
    let limits = Limits {
        records: 1,
        ..Limits::GREATEST
    };
    let hall = opened_within::<L, H>(rt, own, heap, unnamed, limits);
    let mut one = seat(rt, &hall, "north");
    let two = seat(rt, &hall, "south");
    assert!(rt; applied(rt, &mut one, road(rt, 1, 1, 1), &mut NoPause).is_some());
    let signals = Signals::new();
    let pause = Holding {
        at: 2,
        lists: 1,
        turns: 20_000,
        signals: &signals,
    };
    let list = [road(rt, 2, 2, 2)];
    let ((_one, searched), (_two, committed)) = search_and_list(
        rt,
        one,
        two,
        &list,
        true,
        square(rt),
        pause,
    );
    assert_eq!(rt; searched, Ended::By(HallFault::Core(Fault::TrailFull)));
    assert_eq!(rt; committed, Ended::By(HallFault::Core(Fault::TrailFull)));
}

/// A search that holds a list back is refused at its end, since the trail is full. The list is
/// answered then.
#[test]
fn a_full_trail_wakes_a_held_list(rt: HostRuntime) {
    full_trail_in::<Brand, _, _>(&rt, rt, rt.alloc(), Unnamed::new());
}

/// The most steps of a search or a walk in the hall below.
const FEW_STEPS: u32 = 10;

/// The side of the square in which the features of the hall below lie, one at each whole place.
const SIDE: i32 = 16;

/// The square of that side.
fn wide(rt: &impl Abort) -> Shape {
    let (low, high) = (0, SIDE);
    let ring = [
        plane::Point { x: low, y: low },
        plane::Point { x: high, y: low },
        plane::Point { x: high, y: high },
        plane::Point { x: low, y: high },
        plane::Point { x: low, y: low },
    ];
    match Shape::polygon(&ring) {
        Ok(shape) => shape,
        Err(_) => panic!(rt; "no square"),
    }
}

/// Adds a feature at each place of a column.
fn add_column<L: HallName, H: Wait + Drop, R: Wait + Abort>(
    rt: &R,
    seat: &mut Seat<'_, L, H, Global>,
    x: i32,
) {
    for y in 0..SIDE {
        let id = (x * SIDE + y + 1) as u64;
        assert!(rt; applied(rt, seat, road(rt, id, x, y), &mut NoPause).is_some());
    }
}

/// A list that adds a feature in each part of the square.
fn everywhere(rt: &impl Abort) -> [Change; 16] {
    let mut changes = [road(rt, 1_000, 0, 0); 16];
    for index in 0..16 {
        let place = index as i32;
        changes[index] = road(rt, 1_000 + index as u64, place % 4 * 4, place / 4 * 4);
    }
    changes
}

fn overrun_in<L, H, R>(rt: &R, own: H, heap: Global, unnamed: Unnamed<Global>)
where
    L: HallName + Send + Sync,
    H: Wait + Drop + Send,
    R: Threads + Wait + Abort + Sync,
    requires name { unnamed.ledger.name ≡ L.name }
    requires parts { (unnamed.ledger.parts ≡ L.parts) × (L.parts ≡ LEDGER_PARTS) }
    requires list { unnamed.list ≡ L.book }
    requires states { unnamed.states ≡ L.states }
{
    let limits = Limits {
        steps: FEW_STEPS,
        ..Limits::GREATEST
    };
    let hall = opened_within::<L, H>(rt, own, heap, unnamed, limits);
    let mut one = seat(rt, &hall, "north");
    let two = seat(rt, &hall, "south");
    for x in 0..SIDE {
        add_column(rt, &mut one, x);
    }
    let signals = Signals::new();
    let pause = Holding {
        at: u64::from(FEW_STEPS),
        lists: 1,
        turns: 20_000,
        signals: &signals,
    };
    let list = everywhere(rt);
    let ((_one, searched), (_two, committed)) = search_and_list(
        rt,
        one,
        two,
        &list,
        true,
        wide(rt),
        pause,
    );
    assert_eq!(rt;
        searched,
        Ended::By(HallFault::Core(Fault::Tree(TreeFault::Overrun)))
    );
    assert_eq!(rt; committed, Ended::Well);
}

/// A search that holds a list back has made all its steps. The list is answered then.
#[test]
fn a_search_of_too_many_steps_wakes_a_held_list(rt: HostRuntime) {
    overrun_in::<Brand, _, _>(&rt, rt, rt.alloc(), Unnamed::new());
}

/// Searches elsewhere, again and again, until the list is answered.
fn search_elsewhere<'h, L: HallName, H: Wait + Drop, R: Wait + Abort>(
    rt: &R,
    seat: Seat<'h, L, H, Global>,
    answered: &AtomicU64,
) -> Seat<'h, L, H, Global> {
    let mut seat = seat;
    for _ in 0..TURNS {
        if answered.load(Ordering::SeqCst) > 0 {
            return seat;
        }
        assert_eq!(rt;
            rows(rt, &mut seat, point(rt, 100, 100), &mut Steps),
            Some(0)
        );
    }
    panic!(rt; "the list is not answered");
}

/// Commits a list that a search holds back at each try, and counts the calls of the pause.
fn commit_counted<'h, L: HallName, H: Wait + Drop, R: Wait + Abort>(
    rt: &R,
    seat: Seat<'h, L, H, Global>,
    steps: bool,
    calls: &AtomicU64,
    signals: &Signals,
) -> Seat<'h, L, H, Global> {
    let mut seat = seat;
    assert!(rt; wait_for(&signals.holds), "the search does not wait");
    let held = seat.commit(rt, &[road(rt, 2, 2, 2)], &mut Counting { steps, calls });
    assert!(rt; matches!(held, Err(HallFault::Held)));
    signals.answered.store(1, Ordering::SeqCst);
    signals.arrived.store(1, Ordering::SeqCst);
    seat
}

fn tries_in<L, H, R>(
    rt: &R,
    own: H,
    heap: Global,
    unnamed: Unnamed<Global>,
    steps: bool,
    expected: u64,
)
where
    L: HallName + Send + Sync,
    H: Wait + Drop + Send,
    R: Threads + Wait + Abort + Sync,
    requires name { unnamed.ledger.name ≡ L.name }
    requires parts { (unnamed.ledger.parts ≡ L.parts) × (L.parts ≡ LEDGER_PARTS) }
    requires list { unnamed.list ≡ L.book }
    requires states { unnamed.states ≡ L.states }
{
    let hall = opened::<L, H>(rt, own, heap, unnamed, 0);
    let one = seat(rt, &hall, "north");
    let two = seat(rt, &hall, "south");
    let three = seat(rt, &hall, "north");
    let (signals, calls) = (Signals::new(), AtomicU64::new(0));
    let (signals, calls) = (&signals, &calls);
    let pause = Holding {
        at: 2,
        lists: 1,
        turns: 0,
        signals,
    };
    let ((_one, searched), _) = join(
        rt,
        move || search_holding(rt, one, square(rt), pause),
        move || {
            join(
                rt,
                move || commit_counted(rt, two, steps, calls, signals),
                move || search_elsewhere(rt, three, &signals.answered),
            )
        },
    );
    assert_eq!(rt; searched, Ended::Well);
    assert_eq!(rt; calls.load(Ordering::SeqCst), expected);
}

/// A list that is held back at each try is tried just 64 times. By steps, each try has three
/// events, and the pause is called between two; otherwise it is called between two tries.
#[test]
fn a_held_list_is_tried_just_so_often(rt: HostRuntime) {
    let tries = u64::from(TRY_LIMIT);
    let heap = rt.alloc();
    tries_in::<Brand, _, _>(&rt, rt, heap, Unnamed::new(), true, 3 * tries - 1);
    tries_in::<Brand, _, _>(&rt, rt, heap, Unnamed::new(), false, tries - 1);
}

/// How many refused calls leave no search and no transaction open: more than may be open at once.
const REFUSED: u32 = 70;

/// Lists that cannot be staged, and lists and searches that find the trail full, all by steps: a
/// search that is one event opens none.
fn refused_in<L: HallName, H: Wait + Drop, R: Wait + Abort>(
    rt: &R,
    own: H,
    heap: Global,
    unnamed: Unnamed<Global>,
)
    requires name { unnamed.ledger.name ≡ L.name }
    requires parts { (unnamed.ledger.parts ≡ L.parts) × (L.parts ≡ LEDGER_PARTS) }
    requires list { unnamed.list ≡ L.book }
    requires states { unnamed.states ≡ L.states }
{
    let limits = Limits {
        records: 0,
        ..Limits::GREATEST
    };
    let hall: Hall<L, H, Global> = opened_within(rt, own, heap, unnamed, limits);
    let mut one = seat(rt, &hall, "north");
    let twice = [road(rt, 1, 1, 1), road(rt, 1, 2, 2)];
    let alone = [road(rt, 1, 1, 1)];
    for _ in 0..REFUSED {
        let staged = one.commit(rt, &twice, &mut Steps);
        assert!(rt; matches!(staged, Err(HallFault::Core(Fault::NamedTwice))));
        let placed = one.commit(rt, &alone, &mut Steps);
        assert!(rt; matches!(placed, Err(HallFault::Core(Fault::TrailFull))));
        let searched = one.search(rt, square(rt), &mut Steps);
        assert!(rt; matches!(searched, Err(HallFault::Core(Fault::TrailFull))));
    }
}

/// The same of lists and searches that have no steps.
fn overruns_in<L: HallName, H: Wait + Drop, R: Wait + Abort>(
    rt: &R,
    own: H,
    heap: Global,
    unnamed: Unnamed<Global>,
)
    requires name { unnamed.ledger.name ≡ L.name }
    requires parts { (unnamed.ledger.parts ≡ L.parts) × (L.parts ≡ LEDGER_PARTS) }
    requires list { unnamed.list ≡ L.book }
    requires states { unnamed.states ≡ L.states }
{
    let limits = Limits {
        steps: 0,
        ..Limits::GREATEST
    };
    let hall: Hall<L, H, Global> = opened_within(rt, own, heap, unnamed, limits);
    let mut one = seat(rt, &hall, "north");
    for _ in 0..REFUSED {
        let placed = one.commit(rt, &[road(rt, 1, 1, 1)], &mut Steps);
        assert!(rt;
            matches!(
                placed,
                Err(HallFault::Core(Fault::Tree(TreeFault::Overrun)))
            )
        );
        let searched = one.search(rt, square(rt), &mut Steps);
        assert!(rt;
            matches!(
                searched,
                Err(HallFault::Core(Fault::Tree(TreeFault::Overrun)))
            )
        );
    }
}

/// Calls that are refused leave no search and no transaction open: there is no S2 after 16
/// searches, and no X15 after 64 lists.
#[test]
fn refused_calls_leave_nothing_open(rt: HostRuntime) {
    refused_in::<Brand, _, _>(&rt, rt, rt.alloc(), Unnamed::new());
    overruns_in::<Brand, _, _>(&rt, rt, rt.alloc(), Unnamed::new());
}
