//! Answers that wait in a hall's tray: searches beside one another, and what comes behind them.
ghost use Rattle.std.specs.Prelude.{◌≡◌};

use crate::halls::{
    OPEN, applied, close_two, document, name, opened, opened_within, point, road, roll_on, rows,
    search_meeting, seat, square, view, wait_for,
};
use crate::pauses::{Steps, wait_for_at_least};
use audit_trail::Record;
use hall::{
    ANSWER_LIMIT, COPIED_AT_ONCE, Hall, HallFault, HallName, LEDGER_PARTS, NoPause, Seat, Unnamed,
};
use std::alloc::{AllocError, Global};
use std::marker::Brand;
use std::process::Abort;
use std::sync::atomic::{AtomicU64, Ordering};
use std::sync::{Arc, Wait};
use std::thread;
use std::thread::{Threads, join};
use world::{Fault, Limits};

/// How many seats search at once, each in a thread of its own.
const SEARCHERS: usize = 3;

/// How many searches each of them makes beside the lists of another seat, and how many lists these
/// are.
const ROUNDS: u64 = 200;

/// More searches than a tray holds answers.
const MANY: u64 = ANSWER_LIMIT as u64 + 4;

/// More searches than there is room for in the small trails below.
const MOST: u64 = 1_000;

/// How many receipts these seats have.
fn receipts_of<L: HallName, H: Wait + Drop>(seats: &[Seat<'_, L, H, Global>]) -> u64 {
    let mut count = 0;
    for seat in seats {
        count += seat.receipts().len() as u64;
    }
    count
}

/// Closes a hall with all its seats. It has as many records as they have receipts.
fn close_all<'h, L: HallName, H: Wait + Drop, R: Wait + Abort>(
    rt: &R,
    hall: &'h Hall<L, H, Global>,
    seats: Vec<Seat<'h, L, H, Global>>,
)
    requires { L.parts ≡ LEDGER_PARTS }
{
    let (given, receipts) = (seats.len(), receipts_of(&seats));
    match hall.close(rt, seats) {
        Ok(closed) => assert_eq!(rt; (closed.records, closed.seats), (receipts, given)),
        Err((fault, _)) => panic!(rt; "not closed: {fault}"),
    }
}

/// All records of a hall, from the first one on.
fn all_records<L: HallName, H: Wait + Drop, R: Wait + Abort>(
    rt: &R,
    heap: Global,
    hall: &Hall<L, H, Global>,
) -> Vec<Arc<Record<Global>>> {
    let count = hall.record_count(rt);
    let made = Vec::with_capacity(heap, count as usize);
    assert!(rt; made.is_ok());
    let mut records = made.unwrap();
    for place in (0..count).step_by(COPIED_AT_ONCE as usize) {
        assert!(rt; hall.records_from(rt, place, &mut records).is_ok());
    }
    assert_eq!(rt; records.len() as u64, count);
    records
}

/// These records are just these receipts, in order.
fn assert_in_order(
    rt: &impl Abort,
    records: &[Arc<Record<Global>>],
    receipts: &[Arc<Record<Global>>],
) {
    assert_eq!(rt; records.len(), receipts.len());
    for (record, receipt) in records.iter().zip(receipts.iter()) {
        assert!(rt; **record == **receipt);
    }
}

/// Makes this many searches, each of another point, so that no record is like another.
fn search_points<L: HallName, H: Wait + Drop, R: Wait + Abort>(
    rt: &R,
    seat: &mut Seat<'_, L, H, Global>,
    searches: u64,
) {
    for x in 0..searches {
        let found = rows(rt, seat, point(rt, x as i32, 100), &mut NoPause);
        assert_eq!(rt; found, Some(0));
    }
}

/// Makes more searches than a tray holds answers, and nothing else.
fn many_in<L: HallName, H: Wait + Drop, R: Wait + Abort>(
    rt: &R,
    own: H,
    heap: Global,
    unnamed: Unnamed<Global>,
)
    requires name { unnamed.ledger.name ≡ L.name }
    requires parts { (unnamed.ledger.parts ≡ L.parts) × (L.parts ≡ LEDGER_PARTS) }
    requires list { unnamed.list ≡ L.book }
    requires states { unnamed.states ≡ L.states }
{
    let hall = opened::<L, H>(rt, own, heap, unnamed, 0);
    let mut north = seat(rt, &hall, "north");
    search_points(rt, &mut north, MANY);
    assert_eq!(rt; hall.record_count(rt), MANY);
    let records = all_records(rt, heap, &hall);
    assert_in_order(rt, &records, north.receipts());
    let mut seats = Vec::new(heap);
    assert!(rt; seats.push(north).is_ok());
    close_all(rt, &hall, seats);
}

/// More searches than a tray holds answers are answered without any other call between them. Each
/// is counted, and their records stand in the order of the receipts.
#[test]
fn more_searches_than_a_tray_holds(rt: HostRuntime) {
    many_in::<Brand, _, _>(&rt, rt, rt.alloc(), Unnamed::new());
}

/// Seats for the searches at once.
fn south_seats<'h, L: HallName, H: Wait + Drop, R: Wait + Abort>(
    rt: &R,
    heap: Global,
    hall: &'h Hall<L, H, Global>,
) -> Vec<Seat<'h, L, H, Global>> {
    let mut seats = Vec::new(heap);
    for _ in 0..SEARCHERS {
        assert!(rt; seats.push(seat(rt, hall, "south")).is_ok());
    }
    seats
}

/// Searches again and again, once all who search have begun. No search finds less than the one
/// before it.
fn search_often<'h, L: HallName, H: Wait + Drop, R: Wait + Abort>(
    rt: &R,
    seat: Seat<'h, L, H, Global>,
    begun: &AtomicU64,
    searches: u64,
) -> Seat<'h, L, H, Global> {
    let (mut seat, mut least) = (seat, 0);
    begun.fetch_add(1, Ordering::SeqCst);
    wait_for_at_least(begun, SEARCHERS as u64);
    for _ in 0..searches {
        match rows(rt, &mut seat, square(rt), &mut NoPause) {
            Some(found) if found >= least => least = found,
            found => panic!(rt; "{found:?} rows behind {least}"),
        }
    }
    seat
}

/// Searches with each of these seats, in a thread of its own.
fn search_at_once<'h, L, H, R>(
    rt: &R,
    seats: Vec<Seat<'h, L, H, Global>>,
    begun: &AtomicU64,
    searches: u64,
) -> Result<Vec<Seat<'h, L, H, Global>>, AllocError>
where
    L: HallName + Send + Sync,
    H: Wait + Drop + Send,
    R: Threads + Wait + Abort + Sync,
{
    thread::map_vec(rt, seats, &|seat| search_often(rt, seat, begun, searches))
}

/// Adds roads where the others search, once all of these have begun.
fn commit_often<'h, L: HallName, H: Wait + Drop, R: Wait + Abort>(
    rt: &R,
    seat: Seat<'h, L, H, Global>,
    begun: &AtomicU64,
) -> Seat<'h, L, H, Global> {
    let mut seat = seat;
    wait_for_at_least(begun, SEARCHERS as u64);
    for id in 1..ROUNDS + 1 {
        let version = applied(rt, &mut seat, road(rt, id, 2, 2), &mut NoPause);
        assert_eq!(rt; version, Some(id));
    }
    seat
}

fn beside_in<L, H, R>(rt: &R, own: H, heap: Global, unnamed: Unnamed<Global>)
where
    L: HallName + Send + Sync,
    H: Wait + Drop + Send,
    R: Threads + Wait + Abort + Sync,
    requires name { unnamed.ledger.name ≡ L.name }
    requires parts { (unnamed.ledger.parts ≡ L.parts) × (L.parts ≡ LEDGER_PARTS) }
    requires list { unnamed.list ≡ L.book }
    requires states { unnamed.states ≡ L.states }
{
    let hall = opened::<L, H>(rt, own, heap, unnamed, 0);
    let south = south_seats(rt, heap, &hall);
    let north = seat(rt, &hall, "north");
    let begun = AtomicU64::new(0);
    let begun = &begun;
    let (searched, north) = join(
        rt,
        move || search_at_once(rt, south, begun, ROUNDS),
        move || commit_often(rt, north, begun),
    );
    assert!(rt; searched.is_ok());
    let mut seats = searched.unwrap();
    assert!(rt; seats.push(north).is_ok());
    let calls = (SEARCHERS as u64 + 1) * ROUNDS;
    assert_eq!(rt; hall.record_count(rt), calls);
    assert_eq!(rt; receipts_of(&seats), calls);
    close_all(rt, &hall, seats);
}

/// Several seats search at once while another one commits. No search goes back behind what its seat
/// has seen, and the hall closes: no record is lost, and each seat's are its receipts.
#[test]
fn searches_at_once_beside_lists(rt: HostRuntime) {
    beside_in::<Brand, _, _>(&rt, rt, rt.alloc(), Unnamed::new());
}

fn overflow_in<L, H, R>(rt: &R, own: H, heap: Global, unnamed: Unnamed<Global>)
where
    L: HallName + Send + Sync,
    H: Wait + Drop + Send,
    R: Threads + Wait + Abort + Sync,
    requires name { unnamed.ledger.name ≡ L.name }
    requires parts { (unnamed.ledger.parts ≡ L.parts) × (L.parts ≡ LEDGER_PARTS) }
    requires list { unnamed.list ≡ L.book }
    requires states { unnamed.states ≡ L.states }
{
    let hall = opened::<L, H>(rt, own, heap, unnamed, 0);
    let south = south_seats(rt, heap, &hall);
    let searched = search_at_once(rt, south, &AtomicU64::new(0), MANY / 2);
    assert!(rt; searched.is_ok());
    let seats = searched.unwrap();
    assert_eq!(rt; hall.record_count(rt), SEARCHERS as u64 * (MANY / 2));
    close_all(rt, &hall, seats);
}

/// The seats that search at once have more answers than a tray holds, and there is no other call.
#[test]
fn more_searches_at_once_than_a_tray_holds(rt: HostRuntime) {
    overflow_in::<Brand, _, _>(&rt, rt, rt.alloc(), Unnamed::new());
}

/// Searches until the trail is full. Returns how many searches were answered.
fn search_until_full<L: HallName, H: Wait + Drop, R: Wait + Abort>(
    rt: &R,
    seat: &mut Seat<'_, L, H, Global>,
) -> u64 {
    for answered in 0..MOST {
        if let Err(fault) = seat.search(rt, square(rt), &mut NoPause) {
            assert_eq!(rt; fault, HallFault::Core(Fault::TrailFull));
            return answered;
        }
    }
    panic!(rt; "the trail takes more records than it may");
}

/// Where answers alone have filled the trail, it takes no list, no answer by steps and no document.
fn assert_full<L: HallName, H: Wait + Drop, R: Wait + Abort>(
    rt: &R,
    heap: Global,
    chief: &mut Seat<'_, L, H, Global>,
) {
    let committed = chief.commit(rt, &[road(rt, 1, 1, 1)], &mut NoPause);
    assert!(rt; matches!(committed, Err(HallFault::Core(Fault::TrailFull))));
    let searched = chief.search(rt, square(rt), &mut Steps);
    assert!(rt; matches!(searched, Err(HallFault::Core(Fault::TrailFull))));
    let governed = chief.govern(rt, document(rt, heap, OPEN));
    assert!(rt; matches!(governed, Err(HallFault::Core(Fault::TrailFull))));
}

/// Fills a trail of five records three times.
fn full_in<L: HallName, H: Wait + Drop, R: Wait + Abort>(
    rt: &R,
    own: H,
    heap: Global,
    unnamed: Unnamed<Global>,
)
    requires name { unnamed.ledger.name ≡ L.name }
    requires parts { (unnamed.ledger.parts ≡ L.parts) × (L.parts ≡ LEDGER_PARTS) }
    requires list { unnamed.list ≡ L.book }
    requires states { unnamed.states ≡ L.states }
{
    let limits = Limits {
        records: 5,
        ..Limits::GREATEST
    };
    let hall: Hall<L, H, Global> = opened_within(rt, own, heap, unnamed, limits);
    let mut north = seat(rt, &hall, "north");
    let mut chief = seat(rt, &hall, "chief");
    search_points(rt, &mut north, 5);
    assert_full(rt, heap, &mut chief);
    assert_eq!(rt; search_until_full(rt, &mut north), 0);
    assert_eq!(rt; hall.record_count(rt), 5);
    assert_eq!(rt; roll_on(rt, &mut chief, 1), 6);
    assert!(rt; applied(rt, &mut north, road(rt, 1, 1, 1), &mut NoPause).is_some());
    assert_eq!(rt; search_until_full(rt, &mut north), 4);
    assert_eq!(rt; search_until_full(rt, &mut chief), 0);
    assert_eq!(rt; roll_on(rt, &mut chief, 6), 11);
    search_points(rt, &mut north, 5);
    close_two(rt, heap, &hall, north, chief, 15);
}

/// Answers fill a trail just as other records do: as many searches are answered as it has room for,
/// and the next ones are refused by X10. A roll takes all records out, and then searches are
/// answered again.
#[test]
fn answers_fill_a_trail(rt: HostRuntime) {
    full_in::<Brand, _, _>(&rt, rt, rt.alloc(), Unnamed::new());
}

/// Searches until the trail is full, in a thread of its own.
fn fill<'h, L: HallName, H: Wait + Drop, R: Wait + Abort>(
    rt: &R,
    seat: Seat<'h, L, H, Global>,
) -> Seat<'h, L, H, Global> {
    let mut seat = seat;
    search_until_full(rt, &mut seat);
    seat
}

/// Searches with each of these seats, in a thread of its own, until the trail is full.
fn fill_at_once<'h, L, H, R>(
    rt: &R,
    seats: Vec<Seat<'h, L, H, Global>>,
) -> Result<Vec<Seat<'h, L, H, Global>>, AllocError>
where
    L: HallName + Send + Sync,
    H: Wait + Drop + Send,
    R: Threads + Wait + Abort + Sync,
{
    thread::map_vec(rt, seats, &|seat| fill(rt, seat))
}

fn full_at_once_in<L, H, R>(rt: &R, own: H, heap: Global, unnamed: Unnamed<Global>)
where
    L: HallName + Send + Sync,
    H: Wait + Drop + Send,
    R: Threads + Wait + Abort + Sync,
    requires name { unnamed.ledger.name ≡ L.name }
    requires parts { (unnamed.ledger.parts ≡ L.parts) × (L.parts ≡ LEDGER_PARTS) }
    requires list { unnamed.list ≡ L.book }
    requires states { unnamed.states ≡ L.states }
{
    let limits = Limits {
        records: 500,
        ..Limits::GREATEST
    };
    let hall: Hall<L, H, Global> = opened_within(rt, own, heap, unnamed, limits);
    let south = south_seats(rt, heap, &hall);
    let searched = fill_at_once(rt, south);
    assert!(rt; searched.is_ok());
    let seats = searched.unwrap();
    assert_eq!(rt; receipts_of(&seats), 500);
    close_all(rt, &hall, seats);
}

/// Seats that search at once fill a trail: just as many searches are answered as it has room for.
#[test]
fn answers_at_once_fill_a_trail(rt: HostRuntime) {
    full_at_once_in::<Brand, _, _>(&rt, rt, rt.alloc(), Unnamed::new());
}

/// Rolls right behind searches, and once more.
fn roll_in<L: HallName, H: Wait + Drop, R: Wait + Abort>(
    rt: &R,
    own: H,
    heap: Global,
    unnamed: Unnamed<Global>,
)
    requires name { unnamed.ledger.name ≡ L.name }
    requires parts { (unnamed.ledger.parts ≡ L.parts) × (L.parts ≡ LEDGER_PARTS) }
    requires list { unnamed.list ≡ L.book }
    requires states { unnamed.states ≡ L.states }
{
    let hall = opened::<L, H>(rt, own, heap, unnamed, 0);
    let mut north = seat(rt, &hall, "north");
    let mut chief = seat(rt, &hall, "chief");
    search_points(rt, &mut north, 10);
    let piece = chief.roll(rt).expect(rt, "a piece");
    assert_eq!(rt; (piece.trail().first(), piece.trail().len()), (1, 10));
    assert_eq!(rt; piece.lines().len(), 10);
    for (place, receipt) in north.receipts().iter().enumerate() {
        let record = piece.trail().get(place as u64 + 1).expect(rt, "a record");
        assert!(rt; **record == **receipt, "{place}");
    }
    assert_eq!(rt; roll_on(rt, &mut chief, 11), 11);
    close_two(rt, heap, &hall, north, chief, 10);
}

/// A roll right behind searches has their records.
#[test]
fn a_roll_right_behind_searches(rt: HostRuntime) {
    roll_in::<Brand, _, _>(&rt, rt, rt.alloc(), Unnamed::new());
}

/// Searches a point once the other seat's search waits, then sets `done` to let that go on. Returns
/// the seat, and the number of rows if all went well.
fn search_beside<'h, L: HallName, H: Wait + Drop, R: Wait + Abort>(
    rt: &R,
    seat: Seat<'h, L, H, Global>,
    seen: &AtomicU64,
    done: &AtomicU64,
) -> (Seat<'h, L, H, Global>, Option<usize>) {
    let mut seat = seat;
    let met = wait_for(seen);
    let found = rows(rt, &mut seat, point(rt, 1, 1), &mut NoPause);
    done.store(1, Ordering::SeqCst);
    (seat, if met { found } else { None })
}

fn paused_in<L, H, R>(rt: &R, own: H, heap: Global, unnamed: Unnamed<Global>)
where
    L: HallName + Send + Sync,
    H: Wait + Drop + Send,
    R: Threads + Wait + Abort + Sync,
    requires name { unnamed.ledger.name ≡ L.name }
    requires parts { (unnamed.ledger.parts ≡ L.parts) × (L.parts ≡ LEDGER_PARTS) }
    requires list { unnamed.list ≡ L.book }
    requires states { unnamed.states ≡ L.states }
{
    let hall = opened::<L, H>(rt, own, heap, unnamed, 0);
    let one = seat(rt, &hall, "south");
    let mut two = seat(rt, &hall, "north");
    assert!(rt; applied(rt, &mut two, road(rt, 1, 1, 1), &mut NoPause).is_some());
    let (seen, done) = (AtomicU64::new(0), AtomicU64::new(0));
    let (seen, done) = (&seen, &done);
    let ((one, paused), (two, beside)) = join(
        rt,
        move || search_meeting(rt, one, seen, done),
        move || search_beside(rt, two, seen, done),
    );
    assert_eq!(rt; (paused, beside), (Some(1), Some(1)));
    assert_eq!(rt; seen.load(Ordering::SeqCst), 2);
    assert_eq!(rt; (one.receipts().len(), two.receipts().len()), (1, 2));
    let records = all_records(rt, heap, &hall);
    assert_eq!(rt; records.len(), 3);
    let (first, last) = records.as_slice().split_at(2);
    assert_in_order(rt, first, two.receipts());
    assert_in_order(rt, last, one.receipts());
    close_two(rt, heap, &hall, one, two, 3);
}

/// A search is answered while another seat's search by steps waits between two of its events. Its
/// record stands before that one's, which is answered later.
#[test]
fn a_search_beside_a_search_that_waits(rt: HostRuntime) {
    paused_in::<Brand, _, _>(&rt, rt, rt.alloc(), Unnamed::new());
}

/// How many records a hall has, and where its last change is.
fn counts<L: HallName, H: Wait + Drop>(rt: &impl Wait, hall: &Hall<L, H, Global>) -> (u64, u64) {
    (hall.record_count(rt), hall.last_change(rt))
}

/// Searches behind a list, before another one, and behind a document.
fn counts_in<L: HallName, H: Wait + Drop, R: Wait + Abort>(
    rt: &R,
    own: H,
    heap: Global,
    unnamed: Unnamed<Global>,
)
    requires name { unnamed.ledger.name ≡ L.name }
    requires parts { (unnamed.ledger.parts ≡ L.parts) × (L.parts ≡ LEDGER_PARTS) }
    requires list { unnamed.list ≡ L.book }
    requires states { unnamed.states ≡ L.states }
{
    let hall = opened::<L, H>(rt, own, heap, unnamed, 0);
    let mut north = seat(rt, &hall, "north");
    let mut chief = seat(rt, &hall, "chief");
    assert!(rt; applied(rt, &mut north, road(rt, 1, 1, 1), &mut NoPause).is_some());
    assert_eq!(rt; counts(rt, &hall), (1, 1));
    for searches in 1..4 {
        search_points(rt, &mut north, 1);
        assert_eq!(rt; counts(rt, &hall), (1 + searches, 1));
    }
    // A round of tending changes neither count.
    assert!(rt; hall.tend_round(rt).is_ok());
    assert_eq!(rt; counts(rt, &hall), (4, 1));
    search_points(rt, &mut chief, 2);
    assert_eq!(rt; counts(rt, &hall), (6, 1));
    assert!(rt; applied(rt, &mut north, road(rt, 2, 1, 1), &mut NoPause).is_some());
    assert_eq!(rt; counts(rt, &hall), (7, 7));
    search_points(rt, &mut north, 2);
    assert!(rt; chief.govern(rt, document(rt, heap, OPEN)).is_ok());
    assert_eq!(rt; counts(rt, &hall), (10, 10));
    search_points(rt, &mut north, 1);
    assert_eq!(rt; counts(rt, &hall), (11, 10));
    close_two(rt, heap, &hall, north, chief, 11);
}

/// Searches are counted at once, and are no change. The place of a change counts the answers before
/// it.
#[test]
fn searches_are_counted_and_change_nothing(rt: HostRuntime) {
    counts_in::<Brand, _, _>(&rt, rt, rt.alloc(), Unnamed::new());
}

/// Ends a hall right behind searches.
fn end_in<L: HallName, H: Wait + Drop, R: Wait + Abort>(
    rt: &R,
    own: H,
    heap: Global,
    unnamed: Unnamed<Global>,
    leaves: bool,
)
    requires name { unnamed.ledger.name ≡ L.name }
    requires parts { (unnamed.ledger.parts ≡ L.parts) × (L.parts ≡ LEDGER_PARTS) }
    requires list { unnamed.list ≡ L.book }
    requires states { unnamed.states ≡ L.states }
{
    let hall = opened::<L, H>(rt, own, heap, unnamed, 0);
    let mut north = seat(rt, &hall, "north");
    assert!(rt; applied(rt, &mut north, road(rt, 1, 1, 1), &mut NoPause).is_some());
    search_points(rt, &mut north, 10);
    let mut seats = Vec::new(heap);
    assert!(rt; seats.push(north).is_ok());
    if !leaves {
        close_all(rt, &hall, seats);
        return;
    }
    match hall.leave(rt, seats) {
        Ok(left) => {
            assert_eq!(rt; (left.closed.records, left.closed.seats), (11, 1));
            assert_eq!(rt; (left.base.version, left.base.features.len()), (1, 1));
        }
        Err(_) => panic!(rt; "not closed"),
    }
}

/// A hall closes, and leaves its state, right behind searches: it has their records.
#[test]
fn an_end_right_behind_searches(rt: HostRuntime) {
    end_in::<Brand, _, _>(&rt, rt, rt.alloc(), Unnamed::new(), false);
    end_in::<Brand, _, _>(&rt, rt, rt.alloc(), Unnamed::new(), true);
}

/// A call between searches.
#[derive(Clone, Copy, Debug)]
enum Between {
    Seat,
    NoSeat,
    View,
    Tend,
    Sweep,
    Read,
    Steps,
    TurnAway,
    Govern,
    Roll,
}

/// Each of them.
const EACH: [Between; 10] = [
    Between::Seat,
    Between::NoSeat,
    Between::View,
    Between::Tend,
    Between::Sweep,
    Between::Read,
    Between::Steps,
    Between::TurnAway,
    Between::Govern,
    Between::Roll,
];

/// Makes the call, and returns how many records it leaves.
fn call<'h, L: HallName, H: Wait + Drop, R: Wait + Abort>(
    rt: &R,
    heap: Global,
    hall: &'h Hall<L, H, Global>,
    chief: &mut Seat<'h, L, H, Global>,
    others: &mut Vec<Seat<'h, L, H, Global>>,
    between: Between,
) -> u64 {
    match between {
        Between::Seat => assert!(rt; others.push(seat(rt, hall, "south")).is_ok()),
        Between::NoSeat => assert!(rt; hall.seat(rt, name(rt, "nobody")).is_err()),
        Between::View => drop(view(rt, hall)),
        Between::Tend => assert!(rt; hall.tend_round(rt).is_ok()),
        Between::Sweep => {
            hall.want_round(rt);
            assert!(rt; hall.tend_round(rt).is_ok());
        }
        Between::Read => drop(all_records(rt, heap, hall)),
        Between::Steps => assert!(rt; rows(rt, chief, square(rt), &mut Steps) == Some(1)),
        Between::TurnAway => {
            let version = applied(rt, chief, road(rt, 1, 2, 2), &mut NoPause);
            assert!(rt; version.is_none());
        }
        Between::Govern => assert!(rt; chief.govern(rt, document(rt, heap, OPEN)).is_ok()),
        Between::Roll => assert!(rt; chief.roll(rt).is_ok()),
    }
    match between {
        Between::Steps | Between::TurnAway | Between::Govern => 1,
        _ => 0,
    }
}

/// Makes each call between searches of two seats.
fn between_in<L: HallName, H: Wait + Drop, R: Wait + Abort>(
    rt: &R,
    own: H,
    heap: Global,
    unnamed: Unnamed<Global>,
)
    requires name { unnamed.ledger.name ≡ L.name }
    requires parts { (unnamed.ledger.parts ≡ L.parts) × (L.parts ≡ LEDGER_PARTS) }
    requires list { unnamed.list ≡ L.book }
    requires states { unnamed.states ≡ L.states }
{
    let hall = opened::<L, H>(rt, own, heap, unnamed, 1);
    let mut north = seat(rt, &hall, "north");
    let mut chief = seat(rt, &hall, "chief");
    let mut seats = Vec::new(heap);
    assert!(rt; applied(rt, &mut north, road(rt, 1, 1, 1), &mut NoPause).is_some());
    let mut records = 1;
    for between in EACH {
        assert_eq!(rt; rows(rt, &mut north, square(rt), &mut NoPause), Some(1));
        assert_eq!(rt; rows(rt, &mut chief, square(rt), &mut NoPause), Some(1));
        records += 2 + call(rt, heap, &hall, &mut chief, &mut seats, between);
        assert_eq!(rt; hall.record_count(rt), records, "{between:?}");
    }
    assert_eq!(rt; rows(rt, &mut north, square(rt), &mut NoPause), Some(1));
    for seat in [north, chief] {
        assert!(rt; seats.push(seat).is_ok());
    }
    assert_eq!(rt; receipts_of(&seats), records + 1);
    close_all(rt, &hall, seats);
}

/// Searches are answered before and behind each other call, and all records are counted.
#[test]
fn searches_between_other_calls(rt: HostRuntime) {
    between_in::<Brand, _, _>(&rt, rt, rt.alloc(), Unnamed::new());
}
