//! Calls of a seat, and the end of a hall, with each of their allocations refused in turn.
ghost use Rattle.std.specs.Prelude.{◌≡◌, ◌≤◌};

use crate::halls::{
    OPEN, ROADS, applied, document, name, opened_in, road, rows, seat, square, subjects,
};
use chronicle::Chronicle;
use features::Change;
use hall::{
    CloseFault, Closed, Hall, HallFault, HallName, LEDGER_PARTS, LeaveFault, NoPause, Seat, Unnamed,
};
use refusing::Refusing;
use std::alloc::Global;
use std::marker::Brand;
use std::process::Abort;
use std::sync::Wait;
use world::{Fault, Limits, ROLLED_LIMIT, Starts, TreeFault, Visit};

/// More allocations than any of the calls makes.
const MOST: u64 = 100;

/// So many answers wait in a hall's tray before some of the calls that the trail has to grow twice
/// to take them in, and the tray to take one more.
const ANSWERS: u32 = 8;

/// A call that allocates.
#[derive(Clone, Copy, Debug, PartialEq, Eq)]
enum Taking {
    Search,
    Apply,
    TurnAway,
    Govern,
    Roll,
}

/// How a call went of which one allocation was to be refused.
#[derive(Clone, Copy, Debug, PartialEq, Eq)]
enum Tried {
    /// It makes fewer allocations.
    Unreached,
    /// It was refused as well, and answered when it was made again.
    Refused,
    /// It was answered without what was refused.
    Answered,
}

/// Makes the call, and returns its fault, if any.
fn call<L: HallName, H: Wait + Drop, R: Wait + Abort>(
    rt: &R,
    heap: Global,
    chief: &mut Seat<'_, L, H, &Refusing<Global>>,
    taking: Taking,
) -> Option<HallFault> {
    match taking {
        Taking::Search => chief.search(rt, square(rt), &mut NoPause).err(),
        Taking::Apply => chief.commit(rt, &[road(rt, 2, 2, 2)], &mut NoPause).err(),
        Taking::TurnAway => chief
            .commit(rt, &[Change::Delete { id: 9, version: 1 }], &mut NoPause)
            .err(),
        Taking::Govern => chief.govern(rt, document(rt, heap, ROADS)).err(),
        Taking::Roll => chief.roll(rt).err(),
    }
}

/// How many receipts the call leaves once it is answered.
fn receipts_of(taking: Taking) -> usize {
    if taking == Taking::Roll { 0 } else { 1 }
}

/// Whether the fault is that an allocation was refused.
fn is_memory(fault: &HallFault) -> bool {
    matches!(
        fault,
        HallFault::Memory(_)
            | HallFault::Core(Fault::Memory(_))
            | HallFault::Core(Fault::Tree(TreeFault::Memory(_)))
    )
}

/// Makes the call with allocation number `at` refused. If the call fails then, it does so with a
/// memory fault, leaves no receipt and changes no feature, and the same call succeeds afterwards.
fn try_call<L: HallName, H: Wait + Drop, R: Wait + Abort>(
    rt: &R,
    heap: Global,
    memory: &Refusing<Global>,
    chief: &mut Seat<'_, L, H, &Refusing<Global>>,
    north: &mut Seat<'_, L, H, &Refusing<Global>>,
    taking: Taking,
    at: u64,
) -> Tried {
    memory.refuse(at);
    let fault = call(rt, heap, chief, taking);
    let reached = memory.has_refused();
    memory.refuse(0);
    let tried = match fault {
        None if reached => Tried::Answered,
        None => Tried::Unreached,
        Some(fault) => {
            assert!(rt; reached && is_memory(&fault), "{taking:?} {at}: {fault}");
            assert_eq!(rt; chief.receipts().len(), 0);
            assert_eq!(rt; rows(rt, north, square(rt), &mut NoPause), Some(1));
            assert!(rt;
                call(rt, heap, chief, taking).is_none(),
                "{taking:?} {at}: again"
            );
            Tried::Refused
        }
    };
    assert_eq!(rt;
        chief.receipts().len(),
        receipts_of(taking),
        "{taking:?} {at}"
    );
    tried
}

/// Closes a hall with its two seats.
fn close_two<'h, 'm, L: HallName, H: Wait + Drop, R: Wait + Abort>(
    rt: &R,
    memory: &'m Refusing<Global>,
    hall: &'h Hall<L, H, &'m Refusing<Global>>,
    one: Seat<'h, L, H, &'m Refusing<Global>>,
    two: Seat<'h, L, H, &'m Refusing<Global>>,
)
    requires { L.parts ≡ LEDGER_PARTS }
{
    let mut seats = Vec::new(memory);
    assert!(rt; seats.push(one).is_ok());
    assert!(rt; seats.push(two).is_ok());
    match hall.close(rt, seats) {
        Ok(closed) => assert_eq!(rt; closed.seats, 2),
        Err((fault, _)) => panic!(rt; "not closed: {fault}"),
    }
}

/// Adds a road, and searches so often that this many answers wait in the tray.
fn begin<L: HallName, H: Wait + Drop, R: Wait + Abort>(
    rt: &R,
    north: &mut Seat<'_, L, H, &Refusing<Global>>,
    answers: u32,
) {
    assert!(rt; applied(rt, north, road(rt, 1, 1, 1), &mut NoPause).is_some());
    for _ in 0..answers {
        assert_eq!(rt; rows(rt, north, square(rt), &mut NoPause), Some(1));
    }
}

/// Opens a hall with one road, two seats and so many answers in its tray, and lets the chief make
/// the call with allocation number `at` refused.
fn refused_in<'m, L: HallName, H: Wait + Drop, R: Wait + Abort>(
    rt: &R,
    own: H,
    memory: &'m Refusing<Global>,
    heap: Global,
    unnamed: Unnamed<&'m Refusing<Global>>,
    taking: Taking,
    answers: u32,
    at: u64,
) -> Tried
    requires name { unnamed.ledger.name ≡ L.name }
    requires parts { (unnamed.ledger.parts ≡ L.parts) × (L.parts ≡ LEDGER_PARTS) }
    requires list { unnamed.list ≡ L.book }
    requires states { unnamed.states ≡ L.states }
{
    let hall: Hall<L, H, &'m Refusing<Global>> = opened_in(rt, own, memory, heap, unnamed, 0);
    let mut chief = seat(rt, &hall, "chief");
    let mut north = seat(rt, &hall, "north");
    begin(rt, &mut north, answers);
    let tried = try_call(rt, heap, memory, &mut chief, &mut north, taking, at);
    close_two(rt, memory, &hall, chief, north);
    tried
}

/// How many allocations the call makes, and how many of them it does without: each is refused in
/// turn, until there is none of that number.
fn refusals<H: Wait + Drop + Copy, R: Wait + Abort>(
    rt: &R,
    own: H,
    heap: Global,
    taking: Taking,
    answers: u32,
) -> (u64, u64) {
    let mut spared = 0;
    for at in 1..MOST {
        let memory = Refusing::new(heap, 0);
        let unnamed: Unnamed<&Refusing<Global>> = Unnamed::new();
        match refused_in::<Brand, _, _>(rt, own, &memory, heap, unnamed, taking, answers, at) {
            Tried::Unreached => return (at - 1, spared),
            Tried::Refused => {}
            Tried::Answered => spared += 1,
        }
    }
    (MOST, spared)
}

/// A search whose place in the tray is refused is made again, and recorded in the trail at once. A
/// roll goes on without the answers that it has no memory to take in: eight want two allocations. No
/// other call does without one.
#[test]
fn each_allocation_of_a_call_refused(rt: HostRuntime) {
    for answers in [0, ANSWERS] {
        for taking in [
            Taking::Search,
            Taking::Apply,
            Taking::TurnAway,
            Taking::Govern,
            Taking::Roll,
        ] {
            let (count, spared) = refusals(&rt, rt, rt.alloc(), taking, answers);
            assert!(rt; 0 < count && count < MOST, "{taking:?} {answers}: {count}");
            let expected = match taking {
                Taking::Search => 1,
                Taking::Roll if answers > 0 => 2,
                _ => 0,
            };
            assert_eq!(rt; spared, expected, "{taking:?} {answers}");
        }
    }
}

/// Asks for a seat with allocation number `at` refused. None is then given, and the next request is
/// given the seat of this number. Returns whether the allocation was reached.
fn is_seat_refused<L: HallName, H: Wait + Drop, R: Wait + Abort>(
    rt: &R,
    memory: &Refusing<Global>,
    hall: &Hall<L, H, &Refusing<Global>>,
    number: u32,
    at: u64,
) -> bool {
    memory.refuse(at);
    let given = hall.seat(rt, name(rt, "north"));
    let reached = memory.has_refused();
    memory.refuse(0);
    match given {
        Ok(seat) => assert!(rt; !reached && seat.number() == number),
        Err(fault) => {
            assert!(rt; reached && is_memory(&fault), "{at}: {fault}");
            assert_eq!(rt; seat(rt, hall, "north").number(), number);
        }
    }
    reached
}

/// Asks for the first seat of a hall, or for one behind so many answers of the first one, with
/// allocation number `at` refused. Returns whether the allocation was reached.
fn seat_refused_in<'m, L: HallName, H: Wait + Drop, R: Wait + Abort>(
    rt: &R,
    own: H,
    memory: &'m Refusing<Global>,
    heap: Global,
    unnamed: Unnamed<&'m Refusing<Global>>,
    answers: u32,
    at: u64,
) -> bool
    requires name { unnamed.ledger.name ≡ L.name }
    requires parts { (unnamed.ledger.parts ≡ L.parts) × (L.parts ≡ LEDGER_PARTS) }
    requires list { unnamed.list ≡ L.book }
    requires states { unnamed.states ≡ L.states }
{
    let hall: Hall<L, H, &'m Refusing<Global>> = opened_in(rt, own, memory, heap, unnamed, 0);
    if answers == 0 {
        return is_seat_refused(rt, memory, &hall, 1, at);
    }
    let mut north = seat(rt, &hall, "north");
    begin(rt, &mut north, answers);
    is_seat_refused(rt, memory, &hall, 2, at)
}

/// How many allocations giving a seat makes: each is refused in turn, until there is none of that
/// number.
fn seat_refusals<H: Wait + Drop + Copy, R: Wait + Abort>(
    rt: &R,
    own: H,
    heap: Global,
    answers: u32,
) -> u64 {
    for at in 1..MOST {
        let memory = Refusing::new(heap, 0);
        let unnamed: Unnamed<&Refusing<Global>> = Unnamed::new();
        if !seat_refused_in::<Brand, _, _>(rt, own, &memory, heap, unnamed, answers, at) {
            return at - 1;
        }
    }
    MOST
}

#[test]
fn each_allocation_of_a_seat_refused(rt: HostRuntime) {
    for answers in [0, ANSWERS] {
        let count = seat_refusals(&rt, rt, rt.alloc(), answers);
        assert!(rt; 0 < count && count < MOST, "{answers}: {count}");
    }
}

/// Closes a hall, or lets it leave its state. Where there is no memory for that, the seats come
/// back.
fn end<'h, 'm, L: HallName, H: Wait + Drop, R: Wait + Abort>(
    rt: &R,
    hall: &'h Hall<L, H, &'m Refusing<Global>>,
    seats: Vec<Seat<'h, L, H, &'m Refusing<Global>>, &'m Refusing<Global>>,
    leaves: bool,
) -> Result<Closed, Vec<Seat<'h, L, H, &'m Refusing<Global>>, &'m Refusing<Global>>>
    requires { L.parts ≡ LEDGER_PARTS }
{
    if leaves {
        match hall.leave(rt, seats) {
            Ok(left) => Ok(left.closed),
            Err((LeaveFault::State(fault), back)) => {
                assert!(rt; is_memory(&fault), "{fault}");
                Err(back)
            }
            Err((LeaveFault::Close(fault), _)) => panic!(rt; "not closed: {fault}"),
        }
    } else {
        match hall.close(rt, seats) {
            Ok(closed) => Ok(closed),
            Err((CloseFault::Memory, back)) => Err(back),
            Err((fault, _)) => panic!(rt; "not closed: {fault}"),
        }
    }
}

/// Ends a hall in whose tray answers wait, with allocation number `at` refused. The hall is then as
/// it was, and ends when that is asked for again. Returns whether the allocation was reached.
fn end_refused_in<'m, L: HallName, H: Wait + Drop, R: Wait + Abort>(
    rt: &R,
    own: H,
    memory: &'m Refusing<Global>,
    heap: Global,
    unnamed: Unnamed<&'m Refusing<Global>>,
    leaves: bool,
    at: u64,
) -> bool
    requires name { unnamed.ledger.name ≡ L.name }
    requires parts { (unnamed.ledger.parts ≡ L.parts) × (L.parts ≡ LEDGER_PARTS) }
    requires list { unnamed.list ≡ L.book }
    requires states { unnamed.states ≡ L.states }
{
    let hall: Hall<L, H, &'m Refusing<Global>> = opened_in(rt, own, memory, heap, unnamed, 0);
    let mut north = seat(rt, &hall, "north");
    begin(rt, &mut north, ANSWERS);
    let mut seats = Vec::new(memory);
    assert!(rt; seats.push(north).is_ok());
    memory.refuse(at);
    let ended = end(rt, &hall, seats, leaves);
    let reached = memory.has_refused();
    memory.refuse(0);
    assert_eq!(rt; ended.is_err(), reached, "{leaves} {at}");
    let closed = match ended {
        Ok(closed) => Some(closed),
        Err(back) => end(rt, &hall, back, leaves).ok(),
    };
    let records = u64::from(ANSWERS) + 1;
    assert_eq!(rt; closed, Some(Closed { records, seats: 1 }));
    reached
}

/// How many allocations ending a hall makes: each is refused in turn, until there is none of that
/// number.
fn end_refusals<H: Wait + Drop + Copy, R: Wait + Abort>(
    rt: &R,
    own: H,
    heap: Global,
    leaves: bool,
) -> u64 {
    for at in 1..MOST {
        let memory = Refusing::new(heap, 0);
        let unnamed: Unnamed<&Refusing<Global>> = Unnamed::new();
        if !end_refused_in::<Brand, _, _>(rt, own, &memory, heap, unnamed, leaves, at) {
            return at - 1;
        }
    }
    MOST
}

/// A hall that has no memory to take its answers in, or for the state that it leaves, ends once
/// there is some.
#[test]
fn each_allocation_of_an_end_refused(rt: HostRuntime) {
    for leaves in [false, true] {
        let count = end_refusals(&rt, rt, rt.alloc(), leaves);
        assert!(rt; 0 < count && count < MOST, "{leaves}: {count}");
    }
}

/// Reads the records of a hall that has no memory to take all its answers in.
fn read_refused_in<'m, L: HallName, H: Wait + Drop, R: Wait + Abort>(
    rt: &R,
    own: H,
    memory: &'m Refusing<Global>,
    heap: Global,
    unnamed: Unnamed<&'m Refusing<Global>>,
)
    requires name { unnamed.ledger.name ≡ L.name }
    requires parts { (unnamed.ledger.parts ≡ L.parts) × (L.parts ≡ LEDGER_PARTS) }
    requires list { unnamed.list ≡ L.book }
    requires states { unnamed.states ≡ L.states }
{
    let hall: Hall<L, H, &'m Refusing<Global>> = opened_in(rt, own, memory, heap, unnamed, 0);
    let mut north = seat(rt, &hall, "north");
    begin(rt, &mut north, ANSWERS);
    let all = ANSWERS as usize + 1;
    let made = Vec::with_capacity(memory, all);
    assert!(rt; made.is_ok());
    let mut records = made.unwrap();
    memory.refuse(1);
    assert!(rt; hall.records_from(rt, 0, &mut records).is_ok());
    assert!(rt; memory.has_refused());
    let first = records.len();
    assert!(rt; 0 < first && first < all, "{first}");
    assert_eq!(rt; hall.record_count(rt), all as u64);
    assert!(rt; hall.records_from(rt, first as u64, &mut records).is_ok());
    assert_eq!(rt; records.len(), all);
    assert_eq!(rt; north.receipts().len(), all);
    for (record, receipt) in records.iter().zip(north.receipts().iter()) {
        assert!(rt; **record == **receipt);
    }
}

/// Reading records does not fail where there is no memory for the answers in the tray: those that were
/// not taken in are counted, and read later.
#[test]
fn records_are_read_once_there_is_memory(rt: HostRuntime) {
    let memory = Refusing::new(rt.alloc(), 0);
    read_refused_in::<Brand, _, _>(&rt, rt, &memory, rt.alloc(), Unnamed::new());
}

/// Opens a chronicle out of which this many records were rolled, with seats for north and chief.
fn begun<'m>(
    rt: &impl Abort,
    memory: &'m Refusing<Global>,
    heap: Global,
    rolled: u64,
) -> Chronicle<&'m Refusing<Global>>
    requires { rolled ≤ ROLLED_LIMIT }
{
    let starts = Starts {
        rolled,
        ..Starts::FIRST
    };
    let document = document(rt, heap, OPEN);
    let opened = Chronicle::open_at(
        memory,
        heap,
        subjects(rt),
        document,
        starts,
        Limits::GREATEST,
    );
    assert!(rt; opened.is_ok());
    let mut chronicle = opened.ok().unwrap();
    assert!(rt; chronicle.seat(name(rt, "north")) == Ok(1));
    assert!(rt; chronicle.seat(name(rt, "chief")) == Ok(2));
    chronicle
}

/// Answers a search of the chief, which leaves a record.
fn search(rt: &impl Abort, chronicle: &mut Chronicle<&Refusing<Global>>) {
    let opened = chronicle.open_search(2, square(rt));
    assert!(rt; opened.is_ok());
    let number = opened.unwrap();
    assert!(rt; chronicle.visit(2, number) == Ok(Visit::Ready));
    assert!(rt; chronicle.finish(2, number, &square(rt)).is_ok());
}

/// A roll that the world refuses asks for no memory.
#[test]
fn rolls_are_refused_in_order(rt: HostRuntime) {
    let memory = Refusing::new(rt.alloc(), 0);
    let heap = rt.alloc();
    let mut chronicle = begun(&rt, &memory, heap, ROLLED_LIMIT);
    search(&rt, &mut chronicle);
    memory.refuse(1);
    assert!(&rt; matches!(chronicle.roll(heap, 3), Err(Fault::NoSuch)));
    assert!(&rt; matches!(chronicle.roll(heap, 1), Err(Fault::NotSteward)));
    assert!(&rt; matches!(chronicle.roll(heap, 2), Err(Fault::Spent)));
    assert!(&rt; !memory.has_refused());
    memory.refuse(0);
    let mut chronicle = begun(&rt, &memory, heap, 0);
    search(&rt, &mut chronicle);
    memory.refuse(1);
    assert!(&rt; matches!(chronicle.roll(heap, 1), Err(Fault::NotSteward)));
    assert!(&rt; matches!(chronicle.roll(heap, 2), Err(Fault::Memory(_))));
    assert!(&rt; memory.has_refused());
    memory.refuse(0);
    assert!(&rt; chronicle.roll(heap, 2).is_ok());
}
