//! Names, subjects, and the store of features.

ghost use Rattle.std.specs.Prelude.{◌≡◌};
ghost use Rattle.features.specs.Changes.{change_id};

use crate::kept_tests::shape_of;
use feature_store::{Meter, Store, StoreFault};
use features::{Change, Feature, Name, Subject, Subjects, SubjectsFault};
use plane::{Point, Shape};
use refusing::Refusing;
use std::alloc::{AllocError, Allocator, Global};
use std::process::Abort;
use std::test::Fail;

fn name(rt: &impl Abort, text: &[u8]) -> Name {
    let name = Name::new(text);
    assert!(rt; name.is_some());
    name.unwrap()
}

fn point(rt: &impl Abort, x: i32, y: i32) -> Shape {
    let shape = Shape::point(Point { x, y });
    assert!(rt; shape.is_ok());
    shape.unwrap()
}

/// An addition of this id.
fn addition(rt: &impl Abort, id: u64) -> Change
    ensures { change_id result ≡ id }
{
    Change::Add {
        id,
        class: name(rt, b"mast"),
        shape: point(rt, 1, 2),
    }
}

/// A reshape of this id, to another point.
fn reshape(rt: &impl Abort, id: u64) -> Change
    ensures { change_id result ≡ id }
{
    Change::Reshape {
        id,
        version: 1,
        shape: point(rt, 3, 4),
    }
}

/// A deletion of this id.
fn deletion(id: u64) -> Change
    ensures { change_id result ≡ id }
{
    Change::Delete { id, version: 1 }
}

/// Applies a list of one change. The look-up before it asserts what `Store::apply` requires.
fn make<A: Allocator + Copy>(
    rt: &impl Abort,
    store: &mut Store<A>,
    version: u64,
    change: Change,
) -> Result<(), StoreFault> {
    let found = store.get(change.id(), &mut Meter::new()).is_some();
    match change {
        Change::Add { .. } => assert!(rt; !found),
        Change::Reshape { .. } | Change::Delete { .. } => assert!(rt; found),
    }
    store.apply(version, name(rt, b"north"), &[change])
}

/// Texts that are names.
const NAMES: &str = "a
-
0
north
a-0-z
abcdefghijklmnopqrstuvwxyz-01234";

/// Texts that are no names: the first is empty, and the last too long by one.
const NO_NAMES: &str = "
North
a b
a_b
é
abcdefghijklmnopqrstuvwxyz-012345";

fn check_name(rt: &impl Abort, alloc: Global, text: &str) -> Result<(), AllocError> {
    let name = name(rt, text.as_bytes());
    assert_eq!(rt; name.as_bytes(), text.as_bytes());
    assert_eq!(rt; format!(in alloc; "{name}")?.as_str(), text);
    Ok(())
}

#[test]
fn names(rt: HostRuntime) -> Result<(), Fail> {
    for text in NAMES.lines() {
        check_name(&rt, rt.alloc(), text)?;
    }
    for text in NO_NAMES.lines() {
        assert!(rt; Name::new(text.as_bytes()).is_none(), "{text}");
    }
    Ok(())
}

/// A subject of the office north.
fn subject(rt: &impl Abort, text: &[u8]) -> Subject {
    Subject {
        name: name(rt, text),
        office: name(rt, b"north"),
        role: name(rt, b"editor"),
        steward: false,
    }
}

#[test]
fn subjects_refused(rt: HostRuntime) -> Result<(), Fail> {
    assert_eq!(rt; Subjects::new(&[]).err(), Some(SubjectsFault::NoneGiven));
    let twice = [
        subject(&rt, b"north"),
        subject(&rt, b"south"),
        subject(&rt, b"north"),
    ];
    assert_eq!(rt; Subjects::new(&twice).err(), Some(SubjectsFault::NameTwice));
    let many = [subject(&rt, b"north"); 65];
    assert_eq!(rt; Subjects::new(&many).err(), Some(SubjectsFault::TooMany));
    Ok(())
}

#[test]
fn subjects(rt: HostRuntime) -> Result<(), Fail> {
    let both = Subjects::new(&[subject(&rt, b"north"), subject(&rt, b"south")]);
    assert!(rt; both.is_ok());
    let both = both.unwrap();
    assert_eq!(rt; both.get(name(&rt, b"south")), Some(subject(&rt, b"south")));
    assert_eq!(rt; both.get(name(&rt, b"west")), None);
    Ok(())
}

#[test]
fn faults_are_shown_by_their_codes(rt: HostRuntime) -> Result<(), Fail> {
    let shown = format!(in rt.alloc(); "{} {}", SubjectsFault::NoneGiven, StoreFault::Full)?;
    assert_eq!(rt; shown.as_str(), "N1 F1");
    Ok(())
}

/// Adds features with these ids.
fn fill<A: Allocator + Copy>(rt: &impl Abort, store: &mut Store<A>, ids: &[u64]) {
    for id in ids {
        assert!(rt; make(rt, store, 1, addition(rt, *id)).is_ok());
    }
}

/// A store of the ids 3, 5, 7 and 9, added in another order.
fn four<A: Allocator + Copy>(rt: &impl Abort, alloc: A) -> Store<A> {
    let mut store = Store::new(alloc);
    fill(rt, &mut store, &[7, 3, 9, 5]);
    store
}

fn assert_ids<A: Allocator + Copy>(rt: &impl Abort, store: &Store<A>, ids: &[u64]) {
    assert!(rt; store.len() == ids.len());
    for (at, id) in ids.iter().enumerate() {
        let row = store.row_at(at);
        assert!(rt; row.is_some_and(|row| row.id == *id));
        assert!(rt; store.get(*id, &mut Meter::new()) == row);
    }
    assert!(rt; store.row_at(ids.len()).is_none());
}

/// Checks that these are all rows by rising id, read at one tick each, and that a look-up takes one
/// tick.
fn check_rows<A: Allocator + Copy>(
    rt: &impl Abort,
    store: &Store<A>,
    rows: &[Feature],
    meter: &mut Meter,
) {
    assert_eq!(rt; meter.ticks(), 4);
    assert!(rt; rows.iter().map(|row| row.id).eq([3, 5, 7, 9]));
    assert_eq!(rt; store.get(7, meter), rows.get(2).copied());
    assert_eq!(rt; store.get(8, meter), None);
    assert_eq!(rt; meter.ticks(), 6);
}

#[test]
fn store(rt: HostRuntime) -> Result<(), Fail> {
    let store = four(&rt, rt.alloc());
    assert_ids(&rt, &store, &[3, 5, 7, 9]);
    let mut meter = Meter::new();
    match store.dump(rt.alloc(), &mut meter) {
        Ok(rows) => check_rows(&rt, &store, &rows, &mut meter),
        Err(_) => panic!(rt; "no memory"),
    }
    Ok(())
}

/// Reshapes feature 5, and checks that its neighbour is unchanged.
fn check_reshaped<A: Allocator + Copy>(rt: &impl Abort, store: &mut Store<A>) {
    let mut meter = Meter::new();
    let before = store.get(5, &mut meter);
    let neighbour = store.get(7, &mut meter);
    assert!(rt; make(rt, store, 8, reshape(rt, 5)).is_ok());
    assert_ids(rt, store, &[3, 5, 7, 9]);
    let after = store.get(5, &mut meter);
    assert!(rt; before.is_some() && after.is_some());
    let before = before.unwrap();
    let after = after.unwrap();
    assert_eq!(rt; (before.version, after.version), (1, 8));
    assert!(rt; before.shape != after.shape && after.shape == point(rt, 3, 4));
    assert!(rt; (before.office, before.class) == (after.office, after.class));
    assert_eq!(rt; store.get(7, &mut meter), neighbour);
}

#[test]
fn reshaped(rt: HostRuntime) -> Result<(), Fail> {
    check_reshaped(&rt, &mut four(&rt, rt.alloc()));
    Ok(())
}

/// Deletes one id, and checks which ids are left.
fn check_deleted<A: Allocator + Copy>(
    rt: &impl Abort,
    store: &mut Store<A>,
    id: u64,
    left: &[u64],
) {
    assert!(rt; make(rt, store, 2, deletion(id)).is_ok());
    assert_ids(rt, store, left);
}

/// Deletes all ids one after the other, and adds one.
fn check_emptied<A: Allocator + Copy>(rt: &impl Abort, store: &mut Store<A>) {
    for (id, left) in [(7, 3), (3, 2), (9, 1), (5, 0)] {
        assert!(rt; make(rt, store, 2, deletion(id)).is_ok());
        assert_eq!(rt; store.len(), left);
    }
    assert!(rt; store.is_empty());
    assert!(rt; make(rt, store, 3, addition(rt, 1)).is_ok());
    assert_ids(rt, store, &[1]);
}

#[test]
fn deleted(rt: HostRuntime) -> Result<(), Fail> {
    for (id, left) in [
        (3, [5, 7, 9]),
        (5, [3, 7, 9]),
        (7, [3, 5, 9]),
        (9, [3, 5, 7]),
    ] {
        check_deleted(&rt, &mut four(&rt, rt.alloc()), id, &left);
    }
    check_emptied(&rt, &mut four(&rt, rt.alloc()));
    Ok(())
}

fn next_random(state: &mut u64) -> u64 {
    *state = state
        .wrapping_mul(6_364_136_223_846_793_005)
        .wrapping_add(1_442_695_040_888_963_407);
    *state >> 33
}

/// Whether the id was in a sorted list: it is removed if it was, and inserted otherwise.
fn toggle<A: Allocator + Copy>(rt: &impl Abort, plain: &mut Vec<u64, A>, id: u64) -> bool {
    match plain.binary_search(&id) {
        Ok(at) => {
            plain.remove(at);
            true
        }
        Err(at) => {
            assert!(rt; plain.insert(at, id).is_ok());
            false
        }
    }
}

/// 5,000 additions and deletions of random ids, with reshapes among them: the store has the ids of
/// a plain sorted list.
#[test]
fn as_a_plain_list(rt: HostRuntime) -> Result<(), Fail> {
    let mut store = Store::new(rt.alloc());
    let mut plain: Vec<u64> = Vec::new(rt.alloc());
    let mut state = 7;
    for version in 1..5_001 {
        let id = next_random(&mut state) % 200;
        let was_there = toggle(&rt, &mut plain, id);
        let change = if was_there {
            deletion(id)
        } else {
            addition(&rt, id)
        };
        assert!(rt; make(&rt, &mut store, version, change).is_ok());
        let other = next_random(&mut state) % 200;
        if plain.binary_search(&other).is_ok() {
            assert!(rt; make(&rt, &mut store, version, reshape(&rt, other)).is_ok());
        }
        if version % 50 == 0 {
            assert_ids(&rt, &store, plain.as_slice());
        }
    }
    Ok(())
}

/// Random additions and deletions among so many ids that blocks are split, and then deletions of
/// all, so that they are joined: the store has the ids of a plain sorted list.
#[test]
fn blocks_as_a_plain_list(rt: HostRuntime) -> Result<(), Fail> {
    let mut store = Store::new(rt.alloc());
    let mut plain: Vec<u64> = Vec::new(rt.alloc());
    let mut state = 11;
    for version in 1..12_001 {
        let id = next_random(&mut state) % 5_000;
        let was_there = toggle(&rt, &mut plain, id);
        let change = if was_there {
            deletion(id)
        } else {
            addition(&rt, id)
        };
        assert!(rt; make(&rt, &mut store, version, change).is_ok());
        if version % 1_500 == 0 {
            assert_ids(&rt, &store, plain.as_slice());
        }
    }
    for step in 0..5_000 {
        let id = step * 1_237 % 5_000;
        if plain.binary_search(&id).is_ok() {
            toggle(&rt, &mut plain, id);
            assert!(rt; make(&rt, &mut store, 1, deletion(id)).is_ok());
        }
        if step % 500 == 0 {
            assert_ids(&rt, &store, plain.as_slice());
        }
    }
    assert!(rt; store.is_empty());
    Ok(())
}

/// Adds 3,500 ids, greater ones in each round, and deletes all of them but each
/// 256th.
fn fill_and_thin<A: Allocator + Copy>(rt: &impl Abort, store: &mut Store<A>, round: u64) {
    for step in 0..3_500 {
        let id = round % 100 * 10_000 + step;
        assert!(rt; make(rt, store, 1, addition(rt, id)).is_ok());
    }
    for step in 0..3_500 {
        let id = round % 100 * 10_000 + step;
        if step % 256 != 0 {
            assert!(rt; make(rt, store, 2, deletion(id)).is_ok());
        }
    }
}

/// Blocks that are left with one id each are joined, so that they are few, and ten times as many
/// additions take no memory. Nor do the deletions.
#[test]
fn few_ids_are_in_few_blocks(rt: HostRuntime) -> Result<(), Fail> {
    let memory = Refusing::new(rt.alloc(), 0);
    let mut store = Store::new(&memory);
    fill_and_thin(&rt, &mut store, 0);
    fill_and_thin(&rt, &mut store, 1);
    memory.refuse(1);
    for round in 2..20 {
        fill_and_thin(&rt, &mut store, round);
    }
    assert!(rt; !memory.has_refused());
    assert_eq!(rt; store.len(), 280);
    Ok(())
}

/// A store of the ids 5, 6, 8 and 9, which fill its capacity.
fn full_of_four<A: Allocator + Copy>(rt: &impl Abort, alloc: A) -> Store<A> {
    let mut store = Store::new(alloc);
    fill(rt, &mut store, &[5, 6, 8, 9]);
    store
}

/// A store of this many features, of the ids from 0 on.
fn of_many<A: Allocator + Copy>(rt: &impl Abort, alloc: A, count: u64) -> Store<A> {
    let mut store = Store::new(alloc);
    for id in 0..count {
        assert!(rt; make(rt, &mut store, 1, addition(rt, id)).is_ok());
    }
    store
}

/// How many features a store has, and how many of its lists grow when one is added: all three the
/// first time, then that of the features, and those of the blocks of ids and of their ends.
const GROWTHS: [(u64, u64); 4] = [(0, 3), (4, 1), (512, 1), (769, 2)];

/// Adds a feature while an allocation is refused, and checks that nothing has changed; answers
/// whether one was refused.
fn is_refused<A: Allocator + Copy>(
    rt: &impl Abort,
    memory: &Refusing<A>,
    count: u64,
    at: u64,
) -> bool {
    memory.refuse(0);
    let mut store = of_many(rt, memory, count);
    memory.refuse(at);
    let answer = make(rt, &mut store, 2, addition(rt, u64::MAX));
    if memory.has_refused() {
        assert!(rt; matches!(answer, Err(StoreFault::Memory(_))), "at {at}");
        assert!(rt; store.len() as u64 == count);
        assert!(rt; store.get(u64::MAX, &mut Meter::new()).is_none());
        return true;
    }
    assert!(rt; answer.is_ok());
    assert!(rt; store.get(u64::MAX, &mut Meter::new()).is_some());
    false
}

#[test]
fn each_allocation_refused(rt: HostRuntime) -> Result<(), Fail> {
    let memory = Refusing::new(rt.alloc(), 0);
    for (count, growths) in GROWTHS {
        for at in 1..5 {
            let refused = is_refused(&rt, &memory, count, at);
            assert!(rt; refused == (at <= growths), "{count}: {at}");
        }
    }
    Ok(())
}

/// A refused growth leaves every row as it was.
#[test]
fn rows_after_a_refusal(rt: HostRuntime) -> Result<(), Fail> {
    let memory = Refusing::new(rt.alloc(), 0);
    let mut store = full_of_four(&rt, &memory);
    memory.refuse(1);
    assert!(rt; make(&rt, &mut store, 2, addition(&rt, 7)).is_err() && memory.has_refused());
    assert_ids(&rt, &store, &[5, 6, 8, 9]);
    Ok(())
}

/// A reshape to a point and a deletion allocate nothing, nor does an addition after a deletion.
fn change_without_memory<A: Allocator + Copy>(rt: &impl Abort, store: &mut Store<A>) {
    assert!(rt; make(rt, store, 2, reshape(rt, 6)).is_ok());
    assert!(rt; make(rt, store, 3, deletion(5)).is_ok());
    assert!(rt; make(rt, store, 4, addition(rt, 1)).is_ok());
    assert_ids(rt, store, &[1, 6, 8, 9]);
}

/// Gives feature 7 this shape, and checks that the store has it.
fn check_kept(rt: &impl Abort, store: &mut Store<Global>, shape: Shape) {
    let change = Change::Reshape {
        id: 7,
        version: 1,
        shape,
    };
    assert!(rt; make(rt, store, 2, change).is_ok());
    let found = store.get(7, &mut Meter::new());
    assert!(rt; found.is_some_and(|feature| feature.shape == shape));
}

/// A store keeps shapes of 1 to 16 corners, whatever the feature's shape was before.
#[test]
fn shapes_of_every_size(rt: HostRuntime) -> Result<(), Fail> {
    let heap = rt.alloc();
    let mut store = Store::new(heap);
    assert!(rt; make(&rt, &mut store, 1, addition(&rt, 7)).is_ok());
    for count in 1..17 {
        for before in [1, 2, 3, 16] {
            check_kept(&rt, &mut store, shape_of(&rt, heap, before));
            check_kept(&rt, &mut store, shape_of(&rt, heap, count));
        }
    }
    Ok(())
}

/// A reshape to four corners takes memory. Where that is refused, the feature is as it was.
#[test]
fn rings_refused(rt: HostRuntime) -> Result<(), Fail> {
    let memory = Refusing::new(rt.alloc(), 0);
    let mut store = full_of_four(&rt, &memory);
    let shape = shape_of(&rt, rt.alloc(), 4);
    let change = Change::Reshape {
        id: 6,
        version: 1,
        shape,
    };
    for at in 1..3 {
        memory.refuse(at);
        assert!(rt; make(&rt, &mut store, 2, change).is_err() && memory.has_refused());
        let found = store.get(6, &mut Meter::new());
        assert!(rt; found.is_some_and(|feature| feature.shape == point(&rt, 1, 2)));
    }
    memory.refuse(3);
    assert!(rt; make(&rt, &mut store, 2, change).is_ok() && !memory.has_refused());
    let found = store.get(6, &mut Meter::new());
    assert!(rt; found.is_some_and(|feature| feature.shape == shape));
    Ok(())
}

/// With the next allocation refused, a change that allocates nothing succeeds, and `dump` fails.
#[test]
fn without_memory(rt: HostRuntime) -> Result<(), Fail> {
    let memory = Refusing::new(rt.alloc(), 0);
    let mut store = full_of_four(&rt, &memory);
    memory.refuse(1);
    change_without_memory(&rt, &mut store);
    assert!(rt; Store::new(&memory).is_empty() && !memory.has_refused());
    let mut meter = Meter::new();
    assert!(rt; store.dump(&memory, &mut meter).is_err() && memory.has_refused());
    assert_eq!(rt; meter.ticks(), 0);
    Ok(())
}

/// How many features a store is filled with. A copy of more than these has to grow.
const MANY: usize = 100_000;

/// A store takes one more feature, and one in another's place. A copy has them all.
fn check_many(rt: &impl Abort, heap: Global, store: &mut Store<Global>) {
    assert_eq!(rt; store.len(), MANY);
    assert!(rt; make(rt, store, 2, addition(rt, u64::MAX)).is_ok());
    assert!(rt; make(rt, store, 3, deletion(7)).is_ok());
    assert!(rt; make(rt, store, 4, addition(rt, u64::MAX - 1)).is_ok());
    assert_eq!(rt; store.len(), MANY + 1);
    let mut meter = Meter::new();
    let copied = store.dump(heap, &mut meter);
    assert!(rt; copied.is_ok());
    let rows = copied.unwrap();
    assert_eq!(rt; rows.len(), MANY + 1);
    for (place, row) in rows.iter().enumerate() {
        let id = match MANY.saturating_sub(place) {
            0 => u64::MAX,
            1 => u64::MAX - 1,
            _ if place < 7 => place as u64,
            _ => (place as u64).saturating_add(1),
        };
        assert!(rt; row.id == id, "{place}");
    }
}

#[test]
fn a_hundred_thousand(rt: HostRuntime) -> Result<(), Fail> {
    let mut store = Store::new(rt.alloc());
    for id in 0..MANY as u64 {
        assert!(rt; make(&rt, &mut store, 1, addition(&rt, id)).is_ok());
    }
    check_many(&rt, rt.alloc(), &mut store);
    Ok(())
}
