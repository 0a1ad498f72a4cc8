//! The arena: handles, worn-out slots, refused allocations, and the limit of slots.
use crate::tree_steps::Dice;
use node_arena::{Arena, ArenaFault, Handle, MAX_SLOTS};
use refusing::Refusing;
use std::alloc::{AllocError, Allocator, Global};
use std::cell::Cell;
use std::process::Abort;
use std::test::Fail;

/// Inserts a value, which has to succeed.
fn inserted<A: Allocator + Drop>(rt: &impl Abort, arena: &mut Arena<u64, A>, value: u64) -> Handle {
    let given = arena.insert(value);
    assert!(rt; given.is_ok(), "no room for {value}");
    given.unwrap()
}

#[test]
fn worn_out_handles(rt: HostRuntime) -> Result<(), Fail> {
    let mut arena = Arena::starting_at(rt.alloc(), u32::MAX);
    let first = inserted(&rt, &mut arena, 1);
    assert_eq!(rt;
        first,
        Handle {
            slot: 0,
            generation: u32::MAX
        }
    );
    assert_eq!(rt; arena.remove(first), Some(1));
    assert_eq!(rt; arena.at_slot(0), None);
    let second = inserted(&rt, &mut arena, 2);
    assert!(rt; second.slot != first.slot);
    assert_eq!(rt; arena.get(first).copied(), None);
    assert_eq!(rt; arena.remove(first), None);
    assert_eq!(rt; arena.get(second).copied(), Some(2));
    assert_eq!(rt; (arena.len(), arena.slots()), (1, 2));
    Ok(())
}

#[test]
fn as_a_list_of_pairs(rt: HostRuntime) -> Result<(), Fail> {
    let mut arena = Arena::new(rt.alloc());
    let mut pairs: Vec<(Handle, u64)> = Vec::new(rt.alloc());
    let mut removed: Vec<Handle> = Vec::new(rt.alloc());
    let mut dice = Dice { state: 2_026 };
    for step in 0..100_000u64 {
        let draw = dice.draw() as usize;
        // 10,000 steps of mostly inserts, then 10,000 of mostly removals, and so on.
        let inserts = if step / 10_000 % 2 == 0 { 7 } else { 4 };
        if draw % 10 < inserts || pairs.is_empty() {
            pairs.push((inserted(&rt, &mut arena, step), step))?;
            continue;
        }
        let (handle, value) = pairs.swap_remove(draw / 10 % pairs.len());
        assert_eq!(rt; arena.remove(handle), Some(value), "at {step}");
        assert_eq!(rt; arena.get(handle).copied(), None, "at {step}");
        removed.push(handle)?;
    }
    assert!(rt; pairs.len() > 1_000 && removed.len() > 40_000);
    assert_eq!(rt; arena.len(), pairs.len());
    for (handle, value) in &pairs {
        assert_eq!(rt; arena.get(*handle).copied(), Some(*value));
        assert_eq!(rt; arena.at_slot(handle.slot), Some(*handle));
    }
    for handle in &removed {
        assert_eq!(rt; arena.get(*handle).copied(), None);
    }
    Ok(())
}

/// Inserts the values from 0 to `count - 1`, and returns their handles in this order.
fn filled(
    rt: &impl Abort,
    alloc: Global,
    arena: &mut Arena<u64, Global>,
    count: u64,
) -> Result<Vec<Handle>, AllocError> {
    let mut handles = Vec::new(alloc);
    for value in 0..count {
        handles.push(inserted(rt, arena, value))?;
    }
    Ok(handles)
}

/// Removes the values under these handles, which are 0, 1, 2 and so on.
fn empty(rt: &impl Abort, arena: &mut Arena<u64, Global>, handles: &[Handle]) {
    for (value, handle) in handles.iter().enumerate() {
        assert_eq!(rt; arena.get(*handle).copied(), Some(value as u64));
        assert_eq!(rt; arena.remove(*handle), Some(value as u64));
    }
}

/// Checks that none of these handles has a value.
fn check_stale(rt: &impl Abort, arena: &mut Arena<u64, Global>, handles: &[Handle]) {
    for handle in handles {
        assert_eq!(rt; arena.get(*handle).copied(), None);
        assert!(rt; arena.get_mut(*handle).is_none());
        assert_eq!(rt; arena.remove(*handle), None);
        assert!(rt; arena.at_slot(handle.slot) != Some(*handle));
    }
}

#[test]
fn filled_and_emptied_again(rt: HostRuntime) -> Result<(), Fail> {
    let mut arena = Arena::new(rt.alloc());
    let first = filled(&rt, rt.alloc(), &mut arena, 600)?;
    empty(&rt, &mut arena, &first);
    check_stale(&rt, &mut arena, &first);
    assert_eq!(rt; (arena.len(), arena.slots()), (0, 600));
    let second = filled(&rt, rt.alloc(), &mut arena, 600)?;
    check_stale(&rt, &mut arena, &first);
    assert_eq!(rt; (arena.len(), arena.slots()), (600, 600));
    empty(&rt, &mut arena, &second);
    check_stale(&rt, &mut arena, &first);
    check_stale(&rt, &mut arena, &second);
    Ok(())
}

/// How many of the first `slots` slots hold their own number, in generation 0.
fn held<A: Allocator + Drop>(arena: &Arena<u64, A>, slots: u32) -> u32 {
    let mut held = 0u32;
    for slot in 0..slots {
        let handle = Handle {
            slot,
            generation: 0,
        };
        if arena.get(handle).copied() == Some(u64::from(slot)) {
            held = held.saturating_add(1);
        }
    }
    held
}

/// Inserts the values from 0 to `count - 1`.
fn put<A: Allocator + Drop>(rt: &impl Abort, arena: &mut Arena<u64, A>, count: u64) {
    for value in 0..count {
        inserted(rt, arena, value);
    }
}

/// Fills `count` slots, inserts one value more with allocation number `at` refused, and returns
/// whether that was asked for. If it was, checks that the others are unchanged, that the value is
/// inserted once there is memory, and that a free slot is reused without an allocation.
fn insert_refused<B: Allocator>(
    rt: &impl Abort,
    memory: &Refusing<B>,
    count: u32,
    at: u64,
) -> bool {
    memory.refuse(0);
    let mut arena = Arena::new(memory);
    let more = u64::from(count);
    put(rt, &mut arena, more);
    memory.refuse(at);
    let answer = arena.insert(more);
    if !memory.has_refused() {
        assert!(rt; answer.is_ok(), "nothing was refused");
        return false;
    }
    assert!(rt;
        matches!(&answer, Err((value, ArenaFault::Memory(_))) if *value == more),
        "{at} of {count}"
    );
    assert_eq!(rt; (arena.len(), arena.slots()), (count as usize, count));
    assert_eq!(rt; held(&arena, count), count, "{at} of {count}");
    memory.refuse(0);
    let last = inserted(rt, &mut arena, more);
    memory.refuse(1);
    assert_eq!(rt; arena.remove(last), Some(more));
    assert_eq!(rt; inserted(rt, &mut arena, 5).slot, count);
    assert!(rt; !memory.has_refused(), "{at} of {count}");
    true
}

#[test]
fn each_allocation_refused(rt: HostRuntime) -> Result<(), Fail> {
    let memory = Refusing::new(rt.alloc(), 0);
    // How many slots are filled, and how many allocations the next insertion asks for: a table and
    // a chunk, nothing while the chunk has places, one more chunk, a larger table and a chunk. A
    // table is twice as long as the one before, 16, 32, 64 places: 48 chunks are not a full one.
    let cases: [(u32, u64); 6] = [(0, 2), (1, 0), (255, 0), (256, 1), (4_096, 2), (12_288, 1)];
    for (count, wanted) in cases {
        for at in 1..4 {
            let refused = insert_refused(&rt, &memory, count, at);
            assert_eq!(rt; refused, at <= wanted, "{at} of {count}");
        }
    }
    Ok(())
}

#[test]
fn full(rt: HostRuntime) -> Result<(), Fail> {
    let mut arena = Arena::new(rt.alloc());
    assert!(rt; arena.is_empty() && arena.has_room(MAX_SLOTS));
    for value in 0..u64::from(MAX_SLOTS) {
        inserted(&rt, &mut arena, value);
    }
    assert!(rt; arena.has_room(0) && !arena.has_room(1));
    assert_eq!(rt; arena.reserve(1), Err(ArenaFault::Full));
    assert!(rt; arena.reserve(0).is_ok());
    assert_eq!(rt; arena.insert(7), Err((7, ArenaFault::Full)));
    let last = Handle {
        slot: MAX_SLOTS - 1,
        generation: 0,
    };
    if let Some(value) = arena.get_mut(last) {
        *value = 9;
    }
    assert_eq!(rt; arena.remove(last), Some(9));
    assert_eq!(rt; arena.reserve(2), Err(ArenaFault::Full));
    assert!(rt; arena.reserve(1).is_ok());
    assert_eq!(rt;
        inserted(&rt, &mut arena, 8),
        Handle {
            slot: MAX_SLOTS - 1,
            generation: 1
        }
    );
    assert_eq!(rt; ArenaFault::Full.code(), "A1");
    Ok(())
}

#[test]
fn each_allocation_of_reserve_refused(rt: HostRuntime) -> Result<(), Fail> {
    let memory = Refusing::new(rt.alloc(), 0);
    for at in 1..8 {
        memory.refuse(0);
        let mut arena = Arena::new(&memory);
        put(&rt, &mut arena, 256);
        memory.refuse(at);
        let answer = arena.reserve(2);
        if !memory.has_refused() {
            assert!(rt; answer.is_ok() && at == 2, "nothing was refused");
            // Room was made for two: they are inserted without an allocation.
            memory.refuse(1);
            inserted(&rt, &mut arena, 256);
            inserted(&rt, &mut arena, 257);
            assert!(rt; !memory.has_refused());
            assert_eq!(rt; held(&arena, 258), 258);
            return Ok(());
        }
        let Err(fault) = answer else {
            assert!(rt; false, "a refusal was not answered");
            return Ok(());
        };
        assert_eq!(rt; fault.code(), "A2");
        assert_eq!(rt; format!(in rt.alloc(); "{fault}")?.as_str(), "A2");
        assert_eq!(rt; (arena.len(), arena.slots()), (256, 256));
        assert_eq!(rt; held(&arena, 256), 256);
    }
    assert!(rt; false, "each allocation was refused");
    Ok(())
}

#[test]
fn reserve_counts_free_slots(rt: HostRuntime) -> Result<(), Fail> {
    let memory = Refusing::new(rt.alloc(), 0);
    let mut arena = Arena::new(&memory);
    let mut handles = Vec::new(rt.alloc());
    for value in 0..256 {
        handles.push(inserted(&rt, &mut arena, value))?;
    }
    for handle in handles.iter().take(4) {
        assert!(rt; arena.remove(*handle).is_some());
    }
    // Four slots of the one chunk are free: room for four values needs no allocation.
    memory.refuse(1);
    assert!(rt; arena.reserve(4).is_ok() && !memory.has_refused());
    for value in 4..8 {
        assert!(rt; inserted(&rt, &mut arena, value).slot < 4);
    }
    assert!(rt; !memory.has_refused());
    assert_eq!(rt; (arena.len(), arena.slots()), (256, 256));
    Ok(())
}

#[test]
fn reserve_passes_worn_out_slots(rt: HostRuntime) -> Result<(), Fail> {
    let memory = Refusing::new(rt.alloc(), 0);
    let mut arena = Arena::starting_at(&memory, u32::MAX);
    for value in 0..256 {
        let handle = inserted(&rt, &mut arena, value);
        assert_eq!(rt; arena.remove(handle), Some(value));
    }
    // The slots of one chunk are worn out, and none is free.
    assert_eq!(rt; (arena.len(), arena.slots()), (0, 256));
    memory.refuse(1);
    assert!(rt; arena.reserve(1).is_err() && memory.has_refused());
    memory.refuse(0);
    assert!(rt; arena.reserve(1).is_ok());
    memory.refuse(1);
    assert_eq!(rt; inserted(&rt, &mut arena, 9).slot, 256);
    assert!(rt; !memory.has_refused());
    Ok(())
}

/// Counts how often a value of it is dropped.
struct Counted<'a> {
    drops: &'a Cell<u64>,
}

impl Drop for Counted<'_> {
    fn drop(self) {
        let Counted { drops } = self;
        drops.set(drops.get().saturating_add(1));
    }
}

#[test]
fn each_value_is_dropped_once(rt: HostRuntime) -> Result<(), Fail> {
    let drops = Cell::new(0);
    let mut arena = Arena::new(rt.alloc());
    let mut handles = Vec::new(rt.alloc());
    for _ in 0..600 {
        if let Ok(handle) = arena.insert(Counted { drops: &drops }) {
            handles.push(handle)?;
        }
    }
    assert_eq!(rt; (handles.len(), drops.get()), (600, 0));
    for handle in handles.iter().take(100) {
        drop(arena.remove(*handle));
    }
    assert_eq!(rt; drops.get(), 100);
    drop(arena);
    assert_eq!(rt; drops.get(), 600);
    Ok(())
}
