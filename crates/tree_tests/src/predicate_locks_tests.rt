//! Running searches and attached numbers: their calls, limits and refused allocations.

ghost use Rattle.std.specs.Prelude.{◌<◌, length, IfSome};

use crate::tree_steps::Dice;
use predicate_locks::{Attached, LockFault, MAX_RUNNING, Running};
use refusing::Refusing;
use std::alloc::Allocator;
use std::process::Abort;
use std::test::Fail;

/// Enters a search, which has to succeed.
fn entered<A: Allocator + Drop>(
    rt: &impl Abort,
    running: &mut Running<u64, A>,
    query: u64,
    begun: u64,
) -> u64 {
    let given = running.enter(query, begun);
    assert!(rt; given.is_ok(), "no search more");
    given.unwrap()
}

/// Attaches a number, which has to succeed.
fn put<A: Allocator + Copy + Drop>(rt: &impl Abort, attached: &mut Attached<A>, number: u64) {
    assert!(rt; attached.attach(number).is_ok(), "no room for {number}");
}

#[test]
fn searches_enter_and_leave(rt: HostRuntime) -> Result<(), Fail> {
    let made = Running::new(rt.alloc(), 7);
    assert!(rt; made.is_ok());
    let mut running = made.unwrap();
    assert_eq!(rt; entered(&rt, &mut running, 70, 1), 7);
    assert_eq!(rt; entered(&rt, &mut running, 80, 3), 8);
    assert_eq!(rt; (running.query(7), running.begun(7)), (Some(70), Some(1)));
    assert_eq!(rt; (running.query(8), running.begun(8)), (Some(80), Some(3)));
    assert_eq!(rt; (running.query(9), running.begun(6)), (None, None));
    assert!(rt; running.all_begun_since(1) && !running.all_begun_since(2));
    assert!(rt; running.leave(7));
    assert!(rt; !running.leave(7) && !running.runs(7) && running.runs(8));
    assert!(rt; running.all_begun_since(3) && !running.all_begun_since(4));
    assert_eq!(rt; entered(&rt, &mut running, 90, 4), 9);
    assert_eq!(rt; (running.next_number(), running.searches().len()), (10, 2));
    Ok(())
}

#[test]
fn limits(rt: HostRuntime) -> Result<(), Fail> {
    let made = Running::new(rt.alloc(), 0);
    assert!(rt; made.is_ok());
    let mut running = made.unwrap();
    for query in 0..16 {
        assert_eq!(rt; entered(&rt, &mut running, query, 0), query);
    }
    assert_eq!(rt; running.enter(16, 0), Err(LockFault::TooMany));
    assert!(rt; running.leave(3));
    assert_eq!(rt; running.enter(16, 0), Ok(16));
    assert_eq!(rt; running.enter(17, 0), Err(LockFault::TooMany));
    assert_eq!(rt; running.searches().len(), MAX_RUNNING);
    Ok(())
}

#[test]
fn numbers_end(rt: HostRuntime) -> Result<(), Fail> {
    let made = Running::new(rt.alloc(), u64::MAX);
    assert!(rt; made.is_ok());
    let mut running = made.unwrap();
    assert_eq!(rt; running.enter(1, 1), Err(LockFault::Spent));
    let made = Running::new(rt.alloc(), u64::MAX - 1);
    assert!(rt; made.is_ok());
    let mut running = made.unwrap();
    assert_eq!(rt; running.enter(1, 1), Ok(u64::MAX - 1));
    assert_eq!(rt; running.enter(1, 1), Err(LockFault::Spent));
    Ok(())
}

#[test]
fn too_many_before_spent(rt: HostRuntime) -> Result<(), Fail> {
    let made = Running::new(rt.alloc(), u64::MAX - 16);
    assert!(rt; made.is_ok());
    let mut running = made.unwrap();
    for query in 0..16 {
        entered(&rt, &mut running, query, 0);
    }
    assert_eq!(rt; running.enter(16, 0), Err(LockFault::TooMany));
    assert!(rt; running.leave(u64::MAX - 9));
    assert_eq!(rt; running.enter(16, 0), Err(LockFault::Spent));
    assert_eq!(rt;
        format!(in rt.alloc(); "{} {}", LockFault::TooMany, LockFault::Spent)?.as_str(),
        "L1 L2"
    );
    Ok(())
}

#[test]
fn attached_numbers(rt: HostRuntime) -> Result<(), Fail> {
    let mut attached = Attached::new(rt.alloc());
    assert!(rt; attached.is_empty() && !attached.holds(5));
    put(&rt, &mut attached, 5);
    put(&rt, &mut attached, 3);
    put(&rt, &mut attached, 5);
    assert!(rt; attached.holds(5) && attached.holds(3) && !attached.holds(4));
    assert_eq!(rt; attached.len(), 2);
    assert!(rt; attached.attach_all(&[3, 4, 4]).is_ok());
    assert_eq!(rt; attached.len(), 3);
    let made = attached.copy();
    assert!(rt; made.is_ok());
    let copy = made.unwrap();
    assert!(rt; copy.holds(3) && copy.holds(4) && copy.holds(5));
    assert_eq!(rt; copy.len(), 3);
    Ok(())
}

#[test]
fn pruned(rt: HostRuntime) -> Result<(), Fail> {
    let made = Running::new(rt.alloc(), 0);
    assert!(rt; made.is_ok());
    let mut running = made.unwrap();
    let mut attached = Attached::new(rt.alloc());
    for query in 0..6 {
        let number = entered(&rt, &mut running, query, 0);
        put(&rt, &mut attached, number);
    }
    assert!(rt; running.leave(1) && running.leave(4));
    attached.prune(&running);
    assert_eq!(rt; attached.len(), 4);
    assert!(rt; !attached.holds(1) && !attached.holds(4));
    assert!(rt; attached.holds(0) && attached.holds(2) && attached.holds(3) && attached.holds(5));
    Ok(())
}

#[test]
fn first_meeting(rt: HostRuntime) -> Result<(), Fail> {
    let made = Running::new(rt.alloc(), 0);
    assert!(rt; made.is_ok());
    let mut running = made.unwrap();
    let mut attached = Attached::new(rt.alloc());
    for query in 0..8 {
        entered(&rt, &mut running, query % 4, 0);
    }
    assert!(rt; attached.attach_all(&[7, 6, 3, 2, 9]).is_ok());
    let is_two = |query: &u64| *query == 2;
    let is_three = |query: &u64| *query == 3;
    let is_one = |query: &u64| *query == 1;
    assert_eq!(rt; running.first_meeting(&attached, &is_two), Some(2));
    assert_eq!(rt; running.first_meeting(&attached, &is_three), Some(3));
    assert_eq!(rt; running.first_meeting(&attached, &is_one), None);
    assert_eq!(rt;
        running.meeting(&attached, &is_two).as_slice(),
        [2, 6].as_slice()
    );
    assert!(rt; running.leave(2));
    assert_eq!(rt; running.first_meeting(&attached, &is_two), Some(6));
    assert_eq!(rt;
        running.meeting(&attached, &is_two).as_slice(),
        [6].as_slice()
    );
    Ok(())
}

#[test]
fn each_allocation_refused(rt: HostRuntime) -> Result<(), Fail> {
    let memory = Refusing::new(rt.alloc(), 1);
    let made: Result<Running<u64, _>, LockFault> = Running::new(&memory, 0);
    assert!(rt; matches!(&made, Err(LockFault::Memory(_))) && memory.has_refused());
    // `new` makes room for all: sixteen searches are entered without an allocation.
    memory.refuse(0);
    let made = Running::new(&memory, 0);
    assert!(rt; made.is_ok());
    let mut running = made.unwrap();
    memory.refuse(1);
    for query in 0..16 {
        entered(&rt, &mut running, query, 0);
    }
    assert!(rt; !memory.has_refused());
    Ok(())
}

/// Takes the numbers 1 to 4 attached, with no room for more. Checks that they are unchanged where
/// an allocation is refused, and that once room is made more numbers are attached without an
/// allocation.
fn check_grown<B: Allocator>(
    rt: &impl Abort,
    memory: &Refusing<B>,
    attached: &mut Attached<&Refusing<B>>,
) {
    memory.refuse(1);
    assert!(rt; attached.attach_all(&[5, 6]).is_err() && memory.has_refused());
    memory.refuse(1);
    assert!(rt; attached.make_room(2).is_err() && memory.has_refused());
    assert!(rt; attached.len() == 4 && attached.holds(1) && !attached.holds(5));
    memory.refuse(0);
    assert!(rt; attached.make_room(2).is_ok());
    memory.refuse(1);
    assert!(rt; attached.attach_all(&[5, 6]).is_ok() && !memory.has_refused());
    assert!(rt; attached.copy().is_err() && memory.has_refused());
    assert!(rt; attached.len() == 6 && attached.holds(4) && attached.holds(6));
}

#[test]
fn each_allocation_of_attach_refused(rt: HostRuntime) -> Result<(), Fail> {
    let memory = Refusing::new(rt.alloc(), 0);
    for at in 1..8 {
        memory.refuse(0);
        let mut attached = Attached::new(&memory);
        assert!(rt; attached.attach_all(&[1, 2, 3, 4]).is_ok());
        memory.refuse(at);
        let answer = attached.attach(5);
        if !memory.has_refused() {
            assert!(rt; answer.is_ok() && at > 1, "nothing was refused");
            return Ok(());
        }
        assert!(rt; matches!(&answer, Err(LockFault::Memory(_))), "at {at}");
        assert_eq!(rt; attached.len(), 4, "at {at}");
        assert!(rt;
            attached.holds(1) && attached.holds(4) && !attached.holds(5),
            "at {at}"
        );
        // A number that is attached already needs no allocation.
        memory.refuse(1);
        assert!(rt;
            attached.attach(4).is_ok() && !memory.has_refused(),
            "at {at}"
        );
        check_grown(&rt, &memory, &mut attached);
    }
    assert!(rt; false, "each allocation was refused");
    Ok(())
}

/// The index of the first pair with this number, if there is one.
fn place(pairs: &[(u64, u64)], number: u64) -> Option<usize>
    ensures { IfSome result (λ at. at < length pairs.now) }
{
    pairs.iter().position(|pair| pair.0 == number)
}

#[test]
fn as_a_list_of_pairs(rt: HostRuntime) -> Result<(), Fail> {
    let made = Running::new(rt.alloc(), 100);
    assert!(rt; made.is_ok());
    let mut running = made.unwrap();
    let mut pairs: Vec<(u64, u64)> = Vec::new(rt.alloc());
    let mut dice = Dice { state: 2_026 };
    let mut next = 100u64;
    for step in 0..20_000 {
        let draw = dice.draw();
        if draw % 2 == 0 {
            let answer = running.enter(draw, step);
            if pairs.len() == 16 {
                assert_eq!(rt; answer, Err(LockFault::TooMany));
            } else {
                assert_eq!(rt; answer, Ok(next));
                pairs.push((next, draw))?;
                next = next.saturating_add(1);
            }
            continue;
        }
        let number = next.saturating_add(draw % 5).saturating_sub(20);
        match place(&pairs, number) {
            Some(at) => {
                let pair = pairs.remove(at);
                assert_eq!(rt; running.query(number), Some(pair.1));
                assert!(rt; running.leave(number));
            }
            None => assert!(rt; !running.leave(number)),
        }
    }
    assert_eq!(rt;
        (running.searches().len(), running.next_number()),
        (pairs.len(), next)
    );
    Ok(())
}
