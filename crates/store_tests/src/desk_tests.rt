//! A desk on threads.
use crate::numbers::{Numbers, write_groups};
use group_commit::{Desk, GROUP_LIMIT};
use std::alloc::Global;
use std::process::Abort;
use std::sync::Wait;
use std::sync::atomic::{AtomicU64, Ordering};
use std::thread::{Threads, join};

/// Adds numbers, and waits for each until it lasts.
fn add_and_wait<R: Wait + Abort>(
    rt: &R,
    desk: &Desk<u64>,
    numbers: &Numbers,
    written: &AtomicU64,
    rounds: u32,
) {
    for _ in 0..rounds {
        let count = numbers.add();
        assert!(rt; desk.wait_for(rt, numbers, count));
        assert!(rt; written.load(Ordering::SeqCst) >= count, "it does not last");
    }
}

/// Two threads that add and wait.
fn add_by_two<R: Threads + Wait + Abort + Sync>(
    rt: &R,
    desk: &Desk<u64>,
    numbers: &Numbers,
    written: &AtomicU64,
) {
    let _ = join(
        rt,
        move || add_and_wait(rt, desk, numbers, written, 2_000),
        move || add_and_wait(rt, desk, numbers, written, 2_000),
    );
}

/// Four threads that add and wait, and then the end of the desk.
fn add_by_four<R: Threads + Wait + Abort + Sync>(
    rt: &R,
    desk: &Desk<u64>,
    numbers: &Numbers,
    written: &AtomicU64,
) {
    let _ = join(
        rt,
        move || add_by_two(rt, desk, numbers, written),
        move || add_by_two(rt, desk, numbers, written),
    );
    desk.end(rt);
}

fn each_number_lasts<R: Threads + Wait + Abort + Sync>(rt: &R, heap: Global) {
    let (desk, numbers) = (Desk::new(heap).expect(rt, "a desk"), Numbers::below(0));
    let written = AtomicU64::new(0);
    let (desk, numbers, written) = (&desk, &numbers, &written);
    let (taken, _) = join(
        rt,
        move || write_groups(rt, heap, desk, written, u64::MAX),
        move || add_by_four(rt, desk, numbers, written),
    );
    assert_eq!(rt; taken, 8_000);
    assert_eq!(rt; desk.lasting(rt), 8_000);
    assert!(rt; !desk.has_failed(rt));
}

/// Four threads add numbers and wait for each; whoever waited sees it written, and the writer gets
/// each number once, in order.
#[test]
fn each_of_four_threads_waits(rt: HostRuntime) {
    each_number_lasts(&rt, rt.alloc());
}

fn wait_for_all<R: Wait + Abort>(rt: &R, desk: &Desk<u64>, numbers: &Numbers, count: u64) -> bool {
    let lasts = desk.wait_for(rt, numbers, count);
    desk.end(rt);
    lasts
}

fn many_at_once<R: Threads + Wait + Abort + Sync>(rt: &R, heap: Global) {
    let count = GROUP_LIMIT as u64 * 5 + 7;
    let (desk, numbers) = (Desk::new(heap).expect(rt, "a desk"), Numbers::below(count));
    let written = AtomicU64::new(0);
    let (desk, numbers, written) = (&desk, &numbers, &written);
    let (taken, lasts) = join(
        rt,
        move || write_groups(rt, heap, desk, written, u64::MAX),
        move || wait_for_all(rt, desk, numbers, count),
    );
    assert!(rt; lasts);
    assert_eq!(rt; taken, count);
}

/// More than a group at once: one group after another, none of them too long.
#[test]
fn more_than_a_group(rt: HostRuntime) {
    many_at_once(&rt, rt.alloc());
}

fn give_up<R: Threads + Wait + Abort + Sync>(rt: &R, heap: Global) {
    let (desk, numbers) = (Desk::new(heap).expect(rt, "a desk"), Numbers::below(3_000));
    let written = AtomicU64::new(0);
    let (desk, numbers, written) = (&desk, &numbers, &written);
    let (taken, lasts) = join(
        rt,
        move || write_groups(rt, heap, desk, written, 1),
        move || wait_for_all(rt, desk, numbers, 3_000),
    );
    assert!(rt; !lasts);
    assert_eq!(rt; taken, GROUP_LIMIT as u64);
    assert!(rt; desk.has_failed(rt));
    assert!(rt;
        desk.wait_for(rt, numbers, GROUP_LIMIT as u64),
        "the first group lasts"
    );
    assert!(rt; !desk.wait_for(rt, numbers, 3_000));
}

/// A writer that gives up behind its first group: whoever waits is told so, then and later.
#[test]
fn a_writer_that_gives_up(rt: HostRuntime) {
    give_up(&rt, rt.alloc());
}

fn taken_over<R: Threads + Wait + Abort + Sync>(rt: &R, heap: Global) {
    let (desk, numbers) = (Desk::new(heap).expect(rt, "a desk"), Numbers::below(5));
    let written = AtomicU64::new(0);
    desk.take_over(rt, &numbers);
    desk.end(rt);
    assert_eq!(rt; write_groups(rt, heap, &desk, &written, u64::MAX), 5);
    assert_eq!(rt; desk.lasting(rt), 5);
}

/// What was taken over is written, though nobody waits and the desk has ended.
#[test]
fn what_was_taken_over_is_written(rt: HostRuntime) {
    taken_over(&rt, rt.alloc());
}
