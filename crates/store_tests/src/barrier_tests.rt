//! Writers that wait.
use crate::numbers::{Numbers, write_groups};
use failing_streams::{FailingWriter, Failure};
use group_commit::{Barrier, Desk, Rests};
use std::alloc::Global;
use std::io::Write;
use std::process::Abort;
use std::sync::Wait;
use std::sync::atomic::{AtomicU64, Ordering};
use std::thread::{Threads, join};

fn writer(heap: Global) -> FailingWriter {
    FailingWriter {
        taken: Vec::new(heap),
        most: usize::MAX,
        fails_at: 0,
        with: Failure::Error,
    }
}

/// Writes a byte through a barrier, and then ends the desk. Returns whether it was written, and how
/// many numbers lasted by then.
fn write_one<R: Wait>(
    rt: &R,
    heap: Global,
    desk: &Desk<u64>,
    numbers: &Numbers,
    written: &AtomicU64,
) -> (bool, u64) {
    let mut barrier = Barrier::new(rt, Some(desk), numbers, Rests::All, writer(heap));
    let left = barrier.write_all(b"x").is_ok();
    let lasting = written.load(Ordering::SeqCst);
    desk.end(rt);
    (left, lasting)
}

fn behind<R: Threads + Wait + Abort + Sync>(rt: &R, heap: Global, groups: u64) -> (bool, u64) {
    let (desk, numbers) = (Desk::new(heap).expect(rt, "a desk"), Numbers::below(2_000));
    let written = AtomicU64::new(0);
    let (desk, numbers, written) = (&desk, &numbers, &written);
    let (_, wrote) = join(
        rt,
        move || write_groups(rt, heap, desk, written, groups),
        move || write_one(rt, heap, desk, numbers, written),
    );
    wrote
}

/// A byte leaves once all numbers last.
#[test]
fn a_byte_waits(rt: HostRuntime) {
    assert_eq!(&rt; behind(&rt, rt.alloc(), u64::MAX), (true, 2_000));
}

/// It does not leave where the writer gives up.
#[test]
fn a_byte_is_refused(rt: HostRuntime) {
    let (left, lasting) = behind(&rt, rt.alloc(), 1);
    assert!(&rt; !left);
    assert!(&rt; lasting < 2_000);
}

/// Without a desk, and where nothing has changed, it leaves at once.
#[test]
fn a_byte_need_not_wait(rt: HostRuntime) {
    let heap = rt.alloc();
    let numbers = Numbers::below(7);
    let desk = Desk::new(heap).expect(&rt, "a desk");
    let mut without = Barrier::new(&rt, None, &numbers, Rests::All, writer(heap));
    assert!(&rt; without.write_all(b"ab").is_ok() && without.flush().is_ok());
    let mut unchanged = Barrier::new(&rt, Some(&desk), &numbers, Rests::Changes, writer(heap));
    assert!(&rt; unchanged.write_all(b"c").is_ok());
}
