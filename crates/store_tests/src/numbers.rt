//! A list of the numbers from 0 on, and a writer of it.
use group_commit::{Desk, GROUP_LIMIT, Source};
use std::alloc::Global;
use std::process::Abort;
use std::sync::Wait;
use std::sync::atomic::{AtomicU64, Ordering};

/// The numbers below `count`, of which those below `changed` changed something.
#[derive(Drop)]
pub struct Numbers {
    pub count: AtomicU64,
    pub changed: AtomicU64,
}

impl Numbers {
    /// The numbers below this one.
    pub fn below(count: u64) -> Self {
        Numbers {
            count: AtomicU64::new(count),
            changed: AtomicU64::new(0),
        }
    }

    /// Adds a number, and returns how many there are then.
    pub fn add(&self) -> u64 {
        self.count.fetch_add(1, Ordering::SeqCst).saturating_add(1)
    }
}

impl Source<u64> for Numbers {
    fn count(&self) -> u64 {
        self.count.load(Ordering::SeqCst)
    }

    fn changed(&self) -> u64 {
        self.changed.load(Ordering::SeqCst)
    }

    fn copy_from(&self, place: u64, into: &mut Vec<u64>) {
        for number in place..self.count() {
            if into.len() == into.capacity() {
                break;
            }
            into.push_reserved(number);
        }
    }
}

/// Takes groups until the desk has ended, and checks that each begins behind the one before. Gives
/// up behind so many groups. Returns how many numbers it took.
pub fn write_groups<R: Wait + Abort>(
    rt: &R,
    heap: Global,
    desk: &Desk<u64>,
    written: &AtomicU64,
    groups: u64,
) -> u64 {
    let mut group = Desk::room(heap).expect(rt, "room");
    let mut next = 0;
    for done in 0..u64::MAX {
        if !desk.next_group(rt, &mut group) {
            break;
        }
        assert!(rt; !group.is_empty() && group.len() <= GROUP_LIMIT);
        if done == groups {
            desk.fail(rt);
            break;
        }
        for number in group.as_slice() {
            assert_eq!(rt; *number, next);
            next = next.saturating_add(1);
        }
        written.store(next, Ordering::SeqCst);
        desk.group_lasts(rt);
    }
    next
}
