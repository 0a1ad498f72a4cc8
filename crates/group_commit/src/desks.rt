//! The desk between those who wait and the one who writes.

use crate::progress::{GROUP_LIMIT, Progress, Source};
use memory::{NoMemory, vec_with_slots};
use std::alloc::Global;
use std::sync::{Condvar, Mutex, Wait};
use std::thread;

/// Where threads wait until items of a source last, and from where one thread, the writer, takes
/// them in groups. The desk takes the source's items over in their order, each once; while the
/// writer writes one group, the next one gathers.
///
/// The writer's loop: `next_group`; write it so that it lasts; `group_lasts`, or `fail`.
#[derive(Drop)]
pub struct Desk<T: Drop> {
    lock: Mutex<Progress<T>>,
    /// Notified when items wait, and when the desk has ended.
    work: Condvar,
    /// Notified when a group lasts, and when the writer has failed.
    lasted: Condvar,
}

impl<T: Drop> Desk<T> {
    /// A desk that has taken nothing over, with room for a group.
    pub fn new(heap: Global) -> Result<Self, NoMemory> {
        Ok(Desk {
            lock: Mutex::new(Progress::new(heap)?),
            work: Condvar::new(),
            lasted: Condvar::new(),
        })
    }

    /// Room for a group, which `next_group` exchanges for one.
    pub fn room(heap: Global) -> Result<Vec<T>, NoMemory> {
        vec_with_slots(heap, GROUP_LIMIT)
    }

    /// Takes over what the source has and the desk has not, as far as there is room, without
    /// waiting for it to last.
    pub fn take_over<W: Wait, S: Source<T>>(&self, rt: &W, source: &S) {
        self.lock.lock(rt).take_over(source);
        self.work.notify_one();
    }

    /// Waits until the first `count` items of the source last. False where the writer has failed,
    /// and they do not last. The source has so many items.
    pub fn wait_for<W: Wait, S: Source<T>>(&self, rt: &W, source: &S, count: u64) -> bool {
        let mut progress = self.lock.lock(rt);
        for _ in rt.forever() {
            if progress.lasting() >= count {
                return true;
            }
            if progress.has_failed() {
                return false;
            }
            if progress.is_behind(count) {
                progress.take_over(source);
            }
            if progress.is_idle() {
                // The source gave nothing for now: no group comes that would end a wait.
                drop(progress);
                thread::yield_now();
                progress = self.lock.lock(rt);
            } else {
                self.work.notify_one();
                progress = self.lasted.wait(rt, progress);
            }
        }
        unreachable!()
    }

    /// Waits for items, and gives all that wait to the writer in place of what the list had: use
    /// `room` for the first one. False where the desk has ended and nothing waits, or the writer
    /// has failed.
    pub fn next_group<W: Wait>(&self, rt: &W, group: &mut Vec<T>) -> bool {
        let mut progress = self.lock.lock(rt);
        for _ in rt.forever() {
            if progress.hand_over(group) {
                return true;
            }
            if progress.is_done() {
                return false;
            }
            progress = self.work.wait(rt, progress);
        }
        unreachable!()
    }

    /// The group that was given to the writer last now lasts.
    pub fn group_lasts<W: Wait>(&self, rt: &W) {
        self.lock.lock(rt).note_lasting();
        self.lasted.notify_all();
    }

    /// The writer gives up: whoever waits is told so, now and later.
    pub fn fail<W: Wait>(&self, rt: &W) {
        self.lock.lock(rt).fail();
        self.lasted.notify_all();
        self.work.notify_all();
    }

    /// Nothing more comes: the writer ends behind what waits.
    pub fn end<W: Wait>(&self, rt: &W) {
        self.lock.lock(rt).end();
        self.work.notify_all();
    }

    /// Whether the writer has given up.
    pub fn has_failed<W: Wait>(&self, rt: &W) -> bool {
        self.lock.lock(rt).has_failed()
    }

    /// How many items last.
    pub fn lasting<W: Wait>(&self, rt: &W) -> u64 {
        self.lock.lock(rt).lasting()
    }
}
