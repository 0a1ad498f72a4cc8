//! How the lock of the world is taken.

use crate::guarded::Guarded;
use crate::halls::Hall;
use crate::names::HallName;
use std::alloc::Allocator;
use std::hint::spin_loop;
use std::sync::atomic::Ordering;
use std::sync::{MutexGuard, RwLockReadGuard, RwLockWriteGuard, Wait};

/// How often whoever finds a lock taken looks again before he sleeps: to sleep and to be woken
/// takes longer than most events, and brings a thread to another processor.
const LOOKS: u32 = 24;

/// How many rests of the processor there are behind the first look; behind the second twice as
/// many, behind the third three times, and so on, since each look takes the lock's memory from the
/// processor that works with it. One rest takes some 5 to 50 nanoseconds, so all looks take some 70
/// to 700 microseconds.
const RESTS: u32 = 48;

/// Rests behind a look, of which the first has number 0.
fn rest(look: u32) {
    for _ in 0..RESTS * (look.min(LOOKS) + 1) {
        spin_loop();
    }
}

impl<L: HallName, R: Wait + Drop, A: Allocator> Hall<L, R, A> {
    /// The world, to read it beside others. Where somebody changes it, or looks for it to change
    /// it, it is looked for again and again, and then slept for.
    pub(crate) fn read_world<W: Wait>(&self, rt: &W) -> RwLockReadGuard<'_, Guarded<L, A>> {
        for look in 0..LOOKS {
            if !self.wanted.load(Ordering::Relaxed) {
                if let Some(world) = self.world.try_read() {
                    return world;
                }
            }
            rest(look);
        }
        self.world.read(rt)
    }

    /// The world, to change it while nobody else has it. Where somebody does, it is looked for
    /// again and again, and then slept for.
    pub(crate) fn write_world<W: Wait>(&self, rt: &W) -> RwLockWriteGuard<'_, Guarded<L, A>> {
        if let Some(world) = self.world.try_write() {
            return world;
        }
        let _turn = self.turn_to_write(rt);
        self.wanted.store(true, Ordering::Relaxed);
        let world = self.write_soon(rt);
        self.wanted.store(false, Ordering::Relaxed);
        world
    }

    /// The turn of whoever looks for the world to change it.
    fn turn_to_write<W: Wait>(&self, rt: &W) -> MutexGuard<'_, ()> {
        for look in 0..LOOKS {
            if let Some(turn) = self.turn.try_lock() {
                return turn;
            }
            rest(look);
        }
        self.turn.lock(rt)
    }

    /// The world, for whoever has the turn.
    fn write_soon<W: Wait>(&self, rt: &W) -> RwLockWriteGuard<'_, Guarded<L, A>> {
        for look in 0..LOOKS {
            if let Some(world) = self.world.try_write() {
                return world;
            }
            rest(look);
        }
        self.world.write(rt)
    }
}
