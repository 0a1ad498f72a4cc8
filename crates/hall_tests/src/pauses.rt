//! Pauses between the critical sections of a call.

use crate::halls::TURNS;
use hall::Pause;
use std::sync::atomic::{AtomicU64, Ordering};
use std::thread::yield_now;

/// A pause that counts its calls, and wants steps or not.
#[derive(Drop)]
pub struct Counting<'a> {
    pub steps: bool,
    pub calls: &'a AtomicU64,
}

impl Pause for Counting<'_> {
    fn between(&mut self) {
        self.calls.fetch_add(1, Ordering::SeqCst);
    }

    fn wants_steps(&self) -> bool {
        self.steps
    }
}

/// A pause that does nothing, and wants steps.
#[derive(Clone, Copy, Debug)]
pub struct Steps;

impl Pause for Steps {
    fn between(&mut self) {}

    fn wants_steps(&self) -> bool {
        true
    }
}

/// What the threads of a test tell one another.
#[derive(Drop)]
pub struct Signals {
    /// Set when the search has made its first visits, and holds back what is placed there.
    pub holds: AtomicU64,
    /// How many lists are about to be placed.
    pub arrived: AtomicU64,
    /// How many lists are answered.
    pub answered: AtomicU64,
}

impl Signals {
    pub fn new() -> Self {
        Signals {
            holds: AtomicU64::new(0),
            arrived: AtomicU64::new(0),
            answered: AtomicU64::new(0),
        }
    }
}

/// A pause of a search that wants steps. Its call of number `at` waits until `lists` lists are
/// about to be placed, and some turns more, in which they may be held back.
#[derive(Drop)]
pub struct Holding<'a> {
    pub at: u64,
    pub lists: u64,
    pub turns: u64,
    pub signals: &'a Signals,
}

impl Pause for Holding<'_> {
    fn between(&mut self) {
        self.at = self.at.saturating_sub(1);
        if self.at == 0 && self.signals.holds.load(Ordering::SeqCst) == 0 {
            self.signals.holds.store(1, Ordering::SeqCst);
            wait_for_at_least(&self.signals.arrived, self.lists);
            for _ in 0..self.turns {
                yield_now();
            }
        }
    }

    fn wants_steps(&self) -> bool {
        true
    }
}

/// A pause of a list, which wants steps. Its second call, which is before the first step of the
/// list's walk, tells that the list has arrived.
#[derive(Drop)]
pub struct Arriving<'a> {
    pub calls: u64,
    pub signals: &'a Signals,
}

impl Pause for Arriving<'_> {
    fn between(&mut self) {
        self.calls = self.calls.saturating_add(1);
        if self.calls == 2 {
            self.signals.arrived.fetch_add(1, Ordering::SeqCst);
        }
    }

    fn wants_steps(&self) -> bool {
        true
    }
}

/// Waits until a number is at least so much, for at most `TURNS` turns, and returns whether it is.
pub fn wait_for_at_least(number: &AtomicU64, least: u64) -> bool {
    for _ in 0..TURNS {
        if number.load(Ordering::SeqCst) >= least {
            return true;
        }
        yield_now();
    }
    false
}
