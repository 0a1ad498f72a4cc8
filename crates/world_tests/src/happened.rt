//! What has happened to a world's index in a run of many events.
use world::{Step, Tending};

/// For how many turns the world grows, before it shrinks for as many.
const SEASON: u64 = 2_000;

/// How many turns there were, and how often things happened to the index.
#[derive(Clone, Copy, Debug, PartialEq, Eq)]
pub struct Happened {
    pub event: u64,
    pub more: u64,
    pub split: u64,
    pub installed: u64,
    pub restarted: u64,
    pub held: u64,
    pub cleaned: u64,
    pub retired: u64,
    pub freed: u64,
}

impl Happened {
    /// Nothing yet.
    pub fn new() -> Self {
        Happened {
            event: 0,
            more: 0,
            split: 0,
            installed: 0,
            restarted: 0,
            held: 0,
            cleaned: 0,
            retired: 0,
            freed: 0,
        }
    }

    /// Whether features are mostly added, and not mostly removed.
    pub fn grows(&self) -> bool {
        self.event.checked_div(SEASON).unwrap_or(0) % 2 == 0
    }

    /// Counts a step of a walk.
    pub fn count_step(&mut self, step: Step) {
        match step {
            Step::Moved | Step::Placed => {}
            Step::Split => self.split = self.split.saturating_add(1),
            Step::Installed => self.installed = self.installed.saturating_add(1),
            Step::Restarted => self.restarted = self.restarted.saturating_add(1),
        }
    }

    /// Counts what tending did.
    pub fn count_tending(&mut self, tending: Tending) {
        match tending {
            Tending::Idle => {}
            Tending::Installed => self.installed = self.installed.saturating_add(1),
            Tending::Cleaned => self.cleaned = self.cleaned.saturating_add(1),
            Tending::Retired => self.retired = self.retired.saturating_add(1),
            Tending::Freed => self.freed = self.freed.saturating_add(1),
        }
    }
}
