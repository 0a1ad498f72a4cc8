//! What a server counts, beside its work.

use crate::bounds::{TIME_COUNT, bucket_of};
use crate::readings::Readings;
use crate::requests::{STATUS_COUNT, place_of};
use std::array;
use std::sync::atomic::{AtomicU64, Ordering};

/// What comes of a call of a session.
#[derive(Clone, Copy, Debug, PartialEq, Eq)]
pub enum Event {
    /// A search was answered.
    Searched,
    /// A list of changes was applied.
    Applied,
    /// A list was denied by the policy.
    Denied,
    /// A list was rejected for another cause.
    Rejected,
    /// A list was held.
    Held,
    /// A policy was put in force.
    Governed,
}

/// What a server counts, from its start on. All its threads share it: counting waits for nobody and
/// allocates nothing. What is read while others count may have a request in one number and not yet
/// in another.
#[derive(Drop)]
pub struct Tally {
    responses: [AtomicU64; STATUS_COUNT],
    times: [AtomicU64; TIME_COUNT],
    micros: AtomicU64,
    searches: AtomicU64,
    commits: AtomicU64,
    held: AtomicU64,
    denied: AtomicU64,
    policies: AtomicU64,
    records: AtomicU64,
    memory: AtomicU64,
    /// The rows of answers that nobody has taken into account yet.
    listed: AtomicU64,
}

/// Adds one.
fn count(word: &AtomicU64) {
    word.fetch_add(1, Ordering::Relaxed);
}

/// The number now.
fn read(word: &AtomicU64) -> u64 {
    word.load(Ordering::Relaxed)
}

impl Tally {
    /// Nothing is counted yet.
    pub fn new() -> Tally {
        Tally {
            responses: array::from_fn(|_| AtomicU64::new(0)),
            times: array::from_fn(|_| AtomicU64::new(0)),
            micros: AtomicU64::new(0),
            searches: AtomicU64::new(0),
            commits: AtomicU64::new(0),
            held: AtomicU64::new(0),
            denied: AtomicU64::new(0),
            policies: AtomicU64::new(0),
            records: AtomicU64::new(0),
            memory: AtomicU64::new(0),
            listed: AtomicU64::new(0),
        }
    }

    /// Counts a request that took so many microseconds, by the number of its response's status.
    pub fn count_response(&self, number: u16, micros: u64) {
        if let Some(word) = place_of(number).and_then(|place| self.responses.get(place)) {
            count(word);
        }
        if let Some(word) = self.times.get(bucket_of(micros)) {
            count(word);
        }
        self.micros.fetch_add(micros, Ordering::Relaxed);
    }

    /// Counts what came of a call of a session. All but a list that is held add a record.
    pub fn count_event(&self, event: Event) {
        match event {
            Event::Searched => count(&self.searches),
            Event::Applied => count(&self.commits),
            Event::Denied => count(&self.denied),
            Event::Rejected => {}
            Event::Held => return count(&self.held),
            Event::Governed => count(&self.policies),
        }
        count(&self.records);
    }

    /// Counts the rows of an answer: each stays in its record, also where few of them are sent.
    pub fn count_rows(&self, rows: usize) {
        self.listed.fetch_add(rows as u64, Ordering::Relaxed);
    }

    /// The rows of answers that were counted since this was asked for the last time.
    pub fn take_rows(&self) -> u64 {
        self.listed.swap(0, Ordering::Relaxed)
    }

    /// Notes how many bytes of the server's memory are in RAM.
    pub fn note_memory(&self, bytes: u64) {
        self.memory.store(bytes, Ordering::Relaxed);
    }

    /// What was counted up to now.
    pub fn readings(&self) -> Readings {
        Readings {
            responses: array::from_fn(|place| self.responses.get(place).map_or(0, read)),
            times: array::from_fn(|place| self.times.get(place).map_or(0, read)),
            micros: read(&self.micros),
            searches: read(&self.searches),
            commits: read(&self.commits),
            held: read(&self.held),
            denied: read(&self.denied),
            policies: read(&self.policies),
            records: read(&self.records),
            memory: read(&self.memory),
        }
    }
}
