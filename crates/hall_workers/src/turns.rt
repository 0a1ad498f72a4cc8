//! When a hall gives way to the one that follows it.

use plain_world::SEAT_LIMIT;
use std::sync::atomic::{AtomicU64, Ordering};

/// After how many records a hall gives way.
pub const TERM_RECORDS: u64 = 262_144;

/// After how many bytes of replies a hall gives way.
pub const TERM_BYTES: u64 = 268_435_456;

/// How many seats are too few. A hall gives 1,024, and each worker keeps one for each subject whom it
/// has served: where fewer are left, and at least as many are nobody's now, the hall gives way.
const FEW_SEATS: usize = 16;

/// For how many looks a hall whose turn is over waits for the sessions whose clients are silent: as
/// long as one of their reads waits, and a little more.
const LOOKS: u64 = 60;

/// The sessions of the hall are served.
const HELD: u64 = 0;

/// A session whose client is silent is set aside.
const ENDING: u64 = 1;

/// Each session is set aside before its next read.
const OVER: u64 = 2;

/// How long the turn of a hall lasts, among the halls of a server that follow one another.
#[derive(Drop)]
pub struct Turn {
    phase: AtomicU64,
    /// How many bytes of replies were written.
    written: AtomicU64,
    /// How many sessions are served just now.
    present: AtomicU64,
    /// How many looks were made while it was ending.
    looks: AtomicU64,
    /// After how many records it ends.
    records: u64,
    /// 1 once nobody new comes to the server.
    closing: AtomicU64,
}

impl Turn {
    /// A turn that has begun, and ends after so many records.
    pub fn new(records: u64) -> Self {
        Turn {
            phase: AtomicU64::new(HELD),
            written: AtomicU64::new(0),
            present: AtomicU64::new(0),
            looks: AtomicU64::new(0),
            records,
            closing: AtomicU64::new(0),
        }
    }

    /// Whether a session whose client is silent is to be set aside.
    pub(crate) fn is_ending(&self) -> bool {
        self.phase.load(Ordering::SeqCst) != HELD
    }

    /// Whether each session is to be set aside.
    pub fn is_over(&self) -> bool {
        self.phase.load(Ordering::SeqCst) == OVER
    }

    /// Counts bytes that were written to a client.
    pub(crate) fn count(&self, bytes: usize) {
        self.written.fetch_add(bytes as u64, Ordering::SeqCst);
    }

    /// Notes that a session is served from now on.
    pub(crate) fn enter(&self) {
        self.present.fetch_add(1, Ordering::SeqCst);
    }

    /// Notes that a session is served no more.
    pub(crate) fn leave(&self) {
        self.present.fetch_sub(1, Ordering::SeqCst);
    }

    /// Whether few seats are left, and a new hall would have more.
    fn lacks_seats(&self, seats: usize) -> bool {
        let present = self.present.load(Ordering::SeqCst);
        let unused = (seats as u64).saturating_sub(present);
        SEAT_LIMIT.saturating_sub(seats) < FEW_SEATS && unused >= FEW_SEATS as u64
    }

    /// Whether a hall with so many records and seats has done enough.
    fn is_full(&self, records: u64, seats: usize) -> bool {
        records >= self.records
            || self.written.load(Ordering::SeqCst) >= TERM_BYTES
            || self.lacks_seats(seats)
    }

    /// Ends the turn at once.
    pub fn end(&self) {
        self.phase.store(OVER, Ordering::SeqCst);
    }

    /// Notes that nobody new comes to the server.
    pub fn close(&self) {
        self.closing.store(1, Ordering::SeqCst);
    }

    /// Whether nobody new comes to the server.
    pub fn is_closing(&self) -> bool {
        self.closing.load(Ordering::SeqCst) == 1
    }

    /// Ends the turn where there are many records or few seats, or where replies had many bytes: at
    /// first for the sessions whose clients are silent, and after `LOOKS` further looks for all. One
    /// thread looks.
    pub fn look(&self, records: u64, seats: usize) {
        if self.is_ending() {
            let looks = self.looks.fetch_add(1, Ordering::SeqCst);
            if looks >= LOOKS {
                self.phase.store(OVER, Ordering::SeqCst);
            }
        } else if self.is_full(records, seats) {
            self.phase.store(ENDING, Ordering::SeqCst);
        }
    }
}
