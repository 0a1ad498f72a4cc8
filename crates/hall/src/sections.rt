//! The critical sections of a call, and the pauses between them.

use world::Fault;

/// The most events of a commit in one critical section.
pub const SECTION_EVENTS: u32 = 4_096;

/// The most tries of a call that has to wait: of a list that searches hold back, or that finds as
/// many transactions open as may be; of a search that finds as many searches open as may be.
pub const TRY_LIMIT: u32 = 64;

/// What a caller does between two critical sections of a call, while the lock is free.
pub trait Pause {
    /// Called between two critical sections of a call, without the lock: never before the first
    /// one, and never behind the last one.
    fn between(&mut self);

    /// Whether each event of a call is a critical section of its own, and a search is made by
    /// steps. If not, a search is one event, and a commit makes all its events in one section; but
    /// it leaves a section after `SECTION_EVENTS` events, and where it has waited to be tried again.
    fn wants_steps(&self) -> bool {
        false
    }
}

/// A pause that does nothing, and wants no steps.
#[derive(Clone, Copy, Debug)]
pub struct NoPause;

impl Pause for NoPause {
    fn between(&mut self) {}
}

/// The most events in a critical section of a commit with this pause.
pub(crate) fn events_in_section<P: Pause>(pause: &P) -> u32 {
    if pause.wants_steps() {
        1
    } else {
        SECTION_EVENTS
    }
}

/// How far a search has come.
#[derive(Clone, Copy, Debug)]
pub(crate) enum Searching {
    /// It is not open yet.
    New,
    /// It is open under this number.
    Open(u64),
    /// It is open under this number, and has nothing left to visit.
    Ready(u64),
}

/// How far a list has come.
#[derive(Clone, Copy, Debug)]
pub(crate) enum Committing {
    /// It has no transaction yet.
    New,
    /// So many of its changes are staged in the transaction of this number.
    Open(u64, usize),
    /// All its shapes are placed in the transaction of this number.
    Placed(u64),
}

/// Why a critical section does not end its call with an answer.
#[derive(Debug, Drop)]
pub(crate) enum Unfinished {
    /// It has as many events as it may have: the call goes on in another one.
    More,
    /// The world refuses an event.
    Refused(Fault),
}

impl From<Fault> for Unfinished {
    fn from(fault: Fault) -> Self {
        Unfinished::Refused(fault)
    }
}
