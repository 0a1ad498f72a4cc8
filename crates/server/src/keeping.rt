//! What a server with a store goes on from, and what keeps its records.

ghost use Rattle.std.specs.Prelude.{◌≡◌, ◌<◌, ◌≤◌, length, IfSome};
ghost use Rattle.features.specs.Rows.{IsSortedById};
ghost use Rattle.feature_store.specs.declared.tables.TheConstants.{FEATURE_LIMIT};
ghost use Rattle.plain_world.specs.declared.settings.TheConstants.{ROLLED_LIMIT};
ghost use Rattle.server.specs.Rising.{sorted_prop};

use crate::kept::Handover;
use audit_trail::Record;
use feature_store::FEATURE_LIMIT;
use log::Log;
use policy_documents::Document;
use std::alloc::Global;
use std::sync::{Arc, Wait};
use std::time::Clock;
use world::{Base, ROLLED_LIMIT};

/// At which state a server's world begins.
#[derive(Debug, Drop)]
pub enum Begins {
    /// With no features, and this document as the first edition.
    Document(Document<Global>),
    /// At a state that a store has kept.
    State(Restored),
}

/// A state that a store has kept: features that rise by id, a version, and the policy in force with
/// its edition.
#[derive(Debug, Drop)]
pub struct Restored {
    base: Base<Global>,
    rolled: u64,
    pub ghost sorted: { IsSortedById base.features } by { sorted_prop _ },
    pub ghost few: { length base.features ≤ FEATURE_LIMIT },
    pub ghost edition: { 0 < base.decider.edition },
    pub ghost numbers: { rolled ≤ ROLLED_LIMIT },
}

impl Restored {
    /// The state, behind so many records. `None` where there are more features than a world may
    /// have, no edition, or no number for a further record.
    pub fn new(base: Base<Global>, rolled: u64) -> Option<Self>
        requires { IsSortedById base.features }
        ensures { IfSome result (λ restored. restored.base ≡ base) }
    {
        let few = base.features.len() <= FEATURE_LIMIT;
        if !few || base.decider.edition() == 0 || rolled > ROLLED_LIMIT {
            return None;
        }
        Some(Restored { base, rolled })
    }

    /// How many records are before it.
    pub(crate) fn rolled(&self) -> u64 {
        self.rolled
    }

    /// The state, and how many records are before it.
    pub(crate) fn into_parts(self) -> (Base<Global>, u64)
        ensures base { result.0 ≡ self.base }
        ensures sorted { IsSortedById result.0.features }
        ensures few { length result.0.features ≤ FEATURE_LIMIT }
        ensures edition { 0 < result.0.decider.edition }
        ensures numbers { result.1 ≤ ROLLED_LIMIT }
    {
        let Restored { base, rolled, .. } = self;
        (base, rolled)
    }
}

/// Why a store is of no use.
#[derive(Clone, Copy, Debug, Drop, PartialEq, Eq)]
pub enum StoreFault {
    /// Q1: another program has it open.
    InUse,
    /// Q2: it cannot be read or written.
    Failed,
    /// Q3: it is damaged, or of another format.
    Damaged,
    /// Q4: the numbers of records are at their end.
    NoNumber,
    /// H6: there is no memory to open it.
    Memory,
}

impl StoreFault {
    ghost use Rattle.server.specs.FaultCodes.{store_code};

    /// The code of the fault.
    pub fn code(self) -> &'static str
        ensures { result.now ≡ store_code self }
    {
        match self {
            StoreFault::InUse => "Q1",
            StoreFault::Failed => "Q2",
            StoreFault::Damaged => "Q3",
            StoreFault::NoNumber => "Q4",
            StoreFault::Memory => "H6",
        }
    }
}

/// Why a store did not take records.
#[derive(Clone, Copy, Debug, Drop, PartialEq, Eq)]
pub enum AppendFault {
    /// For want of memory, or of room on the disk: they may be given to it again.
    ForNow,
    /// It takes nothing more.
    ForEver(StoreFault),
}

/// What writes the records of a server to a store, in a thread of its own: there it opens the store
/// and hands it over.
pub trait Writes {
    /// Opens the store, and calls `run` of the handover with it and what it has kept, or with what
    /// is wrong with it, which is told before.
    fn write<R: Wait + Clock + Log>(self, rt: &R, handover: Handover<'_>);
}

/// A store of records.
pub trait Keeps {
    /// Appends records, all of them or none, and returns once they last. What is wrong is told
    /// before it returns.
    fn append(&mut self, heap: Global, records: &[Arc<Record<Global>>]) -> Result<(), AppendFault>;

    /// Closes the store.
    fn close(self) -> Result<(), StoreFault>;

    /// What is done once it takes nothing more, behind the moment from which no reply leaves: a
    /// program ends.
    fn give_up(&self, fault: StoreFault);
}
