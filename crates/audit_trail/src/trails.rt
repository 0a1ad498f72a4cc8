//! Trails: numbered records, in order.

ghost use Rattle.std.specs.Prelude.{◌≡◌, ◌+◌, ◌<◌, ◌≤◌, ◌↔◌, ◌++◌, [], ◌∷◌, length, Err, IsSome, IfOk, IfErr, OnOk, OnErr, IsTrue, option_map};
ghost use Rattle.std.specs.Arc.{arc_value};
ghost use Rattle.memory.specs.NoMemory.{out_of_memory};
ghost use Rattle.audit_trail.specs.Records.{record_at};

use crate::records::Record;
use memory::{GrowVec, NoMemory, NotStored, shared};
use std::alloc::Allocator;
use std::fmt;
use std::marker::Model;
use std::sync::Arc;

/// The most records that a trail can have.
pub const RECORD_LIMIT: u32 = 1_048_576;

/// The greatest number that a trail's first record may have: 2^62. From there on, the numbers of
/// `RECORD_LIMIT` records still fit an `i64`, which a store on the disk has for them.
pub const FIRST_LIMIT: u64 = 4_611_686_018_427_387_904;

/// Why a trail takes no record, or has none to give.
#[derive(Debug, Drop, PartialEq, Eq)]
pub enum TrailFault {
    /// The trail has `RECORD_LIMIT` records.
    Full,
    /// Out of memory.
    Memory(NoMemory),
    /// The trail has no record with this number.
    NoRecord,
}

impl TrailFault {
    ghost use Rattle.audit_trail.specs.FaultCodes.{trail_code};

    /// The fault's code, as users see it.
    pub fn code(&self) -> &'static str
        ensures { result.now ≡ trail_code self.now }
    {
        match self {
            TrailFault::Full => "G1",
            TrailFault::Memory(_) => "G2",
            TrailFault::NoRecord => "G3",
        }
    }
}

impl From<NoMemory> for TrailFault {
    ghost use Rattle.std.specs.Prelude.{◌≡◌};
    ghost use Rattle.audit_trail.specs.declared.trails.TrailFault.TheVariants.{Memory};

    ghost from_gives = { λ no_memory fault. fault ≡ Memory no_memory };

    fn from(no_memory: NoMemory) -> Self {
        TrailFault::Memory(no_memory)
    }
}

impl fmt::Display for TrailFault {
    ghost use Rattle.std.specs.Prelude.{Some};
    ghost use Rattle.audit_trail.specs.FaultCodes.{trail_code};

    ghost output = { λ fault. Some (trail_code fault) };

    fn fmt<W: fmt::Write>(&self, f: &mut fmt::Formatter<W>) -> fmt::Result {
        f.write_str(self.code())
    }
}

/// Records in the order in which they were put, with rising numbers. A contract sees the first
/// number, the records' plain data, and `room`: how many more records fit without a growth.
#[derive(Debug, Drop)]
pub struct Trail<A: Allocator> {
    pub(crate) records: Vec<Arc<Record<A>, A>, A>,
    pub(crate) first: u64,
    pub(crate) alloc: A,
}

impl<A: Allocator> Model for Trail<A> {
    ghost use Rattle.std.specs.Prelude.{map, ◌-◌, ◌≤◌, vec_len, vec_capacity};
    ghost use Rattle.std.specs.Arc.{arc_value};
    ghost use Rattle.audit_trail.specs.Records.{TrailData};
    ghost use Rattle.audit_trail.specs.declared.trails.TheConstants.{RECORD_LIMIT, FIRST_LIMIT};
    ghost use Rattle.audit_trail.specs.Coding.{StoredTrail, stored_trail, restored_trail, restored_trail-stored_trail};
    ghost use Rattle.std.specs.Coded.{code_by, codes};

    ghost Value = { TrailData };

    ghost coded = { code_by StoredTrail (Prim.hlevel codes) stored_trail restored_trail
        restored_trail-stored_trail };

    ghost view = { λ t. record {
      first = t.first;
      records = map arc_value t.records.items;
      room = vec_capacity t.records - vec_len t.records;
    } };

    ghost invariant = { λ t. (vec_len t.records ≤ RECORD_LIMIT) × (t.first ≤ FIRST_LIMIT) };
}

impl<A: Allocator> Trail<A> {
    /// How many records there are.
    pub fn len(&self) -> u32
        ensures value { result ≡ length self.now.records }
        ensures bound { result ≤ RECORD_LIMIT }
    {
        self.records.len() as u32
    }

    /// Whether there is no record.
    pub fn is_empty(&self) -> bool
        ensures { IsTrue result ↔ (self.now.records ≡ []) }
    {
        self.records.is_empty()
    }

    /// The number of the first record; in an empty trail, the number that it will have.
    pub fn first(&self) -> u64
        ensures value { result ≡ self.now.first }
        ensures bound { result ≤ FIRST_LIMIT }
    {
        self.first
    }

    /// The record with this number.
    pub fn get(&self, number: u64) -> Option<&Arc<Record<A>, A>>
        ensures value { option_map (λ r. arc_value r.now) result ≡ record_at number self.now }
        ensures found { IsSome result ↔ (self.now.first ≤ number)
            × (number < self.now.first + length self.now.records) }
    {
        if number < self.first {
            return None;
        }
        self.records.get((number - self.first) as usize)
    }
}

impl<A: Allocator + Copy> Trail<A> {
    /// An empty trail, whose first record will have the number 1. Allocates nothing.
    pub fn new(alloc: A) -> Self
        ensures first { result.first ≡ 1 }
        ensures none { result.records ≡ [] }
    {
        Trail::starting_at(alloc, 1)
    }

    /// An empty trail, whose first record will have the number `first`. Allocates nothing.
    pub fn starting_at(alloc: A, first: u64) -> Self
        requires { first ≤ FIRST_LIMIT }
        ensures first { result.first ≡ first }
        ensures none { result.records ≡ [] }
    {
        Trail {
            records: Vec::new(alloc),
            first,
            alloc,
        }
    }

    /// Prepares a record for `put` and makes room for it. On an error the record is dropped. The
    /// records of the trail are unchanged in both cases.
    pub fn prepare(&mut self, entry: Record<A>) -> Result<Arc<Record<A>, A>, NoMemory>
        requires { length self.old.records < RECORD_LIMIT }
        ensures first { self.new.first ≡ self.old.first }
        ensures records { self.new.records ≡ self.old.records }
        ensures room { OnOk result (1 ≤ self.new.room) }
        ensures entry { IfOk result (λ shared. arc_value shared ≡ entry) }
    {
        self.records.make_slot()?;
        Ok(shared(self.alloc, entry)?)
    }

    /// Puts a record at the end, into the room that `prepare` made.
    pub fn put(&mut self, entry: Arc<Record<A>, A>)
        requires room { 1 ≤ self.old.room }
        requires limit { length self.old.records < RECORD_LIMIT }
        ensures first { self.new.first ≡ self.old.first }
        ensures records { self.new.records ≡ self.old.records ++ arc_value entry ∷ [] }
    {
        self.records.push_reserved(entry);
    }

    /// Puts a record at the end that has an owner already. Out of memory is the only error: it
    /// returns the record, and the trail's records are unchanged.
    pub fn add(&mut self, entry: Arc<Record<A>, A>) -> Result<(), NotStored<Arc<Record<A>, A>>>
        requires { length self.old.records < RECORD_LIMIT }
        ensures first { self.new.first ≡ self.old.first }
        ensures ok { OnOk result (self.new.records ≡ self.old.records ++ arc_value entry ∷ []) }
        ensures err { OnErr result (self.new.records ≡ self.old.records) }
        ensures entry_returned { IfErr result (λ failed. failed.value ≡ entry) }
    {
        self.records.store(entry)
    }

    /// Adds a record at the end and returns its number. On an error it returns the record, and the
    /// trail's records are unchanged: `Full` exactly if the trail has `RECORD_LIMIT` records,
    /// otherwise `Memory`.
    pub fn push(&mut self, entry: Record<A>) -> Result<u64, (Record<A>, TrailFault)>
        ensures first { self.new.first ≡ self.old.first }
        ensures ok { OnOk result (self.new.records ≡ self.old.records ++ entry ∷ []) }
        ensures number { IfOk result (λ n. n ≡ self.old.first + length self.old.records) }
        ensures err { OnErr result (self.new.records ≡ self.old.records) }
        ensures entry_returned { IfErr result (λ e. e.0 ≡ entry) }
        ensures full { IfErr result
            (λ e. (e.1 ≡ TrailFault.Full) ↔ (RECORD_LIMIT ≤ length self.old.records)) }
        ensures memory { IfErr result
            (λ e. length self.old.records < RECORD_LIMIT → e.1 ≡ TrailFault.Memory out_of_memory) }
        ensures below { OnOk result (length self.old.records < RECORD_LIMIT) }
    {
        let number = self.len();
        if number >= RECORD_LIMIT {
            return Err((entry, TrailFault::Full));
        }
        if let Err(refusal) = self.records.make_slot() {
            return Err((entry, TrailFault::Memory(refusal)));
        }
        match shared(self.alloc, entry) {
            Ok(made) => {
                self.records.push_reserved(made);
                Ok(self.first + u64::from(number))
            }
            Err(failed) => Err((failed.value, TrailFault::Memory(failed.cause))),
        }
    }
}
