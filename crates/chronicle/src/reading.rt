//! Reading a chronicle.

ghost use Rattle.std.specs.Prelude.{◌≡◌, ◌<◌, ◌≤◌, ◌↔◌, ◌-◌, ℕ, ◌++◌, drop, length, map, min, option_map, slice_get, take, vec_capacity, vec_len, None, IsSome, IfOk, IfErr, OnOk, OnErr};
ghost use Rattle.std.specs.Arc.{arc_value};
ghost use Rattle.std.specs.List.{last_or};
ghost use Rattle.features.specs.Rows.{IsSortedById};
ghost use Rattle.memory.specs.NoMemory.{out_of_memory};
ghost use Rattle.chronicle.specs.Chronicles.{IsLastChange, subject_given};

use crate::chronicles::Chronicle;
use audit_trail::{Record, Trail};
use decision::Decider;
use feature_store::FEATURE_LIMIT;
use features::Subject;
use memory::{NoMemory, another};
use std::alloc::Allocator;
use std::sync::Arc;
use world::{Base, Fault, SEAT_LIMIT};

impl<A: Allocator> Chronicle<A> {
    /// How many records there are, with those that were rolled out.
    pub fn len(&self) -> u64
        ensures { result ≡ length self.now.records }
    {
        count(&self.rolled, self.world.trail())
    }

    /// How many records there were when the last list was applied or policy put in force, or 0:
    /// all behind them are of answers and of lists that were turned away, and change no state.
    pub fn last_change(&self) -> u64
        ensures { IsLastChange result self.now.records }
    {
        self.changed
    }

    /// How many seats were given: `SEAT_LIMIT` at most.
    pub fn seats_given(&self) -> usize
        ensures value { result ≡ length self.now.seats }
        ensures most { result ≤ SEAT_LIMIT }
    {
        self.world.seats_given()
    }

    /// The edition in force.
    pub fn edition(&self) -> u64
        ensures { result ≡ self.now.state.decider.edition }
    {
        self.world.edition()
    }

    /// The decider in force, shared: a caller may make itself another owner.
    pub fn decider(&self) -> &Arc<Decider>
        ensures { arc_value result.now ≡ self.now.state.decider }
    {
        self.world.decider_in_force()
    }

    /// How many slots of the index there are to tend.
    pub fn slots(&self) -> u32 {
        self.world.slots()
    }

    /// The subject of a seat. X1 where the seat was not given.
    pub fn subject_at(&self, seat: u32) -> Result<Subject, Fault>
        ensures { result ≡ subject_given seat self.now.seats }
    {
        self.world.subject_at(seat)
    }

    /// The record at a place, counted from 0 over all records, shared: a caller may make itself
    /// another owner.
    pub fn get(&self, place: u64) -> Option<&Arc<Record<A>, A>>
        ensures value { option_map (λ r. arc_value r.now) result ≡ slice_get self.now.records place }
        ensures found { IsSome result ↔ (place < length self.now.records) }
    {
        record_at(&self.rolled, self.world.trail(), place)
    }

    /// Appends other owners of the records from a place on, counted from 0 over all records, in order:
    /// as many as there are, but at most `most`, and no more than `into` has room for. A fault where
    /// one of them has as many owners as there may be; those before it are appended. Takes no memory.
    pub fn copy_from(
        &self,
        place: u64,
        most: u64,
        into: &mut Vec<Arc<Record<A>, A>, A>,
    ) -> Result<(), NoMemory>
        ensures ok { OnOk result (map arc_value into.new.items ≡ map arc_value into.old.items
            ++ take (min most (vec_capacity into.old - vec_len into.old))
            (drop place self.now.records)) }
        ensures err { OnErr result ((copied : ℕ) × (map arc_value into.new.items
            ≡ map arc_value into.old.items ++ take copied (drop place self.now.records))) }
    {
        let count = most_copied(self.len(), place, most, room_in(into));
        for index in 0..count {
            let Some(record) = self.get(place + index) else {
                unreachable!()
            };
            into.push_reserved(another(record)?);
        }
        Ok(())
    }

    /// The last record, shared: a caller may make itself another owner.
    pub fn last(&self) -> Option<&Arc<Record<A>, A>>
        ensures { option_map (λ r. arc_value r.now) result ≡ last_or None self.now.records }
    {
        let count = self.len();
        if count == 0 {
            return None;
        }
        self.get(count - 1)
    }
}

impl<A: Allocator + Copy> Chronicle<A> {
    /// The present state, from which another chronicle can begin. X12 where an allocation is
    /// refused.
    pub fn present(&self) -> Result<Base<A>, Fault>
        ensures ok { IfOk result (λ base. base ≡ self.now.state) }
        ensures sorted { IfOk result (λ base. IsSortedById base.features) }
        ensures few { IfOk result (λ base. length base.features ≤ FEATURE_LIMIT) }
        ensures err { IfErr result (λ fault. fault ≡ Fault.Memory out_of_memory) }
    {
        self.world.present()
    }
}

/// How many records these are and those of a trail.
pub(crate) fn count<A: Allocator>(rolled: &[Arc<Record<A>, A>], trail: &Trail<A>) -> u64
    ensures { result ≡ length (map arc_value rolled.now ++ trail.now.records) }
{
    rolled.len() as u64 + u64::from(trail.len())
}

/// How many more items a list has room for.
fn room_in<A: Allocator>(list: &Vec<Arc<Record<A>, A>, A>) -> u64
    ensures { result ≡ vec_capacity list.now - vec_len list.now }
{
    list.capacity().saturating_sub(list.len()) as u64
}

/// How many of `count` records can be copied from a place on: as many as there are, but at most
/// `most`, and no more than there is room for.
fn most_copied(count: u64, place: u64, most: u64, room: u64) -> u64
    ensures { result ≡ min (min most room) (count - place) }
{
    most.min(room).min(count.saturating_sub(place))
}

/// The record at a place of these records and then those of a trail.
fn record_at<'a, A: Allocator>(
    rolled: &'a [Arc<Record<A>, A>],
    trail: &'a Trail<A>,
    place: u64,
) -> Option<&'a Arc<Record<A>, A>>
    ensures value { option_map (λ r. arc_value r.now) result
        ≡ slice_get (map arc_value rolled.now ++ trail.now.records) place }
    ensures found { IsSome result
        ↔ (place < length (map arc_value rolled.now ++ trail.now.records)) }
{
    let before = rolled.len() as u64;
    if place < before {
        return Some(&rolled[place as usize]);
    }
    let behind = place - before;
    if behind < u64::from(trail.len()) {
        trail.get(trail.first() + behind)
    } else {
        None
    }
}
