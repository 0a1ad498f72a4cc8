//! The rows of a search, and the record of them.

ghost use Rattle.std.specs.Prelude.{◌≡◌, ◌↔◌, ◌≤◌, ◌<◌, ◌+◌, ℕ, Contains, IsTrue, IfOk, length, map};
ghost use Rattle.std.specs.List.Sorted.{IsStrictlyIncreasing};
ghost use Rattle.features.specs.Rows.{IsSortedById};
ghost use Rattle.judging.specs.Listing.{IsListed, IsShown, question_on};
ghost use Rattle.audit_trail.specs.Records.{answered};
ghost use Rattle.decision.specs.Rulings.{Permits};
ghost use Rattle.plain_world.specs.Finding.{NamesAll};

use crate::answers::Answer;
use audit_trail::{Deed, Record};
use decision::{Reading, Ruling};
use feature_store::{Meter, Store};
use features::{Action, Feature};
use memory::{GrowVec, NoMemory, vec_with_room};
use plane::Shape;
use std::alloc::Allocator;
use windows::Window;

/// How many rows, ids or versions a list has room for from the beginning, at most. Where there are
/// more, it grows.
const ROOM_AT_ONCE: usize = 256;

/// The found ids, by rising id and each once. Fails only where an allocation is refused.
pub(crate) fn ids_found<A: Allocator>(
    alloc: A,
    found: &[(u64, Shape)],
) -> Result<Vec<u64, A>, NoMemory>
    ensures rises { IfOk result (λ ids. IsStrictlyIncreasing ids.items) }
    ensures keeps { IfOk result
        (λ ids. (id : ℕ) → Contains (map (λ pair. pair.0) found.now) id → Contains ids.items id) }
    ensures few { IfOk result (λ ids. length ids.items ≤ length found.now) }
{
    let mut ids = first_parts(alloc, found)?;
    put_in_order(&mut ids);
    Ok(ids)
}

/// The id of each pair.
fn first_parts<A: Allocator>(alloc: A, found: &[(u64, Shape)]) -> Result<Vec<u64, A>, NoMemory>
    ensures { IfOk result (λ ids. ids.items ≡ map (λ pair. pair.0) found.now) }
{
    let mut ids = Vec::new(alloc);
    for pair in found {
        ids.try_push(pair.0)?;
    }
    Ok(ids)
}

/// Sorts ids, and removes repeated ones.
pub(crate) fn put_in_order<A: Allocator>(ids: &mut Vec<u64, A>)
    ensures rises { IsStrictlyIncreasing ids.new.items }
    ensures keeps { (id : ℕ) → Contains ids.old.items id → Contains ids.new.items id }
    ensures few { length ids.new.items ≤ length ids.old.items }
{
    ids.sort_unstable();
    ids.dedup();
}

/// The features that a search lists, by rising id: looks up each of these ids, among which are
/// those of all features that meet the window. Each feature is judged by its shape in the store,
/// whatever shape the index found.
pub(crate) fn listed<A: Allocator>(
    alloc: A,
    reading: &mut Reading<'_>,
    window: &Shape,
    store: &Store<A>,
    ids: &[u64],
    meter: &mut Meter,
) -> Result<Vec<Feature, A>, NoMemory>
    requires reads { reading.old.action ≡ Action.Read }
    requires rise { IsStrictlyIncreasing ids.now }
    requires all { NamesAll store.now window.now ids.now }
    ensures listed { IfOk result
        (λ rows. IsListed reading.old.decider.document reading.old.subject window.now store.now
        rows.items) }
    ensures sorted { IsSortedById store.now }
    ensures metered { meter.new ≤ meter.old + length ids.now }
    ensures raised { meter.old ≤ meter.new }
{
    fact_sorted_by_id(store);
    fact_ticks_within(meter);
    let prepared = Window::new(*window);
    let mut lookup = store.lookup();
    let mut rows = vec_with_room(alloc, ids.len().min(ROOM_AT_ONCE))?;
    for id in ids {
        if let Some(feature) = lookup.get(*id, meter) {
            if shows(reading, &prepared, &feature)? {
                rows.try_push(feature)?;
            }
        }
    }
    Ok(rows)
}

/// Fact for the checker, no effect: the store is sorted by id. `row_at` states it, `get` does not.
pub(crate) fn fact_sorted_by_id<A: Allocator>(store: &Store<A>)
    ensures { IsSortedById store.now }
{
    let _first = store.row_at(0);
}

/// Fact for the checker, no effect: a meter's ticks are at most `u64::MAX`. `ticks` states it, a
/// tick does not.
fn fact_ticks_within(meter: &Meter)
    ensures { meter.now ≤ u64.MAX }
{
    let _ticks = meter.ticks();
}

/// Whether a feature is shown: its shape meets the window, and the subject may read it. Fails only
/// where an allocation is refused.
fn shows(reading: &mut Reading<'_>, window: &Window, feature: &Feature) -> Result<bool, NoMemory>
    requires { reading.old.action ≡ Action.Read }
    ensures shown { IfOk result (λ shown. IsTrue shown
        ↔ IsShown reading.old.decider.document reading.old.subject window.now feature.now) }
    ensures same { reading.new ≡ reading.old }
{
    if !window.meets(&feature.shape) {
        return Ok(false);
    }
    permits(reading, feature)
}

/// Whether the subject may read the feature. Fails only where an allocation is refused.
fn permits(reading: &mut Reading<'_>, feature: &Feature) -> Result<bool, NoMemory>
    requires { reading.old.action ≡ Action.Read }
    ensures permitted { IfOk result (λ permitted. IsTrue permitted
        ↔ Permits reading.old.decider.document
        (question_on reading.old.subject Action.Read feature.now feature.now.shape)) }
    ensures same { reading.new ≡ reading.old }
{
    match reading.decide(feature.office, feature.class, feature.shape)? {
        Ruling::Permit(_) => Ok(true),
        Ruling::DeniedBy(_) => Ok(false),
        Ruling::NoneApplied => Ok(false),
    }
}

/// The record of an answer to a seat.
pub(crate) fn answered<A: Allocator + Copy>(
    alloc: A,
    seat: u32,
    answer: &Answer<A>,
) -> Result<Record<A>, NoMemory>
    ensures { IfOk result
        (λ entry. entry
        ≡ record {
          seat = seat;
          deed = answered answer.now.subject answer.now.window (map (λ row. row.id) answer.now.rows)
              (map (λ row. row.version) answer.now.rows);
        }) }
{
    let ids = ids_of(alloc, answer.rows())?;
    let versions = versions_of(alloc, answer.rows())?;
    Ok(Record::new(
        seat,
        Deed::Answered {
            subject: answer.subject(),
            window: answer.window(),
            ids,
            versions,
        },
    ))
}

fn ids_of<A: Allocator>(alloc: A, rows: &[Feature]) -> Result<Vec<u64, A>, NoMemory>
    ensures { IfOk result (λ ids. ids.items ≡ map (λ row. row.id) rows.now) }
{
    let mut ids = vec_with_room(alloc, rows.len().min(ROOM_AT_ONCE))?;
    for row in rows {
        ids.try_push(row.id)?;
    }
    Ok(ids)
}

fn versions_of<A: Allocator>(alloc: A, rows: &[Feature]) -> Result<Vec<u64, A>, NoMemory>
    ensures { IfOk result (λ versions. versions.items ≡ map (λ row. row.version) rows.now) }
{
    let mut versions = vec_with_room(alloc, rows.len().min(ROOM_AT_ONCE))?;
    for row in rows {
        versions.try_push(row.version)?;
    }
    Ok(versions)
}
