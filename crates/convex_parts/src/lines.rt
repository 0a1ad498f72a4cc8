//! The segments of a line.

ghost use Rattle.std.specs.Prelude.{◌≡◌, ◌≤◌, ◌<◌, ◌+◌, ◌∷◌, true, length, drop, MatchOption, IfOk, IfErr};
ghost use Rattle.std.specs.List.{list_all};
ghost use Rattle.plane.specs.Points.{is_in_range};
ghost use Rattle.convex_parts.specs.Lines.{steps_of};
ghost use Rattle.convex_parts.specs.Faults.{IsLineFault};

use crate::faults::{PART_LIMIT, PartsFault};
use memory::GrowVec;
use plane::{Point, Shape};
use std::alloc::Allocator;

/// Whether all points are in range.
fn are_in_range(points: &[Point]) -> bool
    ensures { result ≡ list_all is_in_range points.now }
{
    points.iter().all(|point| point.is_in_range())
}

/// The segment from a point of a line to the next, if there is one that differs.
fn step_at(line: &[Point], index: usize) -> Option<Shape>
    requires range { list_all is_in_range line.now ≡ true }
    requires index { index < length line.now }
    ensures { MatchOption result
        (steps_of (drop index line.now) ≡ steps_of (drop (index + 1) line.now))
        (λ part. steps_of (drop index line.now) ≡ part ∷ steps_of (drop (index + 1) line.now)) }
{
    if index + 1 < line.len() {
        match Shape::segment(line[index], line[index + 1]) {
            Ok(part) => Some(part),
            Err(_) => None,
        }
    } else {
        None
    }
}

/// The segments of a line, from each point to the next. A point that is equal to the one before is
/// passed over. Faults: `OutOfRange`, `TooFew` if no two points differ, `TooManyParts`, `Memory`.
pub fn segments<A: Allocator + Copy>(alloc: A, line: &[Point]) -> Result<Vec<Shape, A>, PartsFault>
    ensures value { IfOk result (λ parts. parts.items ≡ steps_of line.now) }
    ensures limit { IfOk result (λ parts. length parts.items ≤ PART_LIMIT) }
    ensures some { IfOk result (λ parts. 1 ≤ length parts.items) }
    ensures in_range { IfOk result (λ parts. list_all is_in_range line.now ≡ true) }
    ensures fault { IfErr result (IsLineFault line.now) }
{
    if !are_in_range(line) {
        return Err(PartsFault::OutOfRange);
    }
    let mut parts = Vec::new(alloc);
    for index in 0..line.len() {
        if let Some(part) = step_at(line, index) {
            if parts.len() == PART_LIMIT {
                return Err(PartsFault::TooManyParts);
            }
            parts.try_push(part)?;
        }
    }
    if parts.is_empty() {
        return Err(PartsFault::TooFew);
    }
    Ok(parts)
}
