//! Convex parts of a region.

ghost use Rattle.std.specs.Prelude.{◌≡◌, ◌+◌, ◌<◌, ◌≤◌, ℤ, ◌+ℤ◌, pos, [], map, length, vec_len, IfOk, IfSome, IfNone};
ghost use Rattle.plane.specs.declared.point.Point.{Point};
ghost use Rattle.convex_parts.specs.Paths.{along, AddsOnLines};
ghost use Rattle.convex_parts.specs.Regions.{along_all, around_all, AddUpTo};
ghost use Rattle.convex_parts.specs.declared.faults.TheConstants.{PART_LIMIT};

use crate::bridges::with_hole;
use crate::cuts::cut_all;
use crate::faults::PartsFault;
use crate::rings::ring_of;
use crate::sides::check_sides;
use memory::GrowVec;
use plane::{Point, Shape};
use std::alloc::Allocator;

/// The index of the first of the rings whose first point is least, 0 if there is none.
fn least_index<A: Allocator>(rings: &[Vec<Point, A>]) -> usize
    ensures { 0 < length rings.now → result < length rings.now }
{
    let mut least = 0;
    for (index, ring) in rings.iter().enumerate() {
        if let (Some(point), Some(other)) = (ring.first(), rings[least].first()) {
            if point.is_before(*other) {
                least = index;
            }
        }
    }
    least
}

/// Takes the hole with the least first point out of a list.
fn take_least<A: Allocator>(holes: &mut Vec<Vec<Point, A>, A>) -> Option<Vec<Point, A>>
    ensures some { IfSome result (λ hole. (f : Point → Point → ℤ)
        → along f hole.items +ℤ along_all f (map (λ ring. ring.items) holes.new.items)
        ≡ along_all f (map (λ ring. ring.items) holes.old.items)) }
    ensures shorter { IfSome result (λ hole. vec_len holes.new < vec_len holes.old) }
    ensures none { IfNone result (holes.old.items ≡ []) }
{
    if holes.is_empty() {
        return None;
    }
    let least = least_index(holes.as_slice());
    Some(holes.remove(least))
}

/// The rings of holes, clockwise.
fn holes_of<A: Allocator + Copy>(
    alloc: A,
    listed: &[Vec<Point, A>],
) -> Result<Vec<Vec<Point, A>, A>, PartsFault>
    ensures { IfOk result (λ holes. (f : Point → Point → ℤ) → AddsOnLines f
        → along_all f (map (λ ring. ring.items) holes.items)
        +ℤ around_all f (map (λ ring. ring.items) listed.now) ≡ pos 0) }
{
    let mut holes = Vec::new(alloc);
    for hole in listed {
        let ring = ring_of(alloc, hole.as_slice(), true)?;
        holes.try_push(ring)?;
    }
    Ok(holes)
}

/// Convex polygons of at most 16 corners that are together the inside of the first ring less the
/// insides of the others, its holes. Each ring is listed with its closing point, in either
/// direction.
pub fn convex_parts<A: Allocator + Copy>(
    alloc: A,
    rings: &[Vec<Point, A>],
) -> Result<Vec<Shape, A>, PartsFault>
    ensures value { IfOk result (λ parts. AddUpTo (map (λ ring. ring.items) rings.now) parts.items) }
    ensures limit { IfOk result (λ parts. vec_len parts ≤ PART_LIMIT) }
{
    let Some((outer, others)) = rings.split_first() else {
        return Err(PartsFault::TooFew);
    };
    let mut ring = ring_of(alloc, outer.as_slice(), false)?;
    let mut holes = holes_of(alloc, others)?;
    check_sides(ring.as_slice(), holes.as_slice())?;
    while let Some(hole) = take_least(&mut holes) {
        ring = with_hole(alloc, ring.as_slice(), hole.as_slice())?;
    }
    let parts = cut_all(alloc, ring)?;
    Ok(parts)
}
