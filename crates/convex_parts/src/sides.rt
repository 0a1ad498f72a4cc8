//! Whether the sides of rings touch where they should not.

use crate::faults::PartsFault;
use crate::turns::{segments_touch, turn};
use plane::Point;
use std::alloc::Allocator;

/// The fault of two sides that touch: `Repeated` if they have an end in common.
fn fault_of(p: Point, q: Point, r: Point, s: Point) -> PartsFault {
    if p == r || p == s || q == r || q == s {
        PartsFault::Repeated
    } else {
        PartsFault::Crossing
    }
}

/// That a side touches none of a list's sides.
fn check_side(from: Point, to: Point, others: &[Point]) -> Result<(), PartsFault> {
    for (index, other) in others.iter().enumerate() {
        if index + 1 < others.len() && segments_touch(from, to, *other, others[index + 1]) {
            return Err(fault_of(from, to, *other, others[index + 1]));
        }
    }
    Ok(())
}

/// That no side of one ring touches a side of another.
fn check_apart(ring: &[Point], other: &[Point]) -> Result<(), PartsFault> {
    for (index, point) in ring.iter().enumerate() {
        if index + 1 < ring.len() {
            check_side(*point, ring[index + 1], other)?;
        }
    }
    Ok(())
}

/// That no two sides of a closed ring touch, but for neighbours in their common end. Each point
/// between the first and the last is one at which the ring turns.
fn check_ring(ring: &[Point]) -> Result<(), PartsFault> {
    if ring.len() < 4 {
        return Err(PartsFault::Flat);
    }
    let last = ring.len() - 1;
    if turn(ring[last - 1], ring[0], ring[1]) == 0 {
        return Err(PartsFault::Crossing);
    }
    for (index, point) in ring.iter().enumerate() {
        if index + 2 < last {
            let end = if index == 0 { last } else { last + 1 };
            check_side(*point, ring[index + 1], &ring[index + 2..end])?;
        }
    }
    Ok(())
}

/// That the sides of an outer ring and of its holes touch nowhere.
pub fn check_sides<A: Allocator>(
    outer: &[Point],
    holes: &[Vec<Point, A>],
) -> Result<(), PartsFault> {
    check_ring(outer)?;
    for (index, hole) in holes.iter().enumerate() {
        check_ring(hole.as_slice())?;
        check_apart(hole.as_slice(), outer)?;
        for other in &holes[index + 1..] {
            check_apart(hole.as_slice(), other.as_slice())?;
        }
    }
    Ok(())
}
