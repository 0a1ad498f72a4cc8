//! The rings of a list of changes, kept in advance of it.

ghost use Rattle.std.specs.Prelude.{◌≡◌, ◌∷◌, [], IfNone, IfOk, IfSome, IsOk};
ghost use Rattle.kept_shapes.specs.Rings.{rings_by, rings_in};

use features::Change;
use memory::{GrowVec, NoMemory, copied};
use plane::{Point, Shape, corners};
use std::alloc::Allocator;
use std::marker::Model;

/// The corners of the shapes of a list of changes that have more than two, kept in advance. A
/// contract sees them in the order of the changes.
#[derive(Debug, Drop)]
pub struct Rings<A: Allocator> {
    /// The first one last.
    stack: Vec<Vec<Point, A>, A>,
}

impl<A: Allocator> Model for Rings<A> {
    ghost use Rattle.std.specs.Prelude.{List, map, reverse};
    ghost use Rattle.plane.specs.declared.point.Point.{Point};

    ghost Value = { List (List Point) };

    ghost view = { λ r. reverse (map (λ ring. ring.items) r.stack.items) };
}

impl<A: Allocator> Rings<A> {
    /// No rings.
    fn new(alloc: A) -> Rings<A>
        ensures { result ≡ [] }
    {
        Rings {
            stack: Vec::new(alloc),
        }
    }

    /// Puts a ring before all others.
    fn put_first(&mut self, ring: Vec<Point, A>) -> Result<(), NoMemory>
        ensures { IfOk result (λ _. self.new ≡ ring.items ∷ self.old) }
    {
        self.stack.try_push(ring)
    }

    /// Takes the first ring, if there is one.
    pub(crate) fn take_first(&mut self) -> Option<Vec<Point, A>>
        ensures some { IfSome result (λ ring. self.old ≡ ring.items ∷ self.new) }
        ensures none { IfNone result (self.old ≡ []) }
    {
        self.stack.pop()
    }
}

/// The shape that a change gives a feature, if it has more than two corners.
fn ring_by(change: &Change) -> Option<Shape>
    ensures some { IfSome result (λ shape. rings_by change.now ≡ shape ∷ []) }
    ensures none { IfNone result (rings_by change.now ≡ []) }
{
    let shape = match change {
        Change::Add { shape, .. } => *shape,
        Change::Reshape { shape, .. } => *shape,
        Change::Delete { .. } => return None,
    };
    if corners(&shape).len() <= 2 {
        None
    } else {
        Some(shape)
    }
}

/// The rings of a list of changes, where there is memory for them. Of a list without any it takes
/// none.
pub fn kept_rings<A: Allocator + Copy>(alloc: A, changes: &[Change]) -> Result<Rings<A>, NoMemory>
    ensures rings { IfOk result (λ rings. rings ≡ rings_in changes.now) }
    ensures certain { rings_in changes.now ≡ [] → IsOk result }
{
    let mut rings = Rings::new(alloc);
    for at in (0..changes.len()).rev() {
        if let Some(shape) = ring_by(&changes[at]) {
            rings.put_first(copied(alloc, corners(&shape))?)?;
        }
    }
    Ok(rings)
}
