//! Shapes that take the room of their corners.

ghost use Rattle.std.specs.Prelude.{◌≡◌, ◌≤◌, ◌++◌, List, length, IfOk};
ghost use Rattle.plane.specs.declared.point.Point.{Point};
ghost use Rattle.kept_shapes.specs.Rings.{Begins, rings_of};
ghost use Rattle.kept_shapes.specs.Held.{corners_held};

use crate::rings::Rings;
use memory::{NoMemory, copied};
use plane::{Point, Shape, corners};
use std::alloc::Allocator;
use std::marker::Model;

/// The corners of a shape: one, two, or more in a list of their own.
#[derive(Debug, Drop)]
enum Held<A: Allocator> {
    Spot(Point),
    Line(Point, Point),
    Ring(Vec<Point, A>),
}

/// The corners of a shape that has at most two.
fn held_here<A: Allocator>(shape: &Shape) -> Held<A>
    requires { length shape.now ≤ 2 }
    ensures { corners_held result ≡ shape.now }
{
    let corners = corners(shape);
    if corners.len() == 1 {
        Held::Spot(corners[0])
    } else {
        Held::Line(corners[0], corners[1])
    }
}

/// A shape that takes the room of its corners: two in place, more in a list of their own. A contract
/// sees the shape.
#[derive(Debug, Drop)]
pub struct KeptShape<A: Allocator> {
    held: Held<A>,
}

impl<A: Allocator> Model for KeptShape<A> {
    ghost use Rattle.std.specs.Prelude.{List};
    ghost use Rattle.plane.specs.declared.point.Point.{Point};
    ghost use Rattle.plane.specs.Canonical.{IsCanonical};
    ghost use Rattle.kept_shapes.specs.Held.{corners_held};

    ghost Value = { List Point };

    ghost view = { λ k. corners_held k.held };

    ghost invariant = { λ k. IsCanonical (corners_held k.held) };
}

impl<A: Allocator> KeptShape<A> {
    /// Keeps a shape. One of more than two corners is the first of the rings, and takes that.
    pub fn new(shape: Shape, rings: &mut Rings<A>) -> KeptShape<A>
        requires { Begins (rings_of shape) rings.old }
        ensures shape { result ≡ shape }
        ensures left { (rest : List (List Point)) → rings.old ≡ rings_of shape ++ rest
            → rings.new ≡ rest }
    {
        if corners(&shape).len() <= 2 {
            return KeptShape {
                held: held_here(&shape),
            };
        }
        match rings.take_first() {
            Some(ring) => KeptShape {
                held: Held::Ring(ring),
            },
            None => unreachable!(),
        }
    }

    /// Keeps a shape, if there is memory for a list of its own where it has more than two corners.
    pub(crate) fn make(alloc: A, shape: &Shape) -> Result<KeptShape<A>, NoMemory>
        ensures { IfOk result (λ kept. kept ≡ shape.now) }
    {
        let corners = corners(shape);
        if corners.len() <= 2 {
            return Ok(KeptShape {
                held: held_here(shape),
            });
        }
        Ok(KeptShape {
            held: Held::Ring(copied(alloc, corners)?),
        })
    }

    /// The shape.
    pub fn shape(&self) -> Shape
        ensures { result ≡ self.now }
    {
        match &self.held {
            Held::Spot(corner) => Shape::of_corners(&[*corner]),
            Held::Line(from, to) => Shape::of_corners(&[*from, *to]),
            Held::Ring(corners) => Shape::of_corners(corners),
        }
    }
}
