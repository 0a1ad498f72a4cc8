//! Features as a table keeps them.

ghost use Rattle.std.specs.Prelude.{◌≡◌, ◌++◌, List};
ghost use Rattle.plane.specs.declared.point.Point.{Point};
ghost use Rattle.kept_shapes.specs.Rings.{Begins, rings_of};

use features::{Feature, Name};
use kept_shapes::{KeptShape, Rings};
use std::alloc::Allocator;
use std::marker::Model;

/// A feature as a table keeps it. A contract sees the feature.
#[derive(Debug, Drop)]
pub(crate) struct Row<A: Allocator> {
    id: u64,
    version: u64,
    office: Name,
    class: Name,
    shape: KeptShape<A>,
}

impl<A: Allocator> Model for Row<A> {
    ghost use Rattle.features.specs.declared.rows.Feature.{Feature};

    ghost Value = { Feature };

    ghost view = { λ r. record {
      id = r.id;
      version = r.version;
      office = r.office;
      class = r.class;
      shape = r.shape;
    } };
}

impl<A: Allocator> Row<A> {
    /// Keeps a feature. A shape of more than two corners is the first of the rings, and takes that.
    pub(crate) fn new(feature: Feature, rings: &mut Rings<A>) -> Row<A>
        requires { Begins (rings_of feature.shape) rings.old }
        ensures feature { result ≡ feature }
        ensures left { (rest : List (List Point)) → rings.old ≡ rings_of feature.shape ++ rest
            → rings.new ≡ rest }
    {
        Row {
            id: feature.id,
            version: feature.version,
            office: feature.office,
            class: feature.class,
            shape: KeptShape::new(feature.shape, rings),
        }
    }

    /// Its id.
    pub(crate) fn id(&self) -> u64
        ensures { result ≡ self.now.id }
    {
        self.id
    }

    /// The feature.
    pub(crate) fn feature(&self) -> Feature
        ensures { result ≡ self.now }
    {
        Feature {
            id: self.id,
            version: self.version,
            office: self.office,
            class: self.class,
            shape: self.shape.shape(),
        }
    }

    /// Gives it another version and shape.
    pub(crate) fn reshape(&mut self, version: u64, shape: KeptShape<A>)
        ensures { self.new ≡ record self.old { version = version; shape = shape } }
    {
        self.version = version;
        self.shape = shape;
    }
}
