//! Zones: named shapes in a document.

ghost use Rattle.std.specs.Hash as fed;
ghost use Rattle.std.specs.Cmp.Rules.{comparing, hashing};
ghost use Rattle.std.proofs.Common.{rules};
ghost use Rattle.features.specs.Equality.{same_name};

use features::Name;
use plane::Shape;
use std::hash::{Hash, Hasher};

/// A named shape. The match `zone` holds if the question's shape meets it.
#[derive(Clone, Copy, Debug, PartialEq, Eq)]
pub struct Zone {
    pub name: Name,
    pub shape: Shape,
}

/// The name of a zone as the key of a map.
#[derive(Clone, Copy, Debug)]
pub struct ZoneName {
    pub name: Name,
}

impl PartialEq for ZoneName {
    ghost eq = { λ a b. same_name a.name b.name };

    ghost laws = { Prim.search (comparing, rules) };

    fn eq(&self, other: &ZoneName) -> bool {
        self.name == other.name
    }
}

impl Eq for ZoneName {
    ghost laws = { Prim.search (comparing, rules) };
}

impl Hash for ZoneName {
    ghost hash_input = { λ key. fed.slice fed.u8 key.name };

    ghost respects_eq = { Prim.search (hashing, rules) };

    fn hash<H: Hasher>(&self, state: &mut H) {
        self.name.as_bytes().hash(state);
    }
}
