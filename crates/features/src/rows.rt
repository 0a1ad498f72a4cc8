//! Features, and changes of features.

ghost use Rattle.std.specs.Prelude.{◌≡◌, ◌↔◌, IsTrue};
ghost use Rattle.features.specs.Changes.{change_id};
ghost use Rattle.features.specs.Equality.{same_change, same_changes};

use crate::names::Name;
use plane::Shape;

/// A feature of the map, as it is in the store.
#[derive(Clone, Copy, Debug)]
pub struct Feature {
    pub id: u64,
    /// The version of the change list that added or last reshaped the feature.
    pub version: u64,
    pub office: Name,
    pub class: Name,
    pub shape: Shape,
}

impl PartialEq for Feature {
    ghost use Rattle.std.specs.Cmp.{decided, partial_equiv_from_equiv};
    ghost use Rattle.features.specs.Equality.{same_feature, same_feature_decides};

    ghost eq = { same_feature };

    ghost laws = { partial_equiv_from_equiv (decided same_feature same_feature_decides) };

    /// Whether the two are equal, field by field.
    fn eq(&self, other: &Feature) -> bool
        ensures tested { result ≡ same_feature self.now other.now }
        ensures exact { IsTrue result ↔ (self.now ≡ other.now) }
    {
        self.id == other.id
            && self.version == other.version
            && self.office == other.office
            && self.class == other.class
            && self.shape == other.shape
    }
}

impl Eq for Feature {
    ghost use Rattle.std.specs.Cmp.{decided};
    ghost use Rattle.features.specs.Equality.{same_feature, same_feature_decides};

    ghost laws = { decided same_feature same_feature_decides };
}

/// One change of a list that is committed as a whole. `Reshape` and `Delete` have the version of
/// the feature that the caller has seen.
#[derive(Clone, Copy, Debug)]
pub enum Change {
    /// Adds a feature.
    Add { id: u64, class: Name, shape: Shape },
    /// Gives a feature another shape.
    Reshape { id: u64, version: u64, shape: Shape },
    /// Removes a feature.
    Delete { id: u64, version: u64 },
}

impl PartialEq for Change {
    ghost use Rattle.std.specs.Cmp.{decided, partial_equiv_from_equiv};
    ghost use Rattle.features.specs.Equality.{same_change, same_change_decides};

    ghost eq = { same_change };

    ghost laws = { partial_equiv_from_equiv (decided same_change same_change_decides) };

    /// Whether the two are equal, field by field.
    fn eq(&self, other: &Change) -> bool
        ensures tested { result ≡ same_change self.now other.now }
        ensures exact { IsTrue result ↔ (self.now ≡ other.now) }
    {
        is_same(self, other)
    }
}

impl Eq for Change {
    ghost use Rattle.std.specs.Cmp.{decided};
    ghost use Rattle.features.specs.Equality.{same_change, same_change_decides};

    ghost laws = { decided same_change same_change_decides };
}

/// Whether two changes are equal, field by field.
fn is_same(one: &Change, other: &Change) -> bool
    ensures { result ≡ same_change one.now other.now }
{
    match (one, other) {
        (
            Change::Add { id, class, shape },
            Change::Add {
                id: other_id,
                class: other_class,
                shape: other_shape,
            },
        ) => id == other_id && class == other_class && shape == other_shape,
        (
            Change::Reshape { id, version, shape },
            Change::Reshape {
                id: other_id,
                version: other_version,
                shape: other_shape,
            },
        ) => id == other_id && version == other_version && shape == other_shape,
        (
            Change::Delete { id, version },
            Change::Delete {
                id: other_id,
                version: other_version,
            },
        ) => id == other_id && version == other_version,
        _ => false,
    }
}

/// Whether two lists of changes are equal: what `==` of the lists returns.
pub fn same_changes(one: &[Change], other: &[Change]) -> bool
    ensures tested { result ≡ same_changes one.now other.now }
    ensures exact { IsTrue result ↔ (one.now ≡ other.now) }
{
    *one == *other
}

impl Change {
    /// The id of the feature that is changed.
    pub fn id(&self) -> u64
        ensures { result ≡ change_id self.now }
    {
        match self {
            Change::Add { id, .. } => *id,
            Change::Reshape { id, .. } => *id,
            Change::Delete { id, .. } => *id,
        }
    }
}
