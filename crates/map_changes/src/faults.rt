//! Why a request asks for no change.

ghost use Rattle.std.specs.Prelude.{◌≡◌};

use geojson::FeatureFault;
use plane::ShapeFault;
use std::fmt;

/// Why a request asks for no change, in the order in which the faults are looked for.
#[derive(Debug, Drop, PartialEq, Eq)]
pub enum ChangeFault {
    /// U1: there is no such page.
    NoPage,
    /// method: the page has not this method.
    Method,
    /// U2: the page has no parameters.
    Parameter,
    /// version: it is not said which version of the feature is to be changed.
    NoVersion,
    /// stale: what is said of the version is no tag that this server gives.
    WrongTag,
    /// media: the body is of a type that is not read.
    Media,
    /// The code of its cause, J1 to J4 or M1 to M3: the body is no feature, or memory was refused.
    Feature(FeatureFault),
    /// id: the feature to add has no id, or the body speaks of another feature.
    Id,
    /// class: the feature to add has no class, or another one than the collection.
    Class,
    /// parts: the geometry is not one point, one segment or one ring without holes.
    Parts,
    /// The code of the shape's fault, P1 to P9.
    Shape(ShapeFault),
}

impl ChangeFault {
    ghost use Rattle.map_changes.specs.FaultCodes.{code_of};

    /// The code that users see.
    pub fn code(&self) -> &'static str
        ensures { result.now ≡ code_of self.now }
    {
        match self {
            ChangeFault::NoPage => "U1",
            ChangeFault::Method => "method",
            ChangeFault::Parameter => "U2",
            ChangeFault::NoVersion => "version",
            ChangeFault::WrongTag => "stale",
            ChangeFault::Media => "media",
            ChangeFault::Feature(fault) => fault.cause.code(),
            ChangeFault::Id => "id",
            ChangeFault::Class => "class",
            ChangeFault::Parts => "parts",
            ChangeFault::Shape(fault) => (*fault).code(),
        }
    }
}

impl fmt::Display for ChangeFault {
    ghost use Rattle.std.specs.Prelude.{Some};
    ghost use Rattle.map_changes.specs.FaultCodes.{code_of};

    ghost output = { λ fault. Some (code_of fault) };

    fn fmt<W: fmt::Write>(&self, f: &mut fmt::Formatter<W>) -> fmt::Result {
        f.write_str(self.code())
    }
}
