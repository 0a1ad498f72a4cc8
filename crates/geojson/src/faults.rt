//! Why a text is no feature, and where in it.

ghost use Rattle.std.specs.Prelude.{◌≡◌};

use grid::NumberFault;
use memory::NoMemory;
use std::fmt;

/// An allocation that the reader of JSON wanted was refused. Only this crate makes one, and only
/// after that reader said so, so that no fault that carries one is invented.
#[derive(Debug, Drop, PartialEq, Eq)]
pub struct JsonRefused {
    seal: (),
}

impl JsonRefused {
    ghost use Rattle.geojson.specs.Faults.{json_refused};

    /// Called only after the reader of JSON was out of memory.
    pub(crate) fn seen() -> Self
        ensures { result ≡ json_refused }
    {
        JsonRefused { seal: () }
    }
}

/// Why a text is no feature.
#[derive(Debug, Drop, PartialEq, Eq)]
pub enum Cause {
    /// J1: the text is not JSON, or not UTF-8.
    NotJson,
    /// J2: a member is missing, or what is there has not the form that GeoJSON wants.
    Form,
    /// J3: a type that is no feature and none of the geometries that can be read.
    Kind,
    /// M1 to M3: a number is no coordinate of the grid.
    Number(NumberFault),
    /// J4: an allocation was refused.
    Memory(NoMemory),
    /// J4: an allocation that the reader of JSON wanted was refused.
    Json(JsonRefused),
}

impl Cause {
    ghost use Rattle.geojson.specs.FaultCodes.{code_of};

    /// The code that users see.
    pub fn code(&self) -> &'static str
        ensures { result.now ≡ code_of self.now }
    {
        match self {
            Cause::NotJson => "J1",
            Cause::Form => "J2",
            Cause::Kind => "J3",
            Cause::Number(fault) => (*fault).code(),
            Cause::Memory(_) => "J4",
            Cause::Json(_) => "J4",
        }
    }
}

/// A place among the coordinates of a geometry, counted from 0; of a polygon among several, a path,
/// a point in it, a number of it, those that lead there.
#[derive(Clone, Copy, Debug, PartialEq, Eq)]
pub struct Spot {
    pub polygon: Option<usize>,
    pub path: Option<usize>,
    pub point: Option<usize>,
    pub axis: Option<usize>,
}

/// A fault among the coordinates of a geometry.
#[derive(Debug, Drop, PartialEq, Eq)]
pub struct CoordinatesFault {
    pub cause: Cause,
    pub spot: Spot,
}

impl CoordinatesFault {
    ghost use Rattle.geojson.specs.Faults.{fault_here, nowhere};

    /// A fault of all the coordinates.
    pub(crate) fn here(cause: Cause) -> Self
        ensures { result ≡ fault_here cause }
    {
        CoordinatesFault {
            cause,
            spot: Spot {
                polygon: None,
                path: None,
                point: None,
                axis: None,
            },
        }
    }

    /// A fault of a number of a position.
    pub(crate) fn at_axis(cause: Cause, axis: usize) -> Self
        ensures { result ≡ record { cause = cause; spot = record nowhere { axis = Some axis } } }
    {
        CoordinatesFault {
            cause,
            spot: Spot {
                polygon: None,
                path: None,
                point: None,
                axis: Some(axis),
            },
        }
    }

    /// The same fault, in the point at this index.
    pub(crate) fn in_point(self, index: usize) -> Self
        ensures { result ≡ record { cause = self.cause; spot = record self.spot { point = Some index } } }
    {
        let CoordinatesFault { cause, spot } = self;
        CoordinatesFault {
            cause,
            spot: Spot {
                point: Some(index),
                ..spot
            },
        }
    }

    /// The same fault, in the path at this index.
    pub(crate) fn in_path(self, index: usize) -> Self
        ensures { result ≡ record { cause = self.cause; spot = record self.spot { path = Some index } } }
    {
        let CoordinatesFault { cause, spot } = self;
        CoordinatesFault {
            cause,
            spot: Spot {
                path: Some(index),
                ..spot
            },
        }
    }

    /// The same fault, in the polygon at this index.
    pub(crate) fn in_polygon(self, index: usize) -> Self
        ensures { result ≡ record { cause = self.cause; spot = record self.spot { polygon = Some index } } }
    {
        let CoordinatesFault { cause, spot } = self;
        CoordinatesFault {
            cause,
            spot: Spot {
                polygon: Some(index),
                ..spot
            },
        }
    }
}

impl From<NoMemory> for CoordinatesFault {
    ghost use Rattle.std.specs.Prelude.{◌≡◌};
    ghost use Rattle.geojson.specs.Faults.{fault_here};
    ghost use Rattle.geojson.specs.declared.faults.Cause.TheVariants.{Memory};

    ghost from_gives = { λ no_memory fault. fault ≡ fault_here (Memory no_memory) };

    fn from(no_memory: NoMemory) -> Self {
        CoordinatesFault::here(Cause::Memory(no_memory))
    }
}

/// A member of a feature.
#[derive(Clone, Copy, Debug, PartialEq, Eq)]
pub enum Member {
    /// The whole text.
    Text,
    Type,
    /// The coordinates of a geometry that is the whole text.
    BareCoordinates,
    Id,
    Geometry,
    GeometryType,
    Coordinates,
    PropertyId,
    Version,
    Office,
    Class,
}

impl Member {
    ghost use Rattle.geojson.specs.Pointers.{pointer_of};

    /// The member's JSON pointer (RFC 6901).
    pub fn pointer(self) -> &'static str
        ensures { result.now ≡ pointer_of self }
    {
        match self {
            Member::Text => "",
            Member::Type => "/type",
            Member::BareCoordinates => "/coordinates",
            Member::Id => "/id",
            Member::Geometry => "/geometry",
            Member::GeometryType => "/geometry/type",
            Member::Coordinates => "/geometry/coordinates",
            Member::PropertyId => "/properties/id",
            Member::Version => "/properties/version",
            Member::Office => "/properties/office",
            Member::Class => "/properties/class",
        }
    }
}

/// Why a text is no feature, and where in it.
#[derive(Debug, Drop, PartialEq, Eq)]
pub struct FeatureFault {
    pub cause: Cause,
    pub member: Member,
    /// Where among the coordinates.
    pub spot: Spot,
}

impl FeatureFault {
    ghost use Rattle.geojson.specs.Faults.{fault_at};

    /// A fault of a whole member.
    pub fn at(member: Member, cause: Cause) -> Self
        ensures { result ≡ fault_at member cause }
    {
        FeatureFault {
            cause,
            member,
            spot: Spot {
                polygon: None,
                path: None,
                point: None,
                axis: None,
            },
        }
    }
}

/// Writes one more part of a JSON pointer.
fn write_index<W: fmt::Write>(index: Option<usize>, f: &mut fmt::Formatter<W>) -> fmt::Result {
    match index {
        Some(index) => write!(f, "/{}", index),
        None => Ok(()),
    }
}

impl fmt::Display for FeatureFault {
    /// The code of the cause and the place, as a JSON pointer: `M2 /geometry/coordinates/0/2/1`. The
    /// whole text has no place.
    fn fmt<W: fmt::Write>(&self, f: &mut fmt::Formatter<W>) -> fmt::Result {
        f.write_str(self.cause.code())?;
        if self.member == Member::Text {
            return Ok(());
        }
        f.write_str(" ")?;
        f.write_str(self.member.pointer())?;
        write_index(self.spot.polygon, f)?;
        write_index(self.spot.path, f)?;
        write_index(self.spot.point, f)?;
        write_index(self.spot.axis, f)
    }
}
