//! Why a file is not read on, and why a row of it is no feature.

use byte_streams::ReadFailed;
use convex_parts::PartsFault;
use geojson::FeatureFault;
use grid::NumberFault;
use memory::NoMemory;
use plane::ShapeFault;
use std::error::Error;
use std::fmt;

/// Why the rows of a file are not read on.
#[derive(Debug, Drop)]
pub enum SourceFault {
    /// V1: a read failed.
    Read(ReadFailed),
    /// F1: the file is neither GeoJSON nor comma-separated values with a column WKT.
    NoForm,
    /// F2: the file ends within a row or a collection.
    Cut,
    /// F3: a row has more than 4,194,304 bytes.
    TooLong,
    /// V4: out of memory.
    Memory,
}

impl SourceFault {
    /// The code that users see.
    pub fn code(&self) -> &'static str {
        match self {
            SourceFault::Read(_) => "V1",
            SourceFault::NoForm => "F1",
            SourceFault::Cut => "F2",
            SourceFault::TooLong => "F3",
            SourceFault::Memory => "V4",
        }
    }
}

impl fmt::Display for SourceFault {
    fn fmt<W: fmt::Write>(&self, f: &mut fmt::Formatter<W>) -> fmt::Result {
        f.write_str(self.code())
    }
}

impl Error for SourceFault {}

impl From<NoMemory> for SourceFault {
    ghost use Rattle.std.specs.Prelude.{◌≡◌};
    ghost use Rattle.exchange.specs.declared.faults.SourceFault.TheVariants as faults;

    ghost from_gives = { λ no_memory fault. fault ≡ faults.Memory };

    fn from(_no_memory: NoMemory) -> SourceFault {
        SourceFault::Memory
    }
}

impl From<ReadFailed> for SourceFault {
    ghost use Rattle.std.specs.Prelude.{◌≡◌};
    ghost use Rattle.exchange.specs.declared.faults.SourceFault.TheVariants as faults;

    ghost from_gives = { λ failed fault. fault ≡ faults.Read failed };

    fn from(failed: ReadFailed) -> SourceFault {
        SourceFault::Read(failed)
    }
}

/// Why a well-known text is no geometry, and at which byte.
#[derive(Debug, Drop, PartialEq, Eq)]
pub enum GeometryFault {
    /// K1: the first word is no geometry.
    UnknownWord(usize),
    /// K2: a geometry or a form that is not read: EMPTY, a collection, several points.
    LeftOut(usize),
    /// K3: a bracket, a comma or a number is missing, or something is left.
    Syntax(usize),
    /// M1 to M3: a number is no coordinate of the grid.
    Number(NumberFault, usize),
    /// Out of memory.
    Memory,
}

impl From<NoMemory> for GeometryFault {
    ghost use Rattle.std.specs.Prelude.{◌≡◌};
    ghost use Rattle.exchange.specs.declared.faults.GeometryFault.TheVariants as faults;

    ghost from_gives = { λ no_memory fault. fault ≡ faults.Memory };

    fn from(_no_memory: NoMemory) -> GeometryFault {
        GeometryFault::Memory
    }
}

/// Why a row is no feature.
#[derive(Debug, Drop)]
pub enum RowFault {
    /// J1 to J3, M1 to M3: the text of a GeoJSON feature is at fault, at a place.
    Json(FeatureFault),
    /// K1 to K3, M1 to M3: the column WKT is at fault, at a byte.
    Geometry(GeometryFault),
    /// J2: a row of comma-separated values has another number of fields than the first one.
    Columns,
    /// I1: there is no id, or none that is a whole number below 2^64.
    NoId,
    /// I2: there is no class, or none that is a name.
    NoClass,
    /// L4: several parts or holes, or a line of more than two points.
    Several,
    /// P1 to P9: the points make no shape.
    Shape(ShapeFault),
    /// L1 to L3, P1 to P7: a line or a region cannot be cut; P4 also where there is none.
    Parts(PartsFault),
    /// Out of memory.
    Memory,
}

impl From<NoMemory> for RowFault {
    ghost use Rattle.std.specs.Prelude.{◌≡◌};
    ghost use Rattle.exchange.specs.declared.faults.RowFault.TheVariants as faults;

    ghost from_gives = { λ no_memory fault. fault ≡ faults.Memory };

    fn from(_no_memory: NoMemory) -> RowFault {
        RowFault::Memory
    }
}

impl fmt::Display for RowFault {
    /// The code and the place: `M2 /geometry/coordinates/0/2/1`, `K3 byte 17`; of an id, a class and
    /// a shape the code alone.
    fn fmt<W: fmt::Write>(&self, f: &mut fmt::Formatter<W>) -> fmt::Result {
        match self {
            RowFault::Json(fault) => fmt::Display::fmt(fault, f),
            RowFault::Geometry(fault) => fmt::Display::fmt(fault, f),
            RowFault::Columns => f.write_str("J2"),
            RowFault::NoId => f.write_str("I1"),
            RowFault::NoClass => f.write_str("I2"),
            RowFault::Several => f.write_str("L4"),
            RowFault::Shape(fault) => f.write_str((*fault).code()),
            RowFault::Parts(fault) => f.write_str(fault.code()),
            RowFault::Memory => f.write_str("V4"),
        }
    }
}

impl fmt::Display for GeometryFault {
    /// The code and the byte of the text, counted from 0.
    fn fmt<W: fmt::Write>(&self, f: &mut fmt::Formatter<W>) -> fmt::Result {
        match self {
            GeometryFault::UnknownWord(at) => write!(f, "K1 byte {at}"),
            GeometryFault::LeftOut(at) => write!(f, "K2 byte {at}"),
            GeometryFault::Syntax(at) => write!(f, "K3 byte {at}"),
            GeometryFault::Number(fault, at) => {
                f.write_str((*fault).code())?;
                write!(f, " byte {at}")
            }
            GeometryFault::Memory => f.write_str("V4"),
        }
    }
}
