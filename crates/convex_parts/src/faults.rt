//! Why a line or a ring is not cut into parts.

ghost use Rattle.std.specs.Prelude.{◌≡◌};

use memory::NoMemory;
use std::error::Error;
use std::fmt;

/// The most parts of one line or region.
pub const PART_LIMIT: usize = 1_000;

/// The most points that a ring lists, its closing one included.
pub const RING_LIMIT: usize = 65_536;

/// Why a line or a region is not cut into parts.
#[derive(Debug, Drop)]
pub enum PartsFault {
    /// P1: a coordinate is out of range.
    OutOfRange,
    /// P3: a ring lists more than 65,536 points, its closing one included.
    TooManyPoints,
    /// P4: a line has no two points that differ, or a ring lists fewer than 4 points, its closing
    /// one included.
    TooFew,
    /// P5: the last point of a ring is not the first one.
    NotClosed,
    /// P6: a region has a corner twice, also if in two of its rings.
    Repeated,
    /// P7: a ring has no area.
    Flat,
    /// L1: two sides of a region's rings cross or touch, or one ring goes round another that is
    /// not its hole.
    Crossing,
    /// L2: a hole does not lie inside the outer ring.
    HoleOutside,
    /// L3: there would be more than 1,000 parts.
    TooManyParts,
    /// Out of memory.
    Memory(NoMemory),
}

impl PartsFault {
    ghost use Rattle.convex_parts.specs.Faults.{code_of};

    /// The fault's code: `P1`, `P3` to `P7` as of a shape, `L1` to `L3`, or `memory`.
    pub fn code(&self) -> &'static str
        ensures { result.now ≡ code_of self.now }
    {
        match self {
            PartsFault::OutOfRange => "P1",
            PartsFault::TooManyPoints => "P3",
            PartsFault::TooFew => "P4",
            PartsFault::NotClosed => "P5",
            PartsFault::Repeated => "P6",
            PartsFault::Flat => "P7",
            PartsFault::Crossing => "L1",
            PartsFault::HoleOutside => "L2",
            PartsFault::TooManyParts => "L3",
            PartsFault::Memory(_) => "memory",
        }
    }
}

impl fmt::Display for PartsFault {
    ghost use Rattle.std.specs.Prelude.{Some};
    ghost use Rattle.convex_parts.specs.Faults.{code_of};

    ghost output = { λ fault. Some (code_of fault) };

    fn fmt<W: fmt::Write>(&self, f: &mut fmt::Formatter<W>) -> fmt::Result {
        f.write_str(self.code())
    }
}

impl Error for PartsFault {}

impl From<NoMemory> for PartsFault {
    ghost use Rattle.convex_parts.specs.declared.faults.PartsFault.TheVariants as faults;

    ghost from_gives = { λ no_memory fault. fault ≡ faults.Memory no_memory };

    fn from(no_memory: NoMemory) -> PartsFault {
        PartsFault::Memory(no_memory)
    }
}
