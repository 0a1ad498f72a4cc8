//! Why a volume takes nothing, or gives nothing.

use memory::NoMemory;
use sqlite_trees::error::StoreError;
use std::alloc::AllocError;
use thiserror::Error;

/// Why a volume takes no records, or has no state to give.
#[derive(Debug, Drop, Error)]
pub enum VolumeFault {
    /// Out of memory.
    #[error("{0}")]
    Memory(NoMemory),
    /// The store failed: its disk, its file, or the memory that it asks for.
    #[error("{0}")]
    Store(StoreError),
    /// A record does not fit the tables: it changes a feature that is not there, or adds one that is.
    #[error("a record does not fit the tables")]
    Misfit,
    /// The records would be numbered past the greatest number.
    #[error("record numbers are at their end")]
    NoNumber,
    /// The table `feature` has a row that is none of a feature, or ids that do not rise.
    #[error("table feature: a row is not one of a feature")]
    BadFeature,
    /// The table `policy` has not just the one row of a policy.
    #[error("table policy: not the one row of a policy")]
    BadPolicy,
    /// The table `record` has a row that is none of a record, or its numbers have a gap.
    #[error("table record: a row is not that of the next record")]
    BadRecord,
    /// The tables are not those of a volume.
    #[error("the tables are not those of a volume")]
    NoTables,
}

impl From<NoMemory> for VolumeFault {
    ghost use Rattle.std.specs.Prelude.{◌≡◌};
    ghost use Rattle.volumes.specs.declared.faults.VolumeFault.TheVariants.{Memory};

    ghost from_gives = { λ no_memory fault. fault ≡ Memory no_memory };

    fn from(no_memory: NoMemory) -> Self {
        VolumeFault::Memory(no_memory)
    }
}

impl From<StoreError> for VolumeFault {
    ghost use Rattle.std.specs.Prelude.{◌≡◌};
    ghost use Rattle.volumes.specs.declared.faults.VolumeFault.TheVariants.{Store};

    ghost from_gives = { λ error fault. fault ≡ Store error };

    fn from(error: StoreError) -> Self {
        VolumeFault::Store(error)
    }
}

impl From<AllocError> for VolumeFault {
    /// A row of the kit's store that could not grow.
    fn from(_: AllocError) -> Self {
        VolumeFault::Store(StoreError::OutOfMemory)
    }
}
