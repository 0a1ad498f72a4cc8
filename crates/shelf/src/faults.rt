//! Why a store cannot be opened, read or written.

ghost use Rattle.std.specs.Prelude.{◌≡◌};

use memory::{NoMemory, text};
use sqlite::{Error as SqlError, ErrorCode};
use sqlite_trees::error::StoreError;
use std::alloc::Global;
use std::io::{self, ErrorKind};
use thiserror::Error;
use volumes::VolumeFault;

/// What is wrong with a file of a store.
#[derive(Debug, Drop, Error)]
pub enum Cause {
    /// A call of the file system failed.
    #[error("{0}")]
    File(io::Error),
    /// The file is no database, or the database cannot be read or written.
    #[error("{0}")]
    Database(SqlError),
    /// The tables cannot be read or written.
    #[error("{0}")]
    Volume(VolumeFault),
    /// Something else, in these words.
    #[error("{0}")]
    Words(&'static str),
}

/// Why a store cannot be opened, read or written. Each fault but the first names a file or a folder.
#[derive(Debug, Drop, Error)]
pub enum ShelfFault {
    /// V4: out of memory.
    #[error("V4")]
    Memory(NoMemory),
    /// Q1: another server, script or command has the folder.
    #[error("Q1 {0}: another server, script or command has it open")]
    InUse(String),
    /// Q2: a file or the folder cannot be read or written.
    #[error("Q2 {0}: {1}")]
    Unusable(String, Cause),
    /// Q3: a file is damaged, or is none of a store.
    #[error("Q3 {0}: {1}")]
    Damaged(String, Cause),
    /// Q4: the numbers of records are at their end.
    #[error("Q4 {0}: record numbers are at their end")]
    NoNumber(String),
}

impl ShelfFault {
    /// Whether the call may be asked again: it found no memory, or no room on the disk.
    pub fn is_passing(&self) -> bool {
        match self {
            ShelfFault::Memory(_) => true,
            ShelfFault::Unusable(_, Cause::Volume(VolumeFault::Memory(_))) => true,
            ShelfFault::Unusable(_, Cause::Volume(VolumeFault::Store(error))) => matches!(
                error,
                StoreError::OutOfMemory | StoreError::Full
            ),
            ShelfFault::Unusable(_, Cause::Database(SqlError::SqliteFailure(code))) => matches!(
                code,
                ErrorCode::OutOfMemory | ErrorCode::DiskFull
            ),
            ShelfFault::Unusable(_, Cause::File(error)) => matches!(
                error.kind(),
                ErrorKind::OutOfMemory | ErrorKind::StorageFull | ErrorKind::QuotaExceeded
            ),
            _ => false,
        }
    }
}

impl From<NoMemory> for ShelfFault {
    fn from(no_memory: NoMemory) -> Self {
        ShelfFault::Memory(no_memory)
    }
}

/// Q1 of this folder.
pub(crate) fn in_use(heap: Global, path: &str) -> ShelfFault {
    match text(heap, path) {
        Ok(path) => ShelfFault::InUse(path),
        Err(no_memory) => ShelfFault::Memory(no_memory),
    }
}

/// Q2 of this file or folder.
pub(crate) fn unusable(heap: Global, path: &str, cause: Cause) -> ShelfFault {
    match text(heap, path) {
        Ok(path) => ShelfFault::Unusable(path, cause),
        Err(no_memory) => ShelfFault::Memory(no_memory),
    }
}

/// Q3 of this file.
pub(crate) fn damaged(heap: Global, path: &str, cause: Cause) -> ShelfFault {
    match text(heap, path) {
        Ok(path) => ShelfFault::Damaged(path, cause),
        Err(no_memory) => ShelfFault::Memory(no_memory),
    }
}

/// The fault of a file that a call of the file system refuses.
pub(crate) fn of_file(heap: Global, path: &str, error: io::Error) -> ShelfFault {
    unusable(heap, path, Cause::File(error))
}

/// The fault of a database that a call of SQL refuses.
pub(crate) fn of_database(heap: Global, path: &str, error: SqlError) -> ShelfFault {
    let cause = Cause::Database(error);
    match error {
        SqlError::SqliteFailure(ErrorCode::DatabaseBusy) => in_use(heap, path),
        SqlError::SqliteFailure(
            ErrorCode::CannotOpen
            | ErrorCode::OutOfMemory
            | ErrorCode::SystemIoFailure
            | ErrorCode::DiskFull
            | ErrorCode::Closed,
        ) => unusable(heap, path, cause),
        _ => damaged(heap, path, cause),
    }
}

/// The fault of a volume.
pub(crate) fn of_volume(heap: Global, path: &str, fault: VolumeFault) -> ShelfFault {
    let is_unusable = match &fault {
        VolumeFault::Memory(_) => true,
        VolumeFault::Store(error) => !matches!(error, StoreError::Corrupt),
        VolumeFault::NoNumber => {
            return match text(heap, path) {
                Ok(path) => ShelfFault::NoNumber(path),
                Err(no_memory) => ShelfFault::Memory(no_memory),
            };
        }
        _ => false,
    };
    if is_unusable {
        unusable(heap, path, Cause::Volume(fault))
    } else {
        damaged(heap, path, Cause::Volume(fault))
    }
}
