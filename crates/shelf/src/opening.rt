//! The databases of volumes: how they are made, opened and closed, and their tables found.

use crate::faults::{Cause, ShelfFault, damaged, of_database, of_volume};
use sqlite::{Connection, Error as SqlError, File as DiskFile, FileStore};
use sqlite_trees::store::Alter;
use std::alloc::Global;
use volumes::{Tables, VolumeFault};

/// A database on the disk.
pub(crate) type Disk = FileStore<DiskFile>;

/// The tables of a volume, and the one by which programs for maps find the shapes.
const TABLES: &str = "\
BEGIN;
CREATE TABLE life (life INTEGER PRIMARY KEY, first INTEGER NOT NULL, subjects TEXT NOT NULL) STRICT;
CREATE TABLE policy (one INTEGER PRIMARY KEY, version INTEGER NOT NULL, edition INTEGER NOT NULL, document TEXT NOT NULL) STRICT;
CREATE TABLE feature (id INTEGER PRIMARY KEY, version INTEGER NOT NULL, office TEXT NOT NULL, class TEXT NOT NULL, shape TEXT NOT NULL) STRICT;
CREATE TABLE record (number INTEGER PRIMARY KEY, line TEXT NOT NULL) STRICT;
CREATE TABLE geometry_columns (f_table_name TEXT, f_geometry_column TEXT, geometry_type INTEGER, coord_dimension INTEGER, srid INTEGER, geometry_format TEXT);
INSERT INTO geometry_columns VALUES ('feature', 'shape', 0, 2, -1, 'WKT');
COMMIT;";

/// Opens the database at a path. A file that is empty becomes an empty database, whose pages have
/// sums.
pub(crate) fn connect(rt: &HostRuntime, path: &str) -> Result<Connection<Disk>, ShelfFault> {
    match Connection::open_with_sums(rt, path) {
        Ok(database) => Ok(database),
        Err(error) => Err(of_database(rt.alloc(), path, error)),
    }
}

/// The number of the tree of a table.
fn tree_of<S: Alter>(database: &Connection<S>, name: &[u8]) -> Option<u32> {
    for table in database.schema().tables.as_slice() {
        if table.name.as_slice() == name {
            return Some(table.tree);
        }
    }
    None
}

/// The tables of a volume, if all of them are there.
fn tables_of<S: Alter>(database: &Connection<S>) -> Option<Tables> {
    Some(Tables {
        features: tree_of(database, b"feature")?,
        policy: tree_of(database, b"policy")?,
        records: tree_of(database, b"record")?,
        lives: tree_of(database, b"life")?,
    })
}

/// The fault of a database that has other tables.
fn no_tables(heap: Global, path: &str) -> ShelfFault {
    damaged(heap, path, Cause::Words("not the tables of a volume"))
}

/// Makes the tables in an empty database, all or none, and gives its store.
pub(crate) fn make_tables(rt: &HostRuntime, path: &str) -> Result<(Disk, Tables), ShelfFault> {
    let heap = rt.alloc();
    let mut database = connect(rt, path)?;
    if let Err(error) = database.execute_batch(TABLES) {
        return Err(of_database(heap, path, error));
    }
    match tables_of(&database) {
        Some(tables) => Ok((database.into_store(), tables)),
        None => Err(no_tables(heap, path)),
    }
}

/// What the table `life` says: the number of the last life, and that of the volume's first record.
#[derive(Clone, Copy)]
pub(crate) struct Lives {
    pub(crate) last: u64,
    pub(crate) first: u64,
}

/// The two numbers in the table `life`; `None` where it has no row.
fn lives_in<S: Alter>(database: &mut Connection<S>) -> Result<Option<(i64, i64)>, SqlError> {
    let row = database.query_row(
        "SELECT count(*), coalesce(max(life), 0), coalesce(min(first), 0) FROM life",
        &[],
    )?;
    let count: i64 = row.get(0)?;
    let last: i64 = row.get(1)?;
    let first: i64 = row.get(2)?;
    if count == 0 {
        return Ok(None);
    }
    Ok(Some((last, first)))
}

/// A volume's database as it was found.
#[derive(Drop)]
pub(crate) enum Opened {
    /// It has no life, so it has not begun.
    NotBegun,
    /// It has these tables and lives.
    Begun(Disk, Tables, Lives),
}

/// Whether a database has any table.
pub(crate) fn has_tables<S: Alter>(database: &Connection<S>) -> bool {
    !database.schema().tables.is_empty()
}

/// Opens the database of a volume. It has not begun where it has no tables at all, or no life.
pub(crate) fn open_volume(rt: &HostRuntime, path: &str) -> Result<Opened, ShelfFault> {
    let heap = rt.alloc();
    let mut database = connect(rt, path)?;
    if !has_tables(&database) {
        return Ok(Opened::NotBegun);
    }
    let Some(tables) = tables_of(&database) else {
        return Err(no_tables(heap, path));
    };
    let lives = match lives_in(&mut database) {
        Ok(lives) => lives,
        Err(error) => return Err(of_database(heap, path, error)),
    };
    let Some((last, first)) = lives else {
        return Ok(Opened::NotBegun);
    };
    let (Ok(last), Ok(first)) = (u64::try_from(last), u64::try_from(first)) else {
        return Err(damaged(
            heap,
            path,
            Cause::Words("table life: not the rows of lives"),
        ));
    };
    Ok(Opened::Begun(database.into_store(), tables, Lives { last, first }))
}

/// Copies what the log of a volume has into its file, and closes both.
pub(crate) fn close_volume(heap: Global, path: &str, store: Disk) -> Result<(), ShelfFault> {
    let mut store = store;
    let copied = store.checkpoint();
    let _files = store.close();
    match copied {
        Ok(()) => Ok(()),
        Err(error) => Err(of_volume(heap, path, VolumeFault::Store(error))),
    }
}
