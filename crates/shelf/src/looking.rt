//! Stores that no server or script has open: what they have, whether they are right, and their
//! contents as text.

ghost use Rattle.std.specs.Prelude.{◌≡◌};

use crate::faults::{Cause, ShelfFault, damaged, of_database, of_file, of_volume};
use crate::folders::{half_made, lock_folder, volume_numbers, volume_path};
use crate::opening::{Opened, connect, has_tables, open_volume};
use byte_streams::{WriteFailed, write_shown, write_whole};
use features::Feature;
use memory::NoMemory;
use sqlite::{Connection, Error as SqlError};
use sqlite_trees::store::{Alter, Store};
use std::alloc::Global;
use std::io::Write;
use std::{fmt, fs};
use volumes::{State, Tables, Volume};
use wkt::shape_text;

/// Why a store was not looked at to its end.
#[derive(Debug, Drop)]
pub enum LookFault {
    /// The store's own fault.
    Store(ShelfFault),
    /// What was found could not be written.
    Write(WriteFailed),
}

impl From<ShelfFault> for LookFault {
    fn from(fault: ShelfFault) -> Self {
        LookFault::Store(fault)
    }
}

impl From<NoMemory> for LookFault {
    fn from(no_memory: NoMemory) -> Self {
        LookFault::Store(ShelfFault::Memory(no_memory))
    }
}

impl From<WriteFailed> for LookFault {
    fn from(failed: WriteFailed) -> Self {
        LookFault::Write(failed)
    }
}

/// What a volume has.
#[derive(Debug, Drop)]
pub struct VolumeAccount {
    /// Its number.
    pub number: u32,
    /// The first life that wrote to it.
    pub first_life: i64,
    /// The last one.
    pub last_life: i64,
    /// The number of its first record, or that which it will have.
    pub first: i64,
    /// How many records it has.
    pub records: i64,
    /// How many features it has.
    pub features: i64,
    /// How long its file is.
    pub bytes: u64,
}

impl fmt::Display for VolumeAccount {
    fn fmt<W: fmt::Write>(&self, f: &mut fmt::Formatter<W>) -> fmt::Result {
        let VolumeAccount {
            number,
            first_life,
            last_life,
            first,
            records,
            features,
            bytes,
        } = self;
        write!(
            f,
            "volume {number}: lives {first_life} to {last_life}, {records} records from {first} on, {features} features, {bytes} bytes\n"
        )
    }
}

/// One number that a query answers.
fn number_of<S: Alter>(database: &mut Connection<S>, query: &str) -> Result<i64, SqlError> {
    database.query_row(query, &[])?.get(0)
}

/// What the tables of a volume have; all numbers are 0 where it has not begun.
fn counted<S: Alter>(
    database: &mut Connection<S>,
    number: u32,
    bytes: u64,
) -> Result<VolumeAccount, SqlError> {
    Ok(VolumeAccount {
        number,
        first_life: number_of(database, "SELECT coalesce(min(life), 0) FROM life")?,
        last_life: number_of(database, "SELECT coalesce(max(life), 0) FROM life")?,
        first: number_of(database, "SELECT coalesce(min(first), 0) FROM life")?,
        records: number_of(database, "SELECT count(*) FROM record")?,
        features: number_of(database, "SELECT count(*) FROM feature")?,
        bytes,
    })
}

/// Writes a line for each volume of a store: its lives, records, features and bytes. A last one
/// without tables, which has not begun, has none.
pub fn list_store<W: Write>(
    rt: &HostRuntime,
    folder: &str,
    output: &mut W,
) -> Result<(), LookFault> {
    let heap = rt.alloc();
    let _lock = lock_folder(rt, folder)?;
    let numbers = volume_numbers(rt, folder)?;
    for number in numbers.iter() {
        let path = volume_path(heap, folder, *number)?;
        let bytes = match fs::metadata(rt, path.as_str()) {
            Ok(metadata) => metadata.len(),
            Err(error) => return Err(LookFault::Store(of_file(heap, path.as_str(), error))),
        };
        let mut database = connect(rt, path.as_str())?;
        if !has_tables(&database) {
            half_made(heap, path.as_str(), *number, numbers.as_slice())?;
            continue;
        }
        match counted(&mut database, *number, bytes) {
            Ok(account) => write_shown(&account, output)?,
            Err(error) => return Err(LookFault::Store(of_database(heap, path.as_str(), error))),
        }
    }
    Ok(())
}

/// A store that was checked and is right.
#[derive(Clone, Copy, Debug, Drop)]
pub struct Checked {
    /// How many volumes it has.
    pub volumes: u32,
    /// How many records they have.
    pub records: u64,
}

/// A volume that was read whole: its state, and the numbers of its first and its next record.
#[derive(Drop)]
struct ReadVolume {
    state: State<Global>,
    first: u64,
    next: u64,
}

/// Reads the volume in these tables whole, whose first record has this number.
fn read_tables<S: Store + Drop>(
    heap: Global,
    path: &str,
    store: S,
    tables: Tables,
    first: u64,
) -> Result<ReadVolume, ShelfFault> {
    let mut volume = match Volume::new(store, heap, tables, first) {
        Ok(volume) => volume,
        Err((fault, _store)) => return Err(of_volume(heap, path, fault)),
    };
    match volume.restore(heap, heap) {
        Ok(state) => Ok(ReadVolume {
            state,
            first,
            next: volume.next(),
        }),
        Err(fault) => Err(of_volume(heap, path, fault)),
    }
}

/// Reads a volume whole; `None` where it has not begun.
fn read_volume(rt: &HostRuntime, path: &str) -> Result<Option<ReadVolume>, ShelfFault> {
    match open_volume(rt, path)? {
        Opened::NotBegun => Ok(None),
        Opened::Begun(store, tables, lives) => {
            let read = read_tables(rt.alloc(), path, store, tables, lives.first)?;
            Ok(Some(read))
        }
    }
}

/// Checks a store: each volume's sums, trees and rows; that its shapes, names and policy read, and
/// its records are numbered without a gap; that volumes are numbered without a gap, each but the last
/// has begun, and each goes on where the one before ended. The first fault names its file and its
/// table.
pub fn check_store(rt: &HostRuntime, folder: &str) -> Result<Checked, ShelfFault> {
    let heap = rt.alloc();
    let _lock = lock_folder(rt, folder)?;
    let mut checked = Checked {
        volumes: 0,
        records: 0,
    };
    let mut next = None;
    let mut last = None;
    let numbers = volume_numbers(rt, folder)?;
    for number in numbers.iter() {
        let path = volume_path(heap, folder, *number)?;
        if last.is_some() && last != number.checked_sub(1) {
            let cause = Cause::Words("the volume before it is missing");
            return Err(damaged(heap, path.as_str(), cause));
        }
        last = Some(*number);
        let Some(read) = read_volume(rt, path.as_str())? else {
            half_made(heap, path.as_str(), *number, numbers.as_slice())?;
            continue;
        };
        if next.is_some() && next != Some(read.first) {
            let cause = Cause::Words(
                "table life: its first record is not the next of the volume before",
            );
            return Err(damaged(heap, path.as_str(), cause));
        }
        next = Some(read.next);
        checked.volumes = checked.volumes.saturating_add(1);
        let records = read.next.saturating_sub(read.first);
        checked.records = checked.records.saturating_add(records);
    }
    Ok(checked)
}

/// Why lines were not written.
#[derive(Drop)]
enum LinesFault {
    Database(SqlError),
    Write(WriteFailed),
}

impl From<SqlError> for LinesFault {
    fn from(error: SqlError) -> Self {
        LinesFault::Database(error)
    }
}

impl From<WriteFailed> for LinesFault {
    fn from(failed: WriteFailed) -> Self {
        LinesFault::Write(failed)
    }
}

/// Writes the lines of a volume's records.
fn write_lines<S: Alter, W: Write>(
    database: &mut Connection<S>,
    output: &mut W,
) -> Result<(), LinesFault> {
    let mut rows = database.query("SELECT line FROM record ORDER BY number", &[])?;
    for _ in 0..u64::MAX {
        let Some(row) = rows.next()? else {
            break;
        };
        let line: String = row.get(0)?;
        write_whole(line.as_bytes(), output)?;
        write_whole(b"\n", output)?;
    }
    Ok(())
}

/// Writes the lines of all records of a store, those of the oldest volume first. They are the lines
/// that ROLL shows. `Damaged` at a volume without tables, but for a last one that was half made.
pub fn export_records<W: Write>(
    rt: &HostRuntime,
    folder: &str,
    output: &mut W,
) -> Result<(), LookFault> {
    let heap = rt.alloc();
    let _lock = lock_folder(rt, folder)?;
    let numbers = volume_numbers(rt, folder)?;
    for number in numbers.iter() {
        let path = volume_path(heap, folder, *number)?;
        let mut database = connect(rt, path.as_str())?;
        if !has_tables(&database) {
            half_made(heap, path.as_str(), *number, numbers.as_slice())?;
            continue;
        }
        match write_lines(&mut database, output) {
            Ok(()) => {}
            Err(LinesFault::Write(failed)) => return Err(LookFault::Write(failed)),
            Err(LinesFault::Database(error)) => {
                return Err(LookFault::Store(of_database(heap, path.as_str(), error)));
            }
        }
    }
    Ok(())
}

/// A feature as `id,version,office,class,"shape"`.
#[derive(Drop)]
struct FeatureLine<'a> {
    feature: &'a Feature,
}

impl fmt::Display for FeatureLine<'_> {
    fn fmt<W: fmt::Write>(&self, f: &mut fmt::Formatter<W>) -> fmt::Result {
        let feature = self.feature;
        let (id, version) = (feature.id, feature.version);
        let (office, class) = (&feature.office, &feature.class);
        let shape = shape_text(&feature.shape);
        let text = shape.as_str();
        write!(f, "{id},{version},{office},{class},\"{text}\"\n")
    }
}

/// Writes the features of a store by rising id, each as `id,version,office,class,"shape"`.
pub fn export_features<W: Write>(
    rt: &HostRuntime,
    folder: &str,
    output: &mut W,
) -> Result<(), LookFault> {
    let heap = rt.alloc();
    let _lock = lock_folder(rt, folder)?;
    let numbers = volume_numbers(rt, folder)?;
    for number in numbers.iter().rev() {
        let path = volume_path(heap, folder, *number)?;
        if let Some(read) = read_volume(rt, path.as_str())? {
            for feature in read.state.features.as_slice() {
                write_shown(&FeatureLine { feature }, output)?;
            }
            return Ok(());
        }
        half_made(heap, path.as_str(), *number, numbers.as_slice())?;
    }
    Ok(())
}
