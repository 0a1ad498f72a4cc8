//! The folder of a store: its lock, and the files of its volumes.

use crate::faults::{Cause, ShelfFault, damaged, in_use, of_file};
use memory::{GrowText, GrowVec, NoMemory, text};
use std::alloc::Global;
use std::fs::{File, OpenOptions, Permissions, TryLockError};
use std::os::unix::fs::{OpenOptionsExt, PermissionsExt};
use std::{fs, io};

/// Who may read and write a store's files: their owner.
const MODE: u32 = 0o600;

/// The places of the ten digits in the name of a volume's file.
const PLACES: [u32; 10] = [
    1_000_000_000,
    100_000_000,
    10_000_000,
    1_000_000,
    100_000,
    10_000,
    1_000,
    100,
    10,
    1,
];

/// The name of the file that is locked while a store is open.
const LOCK: &str = "lock";

/// What the name of a volume's file ends with.
const ENDING: &str = ".db";

/// The path of a file in a folder.
fn path_in(heap: Global, folder: &str, name: &str) -> Result<String, NoMemory> {
    let mut path = text(heap, folder)?;
    path.try_push_str("/")?;
    path.try_push_str(name)?;
    Ok(path)
}

/// The path of the volume of this number.
pub(crate) fn volume_path(heap: Global, folder: &str, number: u32) -> Result<String, NoMemory> {
    let mut path = text(heap, folder)?;
    path.try_push_str("/")?;
    for place in &PLACES {
        let digit = number.checked_div(*place).unwrap_or(0) % 10;
        path.try_push_char(char::from_digit(digit, 10).unwrap_or('0'))?;
    }
    path.try_push_str(ENDING)?;
    Ok(path)
}

/// The path of the log of a volume.
pub(crate) fn log_path(heap: Global, path: &str) -> Result<String, NoMemory> {
    let mut log = text(heap, path)?;
    log.try_push_str("-wal")?;
    Ok(log)
}

/// The number of the volume whose file has this name.
fn volume_number(name: &str) -> Option<u32> {
    let digits = name.strip_suffix(ENDING)?;
    if digits.len() != PLACES.len() || !digits.as_bytes().iter().all(|b| b.is_ascii_digit()) {
        return None;
    }
    match digits.parse() {
        Ok(number) => Some(number),
        Err(_) => None,
    }
}

/// Opens a file for writing, or makes it, so that its owner alone may read and write it.
fn make_own(rt: &HostRuntime, path: &str) -> io::Result<File> {
    let file = OpenOptions::new()
        .write(true)
        .create(true)
        .mode(MODE)
        .open(rt, path)?;
    file.set_permissions(Permissions::from_mode(MODE))?;
    Ok(file)
}

/// Locks a store's folder, for as long as the file is kept. `InUse` where another has the lock,
/// `Unusable` where the folder cannot be written.
pub(crate) fn lock_folder(rt: &HostRuntime, folder: &str) -> Result<File, ShelfFault> {
    let heap = rt.alloc();
    let path = path_in(heap, folder, LOCK)?;
    let file = match make_own(rt, path.as_str()) {
        Ok(file) => file,
        Err(error) => return Err(of_file(heap, folder, error)),
    };
    match file.try_lock() {
        Ok(()) => Ok(file),
        Err(TryLockError::WouldBlock) => Err(in_use(heap, folder)),
        Err(TryLockError::Error(error)) => Err(of_file(heap, path.as_str(), error)),
    }
}

/// The numbers of the volumes in a folder, rising.
pub(crate) fn volume_numbers(rt: &HostRuntime, folder: &str) -> Result<Vec<u32>, ShelfFault> {
    let heap = rt.alloc();
    let entries = match fs::read_dir(rt, folder) {
        Ok(entries) => entries,
        Err(error) => return Err(of_file(heap, folder, error)),
    };
    let mut numbers = Vec::new(heap);
    for entry in entries {
        match entry {
            Ok(entry) => {
                if let Some(number) = volume_number(entry.file_name()) {
                    numbers.try_push(number)?;
                }
            }
            Err(error) => return Err(of_file(heap, folder, error)),
        }
    }
    numbers.sort_unstable();
    Ok(numbers)
}

/// `Damaged` for a volume that has not begun, unless its making can have been cut off: it is the last
/// of these numbers, and the first of a store or behind another one. Any other one was emptied.
pub(crate) fn half_made(
    heap: Global,
    path: &str,
    number: u32,
    numbers: &[u32],
) -> Result<(), ShelfFault> {
    let words = if numbers.last() != Some(&number) {
        "it has not begun, and another volume follows it"
    } else if number > 1 && !numbers.contains(&(number - 1)) {
        "it has not begun, and the volume before it is missing"
    } else {
        return Ok(());
    };
    Err(damaged(heap, path, Cause::Words(words)))
}

/// Makes the empty files of a new volume, the database and its log, whose owner alone may read and
/// write them, and has the folder keep their names. SQLite, which would not say that there is no room
/// for a file, has none to make then.
pub(crate) fn make_files(rt: &HostRuntime, folder: &str, path: &str) -> Result<(), ShelfFault> {
    let heap = rt.alloc();
    let log = log_path(heap, path)?;
    if let Err(error) = make_own(rt, path) {
        return Err(of_file(heap, path, error));
    }
    if let Err(error) = make_own(rt, log.as_str()) {
        return Err(of_file(heap, log.as_str(), error));
    }
    keep_names(rt, folder)
}

/// Has the disk keep the names of a folder's files.
fn keep_names(rt: &HostRuntime, folder: &str) -> Result<(), ShelfFault> {
    let heap = rt.alloc();
    let kept = match File::open(rt, folder) {
        Ok(opened) => opened.sync_all(),
        Err(error) => Err(error),
    };
    match kept {
        Ok(()) => Ok(()),
        Err(error) => Err(of_file(heap, folder, error)),
    }
}

/// Removes a file, if it is there.
fn remove_if_there(rt: &HostRuntime, path: &str) -> Result<(), ShelfFault> {
    match fs::remove_file(rt, path) {
        Ok(()) => Ok(()),
        Err(error) if error.kind() == io::ErrorKind::NotFound => Ok(()),
        Err(error) => Err(of_file(rt.alloc(), path, error)),
    }
}

/// Removes the files of a volume that has not begun, those that are there.
pub(crate) fn remove_volume(rt: &HostRuntime, folder: &str, path: &str) -> Result<(), ShelfFault> {
    let log = log_path(rt.alloc(), path)?;
    remove_if_there(rt, log.as_str())?;
    remove_if_there(rt, path)?;
    keep_names(rt, folder)
}
