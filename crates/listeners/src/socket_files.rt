//! The file that a bound socket has at its path.

use std::fs::{File, Files, TryLockError};
use std::os::unix::fs::{FileTypeExt, MetadataExt};
use std::time::{Clock, Duration};
use std::{fs, thread};

/// How often the lock of a folder is asked for.
const LOCK_TRIES: u32 = 100;

/// The pause between two of these tries, in milliseconds.
const LOCK_PAUSE: u64 = 10;

/// Which file of a socket it is. A file that replaces another at the same path may get the number
/// of the old one, but it is not as old.
#[derive(Clone, Copy, Debug, PartialEq, Eq)]
pub struct SocketFile {
    device: u64,
    number: u64,
    seconds: i64,
    nanoseconds: i64,
}

impl SocketFile {
    /// The file at the path; `None` if there is none, or it is no socket.
    pub fn at<R: Files>(rt: &R, path: &str) -> Option<SocketFile> {
        let metadata = fs::symlink_metadata(rt, path).ok()?;
        if !metadata.file_type().is_socket() {
            return None;
        }
        Some(SocketFile {
            device: metadata.dev(),
            number: metadata.ino(),
            seconds: metadata.mtime(),
            nanoseconds: metadata.mtime_nsec(),
        })
    }
}

/// The folder of the path.
fn folder_of(path: &str) -> &str {
    match path.rsplit_once('/') {
        Some(("", _)) => "/",
        Some((folder, _)) => folder,
        None => ".",
    }
}

/// The folder of the path, locked until it is dropped, so that one server at a time replaces or
/// removes a socket there. `None` if the folder cannot be opened, or is locked by others for a
/// second.
pub(crate) fn locked_folder<R: Files<File = File> + Clock>(rt: &R, path: &str) -> Option<File> {
    let folder = File::open(rt, folder_of(path)).ok()?;
    for _ in 0..LOCK_TRIES {
        match folder.try_lock() {
            Ok(()) => return Some(folder),
            Err(TryLockError::WouldBlock) => thread::sleep(rt, Duration::from_millis(LOCK_PAUSE)),
            Err(TryLockError::Error(_)) => return None,
        }
    }
    None
}

/// Removes a server's own socket from its path. What has replaced it stays.
pub fn remove_own<R: Files<File = File> + Clock>(rt: &R, path: &str, own: SocketFile) {
    let _locked = locked_folder(rt, path);
    if SocketFile::at(rt, path) == Some(own) {
        let _ = fs::remove_file(rt, path);
    }
}
