//! Listening on a path.

use crate::socket_files::{SocketFile, locked_folder};
use std::fs::{File, Files, Permissions};
use std::io::ErrorKind;
use std::net::Net;
use std::os::unix::fs::{FileTypeExt, PermissionsExt};
use std::os::unix::net::{UnixListener, UnixStream};
use std::time::Clock;
use std::{fs, io};

/// Who may connect: the owner of the socket's file, and its group.
const MODE: u32 = 0o660;

/// Whether the path is a socket that nobody listens on. Tries a connection to find out.
fn is_stale<R: Files + Net>(rt: &R, path: &str) -> bool {
    let Ok(metadata) = fs::symlink_metadata(rt, path) else {
        return false;
    };
    if !metadata.file_type().is_socket() {
        return false;
    }
    match UnixStream::connect(rt, path) {
        Ok(_) => false,
        Err(error) => error.kind() == ErrorKind::ConnectionRefused,
    }
}

/// Binds a path, and replaces a socket there that nobody listens on.
fn bind_again<R: Files + Net>(rt: &R, path: &str) -> io::Result<UnixListener> {
    match UnixListener::bind(rt, path) {
        Err(error) if error.kind() == ErrorKind::AddrInUse && is_stale(rt, path) => {
            fs::remove_file(rt, path)?;
            UnixListener::bind(rt, path)
        }
        bound => bound,
    }
}

/// A socket on which a server listens, and the file that it has at its path.
#[derive(Drop)]
pub struct Bound {
    pub listener: UnixListener,
    pub file: SocketFile,
}

/// Sets the permissions of the socket's file, and notes which file it is.
fn opened_up<R: Files>(rt: &R, path: &str) -> Option<SocketFile> {
    if fs::set_permissions(rt, path, Permissions::from_mode(MODE)).is_err() {
        let _ = fs::remove_file(rt, path);
        return None;
    }
    SocketFile::at(rt, path)
}

/// Listens on a path, to which its owner and group may connect. With `takeover`, a socket that
/// nobody listens on is replaced: under the lock of its folder, so that of two servers one finds
/// the other listening. `None` where anything else is at the path, where its permissions cannot be
/// set, and where a socket is to be replaced and its folder cannot be locked.
pub fn listen<R: Files<File = File> + Net + Clock>(
    rt: &R,
    path: &str,
    takeover: bool,
) -> Option<Bound> {
    let locked = locked_folder(rt, path);
    let bound = if takeover && locked.is_some() {
        bind_again(rt, path)
    } else {
        UnixListener::bind(rt, path)
    };
    let listener = bound.ok()?;
    let file = opened_up(rt, path)?;
    Some(Bound { listener, file })
}
