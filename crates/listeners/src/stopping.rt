//! Stopping a server.

use crate::socket_files::SocketFile;
use byte_streams::read_some;
use std::fs::Files;
use std::io::Read;
use std::net::Net;
use std::os::unix::net::UnixStream;
use std::sync::OnceLock;
use std::sync::atomic::{AtomicU64, Ordering};

/// How one server is told to accept no more connections.
#[derive(Drop)]
pub struct Stop {
    /// Not 0 once it is told.
    asked: AtomicU64,
    /// The file of the server's socket, once the server has said that it listens.
    socket: OnceLock<SocketFile>,
}

impl Stop {
    /// For a server that is not told yet.
    pub fn new() -> Self {
        Stop {
            asked: AtomicU64::new(0),
            socket: OnceLock::new(),
        }
    }

    /// Tells the server to accept no more connections. One that waits for a connection sees it
    /// with the next one.
    pub fn ask(&self) {
        self.asked.store(1, Ordering::SeqCst);
    }

    /// Whether the server was told.
    pub fn is_asked(&self) -> bool {
        self.asked.load(Ordering::SeqCst) != 0
    }

    /// Notes the socket on which the server listens from now on.
    pub fn listens_on(&self, file: SocketFile) {
        let _ = self.socket.try_set(file);
    }

    /// Whether what is at the path is the socket of the server.
    fn has_socket_at<R: Files>(&self, rt: &R, path: &str) -> bool {
        match self.socket.get() {
            Some(file) => SocketFile::at(rt, path) == Some(*file),
            None => false,
        }
    }
}

impl Stop {
    /// Tells the server to accept no more connections. If it listens at the path, connects to it
    /// once, so that it sees that, in place of waiting for a client.
    pub fn wake<R: Files + Net>(&self, rt: &R, path: &str) {
        // A server notes its socket before it looks whether it is told, so either it sees that, or it
        // is found here.
        self.ask();
        if self.has_socket_at(rt, path) {
            let _ = UnixStream::connect(rt, path);
        }
    }
}

/// Waits until the input ends or cannot be read, and tells the server to accept no more
/// connections. If it listens at the path by then, connects to it once, so that it sees that, in
/// place of waiting for a client. Sessions that are being served go on to their end.
pub fn watch<R: Files + Net, I: Read>(rt: &R, input: &mut I, path: &str, stop: &Stop) {
    let mut chunk = [0; 64];
    for _ in 0..u64::MAX {
        match read_some(input, &mut chunk) {
            Ok(0) | Err(_) => break,
            Ok(_) => {}
        }
    }
    stop.wake(rt, path);
}
