//! Sockets for connections of HTTP.

ghost use Rattle.std.specs.Io.{ReadsAtMost, WritesAtMost};

use crate::listening::{Bound, listen};
use crate::socket_files::{SocketFile, remove_own};
use std::fs::{File, Files};
use std::io;
use std::io::{Read, Write};
use std::net::{Net, SocketAddr, TcpListener, TcpStream};
use std::os::unix::net::UnixStream;
use std::time::{Clock, Duration};

/// Where a server answers by HTTP.
#[derive(Clone, Copy, Debug)]
pub enum WebPlace<'a> {
    /// At an address and a port.
    Address(SocketAddr),
    /// At the path of a Unix socket.
    Path(&'a str),
}

/// A socket on which a server listens for connections of HTTP.
#[derive(Drop)]
pub enum WebListener {
    Address(TcpListener),
    Path(Bound),
}

/// A connection of HTTP.
#[derive(Drop)]
pub enum WebStream {
    Address(TcpStream),
    Path(UnixStream),
}

/// Listens at a place for connections of HTTP, as `listen` does at a path. `None` where the place
/// is not to be had.
pub fn listen_web<R>(rt: &R, place: WebPlace<'_>, takeover: bool) -> Option<WebListener>
where
    R: Files<File = File> + Net<Stream = TcpStream, Listener = TcpListener> + Clock,
{
    match place {
        WebPlace::Address(address) => {
            let listener = TcpListener::bind(rt, address).ok()?;
            Some(WebListener::Address(listener))
        }
        WebPlace::Path(path) => Some(WebListener::Path(listen(rt, path, takeover)?)),
    }
}

/// Removes the path of a socket that had this file there, if it has one and it is its own.
pub fn remove_web<R>(rt: &R, place: WebPlace<'_>, file: Option<SocketFile>)
where
    R: Files<File = File> + Clock,
{
    if let (WebPlace::Path(path), Some(file)) = (place, file) {
        remove_own(rt, path, file);
    }
}

/// Connects to a place once, so that who waits there for a connection sees that it was told to stop.
pub fn wake_web<R: Net>(rt: &R, place: WebPlace<'_>) {
    match place {
        WebPlace::Address(address) => {
            let _ = TcpStream::connect(rt, address);
        }
        WebPlace::Path(path) => {
            let _ = UnixStream::connect(rt, path);
        }
    }
}

impl WebListener {
    /// The file of its socket, if it has one.
    pub fn file(&self) -> Option<SocketFile> {
        match self {
            WebListener::Address(_) => None,
            WebListener::Path(bound) => Some(bound.file),
        }
    }

    /// Waits for a connection.
    pub fn accept(&self) -> io::Result<WebStream> {
        match self {
            WebListener::Address(listener) => {
                let (stream, _) = listener.accept()?;
                stream.set_nodelay(true)?;
                Ok(WebStream::Address(stream))
            }
            WebListener::Path(bound) => {
                let (stream, _) = bound.listener.accept()?;
                Ok(WebStream::Path(stream))
            }
        }
    }
}

impl WebStream {
    /// For how long a read waits.
    pub fn set_read_timeout(&self, wait: Duration) -> io::Result<()> {
        match self {
            WebStream::Address(stream) => stream.set_read_timeout(Some(wait)),
            WebStream::Path(stream) => stream.set_read_timeout(Some(wait)),
        }
    }

    /// For how long a write waits.
    pub fn set_write_timeout(&self, wait: Duration) -> io::Result<()> {
        match self {
            WebStream::Address(stream) => stream.set_write_timeout(Some(wait)),
            WebStream::Path(stream) => stream.set_write_timeout(Some(wait)),
        }
    }

    /// Reads once.
    pub fn read_once(&self, buffer: &mut [u8]) -> io::Result<usize>
        ensures { ReadsAtMost result buffer.new }
    {
        match self {
            WebStream::Address(stream) => {
                let mut stream = stream;
                stream.read(buffer)
            }
            WebStream::Path(stream) => {
                let mut stream = stream;
                stream.read(buffer)
            }
        }
    }

    /// Writes once.
    pub fn write_once(&self, bytes: &[u8]) -> io::Result<usize>
        ensures { WritesAtMost result bytes.now }
    {
        match self {
            WebStream::Address(stream) => {
                let mut stream = stream;
                stream.write(bytes)
            }
            WebStream::Path(stream) => {
                let mut stream = stream;
                stream.write(bytes)
            }
        }
    }
}
