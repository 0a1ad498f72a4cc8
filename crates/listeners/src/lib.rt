//! Sockets on which a server listens, and how it is told to listen no more.
#![tactic(auto)]

mod listening;
mod socket_files;
mod stopping;
mod web_sockets;

pub use listening::{Bound, listen};
pub use socket_files::{SocketFile, remove_own};
pub use stopping::{Stop, watch};
pub use web_sockets::{WebListener, WebPlace, WebStream, listen_web, remove_web, wake_web};
