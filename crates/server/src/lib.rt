//! The server: streams and sockets served by threads over one hall, or over halls that follow one
//! another.
#![tactic(auto)]

mod faults;
mod keeping;
mod kept;
mod ready;
mod sockets;
mod streams;
mod terms;
mod webs;

pub use faults::{NoMemoryForChannel, ServerFault};
pub use group_commit::Rests;
pub use hall::Closed;
pub use hall_workers::{Caller, TERM_BYTES, TERM_RECORDS};
pub use keeping::{AppendFault, Begins, Keeps, Restored, StoreFault, Writes};
pub use kept::{Handover, Keeping, serve_kept};
pub use listeners::{Stop, WebPlace, watch};
pub use sockets::{Connections, SocketOptions, serve_socket};
pub use streams::{Serving, WORKER_COUNT, WORKER_LIMIT, serve_streams};
pub use webs::{WEB_WORKER_LIMIT, Web};
