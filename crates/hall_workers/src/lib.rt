//! What the threads of a server do in one hall while its turn lasts: sessions of lines, connections
//! of HTTP, and the tending of the index.
#![tactic(auto)]

mod guests;
mod lasting;
mod turns;
mod visitors;
mod workers;

pub use guests::{Aside, Guest, Session};
pub use lasting::Lasting;
pub use turns::{TERM_BYTES, TERM_RECORDS, Turn};
pub use visitors::{Lounge, Reception, receive};
pub use workers::{Caller, Connection, tend, work};
