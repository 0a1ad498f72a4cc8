//! Readers, writers and files as the program uses them. For each there is one failure value, which
//! only a real failure makes.
#![tactic(auto)]

mod failures;
mod files;
mod reading;
mod writing;

pub use failures::{NotOpened, ReadFailed, WriteFailed};
pub use files::open_file;
pub use reading::{Turns, read_some};
pub use writing::{Flushed, flush, let_go, write_shown, write_whole};
