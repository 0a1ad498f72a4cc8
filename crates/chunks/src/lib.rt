//! A list whose elements lie in raw blocks of 256 places and never move.
#![tactic(auto)]

mod block;
mod chunked;
mod lease;
mod places;
mod table;
mod threads;

pub use chunked::{Chunked, MOST_ELEMENTS};
pub use table::CHUNK_PLACES;
pub use threads::crosses_threads;
