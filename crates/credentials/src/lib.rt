//! Who asks: names and secrets of requests, and the keys that a configuration has for them.
#![tactic(auto)]

mod asking;
mod keys;
mod spelling;

pub use crate::asking::asker_of;
pub use crate::keys::{Key, digest_of, has_key};
pub use crate::spelling::FIELD_LIMIT;
