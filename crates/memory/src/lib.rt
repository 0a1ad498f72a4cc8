//! Allocations and growths of collections. A refused one returns a `NoMemory`, which no other crate
//! can make.
#![tactic(auto)]

mod collections;
mod growths;
mod json;
mod makes;
mod no_memory;

pub use collections::{buffered, put};
pub use growths::{GrowText, GrowVec, MOST_BYTES, MOST_SLOTS, make_chunk, try_extend};
pub use json::{JsonFault, json_string, json_text, json_value, put_member};
pub use makes::{another, boxed, copied, shared, text, vec_with_room, vec_with_slots};
pub use no_memory::{NoMemory, NotStored};
