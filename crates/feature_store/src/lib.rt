//! The store that keeps map features by id, and the meter of what is read of it.
#![tactic(auto)]

mod blocks;
mod entries;
mod lookups;
mod meters;
mod rows;
mod stores;
mod tables;

pub use lookups::Lookup;
pub use meters::Meter;
pub use stores::{Store, StoreFault};
pub use tables::{FEATURE_LIMIT, LIST_LIMIT};
