//! Cuts lines into segments, and rings into convex polygons.
#![tactic(auto)]

mod bridges;
mod cuts;
mod faults;
mod ids;
mod lines;
mod regions;
mod rings;
mod sides;
mod turns;

pub use faults::{PART_LIMIT, PartsFault, RING_LIMIT};
pub use ids::part_id;
pub use lines::segments;
pub use regions::convex_parts;
