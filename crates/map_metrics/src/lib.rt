//! What a server has counted, and the text by which it is read (Prometheus' text, version 0.0.4).
#![tactic(auto)]

mod bounds;
mod counters;
mod metrics;
mod readings;
mod requests;
mod tallies;
mod times;

pub use bounds::{BOUNDS, Bound, TIME_COUNT, bucket_of};
pub use metrics::metrics_text;
pub use readings::Readings;
pub use requests::{STATUS_COUNT, STATUSES, place_of};
pub use tallies::{Event, Tally};
