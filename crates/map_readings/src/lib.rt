//! What a request for a server's counts is answered.
#![tactic(auto)]

mod reading;

pub use reading::{Metrics, answer_metrics, is_metrics_path};
