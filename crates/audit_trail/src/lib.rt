//! The audit trail: what each seat was answered and what it changed, and when a trail is legal.
#![tactic(auto)]

mod comparing;
mod json_lines;
mod laws;
mod records;
mod trails;

pub use json_lines::record_line;
pub use laws::trails_join;
pub use records::{Deed, Record};
pub use trails::{FIRST_LIMIT, RECORD_LIMIT, Trail, TrailFault};
