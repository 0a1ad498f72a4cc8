//! What is asked of a map's pages, answered by a session: who asks, the search that it takes, the
//! answers of which pages are still to come.
#![tactic(auto)]

mod finding;
mod kept;
mod refusals;
mod visits;

pub use finding::greet;
pub use kept::{KEPT_LIMIT, KEPT_ROWS_LIMIT, Kept};
pub use refusals::{Refusal, problem_of};
pub use visits::{Host, Visit, answer_visit, asks_kept, unasked};
