//! What requests to the policy and the trail ask: which call a path names, and what a query asks of
//! the policy, read whole before anything is done.
#![tactic(auto)]

mod askings;
mod calls;
mod faults;
mod queries;

pub use askings::{Asking, read_asking};
pub use calls::{Action, Call, CallRequest, Task, TrailTask, call_of, task_of};
pub use faults::{AskingFault, Parameter};
pub use queries::TEXT_LIMIT;
