//! What a request of HTTP to change a feature asks for, read whole before anything is done.
#![tactic(auto)]

mod edits;
mod faults;
mod givens;
mod media;
mod paths;
mod reading;
mod shapes;
mod tags;
mod targets;

pub use edits::{ChangeRequest, Edit, Method};
pub use faults::ChangeFault;
pub use givens::added_by;
pub use media::{is_json, media_type};
pub use paths::{Methods, methods_of};
pub use reading::{FOR_ADDING, read_change};
pub use shapes::shape_in;
