//! Requests of HTTP for a map's pages, answered by a session.
#![tactic(auto)]

mod askers;
mod asking;
mod calls;
mod filling;
mod hosts;
mod lists;
mod parts;
mod requests;
mod routes;
mod watching;

pub use calls::answer_calling;
pub use lists::answer_listing;
pub use requests::{answer_changing, answer_reading, asks_kept};
pub use routes::{Route, route_of};
pub use watching::answer_watching;
