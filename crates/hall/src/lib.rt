//! The hall: one world that many threads share, which many may search at once, with a seat for each
//! session, a receipt for each call that is recorded, and views of the policies, which need no lock.
#![tactic(auto)]

mod checks;
mod closing;
mod committing;
mod entering;
mod faults;
mod governing;
mod guarded;
mod halls;
mod lobby;
mod names;
mod reading;
mod searching;
mod seats;
mod sections;

pub use answer_tray::ANSWER_LIMIT;
pub use closing::{Closed, LeaveFault, Left};
pub use faults::{CloseFault, HallFault, OpenFault};
pub use guarded::{COPIED_AT_ONCE, LEDGER_PARTS};
pub use halls::{Hall, VIEW_LIMIT};
pub use names::{HallName, Unnamed};
pub use published_policies::{Edition, Explained, ListName, View};
pub use seats::Seat;
pub use sections::{NoPause, Pause, SECTION_EVENTS, TRY_LIMIT};
