//! A store in a folder: volumes on the disk, of which one is written at a time. A server or a script
//! keeps its records here, and begins where the last one ended.
#![tactic(auto)]

mod faults;
mod folders;
mod looking;
mod opening;
mod shelves;
mod subjects;

pub use faults::{Cause, ShelfFault};
pub use looking::{
    Checked, LookFault, VolumeAccount, check_store, export_features, export_records, list_store,
};
pub use shelves::{Beginning, Found, Shelf, VOLUME_RECORDS};
