//! A volume: the features, the policy in force and the records of a trail, as tables of a SQLite
//! store. Records are appended with what they change, all of a group or none.
#![tactic(auto)]

mod beginning;
mod changes;
mod edits;
mod faults;
mod policies;
mod reading;
mod records;
mod rows;
mod tables;
mod volumes;

pub use faults::VolumeFault;
pub use reading::State;
pub use tables::Tables;
pub use volumes::Volume;
