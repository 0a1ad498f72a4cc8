//! Configurations: reading and checking them, from texts and from files.
#![tactic(auto)]

mod checking;
mod config_faults;
mod configs;
mod fields;
mod files;
mod grids;
mod keys;
mod laws;
mod paths;
mod summaries;
mod web;
mod web_lines;

pub use checking::{Checked, check_config, check_config_file};
pub use config_faults::ConfigFault;
pub use configs::{Config, read_config};
pub use files::{CONFIG_LIMIT, FileFault, ReadFault, read_config_file};
pub use keys::KEY_LIMIT;
pub use laws::{configurations_are_one, read_is_spelled};
pub use paths::{ConfigPath, MemberName};
pub use summaries::Summary;
pub use web::{COLLECTION_LIMIT, PUBLIC_LIMIT, Web};
