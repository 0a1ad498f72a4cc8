//! What the program does with the host's files, streams and sockets where no server runs: talks,
//! exports, imports, secrets, stores.
#![tactic(auto)]

mod greetings;
mod new_secrets;
mod stores;
mod talks;
mod telling;
mod transfers;

pub use new_secrets::make_secret;
pub use stores::{fail_store, look_at_store, open_store, run_stored};
pub use talks::connect;
pub use telling::fail;
pub use transfers::transfer;
