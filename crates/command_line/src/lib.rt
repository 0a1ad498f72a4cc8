//! The command line of `landmap`: its words, its help texts, and what the words ask for. Only this
//! crate uses clap.
#![tactic(auto)]

mod commands;
mod formats;
mod help_texts;
mod http;
mod laws;
mod options;
mod secrets;
mod shells;
mod stores;
mod tables;
mod transfers;
mod words;

pub use commands::{NoMemoryForWords, WordsFault, host_words};
pub use formats::Format;
pub use http::HttpWord;
pub use laws::option_limits_in_numbers;
pub use options::{
    CONNECTION_LIMIT, DEFAULT_HTTP_WORKERS, DEFAULT_WORKERS, FEATURE_LIMIT, FIRST_ID_LIMIT,
    HTTP_WORKER_LIMIT, IDLE_LIMIT, ServerOptions, WORKER_LIMIT,
};
pub use shells::Shell;
pub use stores::{StoreAction, StoreWords, Waits};
pub use tables::{ArgumentText, COMMAND_COUNT, CommandText, HelpTable, help_table};
pub use transfers::{ExportWords, ImportWords};
pub use words::{Asked, ScriptWords, ServeWords, Shown, read_words};
