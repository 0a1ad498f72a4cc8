//! What a request for a map page asks for: its path and its query, read whole before anything is
//! done.
#![tactic(auto)]

mod asks;
mod boxes;
mod cuts;
mod dates;
mod faults;
mod laws;
mod pages;
mod queries;
mod reading;
mod windows;

pub use asks::{Ask, FixedPage, Items, Layer, Page, Source};
pub use faults::{AskFault, Parameter};
pub use laws::window_is_box;
pub use pages::page_of;
pub use queries::{DEFAULT_LIMIT, MOST_LIMIT, VALUE_LIMIT, is_empty as is_empty_query};
pub use reading::read_ask;
pub use windows::{Window, everywhere};
