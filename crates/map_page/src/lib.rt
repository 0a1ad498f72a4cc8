//! The page that shows a map in a browser.
#![tactic(auto)]

mod page;

pub use page::PAGE;
