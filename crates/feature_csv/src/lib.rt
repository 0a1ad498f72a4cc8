//! Rows of features as comma-separated values (RFC 4180), with the shape as well-known text.
#![tactic(auto)]

mod rows;

pub use rows::{HEADER, ROW_LIMIT, Row, row_text};
