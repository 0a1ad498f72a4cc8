//! The pages of a map that are the same whatever the map has: the landing page, what is kept of the
//! standard, the collections, and the description of all pages for programs.
#![tactic(auto)]

mod api;
mod call_paths;
mod collections;
mod extents;
mod fixed;
mod landing;

pub use fixed::{Site, fixed_answer};
