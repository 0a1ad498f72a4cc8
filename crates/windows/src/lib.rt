//! Windows: shapes with which many others are compared.
#![tactic(auto)]

mod window;

pub use window::Window;
