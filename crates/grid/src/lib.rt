//! Grids: which decimal number a whole coordinate means, as exact decimal texts, both ways.
#![tactic(auto)]

mod bounds;
mod coordinates;
mod faults;
mod grids;
mod laws;
mod numbers;
mod parts;
mod printing;
mod steps;
mod values;

pub use bounds::{Side, bound_of};
pub use coordinates::coordinate_of;
pub use faults::{GridFault, NumberFault};
pub use grids::{Axis, Between, Grid, MOST_DECIMALS, ORIGIN_LIMIT};
pub use laws::{bound_is_closest, number_is_exact, number_is_nearest, text_is_read};
pub use parts::{EXPONENT_LIMIT, NUMBER_LIMIT};
pub use printing::{NumberText, coordinate_text, reach, step_text};
