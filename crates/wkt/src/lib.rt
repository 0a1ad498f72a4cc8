//! Shapes as text: the well-known text of points, line strings of two points and polygons.
#![tactic(auto)]

mod fault;
mod fields;
mod keyword;
mod laws;
mod number;
mod print;
mod read;
mod ring;
mod tokens;

pub use fault::WktFault;
pub use laws::{fault_is_first, printed_is_read, read_is_spelled};
pub use print::{print_shape, shape_text};
pub use read::read_shape;
