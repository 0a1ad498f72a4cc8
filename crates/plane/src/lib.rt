//! Points, segments and convex polygons with whole coordinates, and whether two of them meet.
//!
//! Meeting is decided exactly, in whole numbers of 64 and 128 bits: two shapes meet if some point
//! of the plane, with any fractions as coordinates, lies in both.
#![tactic(auto)]

mod bounds;
mod elimination;
mod fault;
mod fraction;
mod frame;
mod laws;
mod meeting;
mod point;
mod products;
mod ring;
mod rows;
mod shape;
mod shape_rows;

pub use fault::ShapeFault;
pub use fraction::Fraction;
pub use frame::{Frame, covers, frame_of, frames_meet, hull};
pub use laws::shapes_are_canonical;
pub use meeting::{common_point, meets};
pub use point::{LIMIT, Point};
pub use ring::LISTED_LIMIT;
pub use shape::{Shape, corners};
