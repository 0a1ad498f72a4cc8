//! GeoJSON (RFC 7946): the texts of features, and features read from texts.
#![tactic(auto)]

mod documents;
mod faults;
mod geometries;
mod given;
mod laws;
mod polygons;
mod reading;
mod texts;

pub use documents::read_json;
pub use faults::{Cause, FeatureFault, JsonRefused, Member, Spot};
pub use geometries::{Geometry, Path, Role};
pub use given::{Given, Wished, feature_of, geometry_of, read_feature, read_wished, whole_number};
pub use laws::{coordinates_are_read, text_is_read};
pub use texts::{TEXT_LIMIT, Text, feature_text, geometry_text};
