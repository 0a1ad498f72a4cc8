//! Draws the features that the replies of a script list, and the windows that it searches, as an
//! SVG document.
#![tactic(auto)]

mod drawings;
mod elements;
mod faults;
mod laws;
mod layers;
mod maps;
mod marks;
mod pictures;
mod reading;
mod writing;

pub use drawings::draw;
pub use faults::DrawFault;
pub use laws::map_covers_marks;
pub use marks::{Mark, read_mark};
pub use reading::MARK_LIMIT;
