//! What requests for features of a map are answered: pages of rows as GeoJSON, single features, and
//! problems.
#![tactic(auto)]

mod answers;
mod collections;
mod items;
mod links;
mod matching;
mod problems;
mod rows;
mod statuses;
mod texts;

pub use answers::{Answer, MediaType};
pub use collections::{FeaturePage, page_answer};
pub use items::{ItemSite, feature_answer};
pub use links::{collection_address, item_address, layer_name, put_link};
pub use matching::{Tag, is_known, tag_of};
pub use problems::{Problem, detailed_answer, problem_answer, problem_of_ask};
pub use rows::{feature_of, page, rows_of};
pub use statuses::Status;
pub use texts::{put, put_number, put_string};
