//! Policy documents: their types, their invariant, and their equality.
#![tactic(auto)]

mod algorithms;
mod documents;
mod laws;
mod matches;
mod nodes;
mod rules;
mod zones;

pub use algorithms::{Algorithm, Effect};
pub use documents::{DEPTH_LIMIT, Document, NODE_LIMIT, RULE_LIMIT, TEST_LIMIT, ZONE_LIMIT, Zones};
pub use laws::tests_compare_exactly;
pub use matches::{AllOf, AnyOf, Atom, Conditions, Items, Match, Target, Term};
pub use nodes::Node;
pub use rules::Rule;
pub use zones::{Zone, ZoneName};
