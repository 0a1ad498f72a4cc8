//! What a policy document decides for a question, and by which rule.
#![tactic(auto)]

mod algorithms;
mod deciding;
mod decisions;
mod evaluation;
mod gathering;
mod holding;
mod laws;
mod questions;
mod zones;

pub use algorithms::{combine, settled};
pub use deciding::{effect_decision, rule_count};
pub use decisions::{Decision, Verdict};
pub use evaluation::evaluate;
pub use gathering::Gathered;
pub use holding::{conditions_hold, target_holds};
pub use laws::{
    answers_are_one, older_documents_decide_as_before, settled_children_decide,
    verdicts_number_as_documents_name,
};
pub use questions::Question;
pub use zones::{MetZones, met_zones};
