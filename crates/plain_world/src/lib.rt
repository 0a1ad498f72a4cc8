//! The world of many sessions without its index: what each event makes of features, policy and
//! trail, in whatever order events come.
#![tactic(auto)]

mod admitting;
mod advances;
mod answering;
mod answers;
mod committing;
mod denials;
mod faults;
mod for_the_index;
mod governing;
mod keeping;
mod laws;
mod listing;
mod open_searches;
mod open_transactions;
mod outcomes;
mod rolling;
mod searching;
mod settings;
mod worlds;

pub use advances::Advance;
pub use answers::Answer;
pub use denials::Denial;
pub use faults::Fault;
pub use laws::{
    every_answer_is_exact, every_commit_ends_as_judged, every_outcome_is_the_judgement,
    every_piece_leads_on, every_policy_is_a_stewards, every_refusal_changes_nothing,
    every_roll_is_a_stewards, every_run_is_ordered, every_run_is_sound, numbers_are_given_once,
    pieces_and_trail_join, policy_in_force_is_the_last, records_are_added_alone, runs_go_on,
    what_is_under_way_is_in_order, what_is_under_way_was_asked,
};
pub use open_searches::Search;
pub use outcomes::Outcome;
pub use rolling::Rolled;
pub use settings::{
    CHANGE_LIMIT, FeatureLimit, Limits, ROLLED_LIMIT, SEARCH_LIMIT, SEAT_LIMIT, STEP_LIMIT, Starts,
    TRANSACTION_LIMIT, USUAL_FEATURES,
};
pub use worlds::{Base, PlainWorld};
