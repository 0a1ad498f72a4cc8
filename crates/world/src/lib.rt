//! The world of many sessions over its index: what each event serves, changes or governs. Events
//! come in any order, so searches and changes interleave.
#![tactic(auto)]

mod answering;
mod committing;
mod faults;
mod filling;
mod finding;
mod governing;
mod kept_slots;
mod open_walks;
mod rolling;
mod searching;
mod tending;
mod worked_run;
mod worlds;

pub use plain_world::{
    Advance, Answer, Base, CHANGE_LIMIT, Denial, Fault, FeatureLimit, Limits, Outcome,
    ROLLED_LIMIT, Rolled, SEARCH_LIMIT, SEAT_LIMIT, STEP_LIMIT, Search, Starts, TRANSACTION_LIMIT,
    USUAL_FEATURES, every_answer_is_exact, every_commit_ends_as_judged,
    every_outcome_is_the_judgement, every_piece_leads_on, every_policy_is_a_stewards,
    every_refusal_changes_nothing, every_roll_is_a_stewards, every_run_is_ordered,
    every_run_is_sound, numbers_are_given_once, pieces_and_trail_join, policy_in_force_is_the_last,
    records_are_added_alone, runs_go_on, what_is_under_way_is_in_order,
    what_is_under_way_was_asked,
};
pub use search_tree::{Crowded, NAMED_SLOTS, Step, Tending, TreeFault, Visit};
pub use worked_run::{Call, answer_after};
pub use worlds::World;
