//! The decision point: a policy document with its edition, and how it rules.
#![tactic(auto)]

mod compiling;
mod deciders;
mod folding;
mod in_force;
mod known;
mod laws;
mod plan_nodes;
mod plans;
mod readings;
mod rests;
mod rulings;
mod running;

pub use deciders::Decider;
pub use folding::Folded;
pub use in_force::InForce;
pub use laws::rulings_are_one;
pub use readings::Reading;
pub use rulings::Ruling;
