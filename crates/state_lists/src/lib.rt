//! Lists of states that only grow. A list is in the proofs alone: at run time there is its length.
//! Who has seen two of its beginnings, each as long as the other, has seen one state twice.
#![tactic(auto)]

mod growing;
mod lists;
mod seen_states;

pub use growing::{AddState, NoGain, StateRule};
pub use lists::{ListLength, NewList, StatesName};
pub use seen_states::SeenStates;
