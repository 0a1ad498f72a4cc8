//! A node of the search tree, and changes of one node: its parts, how a full one is shared out,
//! what a walk reads of it, and what a search sees of it.
#![tactic(auto)]

mod descending;
mod entries;
mod halves;
mod keys;
mod node;
mod penalties;
mod places;
mod progress;
mod putting;
mod refusals;
mod seeing;
mod setters;
mod standing;

pub use descending::{led_searches, marked_right};
pub use entries::{Entries, Pairs};
pub use halves::{Halves, shared_out};
pub use keys::key_for;
pub use node::{Body, TreeNode};
pub use penalties::best_entry;
pub use places::{parent_of, place_among};
pub use progress::Progress;
pub use putting::put_over;
pub use refusals::refusal_in;
pub use seeing::visit_last;
pub use setters::{
    Nodes, joined, keep, leave_left, push_entry, push_pair, remove_entry, rise, set_attached,
    set_key, set_place, set_seq,
};
pub use standing::{Standing, standing_at};
