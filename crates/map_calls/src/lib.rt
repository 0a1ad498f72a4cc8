//! The policy and the trail by HTTP, carried out by a session: who asks is told what the policy
//! says, documents are put in force, the trail is taken out and kept until it is let go.
#![tactic(auto)]

mod answers;
mod asking;
mod calling;
mod faults;
mod governing;
mod outcomes;
mod pieces;
mod rolling;
mod telling;
mod texts;

pub use calling::answer_call;
pub use map_questions::{Action, Call, CallRequest, call_of};
pub use outcomes::{CallFault, Outcome};
pub use pieces::{PIECE_LIMIT, Piece, Pieces};
