//! What comes of a request for a call.

use map_questions::AskingFault;
use map_sessions::Refusal;
use policy_text::TextFault;
use session_lines::Reply;

/// Why a request asks for nothing that is done.
#[derive(Debug, Drop)]
pub enum CallFault {
    /// method: the call has not this method.
    Method,
    /// U2: the call has no parameters.
    Parameter,
    /// media: the body is of a type that is not read.
    Media,
    /// The fault's own code: the query asks nothing of the policy.
    Asking(AskingFault),
    /// D1 to D8: the body is no policy document; or memory.
    Unread(TextFault),
    /// pieces: as many pieces of the trail are kept as may be.
    Full,
}

/// What comes of a request for a call.
#[derive(Debug, Drop)]
pub enum Outcome {
    /// It is at fault, and nothing was done.
    Fault(CallFault),
    /// The session does not begin for who asks, or nothing is kept of what they ask for.
    Refused(Refusal),
    /// The reply to a question to the policy.
    Ruled(Reply),
    /// The reply to a document.
    Governed(Reply),
    /// The reply where the trail was not taken out.
    NotRolled(Reply),
    /// The trail was taken out: the number of its piece, and how many records that has.
    Rolled { piece: u64, records: u64 },
    /// The lines of a piece.
    Shown(Vec<u8>),
    /// A piece was let go.
    LetGo,
}
