//! Replies to calls of a hall and of a view.

ghost use Rattle.std.specs.Prelude.{◌≡◌};
ghost use Rattle.hall_sessions.specs.Replies.{explained_reply, hall_reply};

use decision::Ruling;
use hall::{Explained, HallFault};
use session_lines::{LineFault, Reply, fault_reply};

/// The reply to a call that the hall refuses.
pub fn hall_reply(fault: HallFault) -> Reply
    ensures { result ≡ hall_reply fault }
{
    match fault {
        HallFault::NoSubject => Reply::Error(LineFault::NoSubject),
        HallFault::NoPlace => Reply::Error(LineFault::NoPlace),
        HallFault::Closed => Reply::Error(LineFault::Closed),
        HallFault::Held => Reply::Held,
        HallFault::Core(refusal) => fault_reply(refusal),
        HallFault::Memory(refusal) => Reply::Memory(refusal),
        HallFault::NotRead => Reply::Error(LineFault::NotRead),
    }
}

/// The reply to a question that a view has explained.
pub fn explained_reply(explained: Explained) -> Reply
    ensures { result ≡ explained_reply explained }
{
    match explained.ruling {
        Ruling::Permit(_) => Reply::Permitted(explained.rule, explained.edition),
        Ruling::DeniedBy(_) | Ruling::NoneApplied => {
            Reply::Forbidden(explained.rule, explained.edition)
        }
    }
}
