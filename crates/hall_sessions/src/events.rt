//! What a reply tells of, as it is counted.

ghost use Rattle.std.specs.Prelude.{◌≡◌};
ghost use Rattle.hall_sessions.specs.Events.{event_of};

use map_metrics::Event;
use session_lines::Reply;

/// What the reply to a list of changes or to a policy tells of; `None` where nothing came of it.
pub fn event_of(reply: &Reply) -> Option<Event>
    ensures { result ≡ event_of reply.now }
{
    match reply {
        Reply::Applied(_) => Some(Event::Applied),
        Reply::Denied(_, _) => Some(Event::Denied),
        Reply::Absent(_) => Some(Event::Rejected),
        Reply::Exists(_) => Some(Event::Rejected),
        Reply::Stale(_, _) => Some(Event::Rejected),
        Reply::Held => Some(Event::Held),
        Reply::Edition(_) => Some(Event::Governed),
        _ => None,
    }
}
