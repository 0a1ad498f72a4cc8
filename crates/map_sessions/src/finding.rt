//! For whom a session asks, and what it finds for them.

ghost use Rattle.std.specs.Prelude.{◌≡◌};
ghost use Rattle.map_sessions.specs.Finding.{Begins, BeginsAnew, Finds, Greets, Searches, found_rows, greeted, parted, rows_seen, shape_rows};

use crate::refusals::Refusal;
use features::{Feature, Name};
use map_asks::Window;
use plain_world::Answer as Found;
use plane::Shape;
use session_lines::{Reply, Said, Service};
use std::alloc::Allocator;

/// What follows from the reply to a session that begins.
fn greeted(reply: Reply) -> Result<(), Refusal>
    ensures { result ≡ greeted reply }
{
    match reply {
        Reply::Hello(_) => Ok(()),
        other => Err(Refusal::Said(other)),
    }
}

/// What follows from the reply to a session that ends.
fn parted(reply: Reply) -> Result<(), Refusal>
    ensures { result ≡ parted reply }
{
    match reply {
        Reply::Bye => Ok(()),
        other => Err(Refusal::Said(other)),
    }
}

/// Begins the session for a subject.
fn begin<S: Service>(service: &mut S, asker: &Name) -> Result<(), Refusal>
    ensures { Begins S.serves asker.now service.old service.new result }
{
    greeted(service.hello(*asker))
}

/// Ends the session, and begins it for a subject.
fn begin_anew<S: Service>(service: &mut S, asker: &Name) -> Result<(), Refusal>
    ensures { BeginsAnew S.serves asker.now service.old service.new result }
{
    match parted(service.leave()) {
        Ok(()) => begin(service, asker),
        Err(refusal) => Err(refusal),
    }
}

/// Has the session ask for a subject: it begins where it has not begun, stays where it asks for them
/// already, and ends first where it asks for somebody else. Refused by what the session says in
/// place of `hello`, or of `bye`.
pub fn greet<S: Service>(service: &mut S, asker: &Name) -> Result<(), Refusal>
    ensures { Greets S.subject_of S.serves asker.now service.old service.new result }
{
    let Some(subject) = service.subject() else {
        return begin(service, asker);
    };
    if subject.name == *asker {
        return Ok(());
    }
    begin_anew(service, asker)
}

/// What a search lists. Refused by what the session says in its place.
fn search<S: Service>(service: &mut S, window: Shape) -> Result<Found<S::Memory>, Refusal>
    ensures { Searches S.serves window service.old service.new (shape_rows result) }
{
    match service.search(window) {
        Said::Rows(found) => Ok(found),
        Said::Line(reply) => Err(Refusal::Said(reply)),
        Said::Rolled(_) => Err(Refusal::Misplaced),
    }
}

/// What is found in a window for a subject; nothing is searched where the window is nothing.
pub(crate) fn find<S: Service>(
    service: &mut S,
    asker: &Name,
    window: Window,
) -> Result<Option<Found<S::Memory>>, Refusal>
    ensures { Finds S.subject_of S.serves asker.now window service.old service.new
        (rows_seen result) }
{
    match greet(service, asker) {
        Err(refusal) => Err(refusal),
        Ok(()) => match window {
            Window::Nothing => Ok(None),
            Window::Shape(shape) => match search(service, shape) {
                Ok(found) => Ok(Some(found)),
                Err(refusal) => Err(refusal),
            },
        },
    }
}

/// The rows that were found.
pub(crate) fn found_rows<M: Allocator>(found: &Option<Found<M>>) -> &[Feature]
    ensures { result.now ≡ found_rows found.now }
{
    match found {
        None => &[],
        Some(found) => found.rows(),
    }
}
