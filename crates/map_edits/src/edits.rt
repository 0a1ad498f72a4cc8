//! Requests to change, carried out and answered.

ghost use Rattle.map_answers.specs.Answers.{answered};
ghost use Rattle.map_changes.specs.Requests.{request_data};
ghost use Rattle.map_edits.specs.Editing.{IsChanged};
ghost use Rattle.map_sessions.specs.Visiting.{place_of};

use crate::committing::change;
use crate::telling::outcome_answer;
use features::Name;
use map_answers::Answer;
use map_changes::ChangeRequest;
use map_sessions::Host;
use memory::NoMemory;
use session_lines::Service;
use std::alloc::Allocator;

/// Carries out a request to change for a subject, or for nobody where no subject is named for those
/// who do not say who they are. It is read whole before anything is done. The session is begun for
/// the subject, if it does not ask for them already, and commits a list of the one change.
///
/// 201 with the address and the version of what was added, 204 with the version of what was
/// reshaped, 204 of what was deleted; else a problem. Out of memory where there is no memory for
/// the answer: **the change may have been made then**. Asked again, it gets 409, 412 or 404.
pub fn answer_change<S: Service, A: Allocator + Copy>(
    alloc: A,
    host: &Host,
    asker: Option<Name>,
    service: &mut S,
    request: &ChangeRequest,
) -> Result<Answer<A>, NoMemory>
    ensures { IsChanged S.subject_of S.serves (place_of host.now) asker (request_data request.now)
        service.old service.new (answered result) }
{
    let outcome = change(alloc, host, asker, service, request);
    outcome_answer(alloc, host.site.base, outcome)
}
