//! Requests to make a list of changes, carried out and answered.

ghost use Rattle.map_answers.specs.Answers.{answered};
ghost use Rattle.map_lists.specs.Listing.{IsListed};
ghost use Rattle.map_lists.specs.Requests.{list_data};
ghost use Rattle.map_sessions.specs.Visiting.{place_of};

use crate::committing::list;
use crate::requests::ListRequest;
use crate::telling::outcome_answer;
use features::Name;
use map_answers::Answer;
use map_sessions::Host;
use memory::NoMemory;
use session_lines::Service;
use std::alloc::Allocator;

/// Carries out a request to make a list of changes for a subject, or for nobody where no subject is
/// named for those who do not say who they are. It is read whole before anything is done. The
/// session is begun for the subject, if it does not ask for them already, and commits the list, all
/// of it or nothing, at most once.
///
/// 200 with the version and the number of the changes where it was applied; 403 with the rule and
/// the change where the policy denies one; 409 with the change where a feature is there already, is
/// not there, or has another version, which is told; else a problem. Out of memory where there is
/// no memory for the answer: **the changes may have been made then**. Asked again, it gets 409, as
/// its features are there, have another version, or are gone.
pub fn answer_list<S: Service, A: Allocator + Copy>(
    alloc: A,
    host: &Host,
    asker: Option<Name>,
    service: &mut S,
    request: &ListRequest,
) -> Result<Answer<A>, NoMemory>
    ensures { IsListed S.subject_of S.serves (place_of host.now) asker (list_data request.now)
        service.old service.new (answered result) }
{
    let outcome = list(alloc, host, asker, service, request);
    outcome_answer(alloc, outcome)
}
