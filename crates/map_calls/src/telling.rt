//! What a request for a call is answered.

ghost use Rattle.std.specs.Prelude.{◌≡◌, IfOk};
ghost use Rattle.map_answers.specs.Answers.{answer_data};
ghost use Rattle.map_calls.specs.Telling.{governed_data, outcome_data, ruled_data, kept_data};

use crate::answers::{gone, in_force, ruling, shown, taken};
use crate::faults::{fault_answer, plain, refused};
use crate::outcomes::Outcome;
use map_answers::{Answer, Status};
use map_sessions::Refusal;
use memory::NoMemory;
use plain_world::Fault as WorldFault;
use session_lines::Reply;
use std::alloc::Global;

/// The answer to what the policy says.
fn ruled_answer(heap: Global, reply: Reply) -> Result<Answer<Global>, NoMemory>
    ensures { IfOk result (λ answer. answer_data answer ≡ ruled_data reply) }
{
    match reply {
        Reply::Permitted(rule, edition) => ruling(heap, "permit", &rule, edition),
        Reply::Forbidden(rule, edition) => ruling(heap, "deny", &rule, edition),
        other => refused(heap, &Refusal::Said(other)),
    }
}

/// The answer where the trail was not taken out.
fn kept_answer(heap: Global, reply: Reply) -> Result<Answer<Global>, NoMemory>
    ensures { IfOk result (λ answer. answer_data answer ≡ kept_data reply) }
{
    match reply {
        Reply::Failed(WorldFault::NotSteward) => plain(heap, Status::Forbidden, "X7"),
        other => refused(heap, &Refusal::Said(other)),
    }
}

/// The answer to the reply to a document.
fn governed_answer(heap: Global, reply: Reply) -> Result<Answer<Global>, NoMemory>
    ensures { IfOk result (λ answer. answer_data answer ≡ governed_data reply) }
{
    match reply {
        Reply::Edition(edition) => in_force(heap, edition),
        Reply::Failed(WorldFault::NotSteward) => plain(heap, Status::Forbidden, "X7"),
        other => refused(heap, &Refusal::Said(other)),
    }
}

/// The answer to what came of a request for a call. `base` is what each address begins with.
pub(crate) fn outcome_answer(
    heap: Global,
    base: &[u8],
    outcome: Outcome,
) -> Result<Answer<Global>, NoMemory>
    ensures { IfOk result (λ answer. answer_data answer ≡ outcome_data base.now outcome) }
{
    match outcome {
        Outcome::Fault(fault) => fault_answer(heap, fault),
        Outcome::Refused(refusal) => refused(heap, &refusal),
        Outcome::Ruled(reply) => ruled_answer(heap, reply),
        Outcome::Governed(reply) => governed_answer(heap, reply),
        Outcome::NotRolled(reply) => kept_answer(heap, reply),
        Outcome::Rolled { piece, records } => taken(heap, base, piece, records),
        Outcome::Shown(text) => Ok(shown(text)),
        Outcome::LetGo => Ok(gone(heap)),
    }
}
