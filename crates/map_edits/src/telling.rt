//! What a request to change is answered.

ghost use Rattle.std.specs.Prelude.{◌≡◌, IfOk, None, codes};
ghost use Rattle.map_answers.specs.Answers.{answer_data};
ghost use Rattle.map_answers.specs.Problems.{problem_data};
ghost use Rattle.map_edits.specs.Telling.{added_data, applied_data, denied_data, done_data, outcome_data, reply_data, stale_data, unmade_data};
ghost use Rattle.map_sessions.specs.Refusals.{refusal_data};

use crate::committing::Outcome;
use crate::faults::fault_answer;
use crate::members::{put_current_member, put_rule_member};
use features::{Change, Name};
use map_answers::{
    Answer, MediaType, Problem, Status, detailed_answer, item_address, problem_answer,
};
use map_asks::Layer;
use map_changes::Edit;
use map_sessions::{Refusal, problem_of};
use memory::NoMemory;
use plain_world::Fault as WorldFault;
use session_lines::Reply;
use std::alloc::Allocator;
use tree_answers::TreeFault;

/// The answer where a feature was added.
fn added<A: Allocator + Copy>(
    alloc: A,
    base: &[u8],
    layer: &Layer,
    id: u64,
    version: u64,
) -> Result<Answer<A>, NoMemory>
    ensures { IfOk result (λ answer. answer_data answer
        ≡ added_data base.now layer.now id version) }
{
    let address = item_address(alloc, base, layer, id)?;
    Ok(Answer {
        status: Status::Created,
        media: MediaType::Json,
        version: Some(version),
        location: Some(address),
        retry_after: None,
        body: Vec::new(alloc),
    })
}

/// The answer where there is no more to say.
fn done<A: Allocator>(alloc: A, version: Option<u64>) -> Answer<A>
    ensures { answer_data result ≡ done_data version }
{
    Answer {
        status: Status::NoContent,
        media: MediaType::Json,
        version,
        location: None,
        retry_after: None,
        body: Vec::new(alloc),
    }
}

/// The answer where a change was made.
fn applied<A: Allocator + Copy>(
    alloc: A,
    base: &[u8],
    edit: &Edit,
    version: u64,
) -> Result<Answer<A>, NoMemory>
    ensures { IfOk result (λ answer. answer_data answer
        ≡ applied_data base.now edit.now.layer edit.now.change version) }
{
    match &edit.change {
        Change::Add { id, .. } => added(alloc, base, &edit.layer, *id, version),
        Change::Reshape { .. } => Ok(done(alloc, Some(version))),
        Change::Delete { .. } => Ok(done(alloc, None)),
    }
}

/// The answer where the feature has another version.
fn stale<A: Allocator + Copy>(alloc: A, current: u64) -> Result<Answer<A>, NoMemory>
    ensures { IfOk result (λ answer. answer_data answer ≡ stale_data current) }
{
    let mut members = Vec::new(alloc);
    put_current_member(&mut members, current)?;
    let told = detailed_answer(
        alloc,
        Status::PreconditionFailed,
        "stale",
        members.as_slice(),
    )?;
    Ok(Answer {
        version: Some(current),
        ..told
    })
}

/// The answer where the policy denies it.
fn denied<A: Allocator + Copy>(alloc: A, rule: &Option<Name>) -> Result<Answer<A>, NoMemory>
    ensures { IfOk result (λ answer. answer_data answer ≡ denied_data rule.now) }
{
    let mut members = Vec::new(alloc);
    put_rule_member(&mut members, rule)?;
    detailed_answer(alloc, Status::Forbidden, "denied", members.as_slice())
}

/// A problem that is told without more.
fn plain<A: Allocator>(alloc: A, status: Status, code: &'static str) -> Result<Answer<A>, NoMemory>
    ensures { IfOk result (λ answer. answer_data answer ≡ problem_data status code.now None) }
{
    problem_answer(
        alloc,
        &Problem {
            status,
            code,
            retry_after: None,
        },
    )
}

/// The answer where the session does not do what it was asked.
pub fn refused<A: Allocator>(alloc: A, refusal: &Refusal) -> Result<Answer<A>, NoMemory>
    ensures { IfOk result (λ answer. answer_data answer ≡ refusal_data refusal.now) }
{
    problem_answer(alloc, &problem_of(refusal))
}

/// What a list that was not judged is answered: 507 with X11 where there are as many features as
/// there may be, 503 with S4 or S5 where the index is full, else as a search that got this reply.
#[tactic(auto, unfolding(crate::specs::Telling::unmade_data))]
pub fn unmade_answer<A: Allocator>(alloc: A, reply: Reply) -> Result<Answer<A>, NoMemory>
    ensures { IfOk result (λ answer. answer_data answer ≡ unmade_data reply) }
{
    match reply {
        Reply::Failed(WorldFault::StoreFull) => plain(alloc, Status::InsufficientStorage, "X11"),
        Reply::Failed(WorldFault::Tree(TreeFault::Full)) => {
            plain(alloc, Status::Unavailable, "S4")
        }
        Reply::Failed(WorldFault::Tree(TreeFault::TooHigh)) => {
            plain(alloc, Status::Unavailable, "S5")
        }
        other => refused(alloc, &Refusal::Said(other)),
    }
}

/// The answer to a reply to a change.
fn reply_answer<A: Allocator + Copy>(
    alloc: A,
    base: &[u8],
    edit: &Edit,
    reply: Reply,
) -> Result<Answer<A>, NoMemory>
    ensures { IfOk result (λ answer. answer_data answer ≡ reply_data base.now edit.now reply) }
{
    match reply {
        Reply::Applied(version) => applied(alloc, base, edit, version),
        Reply::Denied(rule, _) => denied(alloc, &rule),
        Reply::Absent(_) => plain(alloc, Status::NotFound, "absent"),
        Reply::Exists(_) => plain(alloc, Status::Conflict, "exists"),
        Reply::Stale(current, _) => stale(alloc, current),
        other => unmade_answer(alloc, other),
    }
}

/// The answer to what came of a request to change. `base` is what each address begins with.
pub(crate) fn outcome_answer<A: Allocator + Copy>(
    alloc: A,
    base: &[u8],
    outcome: Outcome,
) -> Result<Answer<A>, NoMemory>
    ensures { IfOk result (λ answer. answer_data answer ≡ outcome_data base.now outcome) }
{
    match outcome {
        Outcome::Fault(fault) => fault_answer(alloc, b"", &fault),
        Outcome::Refused(refusal) => refused(alloc, &refusal),
        Outcome::Replied(edit, reply) => reply_answer(alloc, base, &edit, reply),
    }
}
