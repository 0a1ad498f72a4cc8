//! The answers to requests at fault.

ghost use Rattle.std.specs.Prelude.{◌≡◌, IfOk, None};
ghost use Rattle.map_answers.specs.Answers.{answer_data};
ghost use Rattle.map_answers.specs.Problems.{problem_data};
ghost use Rattle.map_calls.specs.Telling.{asking_data, fault_data, place_data, unread_data};
ghost use Rattle.map_sessions.specs.Refusals.{refusal_data};

use crate::outcomes::CallFault;
use crate::texts::place_member;
use map_answers::{Answer, Problem, Status, detailed_answer, problem_answer};
use map_questions::AskingFault;
use map_sessions::{Refusal, problem_of};
use memory::NoMemory;
use policy_text::{Path, TextFault};
use std::alloc::Global;

/// A problem that is told without more.
pub(crate) fn plain(
    heap: Global,
    status: Status,
    code: &'static str,
) -> Result<Answer<Global>, NoMemory>
    ensures { IfOk result (λ answer. answer_data answer ≡ problem_data status code.now None) }
{
    problem_answer(
        heap,
        &Problem {
            status,
            code,
            retry_after: None,
        },
    )
}

/// The answer where the session does not do what it was asked.
pub(crate) fn refused(heap: Global, refusal: &Refusal) -> Result<Answer<Global>, NoMemory>
    ensures { IfOk result (λ answer. answer_data answer ≡ refusal_data refusal.now) }
{
    problem_answer(heap, &problem_of(refusal))
}

/// The answer where there was no memory to read a query.
fn unread_query(heap: Global) -> Result<Answer<Global>, NoMemory>
    ensures { IfOk result (λ answer. answer_data answer ≡ asking_data AskingFault.Memory) }
{
    problem_answer(
        heap,
        &Problem {
            status: Status::Unavailable,
            code: "memory",
            retry_after: Some(1),
        },
    )
}

/// The answer to a query that asks nothing of the policy.
fn asking_answer(heap: Global, fault: AskingFault) -> Result<Answer<Global>, NoMemory>
    ensures { IfOk result (λ answer. answer_data answer ≡ asking_data fault) }
{
    match fault {
        AskingFault::Memory => unread_query(heap),
        AskingFault::UnknownParameter => plain(heap, Status::BadRequest, "U2"),
        AskingFault::Twice(_) => plain(heap, Status::BadRequest, "U3"),
        AskingFault::Value(_) => plain(heap, Status::BadRequest, "U4"),
    }
}

/// The answer to a document with a fault at a place.
fn placed(heap: Global, code: &'static str, path: &Path) -> Result<Answer<Global>, NoMemory>
    ensures { IfOk result (λ answer. answer_data answer ≡ place_data code.now path.now) }
{
    let members = place_member(heap, path)?;
    detailed_answer(heap, Status::Unprocessable, code, members.as_slice())
}

/// The answer to a body that is no document.
fn unread_answer(heap: Global, fault: TextFault) -> Result<Answer<Global>, NoMemory>
    ensures { IfOk result (λ answer. answer_data answer ≡ unread_data fault) }
{
    match fault {
        TextFault::NotJson => plain(heap, Status::BadRequest, "D1"),
        TextFault::Form(path) => placed(heap, "D2", &path),
        TextFault::UnknownKey(path) => placed(heap, "D3", &path),
        TextFault::NameTwice(path, _) => placed(heap, "D4", &path),
        TextFault::NoZone(path, _) => placed(heap, "D5", &path),
        TextFault::BadZone(path, _, _) => placed(heap, "D6", &path),
        TextFault::TooDeep(path) => placed(heap, "D7", &path),
        TextFault::TooMany(path) => placed(heap, "D8", &path),
        TextFault::Memory(no_memory) => refused(heap, &Refusal::Memory(no_memory)),
    }
}

/// The answer to a request at fault.
pub(crate) fn fault_answer(heap: Global, fault: CallFault) -> Result<Answer<Global>, NoMemory>
    ensures { IfOk result (λ answer. answer_data answer ≡ fault_data fault) }
{
    match fault {
        CallFault::Method => plain(heap, Status::MethodNotAllowed, "method"),
        CallFault::Parameter => plain(heap, Status::BadRequest, "U2"),
        CallFault::Media => plain(heap, Status::UnsupportedMedia, "media"),
        CallFault::Asking(fault) => asking_answer(heap, fault),
        CallFault::Unread(fault) => unread_answer(heap, fault),
        CallFault::Full => plain(heap, Status::Conflict, "pieces"),
    }
}
