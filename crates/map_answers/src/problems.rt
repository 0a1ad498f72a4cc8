//! Problems (RFC 9457).

ghost use Rattle.std.specs.Prelude.{◌≡◌, ◌++◌, IfOk, OnOk, decimal};
ghost use Rattle.map_answers.specs.Answers.{answer_data};
ghost use Rattle.map_asks.specs.FaultCodes.{code_of};
ghost use Rattle.map_answers.specs.Problems.{code_part, detailed_data, detailed_text, problem_data, problem_text, status_of_fault, status_part, title_part};

use crate::answers::{Answer, MediaType};
use crate::statuses::Status;
use crate::texts::{put, put_number, put_string};
use map_asks::AskFault;
use memory::NoMemory;
use std::alloc::Allocator;

/// Why a request is not answered with what it asks for.
#[derive(Clone, Copy, Debug)]
pub struct Problem {
    pub status: Status,
    /// The code that users see.
    pub code: &'static str,
    /// In how many seconds the client may try again.
    pub retry_after: Option<u64>,
}

/// The status of a request at fault: 404 for a page that there is not, 400 for any other fault.
fn status_of_fault(fault: AskFault) -> Status
    ensures { result ≡ status_of_fault fault }
{
    match fault {
        AskFault::NoPage => Status::NotFound,
        AskFault::UnknownParameter => Status::BadRequest,
        AskFault::Twice(_) => Status::BadRequest,
        AskFault::Value(_) => Status::BadRequest,
        AskFault::Apart => Status::BadRequest,
    }
}

/// The problem of a request that asks for nothing that there is.
pub fn problem_of_ask(fault: AskFault) -> Problem
    ensures status { result.status ≡ status_of_fault fault }
    ensures code { result.code.now ≡ code_of fault }
    ensures retry { result.retry_after ≡ None }
{
    Problem {
        status: status_of_fault(fault),
        code: fault.code(),
        retry_after: None,
    }
}

#[tactic(auto, unfolding(crate::specs::Problems::title_part))]
fn put_title<A: Allocator>(text: &mut Vec<u8, A>, status: Status) -> Result<(), NoMemory>
    ensures { OnOk result (text.new.items ≡ text.old.items ++ title_part status) }
{
    put(text, b"{\"type\":\"about:blank\",\"title\":")?;
    put_string(text, status.phrase().as_bytes())
}

#[tactic(auto, unfolding(crate::specs::Problems::status_part))]
fn put_status<A: Allocator>(text: &mut Vec<u8, A>, status: Status) -> Result<(), NoMemory>
    ensures { OnOk result (text.new.items ≡ text.old.items ++ status_part status) }
{
    put(text, b",\"status\":")?;
    put_number(text, status.number() as u64)
}

#[tactic(auto, unfolding(crate::specs::Problems::code_part))]
fn put_code<A: Allocator>(text: &mut Vec<u8, A>, code: &str) -> Result<(), NoMemory>
    ensures { OnOk result (text.new.items ≡ text.old.items ++ code_part code.now) }
{
    put(text, b",\"code\":")?;
    put_string(text, code.as_bytes())
}

/// Appends the text of a problem.
fn put_problem<A: Allocator>(text: &mut Vec<u8, A>, problem: &Problem) -> Result<(), NoMemory>
    ensures { OnOk result
        (text.new.items ≡ text.old.items ++ problem_text problem.now.status problem.now.code.now) }
{
    put_title(text, problem.status)?;
    put_status(text, problem.status)?;
    put_code(text, problem.code)?;
    put(text, b"}")
}

/// The answer that tells of a problem.
pub fn problem_answer<A: Allocator>(alloc: A, problem: &Problem) -> Result<Answer<A>, NoMemory>
    ensures { IfOk result (λ answer. answer_data answer
        ≡ problem_data problem.now.status problem.now.code.now problem.now.retry_after) }
{
    let mut body = Vec::new(alloc);
    put_problem(&mut body, problem)?;
    Ok(Answer {
        status: problem.status,
        media: MediaType::Problem,
        version: None,
        location: None,
        retry_after: problem.retry_after,
        body,
    })
}

/// Appends the text of a problem with more members.
fn put_detailed<A: Allocator>(
    text: &mut Vec<u8, A>,
    status: Status,
    code: &str,
    members: &[u8],
) -> Result<(), NoMemory>
    ensures { OnOk result
        (text.new.items ≡ text.old.items ++ detailed_text status code.now members.now) }
{
    put_title(text, status)?;
    put_status(text, status)?;
    put_code(text, code)?;
    put(text, members)?;
    put(text, b"}")
}

/// The answer that tells of a problem with more members, each written behind a comma:
/// `,"current":3`.
pub fn detailed_answer<A: Allocator>(
    alloc: A,
    status: Status,
    code: &str,
    members: &[u8],
) -> Result<Answer<A>, NoMemory>
    ensures { IfOk result
        (λ answer. answer_data answer ≡ detailed_data status code.now members.now) }
{
    let mut body = Vec::new(alloc);
    put_detailed(&mut body, status, code, members)?;
    Ok(Answer {
        status,
        media: MediaType::Problem,
        version: None,
        location: None,
        retry_after: None,
        body,
    })
}
