//! The answers to requests to change that are at fault.

ghost use Rattle.std.specs.Prelude.{◌≡◌, IfOk};
ghost use Rattle.geojson.specs.Faults.{is_memory};
ghost use Rattle.map_answers.specs.Answers.{answer_data};
ghost use Rattle.map_edits.specs.Faults.{fault_data, feature_data, placed_data, plain_data, unstored_data};

use crate::members::{put_place, put_place_member};
use geojson::{Cause, FeatureFault};
use map_answers::{Answer, Problem, Status, detailed_answer, problem_answer, put};
use map_changes::ChangeFault;
use memory::NoMemory;
use std::alloc::Allocator;

/// Whether an allocation was refused.
fn is_memory(cause: &Cause) -> bool
    ensures { result ≡ is_memory cause.now }
{
    match cause {
        Cause::NotJson => false,
        Cause::Form => false,
        Cause::Kind => false,
        Cause::Number(_) => false,
        Cause::Memory(_) => true,
        Cause::Json(_) => true,
    }
}

/// A problem with a place in the body.
pub fn placed<A: Allocator + Copy>(
    alloc: A,
    status: Status,
    code: &str,
    place: &[u8],
) -> Result<Answer<A>, NoMemory>
    ensures { IfOk result (λ answer. answer_data answer
        ≡ placed_data status code.now place.now) }
{
    let mut members = Vec::new(alloc);
    put_place_member(&mut members, place)?;
    detailed_answer(alloc, status, code, members.as_slice())
}

/// The answer to a body that is no feature, or has none at this place.
fn feature_answer<A: Allocator + Copy>(
    alloc: A,
    front: &[u8],
    fault: &FeatureFault,
) -> Result<Answer<A>, NoMemory>
    ensures { IfOk result (λ answer. answer_data answer ≡ feature_data front.now fault.now) }
{
    let code = fault.cause.code();
    if is_memory(&fault.cause) {
        return problem_answer(
            alloc,
            &Problem {
                status: Status::Unavailable,
                code,
                retry_after: Some(1),
            },
        );
    }
    let mut place = Vec::new(alloc);
    put(&mut place, front)?;
    put_place(&mut place, fault)?;
    placed(alloc, Status::BadRequest, code, place.as_slice())
}

/// A problem of a request at fault that has no place in the body.
fn plain<A: Allocator>(alloc: A, status: Status, fault: &ChangeFault) -> Result<Answer<A>, NoMemory>
    ensures { IfOk result (λ answer. answer_data answer ≡ plain_data status fault.now) }
{
    problem_answer(
        alloc,
        &Problem {
            status,
            code: fault.code(),
            retry_after: None,
        },
    )
}

/// A problem of a feature that cannot be stored.
fn unstored<A: Allocator + Copy>(
    alloc: A,
    front: &[u8],
    fault: &ChangeFault,
    member: &str,
) -> Result<Answer<A>, NoMemory>
    ensures { IfOk result (λ answer. answer_data answer
        ≡ unstored_data front.now fault.now member.now) }
{
    let mut place = Vec::new(alloc);
    put(&mut place, front)?;
    put(&mut place, member.as_bytes())?;
    placed(alloc, Status::Unprocessable, fault.code(), place.as_slice())
}

/// The answer to a request at fault. `front` is where in the body what is said of the feature
/// begins, as a JSON pointer (RFC 6901): empty where that is the whole.
pub fn fault_answer<A: Allocator + Copy>(
    alloc: A,
    front: &[u8],
    fault: &ChangeFault,
) -> Result<Answer<A>, NoMemory>
    ensures { IfOk result (λ answer. answer_data answer ≡ fault_data front.now fault.now) }
{
    match fault {
        ChangeFault::NoPage => plain(alloc, Status::NotFound, fault),
        ChangeFault::Method => plain(alloc, Status::MethodNotAllowed, fault),
        ChangeFault::Parameter => plain(alloc, Status::BadRequest, fault),
        ChangeFault::NoVersion => plain(alloc, Status::PreconditionRequired, fault),
        ChangeFault::WrongTag => plain(alloc, Status::PreconditionFailed, fault),
        ChangeFault::Media => plain(alloc, Status::UnsupportedMedia, fault),
        ChangeFault::Feature(feature) => feature_answer(alloc, front, feature),
        ChangeFault::Id => unstored(alloc, front, fault, "/id"),
        ChangeFault::Class => unstored(alloc, front, fault, "/properties/class"),
        ChangeFault::Parts => unstored(alloc, front, fault, "/geometry"),
        ChangeFault::Shape(_) => unstored(alloc, front, fault, "/geometry"),
    }
}
