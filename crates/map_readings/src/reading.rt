//! Requests for a server's counts.

ghost use Rattle.std.specs.Prelude.{◌≡◌, IfOk};
ghost use Rattle.map_answers.specs.Answers.{answer_data, found};
ghost use Rattle.map_answers.specs.declared.answers.MediaType.TheVariants.{Metrics as MetricsText};
ghost use Rattle.map_readings.specs.Reading.{answer_to, forbidden, is_metrics_path, metrics_data, to_somebody};
ghost use Rattle.map_sessions.specs.Refusals.{refusal_data};
ghost use Rattle.map_sessions.specs.Visiting.{place_of};

use features::Name;
use map_answers::{Answer, MediaType, Problem, Status, problem_answer};
use map_asks::AskFault;
use map_sessions::{Host, Refusal, problem_of, unasked};
use memory::{NoMemory, copied};
use std::alloc::Allocator;

/// By what a request for a server's counts is answered.
#[derive(Clone, Copy, Debug)]
pub struct Metrics<'a> {
    /// The subject that may read them; `None` where there is no such page.
    pub reader: Option<Name>,
    /// Their text.
    pub text: &'a [u8],
}

/// Whether a path is that of a server's counts.
pub fn is_metrics_path(path: &[u8]) -> bool
    ensures { result ≡ is_metrics_path path.now }
{
    path == b"/metrics".as_slice()
}

/// The answer that tells of a refusal.
fn refuse<A: Allocator>(alloc: A, refusal: &Refusal) -> Result<Answer<A>, NoMemory>
    ensures { IfOk result (λ answer. answer_data answer ≡ refusal_data refusal.now) }
{
    problem_answer(alloc, &problem_of(refusal))
}

/// The answer to a subject that may not read them.
fn forbid<A: Allocator>(alloc: A) -> Result<Answer<A>, NoMemory>
    ensures { IfOk result (λ answer. answer_data answer ≡ forbidden) }
{
    problem_answer(
        alloc,
        &Problem {
            status: Status::Forbidden,
            code: "metrics",
            retry_after: None,
        },
    )
}

/// The answer that has this text.
fn give<A: Allocator>(alloc: A, text: &[u8]) -> Result<Answer<A>, NoMemory>
    ensures { IfOk result (λ answer. answer_data answer ≡ found MetricsText text.now) }
{
    let body = copied(alloc, text)?;
    Ok(Answer {
        status: Status::Success,
        media: MediaType::Metrics,
        version: None,
        location: None,
        retry_after: None,
        body,
    })
}

/// What this subject is answered.
fn answer_to<A: Allocator>(
    alloc: A,
    reader: &Name,
    asker: &Name,
    text: &[u8],
) -> Result<Answer<A>, NoMemory>
    ensures { IfOk result (λ answer. answer_data answer ≡ answer_to reader.now asker.now text.now) }
{
    if *asker == *reader {
        give(alloc, text)
    } else {
        forbid(alloc)
    }
}

/// What who asks is answered where somebody may read them.
fn answer_asker<A: Allocator>(
    alloc: A,
    asker: Option<Name>,
    host: &Host,
    reader: &Name,
    text: &[u8],
) -> Result<Answer<A>, NoMemory>
    ensures { IfOk result (λ answer. answer_data answer
        ≡ to_somebody (place_of host.now) reader.now asker text.now) }
{
    match asker {
        Some(asker) => answer_to(alloc, reader, &asker, text),
        None => refuse(alloc, &unasked(host)),
    }
}

/// Answers a request for a server's counts: 404, `U1`, where no subject may read them, as of a page
/// that there is not; as `unasked` says where nobody asks; 403, `metrics`, to another subject than
/// the reader; to the reader 200 and the text. Out of memory where there is no memory for the answer.
pub fn answer_metrics<A: Allocator>(
    alloc: A,
    asker: Option<Name>,
    host: &Host,
    metrics: &Metrics,
) -> Result<Answer<A>, NoMemory>
    ensures { IfOk result (λ answer. answer_data answer
        ≡ metrics_data (place_of host.now) metrics.now.reader asker metrics.now.text.now) }
{
    match metrics.reader {
        Some(reader) => answer_asker(alloc, asker, host, &reader, metrics.text),
        None => refuse(alloc, &Refusal::Ask(AskFault::NoPage)),
    }
}
