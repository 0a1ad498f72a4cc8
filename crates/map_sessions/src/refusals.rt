//! Why a request gets no page, and the problem that tells of it.

ghost use Rattle.std.specs.Prelude.{◌≡◌, None};
ghost use Rattle.map_sessions.specs.Refusals.{code_of, code_of_reply, retry_of, retry_of_fault, retry_of_reply, retry_of_tree, status_of, status_of_fault, status_of_reply, status_of_tree};

use map_answers::{Problem, Status, problem_of_ask};
use map_asks::AskFault;
use memory::NoMemory;
use plain_world::Fault as WorldFault;
use session_lines::{LineFault, Reply};
use tree_answers::TreeFault;

/// Why a request gets no page.
#[derive(Debug, Drop)]
pub enum Refusal {
    /// It asks for nothing that there is.
    Ask(AskFault),
    /// No subject is named for those who do not say who they are.
    Nobody,
    /// The same, where keys are there by which it may be said.
    NoCredentials,
    /// The session gives this reply in place of what it was asked.
    Said(Reply),
    /// The session took a trail out, which nobody asked for.
    Misplaced,
    /// There is no such feature, or none that this subject may read.
    Absent,
    /// The kept answer is gone.
    Gone,
    /// An allocation was refused.
    Memory(NoMemory),
}

impl From<NoMemory> for Refusal {
    ghost use Rattle.std.specs.Prelude.{◌≡◌};
    ghost use Rattle.map_sessions.specs.declared.refusals.Refusal.TheVariants.{Memory};

    ghost from_gives = { λ no_memory refusal. refusal ≡ Memory no_memory };

    fn from(no_memory: NoMemory) -> Refusal {
        Refusal::Memory(no_memory)
    }
}

/// The status of a fault of the index: 503 where it passes, 500 where no search has it.
fn status_of_tree(fault: &TreeFault) -> Status
    ensures { result ≡ status_of_tree fault.now }
{
    match fault {
        TreeFault::TooMany => Status::Unavailable,
        TreeFault::Spent => Status::Unavailable,
        TreeFault::Overrun => Status::Unavailable,
        TreeFault::Memory(_) => Status::Unavailable,
        _ => Status::Internal,
    }
}

/// The status of a fault of the world: 503 where it passes, 500 where no search has it.
fn status_of_fault(fault: &WorldFault) -> Status
    ensures { result ≡ status_of_fault fault.now }
{
    match fault {
        WorldFault::Tree(fault) => status_of_tree(fault),
        WorldFault::TooMany => Status::Unavailable,
        WorldFault::Spent => Status::Unavailable,
        WorldFault::TrailFull => Status::Unavailable,
        WorldFault::Memory(_) => Status::Unavailable,
        _ => Status::Internal,
    }
}

/// The status of a reply in place of what was asked.
fn status_of_reply(reply: &Reply) -> Status
    ensures { result ≡ status_of_reply reply.now }
{
    match reply {
        Reply::Held => Status::Unavailable,
        Reply::Memory(_) => Status::Unavailable,
        Reply::Error(LineFault::NoSubject) => Status::Forbidden,
        Reply::Error(LineFault::NoPlace) => Status::Unavailable,
        Reply::Error(LineFault::Closed) => Status::Unavailable,
        Reply::Failed(fault) => status_of_fault(fault),
        _ => Status::Internal,
    }
}

/// After how many seconds what the index could not do may be tried again.
fn retry_of_tree(fault: &TreeFault) -> Option<u64>
    ensures { result ≡ retry_of_tree fault.now }
{
    match fault {
        TreeFault::TooMany => Some(1),
        TreeFault::Overrun => Some(1),
        TreeFault::Memory(_) => Some(1),
        _ => None,
    }
}

/// After how many seconds what the world could not do may be tried again.
fn retry_of_fault(fault: &WorldFault) -> Option<u64>
    ensures { result ≡ retry_of_fault fault.now }
{
    match fault {
        WorldFault::Tree(fault) => retry_of_tree(fault),
        WorldFault::TooMany => Some(1),
        WorldFault::TrailFull => Some(60),
        WorldFault::Memory(_) => Some(1),
        _ => None,
    }
}

/// After how many seconds what got this reply may be tried again.
fn retry_of_reply(reply: &Reply) -> Option<u64>
    ensures { result ≡ retry_of_reply reply.now }
{
    match reply {
        Reply::Held => Some(1),
        Reply::Memory(_) => Some(1),
        Reply::Error(LineFault::NoPlace) => Some(1),
        Reply::Error(LineFault::Closed) => Some(1),
        Reply::Failed(fault) => retry_of_fault(fault),
        _ => None,
    }
}

/// The code of a reply in place of what was asked: its own, or its word.
fn code_of_reply(reply: &Reply) -> &'static str
    ensures { result.now ≡ code_of_reply reply.now }
{
    match reply {
        Reply::Held => "held",
        Reply::Memory(_) => "memory",
        Reply::Error(fault) => fault.code(),
        Reply::Failed(fault) => fault.code(),
        _ => "reply",
    }
}

/// The status of a refusal.
fn status_of(refusal: &Refusal) -> Status
    ensures { result ≡ status_of refusal.now }
{
    match refusal {
        Refusal::Ask(fault) => problem_of_ask(*fault).status,
        Refusal::Nobody => Status::Forbidden,
        Refusal::NoCredentials => Status::Unauthorized,
        Refusal::Said(reply) => status_of_reply(reply),
        Refusal::Misplaced => Status::Internal,
        Refusal::Absent => Status::NotFound,
        Refusal::Gone => Status::Gone,
        Refusal::Memory(_) => Status::Unavailable,
    }
}

/// The code of a refusal: that of the request's fault or of the reply, or a word.
fn code_of(refusal: &Refusal) -> &'static str
    ensures { result.now ≡ code_of refusal.now }
{
    match refusal {
        Refusal::Ask(fault) => fault.code(),
        Refusal::Nobody => "H1",
        Refusal::NoCredentials => "H1",
        Refusal::Said(reply) => code_of_reply(reply),
        Refusal::Misplaced => "reply",
        Refusal::Absent => "absent",
        Refusal::Gone => "gone",
        Refusal::Memory(_) => "memory",
    }
}

/// After how many seconds the request may be tried again.
fn retry_of(refusal: &Refusal) -> Option<u64>
    ensures { result ≡ retry_of refusal.now }
{
    match refusal {
        Refusal::Said(reply) => retry_of_reply(reply),
        Refusal::Memory(_) => Some(1),
        _ => None,
    }
}

/// The problem that tells of a refusal.
pub fn problem_of(refusal: &Refusal) -> Problem
    ensures status { result.status ≡ status_of refusal.now }
    ensures code { result.code.now ≡ code_of refusal.now }
    ensures retry { result.retry_after ≡ retry_of refusal.now }
{
    Problem {
        status: status_of(refusal),
        code: code_of(refusal),
        retry_after: retry_of(refusal),
    }
}
