//! The calls that paths name, and what a method does at them.

ghost use Rattle.std.specs.Prelude.{◌≡◌};
ghost use Rattle.map_questions.specs.Calls.{call_of, changed_at, read_at, task_of};

use line_words::read_number;
use map_changes::Method;

/// A call that a path names.
#[derive(Clone, Copy, Debug, PartialEq, Eq)]
pub enum Call {
    /// `/explain`: what the policy in force says to a question.
    Explain,
    /// `/policy`: the policy in force.
    Policy,
    /// `/trail`: the trail.
    Trail,
    /// `/trail/N`: a piece of the trail that was taken out.
    Piece(u64),
}

/// What a method does: it reads, as `GET` and `HEAD` (RFC 9110, 9.3.1 and 9.3.2), or it changes.
#[derive(Clone, Copy, Debug, PartialEq, Eq)]
pub enum Action {
    Read,
    Change(Method),
}

/// What is to be done.
#[derive(Clone, Copy, Debug, PartialEq, Eq)]
pub enum Task {
    /// The policy in force is asked.
    Explain,
    /// A document is put in force.
    Govern,
    /// Something is done with the trail.
    Trail(TrailTask),
}

/// What is to be done with the trail.
#[derive(Clone, Copy, Debug, PartialEq, Eq)]
pub enum TrailTask {
    /// It is taken out.
    Roll,
    /// A piece that was taken out is shown.
    Show(u64),
    /// A piece that was taken out is let go.
    LetGo(u64),
}

/// A request for a call. A field that is not there is empty here.
#[derive(Clone, Copy, Debug)]
pub struct CallRequest<'a> {
    /// What stands behind the question mark; empty where there is none.
    pub query: &'a [u8],
    /// The field `content-type`.
    pub media: &'a [u8],
    pub body: &'a [u8],
}

/// The call that a path names; `None` where it names another page, or none. Nothing in a path is
/// decoded.
#[tactic(auto, unfolding(crate::specs::Calls::call_of))]
pub fn call_of(path: &[u8]) -> Option<Call>
    ensures { result ≡ call_of path.now }
{
    if path == b"/explain".as_slice() {
        Some(Call::Explain)
    } else if path == b"/policy".as_slice() {
        Some(Call::Policy)
    } else if path == b"/trail".as_slice() {
        Some(Call::Trail)
    } else if path.starts_with(b"/trail/") {
        let number = read_number(&path[7..])?;
        Some(Call::Piece(number))
    } else {
        None
    }
}

/// What is done where a call is read.
fn read_at(call: Call) -> Option<Task>
    ensures { result ≡ read_at call }
{
    match call {
        Call::Explain => Some(Task::Explain),
        Call::Policy => None,
        Call::Trail => None,
        Call::Piece(number) => Some(Task::Trail(TrailTask::Show(number))),
    }
}

/// What a method that changes does at a call.
fn changed_at(method: Method, call: Call) -> Option<Task>
    ensures { result ≡ changed_at method call }
{
    match (method, call) {
        (Method::Put, Call::Policy) => Some(Task::Govern),
        (Method::Post, Call::Trail) => Some(Task::Trail(TrailTask::Roll)),
        (Method::Delete, Call::Piece(number)) => Some(Task::Trail(TrailTask::LetGo(number))),
        _ => None,
    }
}

/// What a method does at a call: `GET` asks at `/explain` and shows a piece at `/trail/N`, `PUT`
/// governs at `/policy`, `POST` rolls at `/trail`, `DELETE` lets go at `/trail/N`. `None` where the
/// call has not this method.
pub fn task_of(action: Action, call: Call) -> Option<Task>
    ensures { result ≡ task_of action call }
{
    match action {
        Action::Read => read_at(call),
        Action::Change(method) => changed_at(method, call),
    }
}
