//! Requests for calls, carried out and answered.

ghost use Rattle.std.specs.Prelude.{◌≡◌};
ghost use Rattle.map_answers.specs.Answers.{answered};
ghost use Rattle.map_calls.specs.Calling.{CarriesOut, IsCalled, Tends, TendsTrail};
ghost use Rattle.map_calls.specs.Keeping.{pieces_data};
ghost use Rattle.map_questions.specs.Calls.{call_data};
ghost use Rattle.map_sessions.specs.Visiting.{place_of};

use crate::asking::explain;
use crate::governing::govern;
use crate::outcomes::{CallFault, Outcome};
use crate::pieces::Pieces;
use crate::rolling::{let_go_for, roll_for, show_to};
use crate::telling::outcome_answer;
use features::Name;
use map_answers::Answer;
use map_asks::is_empty_query;
use map_questions::{Action, Call, CallRequest, Task, TrailTask, task_of};
use map_sessions::Host;
use memory::NoMemory;
use session_lines::Service;
use std::alloc::Global;

/// Does what is to be done with the trail.
fn tend<S: Service>(
    heap: Global,
    host: &Host,
    asker: Option<Name>,
    service: &mut S,
    pieces: &mut Pieces<S::Memory>,
    task: TrailTask,
) -> Outcome
    ensures { Tends S.subject_of S.serves (place_of host.now) asker task service.old service.new
        (pieces_data pieces.old) (pieces_data pieces.new) result }
{
    match task {
        TrailTask::Roll => roll_for(host, asker, service, pieces),
        TrailTask::Show(number) => show_to(heap, host, asker, pieces, number),
        TrailTask::LetGo(number) => let_go_for(host, asker, pieces, number),
    }
}

/// Does what is to be done with the trail, where there is no query.
fn tend_trail<S: Service>(
    heap: Global,
    host: &Host,
    asker: Option<Name>,
    service: &mut S,
    pieces: &mut Pieces<S::Memory>,
    task: TrailTask,
    query: &[u8],
) -> Outcome
    ensures { TendsTrail S.subject_of S.serves (place_of host.now) asker task query.now service.old
        service.new (pieces_data pieces.old) (pieces_data pieces.new) result }
{
    if is_empty_query(query) {
        tend(heap, host, asker, service, pieces, task)
    } else {
        Outcome::Fault(CallFault::Parameter)
    }
}

/// Does what a method does at a call.
fn carry_out<S: Service>(
    heap: Global,
    host: &Host,
    asker: Option<Name>,
    service: &mut S,
    pieces: &mut Pieces<S::Memory>,
    task: Option<Task>,
    request: &CallRequest,
) -> Outcome
    ensures { CarriesOut S.subject_of S.serves (place_of host.now) asker task
        (call_data request.now) service.old service.new (pieces_data pieces.old)
        (pieces_data pieces.new) result }
{
    match task {
        None => Outcome::Fault(CallFault::Method),
        Some(Task::Explain) => explain(heap, host, asker, service, request),
        Some(Task::Govern) => govern(heap, host, asker, service, request),
        Some(Task::Trail(task)) => {
            tend_trail(heap, host, asker, service, pieces, task, request.query)
        }
    }
}

/// Answers a request for a call, for a subject, or for nobody where no subject is named for those
/// who do not say who they are. It is read whole before anything is done. The session is begun for
/// the subject, if it does not ask for them already; it is not asked for pieces that are kept.
///
/// - `GET /explain` with a question as its query: what the policy in force says, 200.
/// - `PUT /policy` with a policy document of the type `application/json` as its body: it is put in
///   force, 200 with its edition. Only a steward may: 403.
/// - `POST /trail`: the trail is taken out, 201 with the address of its piece, which is kept for who
///   asks. Only a steward may: 403. 409 where `PIECE_LIMIT` pieces are kept, and nothing is taken
///   out. Room for the piece is made first.
/// - `GET /trail/N`: the lines of a piece, 200; `DELETE /trail/N`: it is let go, 204. 404 to any but
///   who took it out.
///
/// Any other method is 405; a query of `/policy`, `/trail` or `/trail/N` is 400. Out of memory where
/// there is no memory for the answer: **what was asked may have been done then**, and a piece that
/// was taken out is kept.
pub fn answer_call<S: Service>(
    heap: Global,
    host: &Host,
    asker: Option<Name>,
    service: &mut S,
    pieces: &mut Pieces<S::Memory>,
    action: Action,
    call: Call,
    request: &CallRequest,
) -> Result<Answer<Global>, NoMemory>
    ensures { IsCalled S.subject_of S.serves (place_of host.now) asker action call
        (call_data request.now) service.old service.new pieces.old pieces.new (answered result) }
{
    let task = task_of(action, call);
    let outcome = carry_out(heap, host, asker, service, pieces, task, request);
    outcome_answer(heap, host.site.base, outcome)
}
