//! Questions to the policy in force.

ghost use Rattle.std.specs.Prelude.{◌≡◌};
ghost use Rattle.map_calls.specs.Asking.{Asks, AsksFor, Explains, Opens, question_of};
ghost use Rattle.map_questions.specs.Calls.{call_data};
ghost use Rattle.map_sessions.specs.Visiting.{place_of};

use crate::outcomes::{CallFault, Outcome};
use combining::Question;
use features::{Name, Subject};
use map_questions::{Asking, CallRequest, read_asking};
use map_sessions::{Host, Refusal, greet, unasked};
use session_lines::{LineFault, Reply, Service};
use std::alloc::Global;

/// Has the session ask for who asks; nobody is refused.
pub(crate) fn open<S: Service>(
    host: &Host,
    asker: Option<Name>,
    service: &mut S,
) -> Result<(), Refusal>
    ensures { Opens S.subject_of S.serves (place_of host.now) asker service.old service.new result }
{
    match asker {
        Some(asker) => greet(service, &asker),
        None => Err(unasked(host)),
    }
}

/// The question that a subject asks.
fn question_of(subject: Subject, asking: &Asking) -> Question
    ensures { result ≡ question_of subject asking.now }
{
    Question {
        subject,
        action: asking.action,
        owner: asking.office,
        class: asking.class,
        shape: asking.shape,
    }
}

/// Asks the policy for the session's subject.
fn ask<S: Service>(service: &mut S, asking: &Asking) -> Outcome
    ensures { Asks S.subject_of S.serves asking.now service.old service.new result }
{
    match service.subject() {
        None => Outcome::Refused(Refusal::Said(Reply::Error(LineFault::BeforeHello))),
        Some(subject) => Outcome::Ruled(service.explain(&question_of(subject, asking))),
    }
}

/// Asks the policy for who asks.
fn ask_for<S: Service>(
    host: &Host,
    asker: Option<Name>,
    service: &mut S,
    asking: &Asking,
) -> Outcome
    ensures { AsksFor S.subject_of S.serves (place_of host.now) asker asking.now service.old
        service.new result }
{
    match open(host, asker, service) {
        Ok(()) => ask(service, asking),
        Err(refusal) => Outcome::Refused(refusal),
    }
}

/// Reads what a query asks, whole, and asks the policy that for who asks.
pub(crate) fn explain<S: Service>(
    heap: Global,
    host: &Host,
    asker: Option<Name>,
    service: &mut S,
    request: &CallRequest,
) -> Outcome
    ensures { Explains S.subject_of S.serves (place_of host.now) asker (call_data request.now)
        service.old service.new result }
{
    match read_asking(heap, host.site.grid, request.query) {
        Ok(asking) => ask_for(host, asker, service, &asking),
        Err(fault) => Outcome::Fault(CallFault::Asking(fault)),
    }
}
