//! Documents that are put in force.

ghost use Rattle.std.specs.Prelude.{◌≡◌};
ghost use Rattle.map_calls.specs.Governing.{Governs, GovernsFor, Puts, ReadsPolicy, is_json, policy_of};
ghost use Rattle.map_questions.specs.Calls.{call_data};
ghost use Rattle.map_sessions.specs.Visiting.{place_of};

use crate::asking::open;
use crate::outcomes::{CallFault, Outcome};
use features::Name;
use map_asks::is_empty_query;
use map_changes::media_type;
use map_questions::CallRequest;
use map_sessions::Host;
use policy_text::{Document, read_document};
use session_lines::Service;
use std::alloc::Global;

/// Whether a field `content-type` names JSON.
#[tactic(auto, unfolding(crate::specs::Governing::is_json))]
fn is_json(field: &[u8]) -> bool
    ensures { result ≡ is_json field.now }
{
    media_type(field).eq_ignore_ascii_case(b"application/json")
}

/// The document in the body of a request.
#[tactic(auto, unfolding(crate::specs::Governing::policy_of))]
fn read_policy(heap: Global, request: &CallRequest) -> Result<Document<Global>, CallFault>
    ensures { ReadsPolicy (call_data request.now) result }
{
    if !is_empty_query(request.query) {
        return Err(CallFault::Parameter);
    }
    if !is_json(request.media) {
        return Err(CallFault::Media);
    }
    match read_document(heap, heap, request.body) {
        Ok(document) => Ok(document),
        Err(fault) => Err(CallFault::Unread(fault)),
    }
}

/// Puts a document in force.
fn put<S: Service>(service: &mut S, document: Document<Global>) -> Outcome
    ensures { Puts S.serves document service.old service.new result }
{
    Outcome::Governed(service.govern(document))
}

/// Puts a document in force for who asks.
fn put_for<S: Service>(
    host: &Host,
    asker: Option<Name>,
    service: &mut S,
    document: Document<Global>,
) -> Outcome
    ensures { GovernsFor S.subject_of S.serves (place_of host.now) asker document service.old
        service.new result }
{
    match open(host, asker, service) {
        Ok(()) => put(service, document),
        Err(refusal) => Outcome::Refused(refusal),
    }
}

/// Reads the document of a request, whole, and puts it in force for who asks.
pub(crate) fn govern<S: Service>(
    heap: Global,
    host: &Host,
    asker: Option<Name>,
    service: &mut S,
    request: &CallRequest,
) -> Outcome
    ensures { Governs S.subject_of S.serves (place_of host.now) asker (call_data request.now)
        service.old service.new result }
{
    match read_policy(heap, request) {
        Ok(document) => put_for(host, asker, service, document),
        Err(fault) => Outcome::Fault(fault),
    }
}
