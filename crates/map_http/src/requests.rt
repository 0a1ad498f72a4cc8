//! Requests for the map, answered by a session.

ghost use Rattle.std.specs.Prelude.{◌≡◌};
ghost use Rattle.http.specs.Request.{head_of};
ghost use Rattle.http_server.specs.Response.{IsBlank};
ghost use Rattle.map_answers.specs.Answers.{answered};
ghost use Rattle.map_http.specs.Requests.{AnswersChanging, AnswersReading, Changes, RespondsChanging, RespondsReading, TellsOf, asks_kept};
ghost use Rattle.map_sessions.specs.Visiting.{place_of};

use crate::askers::way_of;
use crate::asking::{Asked, Decline, decline_answer, who_asks};
use crate::filling::tell;
use crate::parts::{known_in, match_in, media_in, query_in};
use crate::routes::{Route, allow_of};
use bytes::Bytes;
use http::Request;
use http_server::Response;
use map_answers::Answer;
use map_changes::ChangeRequest;
use map_edits::answer_change;
use map_questions::Action;
use map_sessions::{Host, Kept, Visit, answer_visit};
use memory::NoMemory;
use session_lines::Service;
use std::alloc::Global;

/// Has a blank response tell of what a request is answered; or, where there is no memory for it,
/// that there is no room.
pub(crate) fn respond(
    heap: Global,
    host: &Host,
    route: Route,
    request: &Request<Bytes>,
    told: Result<Answer<Global>, NoMemory>,
    response: &mut Response,
)
    requires { IsBlank response.old }
    ensures { TellsOf (place_of host.now) route (head_of request.now) (answered told) response.new }
{
    let allow = allow_of(route, host.site.classes, request.uri().path().as_bytes());
    tell(response, heap, way_of(host), allow, told);
}

/// Whether a request asks for a page of an answer that is kept.
pub fn asks_kept(host: &Host, request: &Request<Bytes>) -> bool
    ensures { result ≡ asks_kept (place_of host.now) (head_of request.now) }
{
    map_sessions::asks_kept(
        host,
        request.uri().path().as_bytes(),
        query_in(request.uri()),
    )
}

/// What a request to read is answered.
fn read<S: Service>(
    heap: Global,
    host: &Host,
    service: &mut S,
    kept: &mut Kept<Global>,
    request: &Request<Bytes>,
) -> Result<Answer<Global>, NoMemory>
    ensures { RespondsReading S.subject_of S.serves (place_of host.now) (head_of request.now)
        (answered result) service.old service.new kept.old kept.new }
{
    let asker = match who_asks(host, request) {
        Ok(asked) => asked.asker,
        Err(why) => return decline_answer(heap, why),
    };
    let visit = Visit {
        path: request.uri().path().as_bytes(),
        query: query_in(request.uri()),
        known: known_in(request.headers()),
    };
    answer_visit(heap, host, asker, service, kept, &visit)
}

/// Answers a request for a page of the map, as `answer_visit` does for who asks. 421 where it is for
/// another host than that of `host.site.base` or the machine itself; where it cannot be told who
/// asks, 401 or 400. `response` is to be blank. Where there is no memory for the answer, it says 503
/// and no more.
pub fn answer_reading<S: Service>(
    heap: Global,
    host: &Host,
    service: &mut S,
    kept: &mut Kept<Global>,
    request: &Request<Bytes>,
    response: &mut Response,
)
    requires { IsBlank response.old }
    ensures { AnswersReading S.subject_of S.serves (place_of host.now) request.now
        service.old service.new kept.old kept.new response.new }
{
    let told = read(heap, host, service, kept, request);
    respond(heap, host, Route::Reading, request, told, response);
}

/// What a request that counts changes.
fn change<S: Service>(
    heap: Global,
    host: &Host,
    service: &mut S,
    asked: &Asked,
    request: &Request<Bytes>,
) -> Result<Answer<Global>, NoMemory>
    ensures { Changes S.subject_of S.serves (place_of host.now) asked.now request.now
        (answered result) service.old service.new }
{
    let Action::Change(method) = asked.action else {
        return decline_answer(heap, Decline::Method);
    };
    let change = ChangeRequest {
        method,
        path: request.uri().path().as_bytes(),
        query: query_in(request.uri()),
        media: media_in(request.headers()),
        if_match: match_in(request.headers()),
        body: request.body().as_slice(),
    };
    answer_change(heap, host, asked.asker, service, &change)
}

/// What a request to change is answered.
fn change_if_asked<S: Service>(
    heap: Global,
    host: &Host,
    service: &mut S,
    request: &Request<Bytes>,
) -> Result<Answer<Global>, NoMemory>
    ensures { RespondsChanging S.subject_of S.serves (place_of host.now) request.now
        (answered result) service.old service.new }
{
    match who_asks(host, request) {
        Ok(asked) => change(heap, host, service, &asked, request),
        Err(why) => decline_answer(heap, why),
    }
}

/// Answers a request to change a feature, as `answer_change` does for who asks: by `POST`, `PUT`,
/// `PATCH` or `DELETE`; any other method gets 405. 421 where it is for another host than that of
/// `host.site.base` or the machine itself; 403 where it comes from a page of another origin; where it
/// cannot be told who asks, 401 or 400. `response` is to be blank. Where there is no memory for the
/// answer, it says 503 and no more; the change may have been made then.
pub fn answer_changing<S: Service>(
    heap: Global,
    host: &Host,
    service: &mut S,
    request: &Request<Bytes>,
    response: &mut Response,
)
    requires { IsBlank response.old }
    ensures { AnswersChanging S.subject_of S.serves (place_of host.now) request.now
        service.old service.new response.new }
{
    let told = change_if_asked(heap, host, service, request);
    respond(heap, host, Route::Changing, request, told, response);
}
