//! Lists of changes, posted.

ghost use Rattle.http_server.specs.Response.{IsBlank};
ghost use Rattle.map_answers.specs.Answers.{answered};
ghost use Rattle.map_http.specs.Lists.{AnswersListing, Lists, RespondsListing};
ghost use Rattle.map_sessions.specs.Visiting.{place_of};

use crate::asking::{Asked, Decline, decline_answer, who_asks};
use crate::parts::{media_in, query_in};
use crate::requests::respond;
use crate::routes::Route;
use bytes::Bytes;
use http::Request;
use http_server::Response;
use map_answers::Answer;
use map_changes::Method;
use map_lists::{ListRequest, answer_list};
use map_questions::Action;
use map_sessions::Host;
use memory::NoMemory;
use session_lines::Service;
use std::alloc::Global;

/// What comes of a request that counts.
fn list<S: Service>(
    heap: Global,
    host: &Host,
    service: &mut S,
    asked: &Asked,
    request: &Request<Bytes>,
) -> Result<Answer<Global>, NoMemory>
    ensures { Lists S.subject_of S.serves (place_of host.now) asked.now request.now
        (answered result) service.old service.new }
{
    let Action::Change(Method::Post) = asked.action else {
        return decline_answer(heap, Decline::Method);
    };
    let list = ListRequest {
        query: query_in(request.uri()),
        media: media_in(request.headers()),
        body: request.body().as_slice(),
    };
    answer_list(heap, host, asked.asker, service, &list)
}

/// What a request with a list is answered.
fn list_if_asked<S: Service>(
    heap: Global,
    host: &Host,
    service: &mut S,
    request: &Request<Bytes>,
) -> Result<Answer<Global>, NoMemory>
    ensures { RespondsListing S.subject_of S.serves (place_of host.now) request.now
        (answered result) service.old service.new }
{
    match who_asks(host, request) {
        Ok(asked) => list(heap, host, service, &asked, request),
        Err(why) => decline_answer(heap, why),
    }
}

/// Answers a request to commit a list of changes, as `answer_list` does for who asks; 405 where it is
/// no `POST`. 421, 403, 401 and 400 come as `answer_changing` has them. `response` is to be blank.
/// Where there is no memory for the answer, it says 503 and no more; the list may have been
/// committed then.
pub fn answer_listing<S: Service>(
    heap: Global,
    host: &Host,
    service: &mut S,
    request: &Request<Bytes>,
    response: &mut Response,
)
    requires { IsBlank response.old }
    ensures { AnswersListing S.subject_of S.serves (place_of host.now) request.now
        service.old service.new response.new }
{
    let told = list_if_asked(heap, host, service, request);
    respond(heap, host, Route::Listing, request, told, response);
}
