//! Requests for the policy and the trail.

ghost use Rattle.http_server.specs.Response.{IsBlank};
ghost use Rattle.map_answers.specs.Answers.{answered};
ghost use Rattle.map_http.specs.Calls.{AnswersCalling, RespondsCalling};
ghost use Rattle.map_sessions.specs.Visiting.{place_of};

use crate::asking::{decline_answer, who_asks};
use crate::parts::{media_in, query_in};
use crate::requests::respond;
use crate::routes::Route;
use bytes::Bytes;
use http::Request;
use http_server::Response;
use map_answers::Answer;
use map_calls::{Pieces, answer_call};
use map_questions::{Call, CallRequest};
use map_sessions::Host;
use memory::NoMemory;
use session_lines::Service;
use std::alloc::Global;

/// What a request for the policy or the trail is answered.
fn call_if_asked<S: Service>(
    heap: Global,
    host: &Host,
    service: &mut S,
    pieces: &mut Pieces<S::Memory>,
    call: Call,
    request: &Request<Bytes>,
) -> Result<Answer<Global>, NoMemory>
    ensures { RespondsCalling S.subject_of S.serves (place_of host.now) call request.now
        (answered result) service.old service.new pieces.old pieces.new }
{
    let asked = match who_asks(host, request) {
        Ok(asked) => asked,
        Err(why) => return decline_answer(heap, why),
    };
    let said = CallRequest {
        query: query_in(request.uri()),
        media: media_in(request.headers()),
        body: request.body().as_slice(),
    };
    answer_call(
        heap,
        host,
        asked.asker,
        service,
        pieces,
        asked.action,
        call,
        &said,
    )
}

/// Answers a request for the policy or the trail, as `answer_call` does for who asks. 421, 405, 403,
/// 401 and 400 come as `answer_changing` has them; what only reads may come from any origin.
/// `response` is to be blank. Where there is no memory for the answer, it says 503 and no more; what
/// was asked for may have been done then.
pub fn answer_calling<S: Service>(
    heap: Global,
    host: &Host,
    service: &mut S,
    pieces: &mut Pieces<S::Memory>,
    call: Call,
    request: &Request<Bytes>,
    response: &mut Response,
)
    requires { IsBlank response.old }
    ensures { AnswersCalling S.subject_of S.serves (place_of host.now) call request.now
        service.old service.new pieces.old pieces.new response.new }
{
    let told = call_if_asked(heap, host, service, pieces, call, request);
    respond(heap, host, Route::Calling(call), request, told, response);
}
