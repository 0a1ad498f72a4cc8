//! Requests for how the server does.

ghost use Rattle.http_server.specs.Response.{IsBlank};
ghost use Rattle.map_answers.specs.Answers.{answered};
ghost use Rattle.map_http.specs.Watching.{AnswersWatching, IsWatched, RespondsWatching};
ghost use Rattle.map_sessions.specs.Visiting.{place_of};

use crate::asking::{Asked, Decline, decline_answer, who_asks};
use crate::requests::respond;
use crate::routes::Route;
use bytes::Bytes;
use http::Request;
use http_server::Response;
use map_answers::Answer;
use map_questions::Action;
use map_readings::{Metrics, answer_metrics};
use map_sessions::Host;
use memory::NoMemory;
use std::alloc::Global;

/// What a request that counts is answered.
fn watch(
    heap: Global,
    host: &Host,
    metrics: &Metrics,
    asked: &Asked,
) -> Result<Answer<Global>, NoMemory>
    ensures { IsWatched (place_of host.now) metrics.now.reader metrics.now.text.now asked.now
        (answered result) }
{
    match asked.action {
        Action::Read => answer_metrics(heap, asked.asker, host, metrics),
        Action::Change(_) => decline_answer(heap, Decline::Method),
    }
}

/// What a request is answered.
fn watch_if_asked(
    heap: Global,
    host: &Host,
    metrics: &Metrics,
    request: &Request<Bytes>,
) -> Result<Answer<Global>, NoMemory>
    ensures { RespondsWatching (place_of host.now) metrics.now.reader metrics.now.text.now
        request.now (answered result) }
{
    match who_asks(host, request) {
        Ok(asked) => watch(heap, host, metrics, &asked),
        Err(why) => decline_answer(heap, why),
    }
}

/// Answers a request for how the server does, as `answer_metrics` does for who asks; 405 where it is
/// no `GET` or `HEAD`. 421, 403, 401 and 400 come as `answer_changing` has them. `response` is to be
/// blank. Where there is no memory for the answer, it says 503 and no more.
pub fn answer_watching(
    heap: Global,
    host: &Host,
    metrics: &Metrics,
    request: &Request<Bytes>,
    response: &mut Response,
)
    requires { IsBlank response.old }
    ensures { AnswersWatching (place_of host.now) metrics.now.reader metrics.now.text.now
        request.now response.new }
{
    let told = watch_if_asked(heap, host, metrics, request);
    respond(heap, host, Route::Watching, request, told, response);
}
