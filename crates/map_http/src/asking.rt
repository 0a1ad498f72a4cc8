//! Whether a request counts, and for whom.

ghost use Rattle.std.specs.Prelude.{◌≡◌, IfOk, None};
ghost use Rattle.http.specs.Request.{head_of};
ghost use Rattle.map_answers.specs.Answers.{answer_data};
ghost use Rattle.map_answers.specs.Problems.{problem_data};
ghost use Rattle.map_http.specs.Asking.{asked, asked_by, decline_data, taken};
ghost use Rattle.map_sessions.specs.Visiting.{place_of};

use crate::askers::{AskerFault, asker_in};
use crate::hosts::{is_for, is_from_here};
use crate::parts::action_of;
use bytes::Bytes;
use features::Name;
use http::Request;
use map_answers::{Answer, Problem, Status, problem_answer};
use map_questions::Action;
use map_sessions::Host;
use memory::NoMemory;
use std::alloc::Global;

/// A request that counts.
#[derive(Clone, Copy, Debug)]
pub(crate) struct Asked {
    /// What its method does.
    pub(crate) action: Action,
    /// Who asks; `None` where nobody says it.
    pub(crate) asker: Option<Name>,
}

/// Why a request does not count.
#[derive(Clone, Copy, Debug)]
pub(crate) enum Decline {
    /// It is for another host.
    Host,
    /// Its method is not served.
    Method,
    /// It would change something, and comes from a page of another origin.
    Origin,
    /// It cannot be told who asks.
    Asker(AskerFault),
}

/// A request that counts for who asks.
fn asked_by(action: Action, asker: Result<Option<Name>, AskerFault>) -> Result<Asked, Decline>
    ensures { result ≡ asked_by action asker }
{
    match asker {
        Ok(asker) => Ok(Asked { action, asker }),
        Err(fault) => Err(Decline::Asker(fault)),
    }
}

/// What is asked by a method that is served, for this host.
fn taken(host: &Host, action: Action, request: &Request<Bytes>) -> Result<Asked, Decline>
    ensures { result ≡ taken (place_of host.now) action (head_of request.now) }
{
    match action {
        Action::Read => asked_by(action, asker_in(host, request.headers())),
        Action::Change(_) => {
            if !is_from_here(host.site.base, request) {
                return Err(Decline::Origin);
            }
            asked_by(action, asker_in(host, request.headers()))
        }
    }
}

/// What a request asks, and for whom; or, the first in this order: that it is for another host than
/// that of `host.site.base` or the machine itself; that its method is not served at all; that it
/// would change something and comes from a page of another origin; that it cannot be told who asks.
pub(crate) fn who_asks(host: &Host, request: &Request<Bytes>) -> Result<Asked, Decline>
    ensures { result ≡ asked (place_of host.now) (head_of request.now) }
{
    if !is_for(host.site.base, request) {
        return Err(Decline::Host);
    }
    match action_of(request.method()) {
        Some(action) => taken(host, action, request),
        None => Err(Decline::Method),
    }
}

/// The answer to a request that is declined with this code.
fn refuse(heap: Global, status: Status, code: &'static str) -> Result<Answer<Global>, NoMemory>
    ensures { IfOk result (λ answer. answer_data answer ≡ problem_data status code.now None) }
{
    problem_answer(
        heap,
        &Problem {
            status,
            code,
            retry_after: None,
        },
    )
}

/// The answer to a request that does not count.
pub(crate) fn decline_answer(heap: Global, why: Decline) -> Result<Answer<Global>, NoMemory>
    ensures { IfOk result (λ answer. answer_data answer ≡ decline_data why) }
{
    match why {
        Decline::Host => refuse(heap, Status::MisdirectedRequest, "host"),
        Decline::Method => refuse(heap, Status::MethodNotAllowed, "method"),
        Decline::Origin => refuse(heap, Status::Forbidden, "origin"),
        Decline::Asker(AskerFault::Field) => refuse(heap, Status::BadRequest, "field"),
        Decline::Asker(AskerFault::Unknown) => refuse(heap, Status::Unauthorized, "H1"),
    }
}
