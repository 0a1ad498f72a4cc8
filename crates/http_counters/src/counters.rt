//! Where requests are answered.

ghost use Rattle.std.specs.Prelude.{◌≡◌, IfOk};
ghost use Rattle.http_server.specs.Response.{IsBlank};
ghost use Rattle.http_counters.specs.Counters.{AnswersAt, IsTextFor, route_at};
ghost use Rattle.map_http.specs.declared.routes.Route.TheVariants.{Calling, Reading};
ghost use Rattle.map_sessions.specs.Visiting.{place_of};

use bytes::Bytes;
use features::Name;
use http::Request;
use http_server::{Response, Service};
use map_calls::{Call, Pieces};
use map_http::{
    Route, answer_calling, answer_changing, answer_listing, answer_reading, answer_watching,
    asks_kept, route_of,
};
use map_metrics::{Tally, metrics_text};
use map_readings::Metrics;
use map_sessions::{Host, Kept};
use session_lines::Service as Session;
use std::alloc::{AllocError, Global};
use std::io;
use std::sync::{Mutex, Wait};
use std::time::{Clock, Instant};

/// Answers requests by one session, which goes on from request to request. The answers of which
/// pages are still to come are shared with other counters, so a further page may be asked for at any
/// of them; so are the pieces of the trail, and what is counted.
///
/// Counters take turns where they give a further page of an answer that is kept, and where they are
/// asked for the policy or the trail: a lock is held while such a request is answered. Searches,
/// changes and lists are answered without one here.
#[derive(Drop)]
pub struct Counter<'a, S: Session + Drop, R: Wait + Clock> {
    pub rt: &'a R,
    pub heap: Global,
    pub host: Host<'a>,
    pub session: S,
    pub kept: &'a Mutex<Kept<Global>>,
    /// What was taken out of the trail, and not let go.
    pub pieces: &'a Mutex<Pieces<S::Memory>>,
    /// What is counted: each request, by its response's status and by how long it took.
    pub tally: &'a Tally,
    /// The subject that may read what is counted, if there is one.
    pub reader: Option<Name>,
}

/// How many microseconds ago this was; 0 where the host has no time.
fn micros_since<R: Clock>(rt: &R, begun: io::Result<Instant>) -> u64 {
    let Ok(begun) = begun else {
        return 0;
    };
    match begun.elapsed(rt) {
        Ok(elapsed) => u64::try_from(elapsed.as_micros()).unwrap_or(u64::MAX),
        Err(_) => 0,
    }
}

/// The text of what is counted, for the route by which it is read; empty for any other. An error
/// where there is no memory for it.
fn text_for(heap: Global, tally: &Tally, route: Route) -> Result<Vec<u8>, AllocError>
    ensures { IfOk result (λ text. IsTextFor route text.items) }
{
    let Route::Watching = route else {
        return Ok(Vec::new(heap));
    };
    match metrics_text(heap, &tally.readings()) {
        Ok(text) => Ok(text),
        Err(_) => Err(AllocError),
    }
}

/// The route of a request.
fn route_at(reader: Option<Name>, request: &Request<Bytes>) -> Route
    ensures { result ≡ route_at reader request.now }
{
    let path = request.uri().path().as_bytes();
    route_of(reader.is_some(), request.method(), path)
}

impl<S: Session + Drop, R: Wait + Clock> Counter<'_, S, R> {
    /// Where what comes of a request is kept meanwhile. `None` where it asks for what is kept
    /// already, and where there is no memory.
    fn aside_for(&self, request: &Request<Bytes>) -> Option<Kept<Global>> {
        if asks_kept(&self.host, request) {
            return None;
        }
        match self.kept.lock(self.rt).aside() {
            Ok(aside) => Some(aside),
            Err(_) => None,
        }
    }

    /// Answers a request to read without a lock. What is kept of it stands aside until then, and is
    /// taken over.
    fn read_aside(&mut self, aside: Kept<Global>, request: &Request<Bytes>, response: &mut Response)
        requires { IsBlank response.old }
        ensures host { self.new.host ≡ self.old.host }
        ensures reader { self.new.reader ≡ self.old.reader }
        ensures answered { AnswersAt S.Memory S.subject_of S.serves (place_of self.old.host)
            self.old.reader Reading request.now self.old.session self.new.session response.new }
    {
        let mut aside = aside;
        answer_reading(
            self.heap,
            &self.host,
            &mut self.session,
            &mut aside,
            request,
            response,
        );
        if !aside.is_empty() {
            // There is room since it was made aside; a page that is not kept is told to be gone.
            let _ = self.kept.lock(self.rt).take_over(aside);
        }
    }

    /// Answers a request to read, by the answers that are kept when its turn comes.
    fn read_kept(&mut self, request: &Request<Bytes>, response: &mut Response)
        requires { IsBlank response.old }
        ensures host { self.new.host ≡ self.old.host }
        ensures reader { self.new.reader ≡ self.old.reader }
        ensures answered { AnswersAt S.Memory S.subject_of S.serves (place_of self.old.host)
            self.old.reader Reading request.now self.old.session self.new.session response.new }
    {
        let mut kept = self.kept.lock(self.rt);
        answer_reading(
            self.heap,
            &self.host,
            &mut self.session,
            &mut kept,
            request,
            response,
        );
    }

    /// Answers a request to read: a search without a lock, a further page of its answer by those
    /// that are kept.
    fn read(&mut self, request: &Request<Bytes>, response: &mut Response)
        requires { IsBlank response.old }
        ensures host { self.new.host ≡ self.old.host }
        ensures reader { self.new.reader ≡ self.old.reader }
        ensures answered { AnswersAt S.Memory S.subject_of S.serves (place_of self.old.host)
            self.old.reader Reading request.now self.old.session self.new.session response.new }
    {
        match self.aside_for(request) {
            Some(aside) => self.read_aside(aside, request, response),
            None => self.read_kept(request, response),
        }
    }

    /// Answers a request for the policy or the trail, by the pieces that are kept when its turn
    /// comes.
    fn call_for(&mut self, call: Call, request: &Request<Bytes>, response: &mut Response)
        requires { IsBlank response.old }
        ensures host { self.new.host ≡ self.old.host }
        ensures reader { self.new.reader ≡ self.old.reader }
        ensures answered { AnswersAt S.Memory S.subject_of S.serves (place_of self.old.host)
            self.old.reader (Calling call) request.now self.old.session self.new.session
            response.new }
    {
        let mut pieces = self.pieces.lock(self.rt);
        answer_calling(
            self.heap,
            &self.host,
            &mut self.session,
            &mut pieces,
            call,
            request,
            response,
        );
    }

    /// Answers a request at its route; `text` is that of what is counted, where it is asked for.
    fn answer(
        &mut self,
        route: Route,
        text: &[u8],
        request: &Request<Bytes>,
        response: &mut Response,
    )
        requires blank { IsBlank response.old }
        requires text { IsTextFor route text.now }
        ensures host { self.new.host ≡ self.old.host }
        ensures reader { self.new.reader ≡ self.old.reader }
        ensures answered { AnswersAt S.Memory S.subject_of S.serves (place_of self.old.host)
            self.old.reader route request.now self.old.session self.new.session response.new }
    {
        match route {
            Route::Reading => self.read(request, response),
            Route::Changing => {
                answer_changing(self.heap, &self.host, &mut self.session, request, response);
            }
            Route::Listing => {
                answer_listing(self.heap, &self.host, &mut self.session, request, response);
            }
            Route::Watching => {
                let reader = self.reader;
                let metrics = Metrics { reader, text };
                answer_watching(self.heap, &self.host, &metrics, request, response);
            }
            Route::Calling(call) => self.call_for(call, request, response),
        }
    }
}

impl<S: Session + Drop, R: Wait + Clock> Service for Counter<'_, S, R> {
    ghost use Rattle.http_counters.specs.Counters.{AnswersAtCounter};

    ghost answers = { λ old request response new. (new.host ≡ old.host)
        × (new.reader ≡ old.reader)
        × AnswersAtCounter S.Memory S.subject_of S.serves (place_of old.host) old.reader request
        old.session new.session response };

    /// Answers a request at its route, and counts it.
    fn call(
        &mut self,
        request: &Request<Bytes>,
        response: &mut Response,
    ) -> Result<(), AllocError> {
        let begun = Instant::now(self.rt);
        let route = route_at(self.reader, request);
        let text = text_for(self.heap, self.tally, route)?;
        self.answer(route, text.as_slice(), request, response);
        let micros = micros_since(self.rt, begun);
        self.tally.count_response(response.status.as_u16(), micros);
        Ok(())
    }
}
