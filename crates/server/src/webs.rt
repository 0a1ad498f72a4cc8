//! Answering HTTP beside sessions of lines.

use crate::faults::{NoMemoryForChannel, ServerFault};
use crate::streams::WORKER_LIMIT;
use credentials::Key;
use crossbeam_channel::{Receiver, Sender};
use features::Name;
use hall_workers::{Lounge, Reception};
use listeners::{Stop, WebListener, WebPlace, WebStream, wake_web};
use log::{Log, warn};
use map_calls::Pieces;
use map_metrics::Tally;
use map_pages::Site;
use map_sessions::Kept;
use std::alloc::Global;
use std::hash::RandomState;
use std::net::Net;
use std::sync::{Mutex, Wait};
use std::thread;
use std::time::{Clock, Duration};

/// For how many seconds nobody is accepted after a connection that was not accepted.
const ACCEPT_PAUSE: u64 = 1;

/// The most connections that wait for a worker and were not looked at yet.
pub(crate) const WEB_QUEUE: usize = 64;

/// The most workers for HTTP, beside at least one for sessions.
pub const WEB_WORKER_LIMIT: usize = WORKER_LIMIT - 1;

/// How HTTP is answered.
#[derive(Clone, Copy)]
pub struct Web<'a> {
    /// Where.
    pub place: WebPlace<'a>,
    /// What the pages speak of.
    pub site: &'a Site<'a>,
    /// Who asks where nobody says it.
    pub anonymous: Option<Name>,
    /// By which requests say who asks.
    pub keys: &'a [Key],
    /// Whether a proxy says who asks, by the field `landmap-subject`: only where no client reaches
    /// the place.
    pub trusted_field: bool,
    /// The subject that may read what is counted, if there is one.
    pub metrics: Option<Name>,
    /// What is counted.
    pub tally: &'a Tally,
    /// Drawn anew for each server.
    pub random: RandomState,
    /// How many connections are answered side by side, from 1 to `WEB_WORKER_LIMIT`; any other
    /// number is taken as the nearest of these.
    pub workers: usize,
    /// Within how many milliseconds a client sends a whole request, and takes some bytes of an
    /// answer.
    pub patience: u64,
}

/// What outlasts the halls of a server that answers HTTP.
#[derive(Drop)]
pub(crate) struct WebRoom<'a> {
    web: Option<&'a Web<'a>>,
    lounge: Lounge,
    kept: Mutex<Kept<Global>>,
    pieces: Mutex<Pieces<Global>>,
}

impl<'a> WebRoom<'a> {
    /// Nobody is here yet.
    pub(crate) fn new(heap: Global, web: Option<&'a Web<'a>>) -> Result<Self, ServerFault> {
        let Ok(lounge) = Lounge::new(heap) else {
            return Err(ServerFault::Channel(NoMemoryForChannel::seen()));
        };
        Ok(WebRoom {
            web,
            lounge,
            kept: Mutex::new(Kept::new(heap)),
            pieces: Mutex::new(Pieces::new(heap)),
        })
    }

    /// Where what arrives is received, if HTTP is wanted.
    pub(crate) fn reception(&'a self, arrivals: &'a Receiver<WebStream>) -> Option<Reception<'a>> {
        let web = self.web?;
        Some(Reception {
            site: web.site,
            anonymous: web.anonymous,
            keys: web.keys,
            trusted_field: web.trusted_field,
            metrics: web.metrics,
            tally: web.tally,
            kept: &self.kept,
            pieces: &self.pieces,
            random: web.random,
            patience: web.patience,
            lounge: &self.lounge,
            arrivals,
            workers: web.workers.clamp(1, WEB_WORKER_LIMIT),
        })
    }
}

/// Accepts connections of HTTP and sends them on, until the server is told to accept no more, or
/// nobody receives them. Then nobody listens any more. One that waits for a connection sees it with
/// the next one.
pub(crate) fn accept_web<R: Wait + Clock + Log>(
    rt: &R,
    listener: WebListener,
    stop: &Stop,
    to: Sender<WebStream>,
) {
    for _ in rt.forever() {
        if stop.is_asked() {
            return;
        }
        let accepted = listener.accept();
        if stop.is_asked() {
            return;
        }
        match accepted {
            Ok(stream) => {
                if to.send(rt, stream).is_err() {
                    return;
                }
            }
            Err(error) => {
                warn!(rt; target: "landmap", "a connection was not accepted: {error}");
                thread::sleep(rt, Duration::from_secs(ACCEPT_PAUSE));
            }
        }
    }
    unreachable!()
}

/// Wakes the thread that accepts connections of HTTP, if there is one.
pub(crate) fn wake<R: Net>(rt: &R, web: Option<&Web<'_>>) {
    if let Some(web) = web {
        wake_web(rt, web.place);
    }
}
