//! Streams from any source, served by threads.

ghost use Rattle.std.specs.Prelude.{◌≡◌, IfOk};
ghost use Rattle.std.specs.Iterator.{IsFinite};
ghost use Rattle.std.specs.Thread.{IsSend, IsSync};
ghost use Rattle.server.specs.Served.{IsServed, opening_of};

use crate::faults::{NoMemoryForChannel, ServerFault};
use crate::keeping::Begins;
use crossbeam_channel::{Receiver, SendError, Sender, bounded};
use features::Subjects;
use hall::{Closed, Hall, HallName, LEDGER_PARTS, Pause, Seat, Unnamed, VIEW_LIMIT, View};
use hall_workers::{Caller, Connection, Lasting, Reception, Turn, receive, tend, work};
use log::{Log, warn};
use memory::{GrowVec, vec_with_slots};
use plain_world::SEAT_LIMIT;
use std::alloc::Global;
use std::io::{Read, Write};
use std::marker::Brand;
use std::sync::{Mutex, Wait};
use std::thread;
use std::thread::Threads;
use std::time::Clock;
use world::FeatureLimit;

/// The number of workers, if no other is asked for.
pub const WORKER_COUNT: usize = 4;

/// The most workers: each has a view of the policies.
pub const WORKER_LIMIT: usize = VIEW_LIMIT;

/// The most streams that wait for a worker.
pub(crate) const QUEUE: usize = 4;

/// What a server serves, and by how many threads.
#[derive(Debug, Drop)]
pub struct Serving {
    /// Who may have a seat.
    pub subjects: Subjects,
    /// At which state the world begins.
    pub begins: Begins,
    /// How many sessions are served side by side, from 1 to `WORKER_LIMIT`; any other number is
    /// taken as the nearest of these.
    pub workers: usize,
    /// The most features that there may be after an addition. A state with more is served, and no
    /// feature is added to it.
    pub features: FeatureLimit,
}

/// A channel with room for this many messages.
pub(crate) fn channel<T: Drop>(
    heap: Global,
    room: usize,
) -> Result<(Sender<T>, Receiver<T>), ServerFault> {
    match bounded(heap, room) {
        Ok(ends) => Ok(ends),
        Err(_) => Err(ServerFault::Channel(NoMemoryForChannel::seen())),
    }
}

/// Sends what comes in down a channel. What cannot be sent, since nobody receives, is turned away.
fn hand_out<R: Wait + Log, T: Connection + Drop, S: Iterator<Item = T> + Drop>(
    rt: &R,
    incoming: S,
    connections: Sender<T>,
)
    requires can { S.can_next incoming }
    requires ends { IsFinite (S.remaining incoming) }
{
    for connection in incoming {
        match connections.send(rt, connection) {
            Ok(()) => {}
            Err(SendError::Disconnected(back) | SendError::OutOfMemory(back)) => {
                back.turn_away(rt);
            }
        }
    }
}

/// Views of the policies, one for each worker.
pub(crate) fn views_of<L: HallName, H: Wait + Drop, R: Wait>(
    rt: &R,
    heap: Global,
    hall: &Hall<L, H, Global>,
    workers: usize,
) -> Result<Vec<View<L>>, ServerFault> {
    let mut views = Vec::new(heap);
    for _ in 0..workers {
        views.make_slot()?;
        views.push_reserved(hall.view(rt)?);
    }
    Ok(views)
}

/// Serves what comes in by workers, one for each view, and returns when all of it is served.
/// `NoWorker` where none of them could be started.
fn serve_all<'h, L: HallName + Send + Sync, H, R, T, S>(
    rt: &R,
    heap: Global,
    hall: &'h Hall<L, H, Global>,
    gathered: &Mutex<Vec<Seat<'h, L, H, Global>>>,
    views: Vec<View<L>>,
    lasting: Option<Lasting<'_>>,
    ends: (Sender<T>, Receiver<T>),
    incoming: S,
) -> Result<(), ServerFault>
where
    H: Wait + Drop + Send,
    R: Threads + Wait + Log + Sync,
    T: Connection + Drop + Send,
    S: Iterator<Item = T> + Drop,
    requires can { S.can_next incoming }
    requires ends { IsFinite (S.remaining incoming) }
{
    let (to, from) = ends;
    thread::scope(
        thread::scope_env(),
        rt,
        |scope|
            requires can { S.can_next incoming }
            requires ends { IsFinite (S.remaining incoming) }
            requires shares { IsSync R.row }
            requires crosses { IsSend T.row }
            requires hall { IsSend L.row × IsSend H.row }
        {
            let mut started = false;
            for view in views {
                let Ok(connections) = from.clone() else {
                    break;
                };
                if scope
                    .spawn(move || work(rt, heap, hall, gathered, connections, view, lasting))
                    .is_err()
                {
                    warn!(rt; target: "landmap", "a worker could not be started");
                    break;
                }
                started = true;
            }
            if !started {
                return Err(ServerFault::NoWorker);
            }
            // Where all workers have ended, a send now fails instead of waiting for one.
            drop(from);
            hand_out(rt, incoming, to);
            Ok(())
        },
    )
}

/// Serves what comes in by workers, one for each view, beside one thread that tends the index and
/// looks after the turn, and, if there is a turn, beside those that answer by HTTP, one for each view
/// of theirs. Returns the seats of all sessions; `NoWorker` where none of the workers could be
/// started.
pub(crate) fn serve_tended<'h, L: HallName + Send + Sync, H, R, T, S>(
    rt: &R,
    heap: Global,
    hall: &'h Hall<L, H, Global>,
    views: Vec<View<L>>,
    lasting: Option<Lasting<'_>>,
    turn: Option<&Turn>,
    web: Option<(&Reception<'_>, Vec<View<L>>)>,
    incoming: S,
) -> Result<Vec<Seat<'h, L, H, Global>>, ServerFault>
where
    H: Wait + Drop + Send,
    R: Threads + Wait + Clock + Log + Sync,
    T: Connection + Drop + Send,
    S: Iterator<Item = T> + Drop,
    requires can { S.can_next incoming }
    requires ends { IsFinite (S.remaining incoming) }
{
    let connections = channel(heap, QUEUE)?;
    let (stop, stopped) = channel::<()>(heap, 1)?;
    // All seats that a hall may give have their places before anything is served, so none of them
    // is lost at the end.
    let gathered = Mutex::new(vec_with_slots(heap, SEAT_LIMIT)?);
    let seats = &gathered;
    let served = thread::scope(
        thread::scope_env(),
        rt,
        |scope|
            requires can { S.can_next incoming }
            requires ends { IsFinite (S.remaining incoming) }
            requires shares { IsSync R.row }
            requires crosses { IsSend T.row }
            requires hall { IsSend L.row × IsSend H.row }
        {
            if scope
                .spawn(move || tend(rt, hall, stopped, lasting, turn))
                .is_err()
            {
                warn!(rt; target: "landmap", "the index is not tended");
            }
            if let (Some(turn), Some((reception, views))) = (turn, web) {
                for view in views {
                    let receives = move || receive(
                        rt, heap, hall, seats, reception, turn, view, lasting,
                    );
                    if scope.spawn(receives).is_err() {
                        warn!(rt; target: "landmap", "a worker for HTTP could not be started");
                        break;
                    }
                }
            }
            let served = serve_all(rt, heap, hall, seats, views, lasting, connections, incoming);
            // This ends the answering by HTTP, and the tending.
            if let Some(turn) = turn {
                turn.end();
            }
            drop(stop);
            served
        },
    );
    served?;
    Ok(gathered.into_inner())
}

/// Serves what comes in over an open hall, and closes it. With a desk, all records last before it
/// is closed, or the desk has failed.
fn serve_open<L: HallName + Send + Sync, H, R, T, S>(
    rt: &R,
    heap: Global,
    hall: &Hall<L, H, Global>,
    workers: usize,
    lasting: Option<Lasting<'_>>,
    incoming: S,
) -> Result<Closed, ServerFault>
where
    H: Wait + Drop + Send,
    R: Threads + Wait + Clock + Log + Sync,
    T: Connection + Drop + Send,
    S: Iterator<Item = T> + Drop,
    requires parts { L.parts ≡ LEDGER_PARTS }
    requires can { S.can_next incoming }
    requires ends { IsFinite (S.remaining incoming) }
    ensures { IfOk result (IsServed L.opening) }
{
    let views = views_of(rt, heap, hall, workers)?;
    let seats = serve_tended(rt, heap, hall, views, lasting, None, None, incoming)?;
    if let Some(lasting) = lasting {
        lasting.finish(rt, hall);
    }
    match hall.close(rt, seats) {
        Ok(closed) => Ok(closed),
        Err((fault, _seats)) => Err(ServerFault::Close(fault)),
    }
}

/// A hall of the name `L`, with a view for each worker, within this limit of features.
pub(crate) fn opened<L: HallName, H: Wait + Drop>(
    own: H,
    heap: Global,
    unnamed: Unnamed<Global>,
    subjects: Subjects,
    begins: Begins,
    workers: usize,
    features: FeatureLimit,
) -> Result<Hall<L, H, Global>, ServerFault>
    requires name { unnamed.ledger.name ≡ L.name }
    requires parts { (unnamed.ledger.parts ≡ L.parts) × (L.parts ≡ LEDGER_PARTS) }
    requires list { unnamed.list ≡ L.book }
    requires states { unnamed.states ≡ L.states }
    requires opening { L.opening ≡ opening_of subjects begins }
{
    let limits = features.limits();
    match begins {
        Begins::Document(document) => {
            match Hall::open_within(
                own, heap, heap, unnamed, subjects, document, workers, limits,
            ) {
                Ok(hall) => Ok(hall),
                Err((_document, fault)) => Err(ServerFault::Open(fault)),
            }
        }
        Begins::State(restored) => {
            let (base, rolled) = restored.into_parts();
            match Hall::open_from(
                own, heap, heap, unnamed, subjects, base, rolled, workers, limits,
            ) {
                Ok(hall) => Ok(hall),
                Err(fault) => Err(ServerFault::Open(fault)),
            }
        }
    }
}

/// Serves what comes in over a hall of the name `L`, and closes the hall.
fn serve_hall<L: HallName + Send + Sync, H, R, T, S>(
    rt: &R,
    own: H,
    heap: Global,
    unnamed: Unnamed<Global>,
    serving: Serving,
    lasting: Option<Lasting<'_>>,
    incoming: S,
) -> Result<Closed, ServerFault>
where
    H: Wait + Drop + Send,
    R: Threads + Wait + Clock + Log + Sync,
    T: Connection + Drop + Send,
    S: Iterator<Item = T> + Drop,
    requires name { unnamed.ledger.name ≡ L.name }
    requires parts { (unnamed.ledger.parts ≡ L.parts) × (L.parts ≡ LEDGER_PARTS) }
    requires list { unnamed.list ≡ L.book }
    requires states { unnamed.states ≡ L.states }
    requires opening { L.opening ≡ opening_of serving.subjects serving.begins }
    requires can { S.can_next incoming }
    requires ends { IsFinite (S.remaining incoming) }
    ensures { IfOk result (IsServed L.opening) }
{
    let Serving {
        subjects,
        begins,
        workers,
        features,
    } = serving;
    let workers = workers.clamp(1, WORKER_LIMIT);
    let hall = opened::<L, H>(own, heap, unnamed, subjects, begins, workers, features)?;
    serve_open(rt, heap, &hall, workers, lasting, incoming)
}

/// Serves streams as `serve_streams` does; where there is a desk, replies leave once the records on
/// which they rest last.
pub(crate) fn serve_lasting<H, R, T, S>(
    rt: &R,
    own: H,
    heap: Global,
    serving: Serving,
    lasting: Option<Lasting<'_>>,
    incoming: S,
) -> Result<Closed, ServerFault>
where
    H: Wait + Drop + Send,
    R: Threads + Wait + Clock + Log + Sync,
    T: Connection + Drop + Send,
    S: Iterator<Item = T> + Drop,
    requires can { S.can_next incoming }
    requires ends { IsFinite (S.remaining incoming) }
    ensures { IfOk result (IsServed (opening_of serving.subjects serving.begins)) }
{
    let unnamed: Unnamed<Global> = Unnamed::new();
    serve_hall::<Brand, H, R, T, S>(rt, own, heap, unnamed, serving, lasting, incoming)
}

/// Serves streams by workers, beside one thread that tends the index. A worker serves one stream
/// after another, each as one session to its end. Returns when all streams that came in are served.
/// A session that ends with a fault ends alone, with a warning; a stream for which there is no
/// worker is dropped, with a warning. `own` is the hall's own handle, with which it publishes
/// policies. Faults: `Channel`, `Open`, `Hall` and `NoWorker` before anything is served; `Close`
/// where the receipts of a seat are not its records, or a seat is lost.
pub fn serve_streams<'k, H, R, I, O, G, S>(
    rt: &R,
    own: H,
    heap: Global,
    serving: Serving,
    incoming: S,
) -> Result<Closed, ServerFault>
where
    H: Wait + Drop + Send,
    R: Threads + Wait + Clock + Log + Sync,
    I: Read + Drop + Send,
    O: Write + Drop + Send,
    G: Pause + Drop + Send,
    S: Iterator<Item = Caller<'k, I, O, G>> + Drop,
    requires can { S.can_next incoming }
    requires ends { IsFinite (S.remaining incoming) }
    ensures { IfOk result (IsServed (opening_of serving.subjects serving.begins)) }
{
    serve_lasting(rt, own, heap, serving, None, incoming)
}
