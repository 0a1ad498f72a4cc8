//! A server whose halls follow one another.

ghost use Rattle.std.specs.Prelude.{◌≡◌, IfOk};
ghost use Rattle.features.specs.Rows.{IsSortedById};
ghost use Rattle.chronicle.specs.Chronicles.{Opening};
ghost use Rattle.server.specs.Relays.{Follows, IsRelayed, IsTerm, LedTo};
ghost use Rattle.server.specs.Served.{opening_of};

use crate::faults::ServerFault;
use crate::keeping::{Begins, Restored, StoreFault};
use crate::streams::{opened, serve_tended, views_of};
use credentials::Key;
use crossbeam_channel::{Receiver, RecvTimeoutError};
use features::Subjects;
use hall::{Closed, Hall, HallName, LEDGER_PARTS, LeaveFault, Left, Seat, Unnamed};
use hall_workers::{Aside, Guest, Lasting, Reception, Session, Turn};
use log::{Log, warn};
use map_metrics::Tally;
use std::alloc::Global;
use std::marker::Brand;
use std::os::unix::net::UnixStream;
use std::sync::{Mutex, Wait};
use std::thread;
use std::thread::Threads;
use std::time::{Clock, Duration};
use world::FeatureLimit;

/// For how many milliseconds it is waited for a connection before it is looked whether the turn is
/// over.
const PAUSE: u64 = 20;

/// The pause, in seconds, before a hall whose state found no memory is asked again.
const MEMORY_PAUSE: u64 = 1;

/// What comes to a hall: the sessions that were set aside by the hall before it, and then new
/// connections, until its turn is over or nobody new comes to the server.
#[derive(Drop)]
struct Coming<'t, R: Wait + Clock + Log> {
    rt: &'t R,
    heap: Global,
    waiting: Aside,
    arrivals: &'t Receiver<UnixStream>,
    idle: Option<u64>,
    keys: &'t [Key],
    turn: &'t Turn,
    aside: &'t Mutex<Aside>,
    tally: Option<&'t Tally>,
    left: u64,
}

impl<'t, R: Wait + Clock + Log> Coming<'t, R> {
    /// The next session: one that waits, or one of a new connection.
    fn next_session(&mut self) -> Option<Session>
        ensures { self.new.left ≡ self.old.left }
    {
        if let Some(session) = self.waiting.next() {
            return Some(session);
        }
        for _ in self.rt.forever() {
            if self.turn.is_over() {
                return None;
            }
            let pause = Duration::from_millis(PAUSE);
            match self.arrivals.recv_timeout(self.rt, pause) {
                Ok(stream) => match Session::new(self.heap, stream, self.idle) {
                    Ok(session) => return Some(session),
                    Err(_) => {
                        let rt = self.rt;
                        warn!(rt; target: "landmap", "a session ended by V4");
                    }
                },
                Err(RecvTimeoutError::Timeout) => {}
                Err(RecvTimeoutError::Disconnected) => {
                    self.turn.close();
                    return None;
                }
            }
        }
        unreachable!()
    }
}

impl<'t, R: Wait + Clock + Log> Iterator for Coming<'t, R> {
    ghost use Rattle.std.specs.Iterator.{at_most};

    type Item = Guest<'t>;

    ghost remaining = { λ coming. at_most coming.left };

    fn next(&mut self) -> Option<Guest<'t>> {
        if self.left == 0 {
            return None;
        }
        self.left -= 1;
        let session = self.next_session()?;
        Some(Guest {
            session,
            keys: self.keys,
            turn: self.turn,
            aside: self.aside,
            tally: self.tally,
        })
    }
}

/// Closes a hall, and returns its account and the state for the next one. Where there is no memory
/// for that state, it is tried again, with a pause.
fn left<'h, L: HallName, H: Wait + Drop, R: Wait + Clock + Log>(
    rt: &R,
    hall: &'h Hall<L, H, Global>,
    seats: Vec<Seat<'h, L, H, Global>>,
) -> Result<Left<Global>, ServerFault>
    requires parts { L.parts ≡ LEDGER_PARTS }
    ensures term { IfOk result (λ left. IsTerm L.opening left.closed left.base) }
    ensures sorted { IfOk result (λ left. IsSortedById left.base.features) }
{
    let mut seats = seats;
    for _ in rt.forever() {
        match hall.leave(rt, seats) {
            Ok(left) => return Ok(left),
            Err((LeaveFault::Close(fault), _seats)) => return Err(ServerFault::Close(fault)),
            Err((LeaveFault::State(fault), back)) => {
                warn!(rt; target: "landmap", "the next hall waits for memory: {fault}");
                thread::sleep(rt, Duration::from_secs(MEMORY_PAUSE));
                seats = back;
            }
        }
    }
    unreachable!()
}

/// What the halls of a server have in common.
#[derive(Clone, Copy)]
pub(crate) struct Relay<'a, 'w> {
    pub(crate) heap: Global,
    pub(crate) workers: usize,
    pub(crate) features: FeatureLimit,
    pub(crate) lasting: Option<Lasting<'a>>,
    /// New connections. Their sender is dropped when nobody new comes.
    pub(crate) arrivals: &'a Receiver<UnixStream>,
    /// For how many seconds a session may wait for its client.
    pub(crate) idle: Option<u64>,
    /// The keys of those who may begin a session of lines.
    pub(crate) keys: &'a [Key],
    /// After how many records a hall gives way.
    pub(crate) records: u64,
    /// Where connections of HTTP are received, if they are.
    pub(crate) reception: Option<&'w Reception<'w>>,
}

/// How many workers answer by HTTP.
fn web_workers(reception: Option<&Reception<'_>>) -> usize {
    match reception {
        Some(reception) => reception.workers,
        None => 0,
    }
}

/// What is counted, where HTTP is answered, by which it is read.
fn tally_of<'w>(reception: Option<&'w Reception<'w>>) -> Option<&'w Tally> {
    match reception {
        Some(reception) => Some(reception.tally),
        None => None,
    }
}

/// What a hall leaves.
#[derive(Drop)]
struct Term {
    left: Left<Global>,
    /// The sessions that go on in the next hall.
    aside: Aside,
    /// Whether nobody new comes to the server.
    closing: bool,
}

/// Opens a hall of the name `L`, serves what comes until its turn is over or all sessions have ended,
/// and closes it.
fn hold<L: HallName + Send + Sync, H, R>(
    rt: &R,
    own: H,
    unnamed: Unnamed<Global>,
    relay: Relay<'_, '_>,
    subjects: Subjects,
    begins: Begins,
    waiting: Aside,
) -> Result<Term, ServerFault>
where
    H: Wait + Drop + Send,
    R: Threads + Wait + Clock + Log + Sync,
    requires name { unnamed.ledger.name ≡ L.name }
    requires parts { (unnamed.ledger.parts ≡ L.parts) × (L.parts ≡ LEDGER_PARTS) }
    requires list { unnamed.list ≡ L.book }
    requires states { unnamed.states ≡ L.states }
    requires opening { L.opening ≡ opening_of subjects begins }
    ensures term { IfOk result (λ term. IsTerm L.opening term.left.closed term.left.base) }
    ensures sorted { IfOk result (λ term. IsSortedById term.left.base.features) }
{
    let Relay {
        heap,
        workers,
        features,
        lasting,
        arrivals,
        idle,
        keys,
        records,
        reception,
    } = relay;
    let all_workers = workers.saturating_add(web_workers(reception));
    let hall = opened::<L, H>(own, heap, unnamed, subjects, begins, all_workers, features)?;
    let turn = Turn::new(records);
    let aside = Mutex::new(Aside::none(heap));
    let coming = Coming {
        rt,
        heap,
        waiting,
        arrivals,
        idle,
        keys,
        turn: &turn,
        aside: &aside,
        tally: tally_of(reception),
        left: u64::MAX,
    };
    let views = views_of(rt, heap, &hall, workers)?;
    let web = match reception {
        Some(reception) => Some((reception, views_of(rt, heap, &hall, reception.workers)?)),
        None => None,
    };
    let seats = serve_tended(rt, heap, &hall, views, lasting, Some(&turn), web, coming)?;
    if let Some(lasting) = lasting {
        lasting.finish(rt, &hall);
    }
    Ok(Term {
        left: left(rt, &hall, seats)?,
        aside: aside.into_inner().in_order(),
        closing: turn.is_closing(),
    })
}

/// The same subjects.
fn same_subjects(subjects: &Subjects) -> Subjects
    ensures { result ≡ subjects.now }
{
    let Ok(copy) = Subjects::new(subjects.as_slice()) else {
        unreachable!()
    };
    copy
}

/// How many records had a number before the first one of a world that begins so.
fn rolled_before(begins: &Begins) -> u64 {
    match begins {
        Begins::Document(_) => 0,
        Begins::State(restored) => restored.rolled(),
    }
}

/// What follows a hall.
#[derive(Drop)]
struct Next {
    begins: Begins,
    /// The records and the seats of all halls so far.
    account: Closed,
    waiting: Aside,
    closing: bool,
}

/// What follows a hall that has left this, behind halls of this account, before whose first record
/// `before` records had a number. Q4 where the numbers of records are at their end.
fn behind(term: Term, account: Closed, before: u64) -> Result<Next, ServerFault>
    requires { IsSortedById term.left.base.features }
    ensures { IfOk result (λ next. Follows account term.left.closed term.left.base next.begins
        next.account) }
{
    let Term {
        left: Left { closed, base },
        aside,
        closing,
    } = term;
    let no_number = ServerFault::Store(StoreFault::NoNumber);
    let Some(records) = account.records.checked_add(closed.records) else {
        return Err(no_number);
    };
    let Some(seats) = account.seats.checked_add(closed.seats) else {
        return Err(no_number);
    };
    let rolled = before.saturating_add(records);
    let Some(restored) = Restored::new(base, rolled) else {
        return Err(no_number);
    };
    Ok(Next {
        begins: Begins::State(restored),
        account: Closed { records, seats },
        waiting: aside,
        closing,
    })
}

/// Holds the next hall, from this state on, and returns what follows it.
fn hold_next<H, R>(
    rt: &R,
    own: H,
    relay: Relay<'_, '_>,
    subjects: &Subjects,
    before: u64,
    next: Next,
) -> Result<Next, ServerFault>
where
    H: Wait + Drop + Send,
    R: Threads + Wait + Clock + Log + Sync,
    ensures { IfOk result (λ new. (start : Opening)
        → LedTo start (opening_of subjects.now next.begins) next.account
        → LedTo start (opening_of subjects.now new.begins) new.account) }
{
    let Next {
        begins,
        account,
        waiting,
        ..
    } = next;
    let relay = Relay {
        lasting: behind_records(relay.lasting, account.records),
        ..relay
    };
    let unnamed: Unnamed<Global> = Unnamed::new();
    let subjects = same_subjects(subjects);
    let term = hold::<Brand, H, R>(rt, own, unnamed, relay, subjects, begins, waiting)?;
    let new = behind(term, account, before)?;
    Ok(new)
}

/// The same desk, behind so many records of earlier halls.
fn behind_records(lasting: Option<Lasting<'_>>, before: u64) -> Option<Lasting<'_>> {
    let lasting = lasting?;
    Some(Lasting { before, ..lasting })
}

/// Serves what arrives in halls that follow one another, until nobody new comes and all sessions
/// have ended. Each hall is closed, and the next one begins at exactly the state that it has come
/// to. Returns how many records and seats there were in all.
pub(crate) fn serve_relay<H, R>(
    rt: &R,
    own: H,
    relay: Relay<'_, '_>,
    subjects: Subjects,
    begins: Begins,
) -> Result<Closed, ServerFault>
where
    H: Wait + Copy + Drop + Send,
    R: Threads + Wait + Clock + Log + Sync,
    ensures { IfOk result (IsRelayed (opening_of subjects begins)) }
{
    let before = rolled_before(&begins);
    let mut next = Next {
        begins,
        account: Closed {
            records: 0,
            seats: 0,
        },
        waiting: Aside::none(relay.heap),
        closing: false,
    };
    for _ in rt.forever() {
        next = hold_next(rt, own, relay, &subjects, before, next)?;
        if next.closing && next.waiting.is_empty() {
            return Ok(next.account);
        }
    }
    unreachable!()
}
