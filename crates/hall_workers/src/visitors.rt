//! Connections of HTTP, answered over a hall while its turn lasts.

ghost use Rattle.std.specs.Prelude.{length};
ghost use Rattle.std.specs.Io.{ReadsAtMost, WritesAtMost};

use crate::lasting::{HallRecords, Lasting, barrier};
use crate::turns::Turn;
use byte_streams::let_go;
use credentials::Key;
use crossbeam_channel::{Receiver, RecvTimeoutError, Sender, TryRecvError, bounded};
use features::Name;
use hall::{Hall, HallName, NoPause, Seat, View};
use hall_sessions::Attended;
use http_counters::Counter;
use http_server::{Config, serve};
use listeners::WebStream;
use log::{Log, warn};
use map_calls::Pieces;
use map_metrics::Tally;
use map_pages::Site;
use map_sessions::{Host, Kept};
use memory::buffered;
use std::alloc::{AllocError, Global};
use std::hash::RandomState;
use std::io;
use std::io::{ErrorKind, Read, Write};
use std::sync::atomic::{AtomicU64, Ordering};
use std::sync::{Mutex, Wait};
use std::time::{Clock, Duration, Instant};

/// The longest body of a request.
const BODY_LIMIT: usize = 131_072;

/// How many connections wait for a worker at most, beside new ones.
const LOUNGE_LIMIT: usize = 512;

/// For how many milliseconds is waited before it is looked around.
const LOOK: u64 = 20;

/// The same where other connections wait for a worker.
const GLANCE: u64 = 1;

/// The same where another worker waits for a connection, and for a write.
const LONG_LOOK: u64 = 1_000;

/// After how many reads a client makes room for others that wait, however many requests it sends.
const READS_AT_ONCE: u64 = 16;

/// A connection of HTTP between two reads.
#[derive(Drop)]
struct Visitor {
    stream: WebStream,
    connection: http_server::Connection,
    /// When it was accepted.
    begun: Instant,
    /// How many milliseconds later it got its last answer.
    answered: AtomicU64,
}

impl Visitor {
    /// A connection from which nothing was read yet.
    fn new<R: Clock>(
        rt: &R,
        heap: Global,
        stream: WebStream,
        random: RandomState,
    ) -> io::Result<Self> {
        stream.set_write_timeout(Duration::from_millis(LONG_LOOK))?;
        let config = Config {
            max_body_len: BODY_LIMIT,
            ..Config::default()
        };
        Ok(Visitor {
            stream,
            connection: http_server::Connection::new(heap, random, config),
            begun: Instant::now(rt)?,
            answered: AtomicU64::new(0),
        })
    }

    /// For how many milliseconds its client has had no answer.
    fn silence<R: Clock>(&self, rt: &R) -> u64 {
        age_since(rt, self.begun).saturating_sub(self.answered.load(Ordering::SeqCst))
    }
}

/// How many milliseconds ago it was `begun`; `u64::MAX` where the host has no time.
fn age_since<R: Clock>(rt: &R, begun: Instant) -> u64 {
    match begun.elapsed(rt) {
        Ok(elapsed) => u64::try_from(elapsed.as_millis()).unwrap_or(u64::MAX),
        Err(_) => u64::MAX,
    }
}

/// Connections that wait until a worker looks after them again: in this hall, or in the next one.
#[derive(Drop)]
pub struct Lounge {
    to: Sender<Visitor>,
    from: Receiver<Visitor>,
    /// How many workers wait for a connection.
    idle: AtomicU64,
}

impl Lounge {
    /// Nobody waits yet. An error where there is no memory for it.
    pub fn new(heap: Global) -> Result<Self, AllocError> {
        let (to, from) = bounded(heap, LOUNGE_LIMIT)?;
        Ok(Lounge {
            to,
            from,
            idle: AtomicU64::new(0),
        })
    }
}

/// Where connections of HTTP are received, and what they are answered.
#[derive(Clone, Copy)]
pub struct Reception<'a> {
    /// What the pages speak of.
    pub site: &'a Site<'a>,
    /// Who asks where nobody says it.
    pub anonymous: Option<Name>,
    /// By which requests say who asks.
    pub keys: &'a [Key],
    /// Whether a proxy says who asks, by a field of its own.
    pub trusted_field: bool,
    /// The subject that may read what is counted, if there is one.
    pub metrics: Option<Name>,
    /// What is counted, of sessions of lines too.
    pub tally: &'a Tally,
    /// The answers of which pages are still to come.
    pub kept: &'a Mutex<Kept<Global>>,
    /// What was taken out of the trail and is still to be fetched.
    pub pieces: &'a Mutex<Pieces<Global>>,
    /// Connections that wait.
    pub lounge: &'a Lounge,
    /// New connections. Their sender is dropped when nobody new comes.
    pub arrivals: &'a Receiver<WebStream>,
    /// Drawn anew for each server, for maps of header fields, whose names clients choose.
    pub random: RandomState,
    /// Within how many milliseconds a client sends its next request whole, and takes some bytes of
    /// an answer.
    pub patience: u64,
    /// How many connections are answered side by side.
    pub workers: usize,
}

/// Whether other connections wait for a worker.
fn is_crowded(lounge: &Lounge, arrivals: &Receiver<WebStream>) -> bool {
    !arrivals.is_empty() || !lounge.from.is_empty()
}

/// For how many milliseconds a read waits. As long as another worker waits for a connection, nobody
/// new waits for this one.
fn read_wait(turn: &Turn, lounge: &Lounge, arrivals: &Receiver<WebStream>) -> u64 {
    if is_crowded(lounge, arrivals) {
        GLANCE
    } else if turn.is_ending() || lounge.idle.load(Ordering::SeqCst) == 0 {
        LOOK
    } else {
        LONG_LOOK
    }
}

/// The next new connection; `None` where none comes for a while.
fn next_arrival<R: Wait + Clock>(
    rt: &R,
    turn: &Turn,
    lounge: &Lounge,
    arrivals: &Receiver<WebStream>,
) -> Result<Option<WebStream>, RecvTimeoutError> {
    let wait = if turn.is_ending() { LOOK } else { LONG_LOOK };
    lounge.idle.fetch_add(1, Ordering::SeqCst);
    let arrived = arrivals.recv_timeout(rt, Duration::from_millis(wait));
    lounge.idle.fetch_sub(1, Ordering::SeqCst);
    match arrived {
        Ok(stream) => Ok(Some(stream)),
        Err(RecvTimeoutError::Timeout) => Ok(None),
        Err(fault) => Err(fault),
    }
}

/// Reads from a connection. A read is broken off, so that the connection can wait, where the turn is
/// over, or where other connections wait, and the client is silent or has sent many pieces of
/// requests. A client that has had its time is given up, however few bytes it sends at a time.
#[derive(Drop)]
struct VisitorReader<'a, 'x, R: Clock> {
    rt: &'x R,
    stream: &'a WebStream,
    turn: &'x Turn,
    lounge: &'x Lounge,
    arrivals: &'x Receiver<WebStream>,
    patience: u64,
    /// When the connection was accepted.
    begun: Instant,
    /// How many milliseconds later it got its last answer.
    answered: &'a AtomicU64,
    /// Not 0 where bytes of an answer were written since the last read.
    written: &'a AtomicU64,
    /// How many reads got bytes while this worker looked after it.
    reads: u64,
    /// For how many milliseconds the stream's reads wait; 0 where that is not set yet.
    set: u64,
    /// Whether a read was broken off.
    broken_off: bool,
}

impl<R: Clock> VisitorReader<'_, '_, R> {
    /// Has the next read wait as long as it may.
    fn set_wait(&mut self) -> io::Result<()> {
        let wait = read_wait(self.turn, self.lounge, self.arrivals);
        if wait != self.set {
            self.stream.set_read_timeout(Duration::from_millis(wait))?;
            self.set = wait;
        }
        Ok(())
    }

    /// How many milliseconds ago the connection was accepted; `u64::MAX` where the host has no time.
    fn age(&self) -> u64 {
        age_since(self.rt, self.begun)
    }

    /// Whether the client has had its time.
    fn is_late(&self) -> bool {
        let answered = self.answered.load(Ordering::SeqCst);
        self.age().saturating_sub(answered) >= self.patience
    }

    /// Notes whether an answer was written since the last read.
    fn note_answer(&mut self) {
        if self.written.swap(0, Ordering::SeqCst) != 0 {
            self.answered.store(self.age(), Ordering::SeqCst);
        }
    }

    /// Whether the client has sent so many pieces of requests that others come first.
    fn makes_room(&self) -> bool {
        self.reads >= READS_AT_ONCE && is_crowded(self.lounge, self.arrivals)
    }
}

impl<R: Clock> Read for VisitorReader<'_, '_, R> {
    fn read(&mut self, buffer: &mut [u8]) -> io::Result<usize> {
        self.note_answer();
        if self.reads > 0 && self.is_late() {
            return Err(ErrorKind::WouldBlock.into());
        }
        for _ in 0..u64::MAX {
            if self.turn.is_over() || self.makes_room() {
                break;
            }
            self.set_wait()?;
            match self.stream.read_once(buffer) {
                Err(error) if error.kind() == ErrorKind::Interrupted => {}
                Err(error) if error.kind() == ErrorKind::WouldBlock => {
                    if self.is_late() || self.turn.is_closing() {
                        return Err(error);
                    }
                    if is_crowded(self.lounge, self.arrivals) {
                        break;
                    }
                }
                read => {
                    self.reads = self.reads.saturating_add(1);
                    return read;
                }
            }
        }
        self.broken_off = true;
        Err(ErrorKind::Other.into())
    }
}

/// How many bytes a row of an answer leaves in its record: its id and its version.
const ROW_BYTES: u64 = 16;

/// Writes to a connection, and counts the bytes in the turn, with those that answers leave in their
/// records: a page has some rows of an answer, and the record all of them. A client that takes
/// nothing for too long, or when the turn is over, is given up.
#[derive(Drop)]
struct VisitorWriter<'a, 'x> {
    stream: &'a WebStream,
    turn: &'x Turn,
    tally: &'x Tally,
    patience: u64,
    written: &'a AtomicU64,
}

impl Write for VisitorWriter<'_, '_> {
    fn write(&mut self, bytes: &[u8]) -> io::Result<usize> {
        let mut waited: u64 = 0;
        for _ in 0..u64::MAX {
            match self.stream.write_once(bytes) {
                Ok(count) => {
                    self.turn.count(count);
                    let kept = self.tally.take_rows().saturating_mul(ROW_BYTES);
                    self.turn.count(kept as usize);
                    self.written.store(1, Ordering::SeqCst);
                    return Ok(count);
                }
                Err(error) if error.kind() == ErrorKind::Interrupted => {}
                Err(error) if error.kind() == ErrorKind::WouldBlock => {
                    waited = waited.saturating_add(LONG_LOOK);
                    if waited >= self.patience || self.turn.is_over() {
                        return Err(error);
                    }
                }
                Err(error) => return Err(error),
            }
        }
        Err(ErrorKind::Other.into())
    }

    fn flush(&mut self) -> io::Result<()> {
        Ok(())
    }
}

impl Visitor {
    /// Answers its requests until it ends or is to wait; whether it is to wait.
    fn answer<'x, 'h, L: HallName, H: Wait + Drop, R: Wait + Clock>(
        &mut self,
        rt: &'x R,
        heap: Global,
        hall: &'h Hall<L, H, Global>,
        seats: &mut Vec<Seat<'h, L, H, Global>>,
        view: &mut View<L>,
        lasting: Option<Lasting<'_>>,
        reception: &'x Reception<'x>,
        turn: &'x Turn,
    ) -> bool {
        let written = AtomicU64::new(0);
        let records = HallRecords::of(rt, hall, lasting);
        let counted = VisitorWriter {
            stream: &self.stream,
            turn,
            tally: reception.tally,
            patience: reception.patience,
            written: &written,
        };
        let Ok(mut writer) = buffered(heap, barrier(rt, &records, lasting, counted)) else {
            return false;
        };
        let mut pause = NoPause;
        let mut counter = Counter {
            rt,
            heap,
            host: Host {
                site: reception.site,
                anonymous: reception.anonymous,
                keys: reception.keys,
                trusted_field: reception.trusted_field,
            },
            session: Attended::new(
                rt,
                hall,
                seats,
                view,
                &mut pause,
                true,
                &[],
                Some(reception.tally),
            ),
            kept: reception.kept,
            pieces: reception.pieces,
            tally: reception.tally,
            reader: reception.metrics,
        };
        let mut reader = VisitorReader {
            rt,
            stream: &self.stream,
            turn,
            lounge: reception.lounge,
            arrivals: reception.arrivals,
            patience: reception.patience,
            begun: self.begun,
            answered: &self.answered,
            written: &written,
            reads: 0,
            set: 0,
            broken_off: false,
        };
        let connection = &mut self.connection;
        match serve(connection, &mut counter, &mut reader, &mut writer) {
            Ok(()) => false,
            Err(_) => {
                let _ = let_go(writer);
                reader.broken_off
            }
        }
    }
}

/// A connection that was accepted, ready to be answered; `None`, with a warning, where that fails.
fn welcome<R: Wait + Clock + Log>(
    rt: &R,
    heap: Global,
    stream: WebStream,
    random: RandomState,
) -> Option<Visitor> {
    match Visitor::new(rt, heap, stream, random) {
        Ok(visitor) => Some(visitor),
        Err(error) => {
            warn!(rt; target: "landmap", "a connection was not accepted: {error}");
            None
        }
    }
}

/// The next connection of a turn that is not over: a new one, or one that waits. `None` where the
/// turn is over, and where nobody new comes.
fn next_visitor<R: Wait + Clock + Log>(
    rt: &R,
    heap: Global,
    reception: &Reception<'_>,
    turn: &Turn,
) -> Option<Visitor> {
    let lounge = reception.lounge;
    let arrivals = reception.arrivals;
    for _ in rt.forever() {
        if turn.is_over() {
            return None;
        }
        let arrived = match arrivals.try_recv(rt) {
            Ok(stream) => Some(stream),
            Err(TryRecvError::Disconnected) => return None,
            Err(TryRecvError::Empty) => {
                if let Ok(visitor) = lounge.from.try_recv(rt) {
                    return Some(visitor);
                }
                next_arrival(rt, turn, lounge, arrivals).ok()?
            }
        };
        if let Some(stream) = arrived {
            if let Some(visitor) = welcome(rt, heap, stream, reception.random) {
                return Some(visitor);
            }
        }
    }
    unreachable!()
}

/// Has a connection wait. Where as many wait as may, one is closed, with a warning: of this one and
/// the one that would be looked after next, that whose client has had no answer for longer.
fn set_aside<R: Wait + Clock + Log>(rt: &R, lounge: &Lounge, visitor: Visitor) {
    let Err(refused) = lounge.to.try_send(rt, visitor) else {
        return;
    };
    warn!(rt; target: "landmap", "a connection of HTTP was closed: too many wait");
    let visitor = refused.into_inner();
    if let Ok(next) = lounge.from.try_recv(rt) {
        let kept = if next.silence(rt) > visitor.silence(rt) {
            visitor
        } else {
            next
        };
        let _ = lounge.to.try_send(rt, kept);
    }
}

/// Answers connections of HTTP, one after another, until the turn is over or no more come, and hands
/// in the seats of their subjects. Those that have not ended by then wait for the next hall.
pub fn receive<'x, 'h, L: HallName, H: Wait + Drop, R: Wait + Clock + Log>(
    rt: &'x R,
    heap: Global,
    hall: &'h Hall<L, H, Global>,
    gathered: &Mutex<Vec<Seat<'h, L, H, Global>>>,
    reception: &'x Reception<'x>,
    turn: &'x Turn,
    view: View<L>,
    lasting: Option<Lasting<'_>>,
) {
    let mut view = view;
    let mut seats = Vec::new(heap);
    for _ in rt.forever() {
        let Some(visitor) = next_visitor(rt, heap, reception, turn) else {
            break;
        };
        let mut visitor = visitor;
        turn.enter();
        let waits = visitor.answer(
            rt, heap, hall, &mut seats, &mut view, lasting, reception, turn,
        );
        turn.leave();
        if waits {
            set_aside(rt, reception.lounge, visitor);
        }
    }
    if gathered.lock(rt).append(&mut seats).is_err() {
        warn!(rt; target: "landmap", "seats are lost");
    }
}
