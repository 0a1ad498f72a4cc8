//! Sessions that can be set aside, and go on with another hall.

ghost use Rattle.std.specs.Prelude.{◌≡◌, IfOk, length};

use crate::lasting::{HallRecords, Lasting, barrier};
use crate::turns::Turn;
use crate::workers::Connection;
use byte_streams::let_go;
use credentials::Key;
use features::Name;
use hall::{Hall, HallName, NoPause, Seat, View};
use hall_sessions::Attended;
use log::{Log, warn};
use map_metrics::Tally;
use memory::{GrowVec, NoMemory, buffered, try_extend};
use session_lines::{Reply, Service, Sitting, serve_on};
use std::alloc::Global;
use std::io;
use std::io::{ErrorKind, Read, Write};
use std::os::unix::net::UnixStream;
use std::sync::atomic::{AtomicU64, Ordering};
use std::sync::{Mutex, Wait};
use std::time::Duration;

/// For how many milliseconds a read waits before it is looked whether the turn is ending. A client
/// that sends nothing for so long is silent.
const LONG: u64 = 1_000;

/// For how many milliseconds a read waits before that is looked at again, once the turn is ending.
const SHORT: u64 = 20;

/// The most bytes of replies that are kept for a client that does not take them while halls change.
const KEPT_LIMIT: usize = 16_777_216;

/// A session between two reads of its stream: what a hall has to know to go on with it.
#[derive(Drop)]
pub struct Session {
    stream: UnixStream,
    sitting: Sitting<Global>,
    /// The subject's name, from HELLO on.
    name: Option<Name>,
    /// For how many milliseconds a read or a write may wait in all; 0 sets no bound.
    patience: u64,
    /// Replies that its client has not taken yet, and how many of their bytes it has taken.
    kept: Vec<u8>,
    taken: usize,
}

/// How the serving of a session has ended in a hall.
enum Served {
    /// The session has ended.
    Ended,
    /// It goes on in the next hall.
    SetAside,
    /// It has ended by the fault of this code.
    Failed(&'static str),
}

impl Session {
    /// A session that has not begun. Its reads and writes wait for `idle` seconds at most, each; 0
    /// and `None` set no bound.
    pub fn new(heap: Global, stream: UnixStream, idle: Option<u64>) -> Result<Self, NoMemory> {
        let patience = match idle {
            None => 0,
            Some(seconds) => seconds.saturating_mul(1_000),
        };
        Ok(Session {
            stream,
            sitting: Sitting::new(heap)?,
            name: None,
            patience,
            kept: Vec::new(heap),
            taken: 0,
        })
    }
}

/// Reads a session's stream. A read is broken off, so that the session can be set aside, where the
/// turn is over, or where it is ending and the client is silent or takes no reply.
#[derive(Drop)]
struct GuestReader<'a> {
    stream: &'a UnixStream,
    turn: &'a Turn,
    patience: u64,
    /// Not 0 where the client takes no replies.
    stuck: &'a AtomicU64,
    /// For how many milliseconds the stream's reads wait; 0 where that is not set yet.
    set: u64,
    /// Whether a read was broken off.
    broken_off: bool,
}

impl GuestReader<'_> {
    /// For how many milliseconds the next read waits.
    fn wait(&self, waited: u64) -> u64 {
        let wait = if self.turn.is_ending() { SHORT } else { LONG };
        if self.patience == 0 {
            return wait;
        }
        wait.min(self.patience.saturating_sub(waited)).max(1)
    }
}

impl Read for GuestReader<'_> {
    fn read(&mut self, buffer: &mut [u8]) -> io::Result<usize> {
        let mut waited: u64 = 0;
        for _ in 0..u64::MAX {
            if self.turn.is_over() || self.stuck.load(Ordering::SeqCst) != 0 {
                break;
            }
            let wait = self.wait(waited);
            if wait != self.set {
                let timeout = Duration::from_millis(wait);
                self.stream.set_read_timeout(Some(timeout))?;
                self.set = wait;
            }
            let mut stream = self.stream;
            match stream.read(buffer) {
                Err(error) if error.kind() == ErrorKind::WouldBlock => {
                    waited = waited.saturating_add(wait);
                    if self.patience != 0 && waited >= self.patience {
                        return Err(error);
                    }
                    if self.turn.is_ending() && waited >= LONG {
                        break;
                    }
                }
                read => return read,
            }
        }
        self.broken_off = true;
        Err(ErrorKind::Other.into())
    }
}

/// Writes to a session's stream, and counts the bytes in the turn. Where the turn is ending and the
/// client takes nothing, the bytes are kept with the session.
#[derive(Drop)]
struct GuestWriter<'a> {
    stream: &'a UnixStream,
    turn: &'a Turn,
    patience: u64,
    kept: &'a mut Vec<u8>,
    /// Not 0 where the client takes no replies.
    stuck: &'a AtomicU64,
}

impl GuestWriter<'_> {
    /// Keeps bytes with the session. An error where there are too many, or no memory for them.
    fn keep(&mut self, bytes: &[u8]) -> io::Result<usize>
        ensures { IfOk result (λ count. count ≡ length bytes.now) }
    {
        let many = self.kept.len().saturating_add(bytes.len()) > KEPT_LIMIT;
        if many || try_extend(self.kept, bytes).is_err() {
            return Err(ErrorKind::Other.into());
        }
        self.stuck.store(1, Ordering::SeqCst);
        Ok(bytes.len())
    }
}

impl Write for GuestWriter<'_> {
    fn write(&mut self, bytes: &[u8]) -> io::Result<usize> {
        if !self.kept.is_empty() {
            return self.keep(bytes);
        }
        let mut waited: u64 = 0;
        for _ in 0..u64::MAX {
            let mut stream = self.stream;
            match stream.write(bytes) {
                Ok(count) => {
                    self.turn.count(count);
                    return Ok(count);
                }
                Err(error) if error.kind() == ErrorKind::WouldBlock => {
                    waited = waited.saturating_add(LONG);
                    if self.patience != 0 && waited >= self.patience {
                        return Err(error);
                    }
                    if self.turn.is_ending() {
                        return self.keep(bytes);
                    }
                }
                Err(error) => return Err(error),
            }
        }
        Err(ErrorKind::Other.into())
    }

    fn flush(&mut self) -> io::Result<()> {
        let mut stream = self.stream;
        stream.flush()
    }
}

/// The sessions that are set aside for the next hall. Those that had a worker get one again before
/// the others.
#[derive(Drop)]
pub struct Aside {
    served: Vec<Session>,
    /// Those that waited for a worker, the first one first.
    queued: Vec<Session>,
}

impl Aside {
    /// No sessions.
    pub fn none(heap: Global) -> Self {
        Aside {
            served: Vec::new(heap),
            queued: Vec::new(heap),
        }
    }

    /// Whether there are none.
    pub fn is_empty(&self) -> bool {
        self.served.is_empty() && self.queued.is_empty()
    }

    /// Turns those that waited around, so that `next` gives the first of them first.
    pub fn in_order(self) -> Self {
        let Aside { served, queued } = self;
        let mut queued = queued;
        queued.reverse();
        Aside { served, queued }
    }

    /// One that had a worker; else one that waited.
    pub fn next(&mut self) -> Option<Session> {
        match self.served.pop() {
            Some(session) => Some(session),
            None => self.queued.pop(),
        }
    }

    /// Adds a session. `NoMemory`, and the session is dropped, where there is none for it.
    fn add(&mut self, session: Session, was_served: bool) -> Result<(), NoMemory> {
        let sessions = if was_served {
            &mut self.served
        } else {
            &mut self.queued
        };
        sessions.make_slot()?;
        sessions.push_reserved(session);
        Ok(())
    }
}

/// A session that a hall serves while its turn lasts.
#[derive(Drop)]
pub struct Guest<'t> {
    pub session: Session,
    /// The keys of those who may begin a session; with none, HELLO is believed.
    pub keys: &'t [Key],
    pub turn: &'t Turn,
    pub aside: &'t Mutex<Aside>,
    /// What is counted, if anything is.
    pub tally: Option<&'t Tally>,
}

/// Sets a session aside for the next hall.
fn set_aside<R: Wait + Log>(rt: &R, aside: &Mutex<Aside>, session: Session, was_served: bool) {
    if aside.lock(rt).add(session, was_served).is_err() {
        warn!(rt; target: "landmap", "a session ended by X12");
    }
}

/// Gives a session that has begun elsewhere a seat of its subject. Whether it has one, or has not
/// begun.
fn resume<S: Service>(service: &mut S, name: Option<Name>) -> bool {
    let Some(name) = name else {
        return true;
    };
    match service.hello(name) {
        Reply::Hello(_) => true,
        _ => false,
    }
}

impl Session {
    /// Writes out what its client had not taken. `None` where all of it is written.
    fn catch_up(&mut self, turn: &Turn) -> Option<Served> {
        let mut waited: u64 = 0;
        for _ in 0..u64::MAX {
            let Some(bytes) = self.kept.as_slice().get(self.taken..) else {
                break;
            };
            if bytes.is_empty() {
                break;
            }
            let mut stream = &self.stream;
            match stream.write(bytes) {
                Ok(count) => {
                    turn.count(count);
                    self.taken = self.taken.saturating_add(count.max(1));
                    waited = 0;
                }
                Err(error) if error.kind() == ErrorKind::Interrupted => {}
                Err(error) if error.kind() == ErrorKind::WouldBlock => {
                    waited = waited.saturating_add(LONG);
                    if self.patience != 0 && waited >= self.patience {
                        return Some(Served::Failed("V2"));
                    }
                    if turn.is_ending() {
                        return Some(Served::SetAside);
                    }
                }
                Err(_) => return Some(Served::Failed("V2")),
            }
        }
        self.kept.clear();
        self.taken = 0;
        None
    }

    /// Serves it until it ends or is set aside. One that has begun in another hall first gets a seat
    /// of its subject.
    fn serve<'h, L: HallName, H: Wait + Drop, R: Wait>(
        &mut self,
        rt: &R,
        heap: Global,
        hall: &'h Hall<L, H, Global>,
        seats: &mut Vec<Seat<'h, L, H, Global>>,
        view: &mut View<L>,
        lasting: Option<Lasting<'_>>,
        keys: &[Key],
        turn: &Turn,
        tally: Option<&Tally>,
    ) -> Served {
        if let Some(served) = self.catch_up(turn) {
            return served;
        }
        let stuck = AtomicU64::new(0);
        let records = HallRecords::of(rt, hall, lasting);
        let counted = GuestWriter {
            stream: &self.stream,
            turn,
            patience: self.patience,
            kept: &mut self.kept,
            stuck: &stuck,
        };
        let Ok(mut writer) = buffered(heap, barrier(rt, &records, lasting, counted)) else {
            return Served::Failed("V4");
        };
        let mut pause = NoPause;
        let mut attended = Attended::new(rt, hall, seats, view, &mut pause, true, keys, tally);
        if !resume(&mut attended, self.name) {
            let _ = let_go(writer);
            return Served::Failed("H2");
        }
        let mut reader = GuestReader {
            stream: &self.stream,
            turn,
            patience: self.patience,
            stuck: &stuck,
            set: 0,
            broken_off: false,
        };
        let sitting = &mut self.sitting;
        let ended = serve_on(heap, sitting, &mut attended, &mut reader, &mut writer);
        self.name = attended.subject().map(|subject| subject.name);
        match ended {
            Ok(_) => Served::Ended,
            Err(fault) => {
                let _ = let_go(writer);
                if reader.broken_off {
                    Served::SetAside
                } else {
                    Served::Failed(fault.code())
                }
            }
        }
    }
}

impl Connection for Guest<'_> {
    fn serve<'h, L: HallName, H: Wait + Drop, R: Wait + Log>(
        self,
        rt: &R,
        heap: Global,
        hall: &'h Hall<L, H, Global>,
        seats: &mut Vec<Seat<'h, L, H, Global>>,
        view: &mut View<L>,
        lasting: Option<Lasting<'_>>,
    ) {
        let Guest {
            session,
            keys,
            turn,
            aside,
            tally,
        } = self;
        let mut session = session;
        let is_served = !turn.is_over();
        turn.enter();
        let served = session.serve(rt, heap, hall, seats, view, lasting, keys, turn, tally);
        turn.leave();
        match served {
            Served::Ended => {}
            Served::SetAside => set_aside(rt, aside, session, is_served),
            Served::Failed(code) => {
                warn!(rt; target: "landmap", "a session ended by {code}");
            }
        }
    }

    fn turn_away<R: Wait + Log>(self, rt: &R) {
        let Guest { session, aside, .. } = self;
        set_aside(rt, aside, session, false);
    }
}
