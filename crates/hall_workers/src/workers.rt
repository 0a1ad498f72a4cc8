//! What each thread of a server does.

use crate::lasting::{HallRecords, Lasting, barrier};
use crate::turns::Turn;
use byte_streams::let_go;
use credentials::Key;
use crossbeam_channel::{Receiver, RecvTimeoutError};
use hall::{Hall, HallFault, HallName, Pause, Seat, View};
use hall_sessions::Attended;
use line_streams::ServeFault;
use log::{Log, warn};
use map_metrics::Tally;
use memory::buffered;
use session_lines::serve;
use std::alloc::Global;
use std::io::{Read, Write};
use std::sync::{Mutex, Wait};
use std::time::{Clock, Duration};

/// The pause between two rounds of tending, in milliseconds.
const PAUSE: u64 = 20;

/// After how many pauses a round over all slots of the index is asked for: 30 seconds.
const PAUSES: u32 = 1_500;

/// What a worker serves: a connection.
pub trait Connection {
    /// Serves it to its end, or until it is set aside. `seats` are those of the worker's earlier
    /// sessions, `view` is the worker's.
    fn serve<'h, L: HallName, H: Wait + Drop, R: Wait + Log>(
        self,
        rt: &R,
        heap: Global,
        hall: &'h Hall<L, H, Global>,
        seats: &mut Vec<Seat<'h, L, H, Global>>,
        view: &mut View<L>,
        lasting: Option<Lasting<'_>>,
    );

    /// What becomes of it where there is no worker for it.
    fn turn_away<R: Wait + Log>(self, rt: &R);
}

/// A stream whose session is served to its end: its reader, its writer, and the pause of its calls. A
/// fault ends its session alone, with a warning.
#[derive(Drop)]
pub struct Caller<'k, I: Read, O: Write, G: Pause> {
    pub reader: I,
    pub writer: O,
    pub pause: G,
    /// The keys of those who may begin the session; with none, HELLO is believed.
    pub keys: &'k [Key],
    /// What is counted, if anything is.
    pub tally: Option<&'k Tally>,
}

/// Serves a session whose replies are buffered. If it ends with a fault, what is left in the buffer
/// is not written.
fn serve_buffered<'h, L: HallName, H: Wait + Drop, R: Wait, I: Read, O: Write + Drop, G: Pause>(
    rt: &R,
    heap: Global,
    hall: &'h Hall<L, H, Global>,
    seats: &mut Vec<Seat<'h, L, H, Global>>,
    view: &mut View<L>,
    reader: &mut I,
    writer: O,
    pause: &mut G,
    keys: &[Key],
    tally: Option<&Tally>,
    lasting: Option<Lasting<'_>>,
) -> Result<(), ServeFault> {
    let records = HallRecords::of(rt, hall, lasting);
    let mut writer = buffered(heap, barrier(rt, &records, lasting, writer))?;
    let mut attended = Attended::new(rt, hall, seats, view, pause, false, keys, tally);
    match serve(heap, heap, &mut attended, reader, &mut writer) {
        Ok(_) => Ok(()),
        Err(fault) => {
            let _ = let_go(writer);
            Err(fault)
        }
    }
}

impl<I: Read + Drop, O: Write + Drop, G: Pause + Drop> Connection for Caller<'_, I, O, G> {
    fn serve<'h, L: HallName, H: Wait + Drop, R: Wait + Log>(
        self,
        rt: &R,
        heap: Global,
        hall: &'h Hall<L, H, Global>,
        seats: &mut Vec<Seat<'h, L, H, Global>>,
        view: &mut View<L>,
        lasting: Option<Lasting<'_>>,
    ) {
        let Caller {
            mut reader,
            writer,
            mut pause,
            keys,
            tally,
        } = self;
        let ended = serve_buffered(
            rt,
            heap,
            hall,
            seats,
            view,
            &mut reader,
            writer,
            &mut pause,
            keys,
            tally,
            lasting,
        );
        if let Err(fault) = ended {
            warn!(rt; target: "landmap", "a session ended by {fault}");
        }
    }

    fn turn_away<R: Wait + Log>(self, rt: &R) {
        warn!(rt; target: "landmap", "a connection was not served: there is no worker");
    }
}

/// Serves connections, one after another, until no more come, and hands in the seats of their
/// sessions. The sessions use the view in turn.
pub fn work<'h, L: HallName, H: Wait + Drop, R: Wait + Log, T: Connection + Drop>(
    rt: &R,
    heap: Global,
    hall: &'h Hall<L, H, Global>,
    gathered: &Mutex<Vec<Seat<'h, L, H, Global>>>,
    connections: Receiver<T>,
    view: View<L>,
    lasting: Option<Lasting<'_>>,
) {
    let mut view = view;
    let mut seats = Vec::new(heap);
    for _ in rt.forever() {
        let Ok(connection) = connections.recv(rt) else {
            break;
        };
        connection.serve(rt, heap, hall, &mut seats, &mut view, lasting);
    }
    if gathered.lock(rt).append(&mut seats).is_err() {
        warn!(rt; target: "landmap", "seats are lost");
    }
}

/// Tends once: what is due, and at long intervals all slots.
fn tend_once<L: HallName, H: Wait + Drop, R: Wait>(
    rt: &R,
    hall: &Hall<L, H, Global>,
    pauses: &mut u32,
) -> Result<(), HallFault> {
    if *pauses < PAUSES {
        *pauses += 1;
    } else {
        *pauses = 0;
        hall.want_round(rt);
    }
    hall.tend_round(rt)?;
    Ok(())
}

/// Tends in rounds, until the sender of `ends` is dropped. A round that is refused is the last, with
/// a warning. Each time the desk, if there is one, takes over the records that nobody waits for, and
/// the turn, if there is one, is told how many records there are.
pub fn tend<L: HallName, H: Wait + Drop, R: Wait + Clock + Log>(
    rt: &R,
    hall: &Hall<L, H, Global>,
    ends: Receiver<()>,
    lasting: Option<Lasting<'_>>,
    turn: Option<&Turn>,
) {
    let mut pauses = 0;
    let mut tended = true;
    for _ in rt.forever() {
        match ends.recv_timeout(rt, Duration::from_millis(PAUSE)) {
            Ok(()) => {}
            Err(RecvTimeoutError::Disconnected) => return,
            Err(RecvTimeoutError::Timeout) => {
                if let Some(lasting) = lasting {
                    lasting.take_over(rt, hall);
                }
                if let Some(turn) = turn {
                    turn.look(hall.record_count(rt), hall.seat_count(rt));
                }
                if tended {
                    if let Err(fault) = tend_once(rt, hall, &mut pauses) {
                        warn!(rt; target: "landmap", "the index is no longer tended: {fault}");
                        tended = false;
                    }
                }
            }
        }
    }
    unreachable!()
}
