//! A server whose records are kept in a store.

ghost use Rattle.std.specs.Prelude.{◌≡◌, IfOk};
ghost use Rattle.std.specs.Thread.{IsSend, IsSync};
ghost use Rattle.server.specs.Relays.{ServedFrom};

use crate::faults::ServerFault;
use crate::keeping::{AppendFault, Begins, Keeps, Restored, StoreFault, Writes};
use crate::sockets::{SocketOptions, serve_bound};
use crate::streams::{Serving, channel};
use audit_trail::Record;
use crossbeam_channel::Sender;
use features::Subjects;
use group_commit::{Desk, Rests};
use hall::Closed;
use hall_workers::Lasting;
use log::{Log, warn};
use std::alloc::Global;
use std::fs::{File, Files};
use std::io::Print;
use std::net::{Net, TcpListener, TcpStream};
use std::sync::{Arc, Wait};
use std::thread;
use std::thread::Threads;
use std::time::{Clock, Duration};
use world::FeatureLimit;

/// The pause, in seconds, behind records that the store does not take for now.
const PAUSE: u64 = 1;

/// A warning comes behind so many of these pauses.
const PAUSES: u32 = 60;

/// What a server with a store serves. At which state it begins the store says.
#[derive(Debug, Drop)]
pub struct Keeping {
    /// Who may have a seat.
    pub subjects: Subjects,
    /// How many sessions are served side by side, as in `Serving`.
    pub workers: usize,
    /// The most features that there may be after an addition, as in `Serving`.
    pub features: FeatureLimit,
    /// For which records a reply waits.
    pub rests: Rests,
}

/// Appends records to a store. Where it does not take them for now, it is asked again, with a
/// warning a minute.
fn append<K: Keeps, R: Wait + Clock + Log>(
    rt: &R,
    heap: Global,
    store: &mut K,
    records: &[Arc<Record<Global>>],
) -> Result<(), StoreFault> {
    let mut pauses: u32 = 0;
    for _ in rt.forever() {
        match store.append(heap, records) {
            Ok(()) => return Ok(()),
            Err(AppendFault::ForEver(fault)) => return Err(fault),
            Err(AppendFault::ForNow) => {
                if pauses == 0 {
                    warn!(rt; target: "landmap", "the store takes nothing for now: replies wait");
                }
                pauses = pauses.wrapping_add(1) % PAUSES;
                thread::sleep(rt, Duration::from_secs(PAUSE));
            }
        }
    }
    unreachable!()
}

/// Writes the groups of a desk to a store, until the desk ends.
fn write_groups<K: Keeps, R: Wait + Clock + Log>(
    rt: &R,
    heap: Global,
    desk: &Desk<Arc<Record<Global>>>,
    store: &mut K,
) -> Result<(), StoreFault> {
    let Ok(mut group) = Desk::room(heap) else {
        return Err(StoreFault::Memory);
    };
    for _ in rt.forever() {
        if !desk.next_group(rt, &mut group) {
            return Ok(());
        }
        append(rt, heap, store, group.as_slice())?;
        desk.group_lasts(rt);
    }
    unreachable!()
}

/// Where the writer of a store hands it over.
#[derive(Drop)]
pub struct Handover<'a> {
    heap: Global,
    desk: &'a Desk<Arc<Record<Global>>>,
    /// To the server, which waits for what the store has kept.
    opened: Sender<Result<Restored, StoreFault>>,
}

impl Handover<'_> {
    /// Where the store's memory comes from.
    pub fn heap(&self) -> Global {
        self.heap
    }

    /// Tells the server what the store has kept, or what is wrong with it. Then writes to it all
    /// records that come, group by group, until the server ends, and closes it.
    pub fn run<K: Keeps + Drop, R: Wait + Clock + Log>(
        self,
        rt: &R,
        opened: Result<(K, Restored), StoreFault>,
    ) {
        let Handover {
            heap,
            desk,
            opened: to,
        } = self;
        let mut store = match opened {
            Ok((store, restored)) => {
                if to.send(rt, Ok(restored)).is_err() {
                    return;
                }
                store
            }
            Err(fault) => {
                let _ = to.send(rt, Err(fault));
                return;
            }
        };
        if let Err(fault) = write_groups(rt, heap, desk, &mut store) {
            desk.fail(rt);
            store.give_up(fault);
            return;
        }
        if let Err(fault) = store.close() {
            let code = fault.code();
            warn!(rt; target: "landmap", "the store was not closed: {code}");
        }
    }
}

/// Opens a store in a thread of its own, and serves a socket as `serve_socket` does, from the state
/// on that the store has kept. A reply leaves once the records on which it rests last. Returns when
/// all records last and the store is closed. Faults: `Store` where the store is of no use, and then
/// nothing was bound, or where records do not last; `NoWorker` where its thread could not be
/// started; then those of `serve_socket`.
pub fn serve_kept<H, R, K>(
    rt: &R,
    own: H,
    heap: Global,
    path: &str,
    keeping: Keeping,
    options: SocketOptions<'_>,
    writer: K,
) -> Result<Closed, ServerFault>
where
    H: Wait + Copy + Drop + Send,
    R: Threads
        + Wait
        + Clock
        + Log
        + Files<File = File>
        + Net<Stream = TcpStream, Listener = TcpListener>
        + Print
        + Sync,
    K: Writes + Drop + Send,
    ensures { IfOk result (ServedFrom options.entry.connections keeping.subjects) }
{
    let desk = Desk::new(heap)?;
    let (to, from) = channel::<Result<Restored, StoreFault>>(heap, 1)?;
    let Keeping {
        subjects,
        workers,
        features,
        rests,
    } = keeping;
    let lasting = Lasting {
        desk: &desk,
        rests,
        before: 0,
    };
    let handover = Handover {
        heap,
        desk: &desk,
        opened: to,
    };
    let served = thread::scope(
        thread::scope_env(),
        rt,
        move |scope|
            requires shares { IsSync R.row }
            requires crosses { IsSend K.row }
            ensures { IfOk result (ServedFrom options.entry.connections subjects) }
        {
            if scope.spawn(move || writer.write(rt, handover)).is_err() {
                return Err(ServerFault::NoWorker);
            }
            let restored = match from.recv(rt) {
                Ok(Ok(restored)) => restored,
                Ok(Err(fault)) => return Err(ServerFault::Store(fault)),
                Err(_) => return Err(ServerFault::NoWorker),
            };
            let serving = Serving {
                subjects,
                begins: Begins::State(restored),
                workers,
                features,
            };
            let served = serve_bound(rt, own, heap, path, serving, options, Some(lasting));
            lasting.desk.end(rt);
            served
        },
    );
    let closed = served?;
    if desk.lasting(rt) < closed.records {
        return Err(ServerFault::Store(StoreFault::Failed));
    }
    Ok(closed)
}
