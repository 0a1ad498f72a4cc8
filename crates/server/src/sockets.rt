//! Serving a Unix socket.

ghost use Rattle.std.specs.Prelude.{IfOk};
ghost use Rattle.std.specs.Thread.{IsSend, IsSync};
ghost use Rattle.server.specs.Relays.{IsRelayed, ServedAs};
ghost use Rattle.server.specs.Served.{IsServed, opening_of};

use crate::faults::ServerFault;
use crate::ready::tell_ready;
use crate::streams::{QUEUE, Serving, WORKER_LIMIT, channel, serve_lasting};
use crate::terms::{Relay, serve_relay};
use crate::webs::{WEB_QUEUE, Web, WebRoom, accept_web, wake};
use credentials::Key;
use crossbeam_channel::Sender;
use hall::{Closed, NoPause};
use hall_workers::{Caller, Lasting};
use listeners::{
    Bound, SocketFile, Stop, WebListener, WebStream, listen, listen_web, remove_own, remove_web,
};
use log::{Log, warn};
use std::alloc::Global;
use std::fs::{File, Files};
use std::io::Print;
use std::net::{Net, TcpListener, TcpStream};
use std::os::unix::net::{UnixListener, UnixStream};
use std::sync::Wait;
use std::thread::Threads;
use std::time::{Clock, Duration};
use std::{io, thread};

/// For how many seconds nobody is accepted after a connection that was not accepted.
const ACCEPT_PAUSE: u64 = 1;

/// For how many seconds a write waits, in a server without end, before it is looked whether halls
/// change.
const WRITE_PATIENCE: u64 = 1;

/// How many connections a server accepts.
#[derive(Clone, Copy, Debug, Drop, PartialEq, Eq)]
pub enum Connections {
    /// So many; one whose accepting fails counts too, and for a second behind it no other is
    /// accepted. After the last one nobody listens any more.
    UpTo(u16),
    /// Without end: halls follow one another, each after so many records of the one before it, or
    /// after `TERM_BYTES` of its replies.
    Endless(u64),
}

/// How a socket is served.
#[derive(Clone, Copy)]
pub struct SocketOptions<'a> {
    /// How many connections are accepted.
    pub connections: Connections,
    /// How many seconds a session may wait for its client to send or to take something, before it
    /// ends with a fault. `None` and 0 set no bound.
    pub idle: Option<u64>,
    /// Whether a socket that nobody listens on is replaced.
    pub takeover: bool,
    /// How the server is told to accept no more connections, as `watch` tells it.
    pub stop: Option<&'a Stop>,
    /// The keys of those who may begin a session of lines: HELLO then says a secret. With none it is
    /// believed.
    pub keys: &'a [Key],
    /// How HTTP is answered beside the socket, if it is. A server of so many connections answers none.
    pub web: Option<&'a Web<'a>>,
}

/// Accepts connections, and stops listening after the last one.
#[derive(Drop)]
struct Arrivals<'a> {
    listener: Option<UnixListener>,
    left: u16,
    stop: Option<&'a Stop>,
}

/// Whether the server was told to accept no more connections.
fn is_stopped(stop: Option<&Stop>) -> bool {
    match stop {
        Some(stop) => stop.is_asked(),
        None => false,
    }
}

impl Iterator for Arrivals<'_> {
    ghost use Rattle.std.specs.Iterator.{at_most};

    type Item = io::Result<UnixStream>;

    ghost remaining = { λ arrivals. at_most arrivals.left };

    fn next(&mut self) -> Option<io::Result<UnixStream>> {
        if self.left == 0 || is_stopped(self.stop) {
            return None;
        }
        self.left -= 1;
        let accepted = self.listener.as_ref()?.accept();
        if is_stopped(self.stop) {
            self.left = 0;
            self.listener = None;
            return None;
        }
        if self.left == 0 {
            self.listener = None;
        }
        match accepted {
            Ok((stream, _)) => Some(Ok(stream)),
            Err(error) => Some(Err(error)),
        }
    }
}

/// How long a call of a stream may wait; `None` sets no bound.
fn patience(idle: Option<u64>) -> Option<Duration> {
    match idle {
        None | Some(0) => None,
        Some(seconds) => Some(Duration::from_secs(seconds)),
    }
}

/// A stream as one whose session is served to its end, by these keys. Its calls wait at most
/// `patience`.
fn parted(
    stream: UnixStream,
    patience: Option<Duration>,
    keys: &[Key],
) -> io::Result<Caller<'_, UnixStream, UnixStream, NoPause>> {
    stream.set_read_timeout(patience)?;
    stream.set_write_timeout(patience)?;
    let reader = stream.try_clone()?;
    Ok(Caller {
        reader,
        writer: stream,
        pause: NoPause,
        keys,
        tally: None,
    })
}

/// Serves so many connections, and stops listening after the last one.
fn serve_some<H, R>(
    rt: &R,
    own: H,
    heap: Global,
    serving: Serving,
    options: SocketOptions<'_>,
    connections: u16,
    lasting: Option<Lasting<'_>>,
    listener: UnixListener,
) -> Result<Closed, ServerFault>
where
    H: Wait + Drop + Send,
    R: Threads + Wait + Clock + Log + Sync,
    ensures { IfOk result (IsServed (opening_of serving.subjects serving.begins)) }
{
    let arrivals = Arrivals {
        listener: Some(listener),
        left: connections,
        stop: options.stop,
    };
    let patience = patience(options.idle);
    let keys = options.keys;
    let incoming = arrivals.filter_map(|arrived| {
        match arrived.and_then(|stream| parted(stream, patience, keys)) {
            Ok(stream) => Some(stream),
            Err(error) => {
                warn!(rt; target: "landmap", "a connection was not accepted: {error}");
                thread::sleep(rt, Duration::from_secs(ACCEPT_PAUSE));
                None
            }
        }
    });
    serve_lasting(rt, own, heap, serving, lasting, incoming)
}

/// A stream whose writes give a chance to look around once a second.
fn watched(stream: UnixStream) -> io::Result<UnixStream> {
    stream.set_write_timeout(Some(Duration::from_secs(WRITE_PATIENCE)))?;
    Ok(stream)
}

/// Accepts connections and sends them on, until the server is told to accept no more, or nobody
/// receives them.
fn accept_all<R: Wait + Clock + Log>(
    rt: &R,
    listener: UnixListener,
    stop: &Stop,
    to: Sender<UnixStream>,
) {
    for _ in rt.forever() {
        if stop.is_asked() {
            return;
        }
        let accepted = listener.accept();
        if stop.is_asked() {
            return;
        }
        match accepted.and_then(|(stream, _)| watched(stream)) {
            Ok(stream) => {
                if to.send(rt, stream).is_err() {
                    return;
                }
            }
            Err(error) => {
                warn!(rt; target: "landmap", "a connection was not accepted: {error}");
                thread::sleep(rt, Duration::from_secs(ACCEPT_PAUSE));
            }
        }
    }
    unreachable!()
}

/// Serves connections without end: until the server is told to accept no more and all sessions have
/// ended. A hall gives way after so many records. Beside them HTTP is answered, if it is wanted.
fn serve_until<H, R>(
    rt: &R,
    own: H,
    heap: Global,
    path: &str,
    serving: Serving,
    options: SocketOptions<'_>,
    records: u64,
    lasting: Option<Lasting<'_>>,
    listener: UnixListener,
    web_listener: Option<WebListener>,
    stop: &Stop,
) -> Result<Closed, ServerFault>
where
    H: Wait + Copy + Drop + Send,
    R: Threads
        + Wait
        + Clock
        + Log
        + Files<File = File>
        + Net<Stream = TcpStream, Listener = TcpListener>
        + Sync,
    ensures { IfOk result (IsRelayed (opening_of serving.subjects serving.begins)) }
{
    let (to, from) = channel::<UnixStream>(heap, QUEUE)?;
    let (web_to, web_from) = channel::<WebStream>(heap, WEB_QUEUE)?;
    let room = WebRoom::new(heap, options.web)?;
    let room = &room;
    let Serving {
        subjects,
        begins,
        workers,
        features,
    } = serving;
    let served = thread::scope(
        thread::scope_env(),
        rt,
        move |scope|
            requires shares { IsSync R.row }
            requires handle { IsSend H.row }
            ensures { IfOk result (IsRelayed (opening_of subjects begins)) }
        {
            if let Some(listener) = web_listener {
                if scope
                    .spawn(move || accept_web(rt, listener, stop, web_to))
                    .is_err()
                {
                    return Err(ServerFault::NoWorker);
                }
            }
            if scope
                .spawn(move || accept_all(rt, listener, stop, to))
                .is_err()
            {
                // This ends the accepting of HTTP.
                drop(web_from);
                wake(rt, options.web);
                return Err(ServerFault::NoWorker);
            }
            let arrivals = from;
            let web_arrivals = web_from;
            let reception = room.reception(&web_arrivals);
            let relay = Relay {
                heap,
                workers: workers.clamp(1, WORKER_LIMIT),
                features,
                lasting,
                arrivals: &arrivals,
                idle: options.idle,
                keys: options.keys,
                records,
                reception: reception.as_ref(),
            };
            let served = serve_relay(rt, own, relay, subjects, begins);
            // This ends the accepting.
            drop(arrivals);
            drop(web_arrivals);
            stop.wake(rt, path);
            wake(rt, options.web);
            served
        },
    );
    let closed = served?;
    Ok(closed)
}

/// Notes the socket on which the server listens from now on.
fn note(stop: Option<&Stop>, file: SocketFile) {
    if let Some(stop) = stop {
        stop.listens_on(file);
    }
}

/// Listens for connections of HTTP, if they are wanted. `BindWeb` where that fails.
fn listened_web<R>(
    rt: &R,
    web: Option<&Web<'_>>,
    takeover: bool,
) -> Result<Option<WebListener>, ServerFault>
where
    R: Files<File = File> + Net<Stream = TcpStream, Listener = TcpListener> + Clock,
{
    let Some(web) = web else {
        return Ok(None);
    };
    match listen_web(rt, web.place, takeover) {
        Some(listener) => Ok(Some(listener)),
        None => Err(ServerFault::BindWeb),
    }
}

/// Writes that the server listens, and serves connections without end.
fn serve_endless<H, R>(
    rt: &R,
    own: H,
    heap: Global,
    path: &str,
    serving: Serving,
    options: SocketOptions<'_>,
    records: u64,
    lasting: Option<Lasting<'_>>,
    bound: Bound,
    web_listener: Option<WebListener>,
) -> Result<Closed, ServerFault>
where
    H: Wait + Copy + Drop + Send,
    R: Threads
        + Wait
        + Clock
        + Log
        + Files<File = File>
        + Net<Stream = TcpStream, Listener = TcpListener>
        + Print
        + Sync,
    ensures { IfOk result (IsRelayed (opening_of serving.subjects serving.begins)) }
{
    let Bound { listener, file } = bound;
    let place = match options.web {
        Some(web) => Some(web.place),
        None => None,
    };
    tell_ready(rt, heap, path, place)?;
    note(options.stop, file);
    let own_stop = Stop::new();
    let stop = options.stop.unwrap_or(&own_stop);
    serve_until(
        rt,
        own,
        heap,
        path,
        serving,
        options,
        records,
        lasting,
        listener,
        web_listener,
        stop,
    )
}

/// Writes that the server listens, and serves the connections that come. A socket of HTTP is gone
/// behind it, whatever comes of it.
fn serve_listener<H, R>(
    rt: &R,
    own: H,
    heap: Global,
    path: &str,
    serving: Serving,
    options: SocketOptions<'_>,
    lasting: Option<Lasting<'_>>,
    bound: Bound,
) -> Result<Closed, ServerFault>
where
    H: Wait + Copy + Drop + Send,
    R: Threads
        + Wait
        + Clock
        + Log
        + Files<File = File>
        + Net<Stream = TcpStream, Listener = TcpListener>
        + Print
        + Sync,
    ensures { IfOk result
        (ServedAs options.entry.connections (opening_of serving.subjects serving.begins)) }
{
    match options.connections {
        Connections::UpTo(connections) => {
            let Bound { listener, file } = bound;
            tell_ready(rt, heap, path, None)?;
            note(options.stop, file);
            serve_some(
                rt,
                own,
                heap,
                serving,
                options,
                connections,
                lasting,
                listener,
            )
        }
        Connections::Endless(records) => {
            let web_listener = listened_web(rt, options.web, options.takeover)?;
            let web_file = match &web_listener {
                Some(listener) => listener.file(),
                None => None,
            };
            let served = serve_endless(
                rt,
                own,
                heap,
                path,
                serving,
                options,
                records,
                lasting,
                bound,
                web_listener,
            );
            if let Some(web) = options.web {
                remove_web(rt, web.place, web_file);
            }
            served
        }
    }
}

/// Serves a socket as `serve_socket` does; where there is a desk, replies leave once the records on
/// which they rest last.
pub(crate) fn serve_bound<H, R>(
    rt: &R,
    own: H,
    heap: Global,
    path: &str,
    serving: Serving,
    options: SocketOptions<'_>,
    lasting: Option<Lasting<'_>>,
) -> Result<Closed, ServerFault>
where
    H: Wait + Copy + Drop + Send,
    R: Threads
        + Wait
        + Clock
        + Log
        + Files<File = File>
        + Net<Stream = TcpStream, Listener = TcpListener>
        + Print
        + Sync,
    ensures { IfOk result
        (ServedAs options.entry.connections (opening_of serving.subjects serving.begins)) }
{
    let Some(bound) = listen(rt, path, options.takeover) else {
        return Err(ServerFault::Bind);
    };
    let file = bound.file;
    let served = serve_listener(rt, own, heap, path, serving, options, lasting, bound);
    remove_own(rt, path, file);
    served
}

/// Binds a Unix socket, writes the line `listening PATH` to standard output, serves the connections
/// that come, and removes the path, unless another server has replaced its socket. Where HTTP is
/// wanted, a line `listening` with its place follows. Faults: `Bind` where the path is not bound, and
/// `BindWeb` where the place for HTTP is not; `Write` where the line is not written, and H6 where there is no
/// memory for its buffer; then those of `serve_streams`. The path is removed after each fault but
/// `Bind`.
pub fn serve_socket<H, R>(
    rt: &R,
    own: H,
    heap: Global,
    path: &str,
    serving: Serving,
    options: SocketOptions<'_>,
) -> Result<Closed, ServerFault>
where
    H: Wait + Copy + Drop + Send,
    R: Threads
        + Wait
        + Clock
        + Log
        + Files<File = File>
        + Net<Stream = TcpStream, Listener = TcpListener>
        + Print
        + Sync,
    ensures { IfOk result
        (ServedAs options.entry.connections (opening_of serving.subjects serving.begins)) }
{
    serve_bound(rt, own, heap, path, serving, options, None)
}
