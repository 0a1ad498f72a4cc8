//! Servers that follow each other on one path, and servers that are stopped.
use crate::clients::{Talk, connected, told};
use crate::servers::serving;
use failing_streams::InterruptedReader;
use hall::Closed;
use log::Log;
use server::{Connections, ServerFault, SocketOptions, Stop, serve_socket, watch};
use std::alloc::Global;
use std::fs::{File, Files};
use std::io::{ErrorKind, Print};
use std::net::{Net, TcpListener, TcpStream};
use std::os::unix::net::UnixListener;
use std::process::Abort;
use std::sync::Wait;
use std::sync::atomic::{AtomicU64, Ordering};
use std::test::Fail;
use std::thread::Threads;
use std::time::Clock;
use std::{fs, thread};

/// How often a thread yields while it waits for another, at most.
const TURNS: u32 = 10_000_000;

/// Waits until a flag is set.
fn wait_for(rt: &impl Abort, flag: &AtomicU64) {
    for _ in 0..TURNS {
        if flag.load(Ordering::SeqCst) != 0 {
            return;
        }
        thread::yield_now();
    }
    panic!(rt; "nobody sets the flag");
}

/// So many connections, on a path that may have been left behind.
fn takes_over(connections: u16) -> SocketOptions<'static> {
    SocketOptions {
        connections: Connections::UpTo(connections),
        idle: None,
        takeover: true,
        stop: None,
        keys: &[],
        web: None,
    }
}

/// Sends a line and checks its reply.
fn ask(rt: &impl Abort, heap: Global, talk: &mut Talk, line: &str, expected: &str) {
    let told = talk.ask(heap, line, 1).expect(rt, "a reply");
    assert_eq!(rt; told.as_str(), expected);
}

/// A talk that has begun, with a server that has accepted it.
fn begun<R: Net + Abort>(rt: &R, heap: Global, path: &str) -> Talk {
    let mut talk = Talk::begin(rt, heap, path).expect(rt, "a connection");
    ask(rt, heap, &mut talk, "HELLO north\n", "hello north\n");
    talk
}

/// What a server ends with that has served so many sessions, none of which left a record.
fn closed_with(seats: usize) -> Result<Closed, ServerFault> {
    Ok(Closed { records: 0, seats })
}

/// The clients of two servers: one of the first, which ends when the second has begun, and one of
/// the second when the first has ended.
fn follow<R: Net + Abort>(
    rt: &R,
    heap: Global,
    path: &str,
    accepted: &AtomicU64,
    ended: &AtomicU64,
) {
    let mut first = begun(rt, heap, path);
    accepted.store(1, Ordering::SeqCst);
    let mut second = begun(rt, heap, path);
    ask(rt, heap, &mut second, "BYE\n", "bye\n");
    ask(rt, heap, &mut first, "BYE\n", "bye\n");
    wait_for(rt, ended);
    let mut third = begun(rt, heap, path);
    ask(rt, heap, &mut third, "BYE\n", "bye\n");
}

/// A server takes a path over while another one still serves its last session. When that one ends,
/// the path stays with the new server.
#[test]
fn a_successor_keeps_its_path(rt: HostRuntime) {
    let heap: Global = rt.alloc();
    let path = "server_successor.sock";
    let _ = fs::remove_file(&rt, path);
    let (accepted, ended) = (AtomicU64::new(0), AtomicU64::new(0));
    let (old, (new, ())) = thread::join(
        &rt,
        || {
            let closed = serve_socket(&rt, rt, heap, path, serving(&rt, heap), takes_over(1));
            ended.store(1, Ordering::SeqCst);
            closed
        },
        || {
            thread::join(
                &rt,
                || {
                    wait_for(&rt, &accepted);
                    serve_socket(&rt, rt, heap, path, serving(&rt, heap), takes_over(2))
                },
                || follow(&rt, heap, path, &accepted, &ended),
            )
        },
    );
    assert_eq!(rt; old, closed_with(1));
    assert_eq!(rt; new, closed_with(2));
    assert!(rt;
        fs::symlink_metadata(&rt, path).is_err(),
        "the path is free"
    );
}

/// Serves a path, and returns whether it could; sets the flag where it could not be bound.
fn one_of_two<H, R>(rt: &R, own: H, heap: Global, path: &str, turned_down: &AtomicU64) -> bool
where
    H: Wait + Copy + Drop + Send,
    R: Threads
        + Wait
        + Clock
        + Log
        + Files<File = File>
        + Net<Stream = TcpStream, Listener = TcpListener>
        + Print
        + Abort
        + Sync,
{
    match serve_socket(rt, own, heap, path, serving(rt, heap), takes_over(2)) {
        Ok(_) => true,
        Err(fault) => {
            assert_eq!(rt; fault, ServerFault::Bind);
            turned_down.store(1, Ordering::SeqCst);
            false
        }
    }
}

/// Two servers begin at once on a path that was left behind. One serves: its first connection is
/// the other's, which looked whether somebody listens.
#[test]
fn two_takeovers_at_once(rt: HostRuntime) -> Result<(), Fail> {
    let heap: Global = rt.alloc();
    let path = "server_two_takeovers.sock";
    for _ in 0..8 {
        let _ = fs::remove_file(&rt, path);
        drop(UnixListener::bind(&rt, path)?);
        let turned_down = AtomicU64::new(0);
        let (one, (other, told)) = thread::join(
            &rt,
            || one_of_two(&rt, rt, heap, path, &turned_down),
            || {
                thread::join(
                    &rt,
                    || one_of_two(&rt, rt, heap, path, &turned_down),
                    || {
                        wait_for(&rt, &turned_down);
                        told(&rt, heap, path, b"HELLO north\nBYE\n")
                    },
                )
            },
        );
        assert!(rt; one != other, "one of the two serves");
        assert_eq!(rt; told.ok_or("told")?.as_str(), "hello north\nbye\n");
    }
    Ok(())
}

/// A server that waits for its second connection ends with the input of `watch`, without one.
#[test]
fn the_end_of_an_input_stops_a_server(rt: HostRuntime) {
    let heap: Global = rt.alloc();
    let path = "server_stopped.sock";
    let _ = fs::remove_file(&rt, path);
    let stop = Stop::new();
    let options = SocketOptions {
        connections: Connections::UpTo(9),
        idle: None,
        takeover: false,
        stop: Some(&stop),
        keys: &[],
        web: None,
    };
    let (closed, told) = thread::join(
        &rt,
        || serve_socket(&rt, rt, heap, path, serving(&rt, heap), options),
        || {
            let told = told(&rt, heap, path, b"HELLO north\nBYE\n");
            let mut input = InterruptedReader::new(b"some lines\n", 3);
            watch(&rt, &mut input, path, &stop);
            told
        },
    );
    assert_eq!(rt; closed, closed_with(1));
    assert!(rt; told.is_some(), "the first client is served");
    assert!(rt;
        fs::symlink_metadata(&rt, path).is_err(),
        "the path is free"
    );
}

/// Serves one client, is told to stop while it waits for the next one, and does not serve that one.
fn stopped_between<R, H>(rt: &R, own: H, heap: Global, path: &str, connections: Connections)
where
    H: Wait + Copy + Drop + Send + Sync,
    R: Threads
        + Wait
        + Clock
        + Log
        + Files<File = File>
        + Net<Stream = TcpStream, Listener = TcpListener>
        + Print
        + Abort
        + Sync,
{
    let _ = fs::remove_file(rt, path);
    let stop = Stop::new();
    let options = SocketOptions {
        connections,
        idle: None,
        takeover: false,
        stop: Some(&stop),
        keys: &[],
        web: None,
    };
    let (closed, replies) = thread::join(
        rt,
        || serve_socket(rt, own, heap, path, serving(rt, heap), options),
        || {
            let _ = told(rt, heap, path, b"HELLO north\nBYE\n");
            stop.ask();
            told(rt, heap, path, b"HELLO south\nBYE\n")
        },
    );
    assert_eq!(rt; closed, closed_with(1));
    // The client may not have been able to send its lines, or to read on.
    if let Some(replies) = replies {
        assert_eq!(rt; replies.as_str(), "");
    }
}

/// A server that is told to stop while it waits for a connection does not serve the one that comes:
/// one of so many connections, and one without end.
#[test]
fn nobody_is_served_behind_a_stop(rt: HostRuntime) {
    let heap: Global = rt.alloc();
    let (some, endless) = (Connections::UpTo(9), Connections::Endless(1_000));
    stopped_between(&rt, rt, heap, "server_told_to_stop.sock", some);
    stopped_between(&rt, rt, heap, "server_without_end_stopped.sock", endless);
}

/// `watch` connects to no socket but that of its own server.
#[test]
fn another_server_is_left_alone(rt: HostRuntime) -> Result<(), Fail> {
    let path = "server_of_another.sock";
    let _ = fs::remove_file(&rt, path);
    let listener = UnixListener::bind(&rt, path)?;
    listener.set_nonblocking(true)?;
    let stop = Stop::new();
    watch(&rt, &mut b"".as_slice(), path, &stop);
    match listener.accept() {
        Ok(_) => panic!(rt; "a connection came"),
        Err(error) => assert_eq!(rt; error.kind(), ErrorKind::WouldBlock),
    }
    assert!(rt; connected(&rt, path).is_some(), "a client can connect");
    fs::remove_file(&rt, path)?;
    Ok(())
}
