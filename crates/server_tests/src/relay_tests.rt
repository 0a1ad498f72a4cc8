//! A server without end, whose halls follow one another.
use crate::clients::{Talk, connected, told};
use crate::kept_tests::{Deeds, Unopened, keeping};
use crate::servers::{first_state, serving, state_behind};
use log::Log;
use server::{
    Connections, Restored, Rests, ServerFault, SocketOptions, Stop, StoreFault, serve_kept,
    serve_socket,
};
use std::alloc::Global;
use std::fs::{File, Files};
use std::io::{BufRead, BufReader, Print, Write};
use std::net::{Net, Shutdown, TcpListener, TcpStream};
use std::os::unix::net::UnixStream;
use std::process::Abort;
use std::sync::Wait;
use std::test::Fail;
use std::thread::Threads;
use std::time::{Clock, Duration};
use std::{fs, thread};

/// How many searches a client makes, each of them 20 milliseconds behind the one before it: in that
/// time halls of three records change at least once.
const SEARCHES: u64 = 150;

/// Without end, by halls of three records.
fn short_halls(stop: &Stop) -> SocketOptions<'_> {
    SocketOptions {
        connections: Connections::Endless(3),
        idle: None,
        takeover: false,
        stop: Some(stop),
        keys: &[],
        web: None,
    }
}

/// Searches that find nothing, one after another.
fn search_on<R: Abort + Clock + Wait>(rt: &R, heap: Global, talk: &mut Talk) {
    for _ in 0..SEARCHES {
        let told = talk.ask(heap, "SEARCH POINT (9 9)\n", 1);
        assert_eq!(rt; told.expect(rt, "a reply").as_str(), "rows 0\n");
        thread::sleep(rt, Duration::from_millis(20));
    }
}

/// Tells the server to end, and connects once, so that it sees that.
fn end<R: Net>(rt: &R, path: &str, stop: &Stop) {
    stop.ask();
    let _ = UnixStream::connect(rt, path);
}

/// Two clients: one has staged a list, begun a line, and was silent, while the other one has searched
/// until halls had changed.
fn silent_and_busy<R: Abort + Net + Clock + Wait>(
    rt: &R,
    heap: Global,
    path: &str,
) -> (Talk, Talk) {
    let mut silent = Talk::begin(rt, heap, path).expect(rt, "a connection");
    let staged = silent.ask(heap, "HELLO north\nADD 1 mast POINT (3 4)\nCOM", 2);
    assert_eq!(rt;
        staged.expect(rt, "replies").as_str(),
        "hello north\nstaged\n"
    );
    let mut busy = Talk::begin(rt, heap, path).expect(rt, "a connection");
    let hello = busy.ask(heap, "HELLO south\n", 1);
    assert_eq!(rt; hello.expect(rt, "a reply").as_str(), "hello south\n");
    search_on(rt, heap, &mut busy);
    (silent, busy)
}

/// Behind a change of halls the silent client's line ends, and its list is applied.
fn across_halls<R: Abort + Net + Clock + Wait>(rt: &R, heap: Global, path: &str, stop: &Stop) {
    let (mut silent, mut busy) = silent_and_busy(rt, heap, path);
    let applied = silent.ask(heap, "MIT\nBYE\n", 2);
    assert_eq!(rt; applied.expect(rt, "replies").as_str(), "applied 1\nbye\n");
    let found = busy.ask(heap, "SEARCH POINT (3 4)\nBYE\n", 3);
    assert_eq!(rt;
        found.expect(rt, "replies").as_str(),
        "rows 1\n1 1 north mast POINT (3 4)\nbye\n"
    );
    end(rt, path, stop);
}

#[test]
fn sessions_go_on_in_the_next_hall(rt: HostRuntime) -> Result<(), Fail> {
    let heap: Global = rt.alloc();
    let path = "server_next_hall.sock";
    let _ = fs::remove_file(&rt, path);
    let serving = serving(&rt, heap);
    let stop = Stop::new();
    let (served, ()) = thread::join(
        &rt,
        || serve_socket(&rt, rt, heap, path, serving, short_halls(&stop)),
        || across_halls(&rt, heap, path, &stop),
    );
    let closed = served.expect(&rt, "it ends well");
    assert_eq!(rt; closed.records, SEARCHES + 2);
    assert!(rt; closed.seats >= 4, "two sessions had seats in two halls");
    Ok(())
}

/// The same over a store that begins so: at the end it has the records of all halls.
fn keeps_all_records<H, R>(
    rt: &R,
    own: H,
    heap: Global,
    path: &str,
    restored: Restored,
    rests: Rests,
)
where
    H: Wait + Copy + Drop + Send + Sync,
    R: Threads
        + Wait
        + Clock
        + Log
        + Files<File = File>
        + Net<Stream = TcpStream, Listener = TcpListener>
        + Print
        + Abort
        + Sync,
{
    let _ = fs::remove_file(rt, path);
    let deeds = Deeds::new(1_000, 0);
    let unopened = Unopened::new(Ok(restored), &deeds);
    let keeping = keeping(rt, rests);
    let stop = Stop::new();
    let (served, ()) = thread::join(
        rt,
        || serve_kept(rt, own, heap, path, keeping, short_halls(&stop), unopened),
        || across_halls(rt, heap, path, &stop),
    );
    let closed = served.expect(rt, "it ends well");
    assert_eq!(rt; closed.records, SEARCHES + 2);
    assert_eq!(rt; deeds.lasting(), SEARCHES + 2);
}

#[test]
fn records_of_all_halls_are_kept(rt: HostRuntime) {
    let heap = rt.alloc();
    let restored = first_state(&rt, heap);
    keeps_all_records(
        &rt,
        rt,
        heap,
        "server_kept_halls.sock",
        restored,
        Rests::All,
    );
}

/// Also those for which no reply waits.
#[test]
fn records_that_nobody_awaits_are_kept(rt: HostRuntime) {
    let heap = rt.alloc();
    let restored = first_state(&rt, heap);
    keeps_all_records(
        &rt,
        rt,
        heap,
        "server_unawaited.sock",
        restored,
        Rests::Changes,
    );
}

/// The same from a state on behind so many records that the numbers of those that follow pass 32
/// bits.
#[test]
fn records_behind_many_are_kept(rt: HostRuntime) {
    let heap = rt.alloc();
    let restored = state_behind(&rt, heap, 4_294_967_290);
    keeps_all_records(
        &rt,
        rt,
        heap,
        "server_many_records.sock",
        restored,
        Rests::All,
    );
}

/// In the first hall a list is committed whose record does not last: its reply does not leave, and
/// the server fails.
#[test]
fn no_reply_without_its_record(rt: HostRuntime) {
    let heap: Global = rt.alloc();
    let path = "server_without_record.sock";
    let _ = fs::remove_file(&rt, path);
    let deeds = Deeds::new(0, 0);
    let unopened = Unopened::new(Ok(first_state(&rt, heap)), &deeds);
    let keeping = keeping(&rt, Rests::All);
    let stop = Stop::new();
    let (served, told) = thread::join(
        &rt,
        || serve_kept(&rt, rt, heap, path, keeping, short_halls(&stop), unopened),
        || {
            let lines = b"HELLO north\nADD 1 mast POINT (3 4)\nCOMMIT\n";
            let told = told(&rt, heap, path, lines);
            end(&rt, path, &stop);
            told
        },
    );
    assert_eq!(rt; served, Err(ServerFault::Store(StoreFault::Failed)));
    let told = told.unwrap_or(String::new(heap));
    assert!(rt; !told.as_str().contains("applied"), "{told}");
}

/// The same in a later hall, where only lists wait: no record before it keeps its reply.
#[test]
fn no_reply_in_a_later_hall(rt: HostRuntime) {
    let heap: Global = rt.alloc();
    let path = "server_later_record.sock";
    let _ = fs::remove_file(&rt, path);
    let deeds = Deeds::new(SEARCHES, 0);
    let unopened = Unopened::new(Ok(first_state(&rt, heap)), &deeds);
    let keeping = keeping(&rt, Rests::Changes);
    let stop = Stop::new();
    let (served, told) = thread::join(
        &rt,
        || serve_kept(&rt, rt, heap, path, keeping, short_halls(&stop), unopened),
        || {
            let (mut silent, _busy) = silent_and_busy(&rt, heap, path);
            let told = silent.ask(heap, "MIT\n", 1);
            end(&rt, path, &stop);
            told
        },
    );
    assert_eq!(rt; served, Err(ServerFault::Store(StoreFault::Failed)));
    let told = told.unwrap_or(String::new(heap));
    assert!(rt; !told.as_str().contains("applied"), "{told}");
}

/// How many lines a client sends that does not read its replies.
const UNREAD: usize = 100_000;

/// Sends lines that are no commands, as fast as they are taken, and closes its side.
fn send_lines(rt: &impl Abort, heap: Global, stream: &UnixStream) {
    let mut stream = stream;
    let lines = "x\n".repeat(heap, 1_000).expect(rt, "lines");
    for _ in 0..UNREAD / 1_000 {
        stream.write_all(lines.as_bytes()).expect(rt, "sent");
    }
    stream.shutdown(Shutdown::Write).expect(rt, "closed");
}

/// Reads replies only behind a change of halls. How many were `error E2`.
fn read_late<R: Abort + Net + Clock + Wait>(
    rt: &R,
    heap: Global,
    path: &str,
    stream: &UnixStream,
    stop: &Stop,
) -> usize {
    let mut busy = Talk::begin(rt, heap, path).expect(rt, "a connection");
    let hello = busy.ask(heap, "HELLO south\n", 1);
    assert_eq!(rt; hello.expect(rt, "a reply").as_str(), "hello south\n");
    search_on(rt, heap, &mut busy);
    let copy = stream.try_clone().expect(rt, "a copy");
    let mut replies = BufReader::new(heap, copy).expect(rt, "a reader");
    let mut line = String::new(heap);
    let mut count = 0;
    for _ in 0..UNREAD {
        line.clear();
        match replies.read_line(&mut line) {
            Ok(0) | Err(_) => break,
            Ok(_) if line.as_str() == "error E2\n" => count += 1,
            Ok(_) => {}
        }
    }
    end(rt, path, stop);
    count
}

#[test]
fn a_client_that_does_not_read(rt: HostRuntime) -> Result<(), Fail> {
    let heap: Global = rt.alloc();
    let path = "server_not_read.sock";
    let _ = fs::remove_file(&rt, path);
    let serving = serving(&rt, heap);
    let stop = Stop::new();
    let (served, read) = thread::join(
        &rt,
        || serve_socket(&rt, rt, heap, path, serving, short_halls(&stop)),
        || {
            let stream = connected(&rt, path).expect(&rt, "a connection");
            let (read, ()) = thread::join(
                &rt,
                || read_late(&rt, heap, path, &stream, &stop),
                || send_lines(&rt, heap, &stream),
            );
            read
        },
    );
    assert_eq!(rt; read, UNREAD);
    let closed = served.expect(&rt, "it ends well");
    assert_eq!(rt; closed.records, SEARCHES);
    Ok(())
}
