//! Strangers at a socket, beside a client whose replies must be right.
use crate::clients::{ROUND, Talk, connected, told, watch};
use crate::servers::serving;
use crate::stranger_lines::{
    SEARCHES, bytes_of_every_value, long_policies, long_trail, nearly_right,
};
use hall::Closed;
use server::{Connections, SocketOptions, serve_socket};
use std::alloc::Global;
use std::io::Write;
use std::net::Net;
use std::process::Abort;
use std::test::Fail;
use std::{fs, thread};

/// This many connections, without an idle limit.
fn connections(count: u16) -> SocketOptions<'static> {
    SocketOptions {
        connections: Connections::UpTo(count),
        idle: None,
        takeover: false,
        stop: None,
        keys: &[],
        web: None,
    }
}

/// The replies to a stranger; a watcher's round follows.
fn told_before<R: Net + Abort>(rt: &R, heap: Global, path: &str, bytes: &[u8]) -> Option<String> {
    let told = told(rt, heap, path, bytes);
    watch(rt, heap, path, 1);
    told
}

/// 257 lines of one byte or none, the line of all bytes, the long line, and the last one.
#[test]
fn every_byte(rt: HostRuntime) -> Result<(), Fail> {
    let heap: Global = rt.alloc();
    let path = "server_bytes.sock";
    let _ = fs::remove_file(&rt, path);
    let serving = serving(&rt, heap);
    let lines = bytes_of_every_value(heap)?;
    let (served, told) = thread::join(
        &rt,
        || serve_socket(&rt, rt, heap, path, serving, connections(2)),
        || told_before(&rt, heap, path, lines.as_slice()),
    );
    assert_eq!(rt;
        served,
        Ok(Closed {
            records: ROUND,
            seats: 1
        })
    );
    let told = told.ok_or("told")?;
    assert_eq!(rt; told.lines().count(), 260);
    assert_eq!(rt;
        told.lines().filter(|line| *line == "error E2").count(),
        259
    );
    assert_eq!(rt; told.lines().nth(258), Some("error E1"));
    Ok(())
}

#[test]
fn policies_of_65536_bytes(rt: HostRuntime) -> Result<(), Fail> {
    let heap: Global = rt.alloc();
    let path = "server_policies.sock";
    let _ = fs::remove_file(&rt, path);
    let serving = serving(&rt, heap);
    let lines = long_policies(heap)?;
    let (served, told) = thread::join(
        &rt,
        || serve_socket(&rt, rt, heap, path, serving, connections(2)),
        || told_before(&rt, heap, path, lines.as_slice()),
    );
    assert_eq!(rt;
        served,
        Ok(Closed {
            records: 1 + ROUND,
            seats: 2
        })
    );
    assert_eq!(rt;
        told.ok_or("told")?.as_str(),
        "hello chief\nedition 2\nerror E1\nbye\n"
    );
    Ok(())
}

/// How many lines a stranger sends after HELLO.
const LINES: usize = 300;

/// How many of a stranger's lines were answered, and how many records they left.
#[derive(Clone, Copy, Debug, PartialEq, Eq)]
struct Tally {
    answered: usize,
    records: u64,
}

/// Counts the replies. A line is a row, which begins with a number, or a reply, which begins with
/// one of these words. Each `rows` and each verdict on a list is a record.
fn counted(rt: &impl Abort, told: &str) -> Tally {
    let mut tally = Tally {
        answered: 0,
        records: 0,
    };
    for line in told.lines() {
        match line.split(' ').next().unwrap_or("") {
            "rows" | "applied" | "absent" | "exists" | "stale" => {
                tally.answered = tally.answered.saturating_add(1);
                tally.records = tally.records.saturating_add(1);
            }
            "hello" | "staged" | "aborted" | "permit" | "error" | "held" => {
                tally.answered = tally.answered.saturating_add(1);
            }
            word => assert!(rt; word.parse::<u64>().is_ok(), "{line}"),
        }
    }
    tally
}

/// Sends lines that are nearly right, and counts the replies.
fn pour<R: Net + Abort>(rt: &R, heap: Global, path: &str, seed: u64) -> Tally {
    let lines = nearly_right(heap, seed, LINES).expect(rt, "lines");
    let told = told(rt, heap, path, lines.as_slice());
    counted(rt, told.expect(rt, "replies").as_str())
}

/// Each line is answered, and each reply that makes a record is counted as one.
#[test]
fn lines_that_are_nearly_right(rt: HostRuntime) {
    let heap: Global = rt.alloc();
    let path = "server_nearly_right.sock";
    let _ = fs::remove_file(&rt, path);
    let serving = serving(&rt, heap);
    let (served, (one, (two, ()))) = thread::join(
        &rt,
        || serve_socket(&rt, rt, heap, path, serving, connections(3)),
        || {
            thread::join(
                &rt,
                || pour(&rt, heap, path, 1),
                || thread::join(
                    &rt,
                    || pour(&rt, heap, path, 2),
                    || watch(&rt, heap, path, 10),
                ),
            )
        },
    );
    assert_eq!(rt; (one.answered, two.answered), (LINES + 1, LINES + 1));
    let records = one.records.saturating_add(two.records);
    assert!(rt; one.records > 20 && two.records > 20, "{one:?} {two:?}");
    assert_eq!(rt;
        served,
        Ok(Closed {
            records: records.saturating_add(10 * ROUND),
            seats: 3
        })
    );
}

/// Sends half a line, and disconnects.
fn half_a_line<R: Net + Abort>(rt: &R, path: &str, line: &str) {
    let mut stream = connected(rt, path).expect(rt, "a connection");
    assert!(rt; stream.write_all(line.as_bytes()).is_ok());
}

/// A steward reads the first lines of a long answer, and disconnects after a watcher has made a
/// round.
fn half_an_answer<R: Net + Abort>(rt: &R, heap: Global, path: &str) {
    let lines = long_trail(heap).expect(rt, "lines");
    let mut talk = Talk::begin(rt, heap, path).expect(rt, "a connection");
    let told = talk.ask(heap, lines.as_str(), SEARCHES.saturating_add(2));
    let told = told.expect(rt, "replies");
    assert!(rt; told.ends_with("\nrows 0\nrolled 1000\n"));
    watch(rt, heap, path, 1);
}

/// Clients that disconnect leave their records and their seats.
#[test]
fn clients_that_go(rt: HostRuntime) {
    let heap: Global = rt.alloc();
    let path = "server_going.sock";
    let _ = fs::remove_file(&rt, path);
    let serving = serving(&rt, heap);
    let (served, ()) = thread::join(
        &rt,
        || serve_socket(&rt, rt, heap, path, serving, connections(4)),
        || {
            half_a_line(&rt, path, "HELLO nor");
            half_a_line(&rt, path, "HELLO south\nSEARCH PO");
            half_an_answer(&rt, heap, path);
        },
    );
    assert_eq!(rt;
        served,
        Ok(Closed {
            records: u64::from(SEARCHES) + ROUND,
            seats: 3
        })
    );
}
