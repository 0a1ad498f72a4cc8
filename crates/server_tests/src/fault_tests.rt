//! Sessions over a hall with failing streams: what is written, and what the next session finds.
use crate::memory_streams::{Replies, check_told, failing, whole};
use crate::servers::closed_by;
use failing_streams::{FailingReader, FailingWriter, Failure, InterruptedReader};
use hall::{Closed, NoPause};
use log::Log;
use std::alloc::Global;
use std::process::Abort;
use std::sync::{Mutex, Wait};
use std::thread::Threads;
use std::time::Clock;

/// Lines that commit a point and stage another.
const LINES: &str =
    "HELLO north\nADD 1 mast POINT (3 4)\nCOMMIT\nADD 2 mast POINT (3 4)\nSEARCH POINT (3 4)\nBYE\n";

/// The replies after each number of whole lines.
const REPLIES: [&str; 7] = [
    "",
    "hello north\n",
    "hello north\nstaged\n",
    "hello north\nstaged\napplied 1\n",
    "hello north\nstaged\napplied 1\nstaged\n",
    "hello north\nstaged\napplied 1\nstaged\nrows 1\n1 1 north mast POINT (3 4)\n",
    ALL_REPLIES,
];

const ALL_REPLIES: &str =
    "hello north\nstaged\napplied 1\nstaged\nrows 1\n1 1 north mast POINT (3 4)\nbye\n";

/// The next session's lines: they show whether a list is staged, and which features there are.
const NEXT: &str = "HELLO north\nCOMMIT\nSEARCH POINT (3 4)\nBYE\n";

/// Serves a session whose reader fails at this read (0 for none) and then, by the same worker, the
/// next session.
fn serve_both<H, R>(
    rt: &R,
    own: H,
    heap: Global,
    fails_at: u64,
    told: &Mutex<FailingWriter>,
    found: &Mutex<FailingWriter>,
) -> Closed
where
    H: Wait + Drop + Send,
    R: Threads + Wait + Clock + Log + Abort + Sync,
{
    let first = FailingReader {
        bytes: LINES.as_bytes(),
        fails_at,
    };
    let next = FailingReader {
        bytes: NEXT.as_bytes(),
        fails_at: 0,
    };
    let streams = vec![in heap;
        (first, Replies::kept_in(rt, told), NoPause),
        (next, Replies::kept_in(rt, found), NoPause),
    ];
    match streams {
        Ok(streams) => closed_by(rt, own, heap, 1, streams),
        Err(_) => panic!(rt; "no memory"),
    }
}

/// Checks that the next session finds the point if `lines` lines have committed it, and no staged
/// list, and that the hall has the records and seats of both sessions.
fn check_left(rt: &impl Abort, closed: Closed, found: Mutex<FailingWriter>, lines: usize) {
    let expected = if lines < 3 {
        "hello north\nerror E7\nrows 0\nbye\n"
    } else {
        "hello north\nerror E7\nrows 1\n1 1 north mast POINT (3 4)\nbye\n"
    };
    assert_eq!(rt;
        found.into_inner().taken.as_slice(),
        expected.as_bytes(),
        "after {lines}"
    );
    // The next session's search is a record too.
    let records = match lines {
        0..=2 => 1,
        3 | 4 => 2,
        _ => 3,
    };
    let seats = if lines == 0 { 1 } else { 2 };
    assert_eq!(rt; closed, Closed { records, seats }, "after {lines}");
}

/// One byte is read at a time. Nothing is read after BYE, so the read with the last number is never
/// made.
#[test]
fn each_read_fails(rt: HostRuntime) {
    let mut lines = 0;
    for at in 0..=LINES.len() {
        let (told, found) = (whole(rt.alloc()), whole(rt.alloc()));
        let fails_at = (at as u64).saturating_add(1);
        let closed = serve_both(&rt, rt, rt.alloc(), fails_at, &told, &found);
        assert_eq!(rt;
            Some(told.into_inner().taken.as_slice()),
            REPLIES.get(lines).map(|text| text.as_bytes()),
            "at {at}"
        );
        check_left(&rt, closed, found, lines);
        if LINES.as_bytes().get(at) == Some(&b'\n') {
            lines = lines.saturating_add(1);
        }
    }
    assert_eq!(rt; lines, 6);
}

/// Serves the lines through a reader that is interrupted so many times before each byte, and checks
/// that this is not noticed.
fn check_interrupted<H, R>(rt: &R, own: H, heap: Global, times: u64)
where
    H: Wait + Drop + Send,
    R: Threads + Wait + Clock + Log + Abort + Sync,
{
    let told = whole(heap);
    let reader = InterruptedReader::new(LINES.as_bytes(), times);
    let closed = match vec![in heap; (reader, Replies::kept_in(rt, &told), NoPause)] {
        Ok(streams) => closed_by(rt, own, heap, 1, streams),
        Err(_) => panic!(rt; "no memory"),
    };
    check_told(rt, told, ALL_REPLIES);
    assert_eq!(rt;
        closed,
        Closed {
            records: 2,
            seats: 1
        }
    );
}

#[test]
fn interrupted_reads_are_repeated(rt: HostRuntime) {
    check_interrupted(&rt, rt, rt.alloc(), 1);
    check_interrupted(&rt, rt, rt.alloc(), 300);
}

/// How many lines were answered when a write fails after this many bytes of the replies.
fn answered(written: usize) -> usize {
    REPLIES
        .iter()
        .position(|replies| written < replies.len())
        .unwrap_or(6)
}

/// Each write in turn fails, and each takes five bytes. What was written is a prefix of the
/// replies, longer each time.
fn fail_each_write<H, R>(rt: &R, own: H, heap: Global, with: Failure)
where
    H: Wait + Drop + Send + Copy,
    R: Threads + Wait + Clock + Log + Abort + Sync,
{
    let mut least = 0;
    for fails_at in 1..100 {
        let (told, found) = (failing(heap, 5, fails_at, with), whole(heap));
        let closed = serve_both(rt, own, heap, 0, &told, &found);
        let told = told.into_inner();
        let written = told.taken.len();
        assert!(rt;
            ALL_REPLIES.as_bytes().starts_with(told.taken.as_slice()),
            "at {fails_at}"
        );
        check_left(rt, closed, found, answered(written));
        if told.fails_at > 0 {
            // The session makes fewer writes than `fails_at`.
            assert_eq!(rt; written, ALL_REPLIES.len());
            return;
        }
        assert!(rt;
            least <= written && written < ALL_REPLIES.len(),
            "at {fails_at}"
        );
        least = written.saturating_add(1);
    }
    panic!(rt; "each write failed");
}

#[test]
fn each_write_fails(rt: HostRuntime) {
    fail_each_write(&rt, rt, rt.alloc(), Failure::Error);
    fail_each_write(&rt, rt, rt.alloc(), Failure::Nothing);
}

/// There is a flush before each read of one byte, and one after BYE. The replies up to the failing
/// flush are written, and nothing after them.
#[test]
fn each_flush_fails(rt: HostRuntime) {
    let mut lines = 0;
    for at in 0..=LINES.len() {
        let fails_at = (at as u64).saturating_add(1);
        let told = failing(rt.alloc(), usize::MAX, fails_at, Failure::OneFlush);
        let found = whole(rt.alloc());
        let closed = serve_both(&rt, rt, rt.alloc(), 0, &told, &found);
        assert_eq!(rt;
            told.into_inner().taken.strip_suffix(b"(flush)".as_slice()),
            REPLIES.get(lines).map(|text| text.as_bytes()),
            "at {at}"
        );
        check_left(&rt, closed, found, lines);
        if LINES.as_bytes().get(at) == Some(&b'\n') {
            lines = lines.saturating_add(1);
        }
    }
    assert_eq!(rt; lines, 6);
}
