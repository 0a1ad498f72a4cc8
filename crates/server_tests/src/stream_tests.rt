//! Streams in memory, served concurrently.
use crate::memory_streams::{Meeting, Replies, check_told, failing, whole};
use crate::servers::{closed_by, closed_with, key_of};
use failing_streams::Failure;
use hall::{Closed, NoPause};
use server::WORKER_COUNT;
use std::alloc::Global;
use std::sync::atomic::{AtomicU64, Ordering};
use std::test::Fail;

#[test]
fn two_wait_for_each_other(rt: HostRuntime) -> Result<(), Fail> {
    let heap: Global = rt.alloc();
    let (searches, commits) = (AtomicU64::new(0), AtomicU64::new(0));
    let (found, changed) = (whole(heap), whole(heap));
    let searching = Meeting {
        passes: 0,
        mine: &searches,
        other: &commits,
    };
    let committing = Meeting {
        passes: 0,
        mine: &commits,
        other: &searches,
    };
    let streams = vec![in heap;
        (
            b"HELLO north\nSEARCH POLYGON ((0 0, 4 0, 4 4, 0 4, 0 0))\n".as_slice(),
            Replies::kept_in(&rt, &found),
            searching
        ),
        (
            b"HELLO south\nADD 1 mast POINT (100 100)\nCOMMIT\n".as_slice(),
            Replies::kept_in(&rt, &changed),
            committing
        ),
    ]?;
    let closed = closed_by(&rt, rt, heap, WORKER_COUNT, streams);
    assert_eq!(rt;
        closed,
        Closed {
            records: 2,
            seats: 2
        }
    );
    assert_eq!(rt; searches.load(Ordering::SeqCst), Meeting::MET);
    assert_eq!(rt; commits.load(Ordering::SeqCst), Meeting::MET);
    check_told(&rt, found, "hello north\nrows 0\n");
    check_told(&rt, changed, "hello south\nstaged\napplied 1\n");
    Ok(())
}

/// A line longer than the limit, and a session after it.
fn long_line(heap: Global) -> Result<Vec<u8>, Fail> {
    let mut input = vec![in heap; b'?'; 70_000]?;
    input.extend_from_slice(b"\nHELLO south\nBYE\n")?;
    Ok(input)
}

#[test]
fn each_ends_by_itself(rt: HostRuntime) -> Result<(), Fail> {
    let heap: Global = rt.alloc();
    let long = long_line(heap)?;
    let (first, second) = (whole(heap), whole(heap));
    let refused = failing(heap, usize::MAX, 1, Failure::Error);
    let streams = vec![in heap;
        (
            b"HELLO north\nADD 1 mast POINT (3 4)\nCOMMIT\n".as_slice(),
            Replies::kept_in(&rt, &first),
            NoPause
        ),
        (
            b"HELLO chief\nSEARCH POINT (50 50)\n".as_slice(),
            Replies::kept_in(&rt, &refused),
            NoPause
        ),
        (long.as_slice(), Replies::kept_in(&rt, &second), NoPause),
    ]?;
    let closed = closed_by(&rt, rt, heap, WORKER_COUNT, streams);
    assert_eq!(rt;
        closed,
        Closed {
            records: 2,
            seats: 3
        }
    );
    check_told(&rt, first, "hello north\nstaged\napplied 1\n");
    check_told(&rt, refused, "");
    check_told(&rt, second, "error E1\nhello south\nbye\n");
    Ok(())
}

#[test]
fn lines_of_a_session(rt: HostRuntime) -> Result<(), Fail> {
    let heap: Global = rt.alloc();
    let lines = concat!(
        "SEARCH POINT (0 0)\nHELLO nobody\nHELLO north\nHELLO north\nEXPLAIN read north mast POINT (0 0)\n",
        "COMMIT\nPOLICY {}\nROLL\nDELETE 1 1\nCOMMIT\nABORT\nOPEN POINT (0 0)\nBYE\nHELLO south\n"
    );
    let replies = concat!(
        "error E5\nerror H1\nhello north\nerror E6\npermit rule open edition 1\n",
        "error E7\nerror D2\nerror X7\nstaged\nabsent change 1\naborted\nerror E2\nbye\n"
    );
    let told = whole(heap);
    let streams = vec![in heap; (lines.as_bytes(), Replies::kept_in(&rt, &told), NoPause)]?;
    let closed = closed_by(&rt, rt, heap, WORKER_COUNT, streams);
    assert_eq!(rt;
        closed,
        Closed {
            records: 1,
            seats: 1
        }
    );
    check_told(&rt, told, replies);
    Ok(())
}

#[test]
fn a_secret_stands_behind_the_name(rt: HostRuntime) -> Result<(), Fail> {
    let heap: Global = rt.alloc();
    let keys = [
        key_of(&rt, b"north", b"a-secret"),
        key_of(&rt, b"north", b"another"),
        key_of(&rt, b"south", b"a-third"),
    ];
    let lines = concat!(
        "COMMIT\nHELLO\nHELLO north\nHELLO North x\nHELLO north a-third\nHELLO north a-secret more\n",
        "HELLO chief a-secret\n  HELLO   north   another  \nHELLO north\nADD 1 mast POINT (3 4)\nCOMMIT\nBYE\n"
    );
    let replies = concat!(
        "error E5\nerror E2\nerror E2\nerror E4\nerror H1\nerror E2\n",
        "error H1\nhello north\nerror E6\nstaged\napplied 1\nbye\n"
    );
    let told = whole(heap);
    let streams = vec![in heap; (lines.as_bytes(), Replies::kept_in(&rt, &told), NoPause)]?;
    let closed = closed_with(&rt, rt, heap, 1, &keys, streams);
    assert_eq!(rt;
        closed,
        Closed {
            records: 1,
            seats: 1
        }
    );
    check_told(&rt, told, replies);
    Ok(())
}

#[test]
fn a_steward_governs_and_rolls(rt: HostRuntime) -> Result<(), Fail> {
    let heap: Global = rt.alloc();
    let lines =
        "HELLO chief\nPOLICY {\"root\":{\"combine\":\"first-applicable\",\"policy\":\"none\",\"rules\":[]}}\nROLL\nROLL\nBYE\n";
    let told = whole(heap);
    let streams = vec![in heap; (lines.as_bytes(), Replies::kept_in(&rt, &told), NoPause)]?;
    let closed = closed_by(&rt, rt, heap, 1, streams);
    assert_eq!(rt;
        closed,
        Closed {
            records: 1,
            seats: 1
        }
    );
    let told = told.into_inner().taken;
    assert!(rt;
        told.as_slice()
            .starts_with(b"hello chief\nedition 2\nrolled 1\n"),
        "the first roll"
    );
    assert!(rt;
        told.as_slice().ends_with(b"\nrolled 0\nbye\n"),
        "the second roll"
    );
    Ok(())
}

#[test]
fn one_worker_serves_many(rt: HostRuntime) -> Result<(), Fail> {
    let heap: Global = rt.alloc();
    let told = whole(heap);
    let mut streams = Vec::new(heap);
    for _ in 0..12 {
        streams.push((
            b"HELLO south\nBYE\n".as_slice(),
            Replies::kept_in(&rt, &told),
            NoPause,
        ))?;
    }
    // Zero workers are asked for, and one is started.
    let closed = closed_by(&rt, rt, heap, 0, streams);
    assert_eq!(rt;
        closed,
        Closed {
            records: 0,
            seats: 12
        }
    );
    check_told(
        &rt,
        told,
        concat!(
            "hello south\nbye\nhello south\nbye\nhello south\nbye\nhello south\nbye\nhello south\nbye\nhello south\nbye\n",
            "hello south\nbye\nhello south\nbye\nhello south\nbye\nhello south\nbye\nhello south\nbye\nhello south\nbye\n"
        ),
    );
    Ok(())
}

#[test]
fn nobody_comes(rt: HostRuntime) -> Result<(), Fail> {
    let heap: Global = rt.alloc();
    let told = whole(heap);
    let mut streams = vec![in heap; (b"".as_slice(), Replies::kept_in(&rt, &told), NoPause)]?;
    streams.clear();
    let closed = closed_by(&rt, rt, heap, WORKER_COUNT, streams);
    assert_eq!(rt;
        closed,
        Closed {
            records: 0,
            seats: 0
        }
    );
    Ok(())
}
