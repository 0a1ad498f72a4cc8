//! Unlabelled sessions: what a run that ends with a fault has written and changed, and that BYE
//! ends a session.
use crate::fakes::{FailingReader, FailingWriter, Failure};
use crate::worlds::{opened, replies, serve_first};
use scripts::{ServeFault, serve_world};
use std::alloc::Global;
use std::process::Abort;
use world::World;

/// Lines that commit a point and stage another.
const TWO_POINTS: &str =
    "HELLO north\nADD 1 mast POINT (3 4)\nCOMMIT\nADD 2 mast POINT (3 4)\nSEARCH POINT (3 4)\n";

/// The replies after each number of whole lines.
const REPLIES: [&str; 6] = [
    "",
    "hello north\n",
    "hello north\nstaged\n",
    "hello north\nstaged\napplied 1\n",
    "hello north\nstaged\napplied 1\nstaged\n",
    ALL_REPLIES,
];

const ALL_REPLIES: &str =
    "hello north\nstaged\napplied 1\nstaged\nrows 1\n1 1 north mast POINT (3 4)\n";

/// Checks that a new run finds the point if `lines` lines have committed it, and no staged list.
fn check_left(rt: &impl Abort, alloc: Global, world: &mut World<Global>, lines: usize) {
    let output = replies(
        rt,
        alloc,
        world,
        "n: HELLO north\nn: COMMIT\nn: SEARCH POINT (3 4)\n",
    );
    let expected = if lines < 3 {
        "n: hello north\nn: error E7\nn: rows 0\n"
    } else {
        "n: hello north\nn: error E7\nn: rows 1\nn: 1 1 north mast POINT (3 4)\n"
    };
    assert_eq!(rt; output.as_slice(), expected.as_bytes(), "after {lines}");
}

#[test]
fn each_read_fails(rt: HostRuntime) {
    // The read with the last number would find the end of the input.
    let mut lines = 0;
    for at in 0..=TWO_POINTS.len() {
        let mut world = opened(&rt, rt.alloc(), rt.alloc());
        let mut output = Vec::new(rt.alloc());
        let mut reader = FailingReader {
            bytes: TWO_POINTS.as_bytes(),
            fails_at: (at as u64).saturating_add(1),
        };
        let end = serve_world(rt.alloc(), rt.alloc(), &mut world, &mut reader, &mut output);
        assert!(rt; matches!(end, Err(ServeFault::Read(_))), "at {at}");
        assert_eq!(rt;
            Some(output.as_slice()),
            REPLIES.get(lines).map(|text| text.as_bytes()),
            "at {at}"
        );
        check_left(&rt, rt.alloc(), &mut world, lines);
        if TWO_POINTS.as_bytes().get(at) == Some(&b'\n') {
            lines = lines.saturating_add(1);
        }
    }
    assert_eq!(rt; lines, 5);
}

/// Serves the session into a failing writer, and checks the world as after `lines` lines. One byte
/// is read at a time. Returns how many bytes were not read.
fn serve_into(rt: &impl Abort, alloc: Global, writer: &mut FailingWriter, lines: usize) -> usize {
    let mut world = opened(rt, alloc, alloc);
    let mut reader = FailingReader {
        bytes: TWO_POINTS.as_bytes(),
        fails_at: 0,
    };
    let end = serve_world(alloc, alloc, &mut world, &mut reader, writer);
    assert!(rt; matches!(end, Err(ServeFault::Write(_))));
    check_left(rt, alloc, &mut world, lines);
    reader.bytes.len()
}

#[test]
fn each_write_fails(rt: HostRuntime) {
    let mut written = 0;
    for (at, reply) in ALL_REPLIES.split_inclusive('\n').enumerate() {
        let mut writer = FailingWriter {
            taken: Vec::new(rt.alloc()),
            most: 1_000,
            fails_at: at as u64 + 1,
            with: Failure::Error,
        };
        // The fifth line's reply is written by the last two writes.
        serve_into(&rt, rt.alloc(), &mut writer, at.saturating_add(1).min(5));
        assert_eq!(rt;
            Some(writer.taken.as_slice()),
            ALL_REPLIES.as_bytes().get(..written),
            "at {at}"
        );
        written = written.saturating_add(reply.len()).min(ALL_REPLIES.len());
    }
    assert_eq!(rt; written, ALL_REPLIES.len());
}

/// There is a flush before each read, and one at the end. If one fails, nothing more is read; the
/// whole lines read before it are answered.
#[test]
fn each_flush_fails(rt: HostRuntime) {
    let mut lines = 0;
    for at in 0..=TWO_POINTS.len().saturating_add(1) {
        let mut writer = FailingWriter {
            taken: Vec::new(rt.alloc()),
            most: 1_000,
            fails_at: (at as u64).saturating_add(1),
            with: Failure::OneFlush,
        };
        let left = serve_into(&rt, rt.alloc(), &mut writer, lines);
        assert_eq!(rt; left, TWO_POINTS.len().saturating_sub(at));
        assert_eq!(rt;
            writer.taken.strip_suffix(b"(flush)".as_slice()),
            REPLIES.get(lines).map(|text| text.as_bytes()),
            "at {at}"
        );
        if TWO_POINTS.as_bytes().get(at) == Some(&b'\n') {
            lines = lines.saturating_add(1);
        }
    }
    assert_eq!(rt; lines, 5);
}

/// No line is skipped: an empty line and a comment are unknown commands. After BYE no line is
/// answered.
#[test]
fn lines_behind_bye(rt: HostRuntime) {
    let ran = serve_first(
        &rt,
        rt.alloc(),
        "\n# a comment\nHELLO north\n\n#\nADD 1 mast POINT (3 4)\nBYE\nCOMMIT\nBYE\nHELLO south\nCOMMIT\n",
    );
    assert_eq!(rt;
        ran.output.as_slice(),
        b"error E2\nerror E2\nhello north\nerror E2\nerror E2\nstaged\nbye\n".as_slice()
    );
}
