//! What a run that ends with a fault has written and changed.
use crate::fakes::{FIRST_POINT, FIRST_REPLIES, FailingReader, FailingWriter, Failure, LongReader};
use crate::worlds::{opened, replies};
use refusing::Refusing;
use scripts::{READ_LIMIT, ServeFault, run_script};
use std::alloc::Global;
use std::process::Abort;
use world::World;

/// The replies to the worked script after each number of whole lines.
const REPLIES: [&str; 6] = [
    "",
    "n: hello north\n",
    "n: hello north\nn: staged\n",
    "n: hello north\nn: staged\nn: applied 1\n",
    "n: hello north\nn: staged\nn: applied 1\nn: rows 1\nn: 1 1 north mast POINT (3 4)\n",
    FIRST_REPLIES,
];

/// The replies to a COMMIT and a search after a run of each number of lines of the worked script.
const LEFT: [&str; 6] = [
    "n: hello north\nn: error E7\nn: rows 0\n",
    "n: hello north\nn: error E7\nn: rows 0\n",
    "n: hello north\nn: error E7\nn: rows 0\n",
    "n: hello north\nn: error E7\nn: rows 1\nn: 1 1 north mast POINT (3 4)\n",
    "n: hello north\nn: error E7\nn: rows 1\nn: 1 1 north mast POINT (3 4)\n",
    "n: hello north\nn: error E7\nn: rows 1\nn: 1 1 north mast POINT (3 4)\n",
];

/// Checks that a new run finds the world that `lines` lines have left, and no staged list.
fn check_left(rt: &impl Abort, alloc: Global, world: &mut World<Global>, lines: usize) {
    let output = replies(
        rt,
        alloc,
        world,
        "n: HELLO north\nn: COMMIT\nn: SEARCH POINT (3 4)\n",
    );
    assert_eq!(rt;
        Some(output.as_slice()),
        LEFT.get(lines).map(|text| text.as_bytes()),
        "after {lines}"
    );
}

#[test]
fn each_read_fails(rt: HostRuntime) {
    // The read with the last number would find the end of the input.
    let mut lines = 0;
    for at in 0..=FIRST_POINT.len() {
        let mut world = opened(&rt, rt.alloc(), rt.alloc());
        let mut output = Vec::new(rt.alloc());
        let mut reader = FailingReader {
            bytes: FIRST_POINT.as_bytes(),
            fails_at: (at as u64).saturating_add(1),
        };
        let end = run_script(rt.alloc(), rt.alloc(), &mut world, &mut reader, &mut output);
        assert!(rt; matches!(end, Err(ServeFault::Read(_))), "at {at}");
        assert_eq!(rt;
            Some(output.as_slice()),
            REPLIES.get(lines).map(|text| text.as_bytes()),
            "at {at}"
        );
        check_left(&rt, rt.alloc(), &mut world, lines);
        if FIRST_POINT.as_bytes().get(at) == Some(&b'\n') {
            lines = lines.saturating_add(1);
        }
    }
    assert_eq!(rt; lines, 5);
}

/// For each line of the replies, how many lines of the worked script are answered when it is
/// written.
const ANSWERED: [usize; 6] = [1, 2, 3, 4, 4, 5];

/// Runs the worked script into a failing writer, checks the code of the fault, and checks the world
/// with a new run.
fn run_into(
    rt: &impl Abort,
    alloc: Global,
    writer: &mut FailingWriter,
    code: Option<&str>,
    lines: usize,
) {
    let mut world = opened(rt, alloc, alloc);
    let ended = run_script(
        alloc,
        alloc,
        &mut world,
        &mut FIRST_POINT.as_bytes(),
        writer,
    );
    assert_eq!(rt; ended.err().map(|fault| fault.code()), code);
    check_left(rt, alloc, &mut world, lines);
}

#[test]
fn each_write_fails(rt: HostRuntime) {
    let mut written = 0;
    for (at, reply) in FIRST_REPLIES.split_inclusive('\n').enumerate() {
        for failure in [Failure::Error, Failure::Nothing] {
            let mut writer = FailingWriter {
                taken: Vec::new(rt.alloc()),
                most: 1_000,
                fails_at: at as u64 + 1,
                with: failure,
            };
            let answered = ANSWERED.get(at).copied().unwrap_or(0);
            run_into(&rt, rt.alloc(), &mut writer, Some("V2"), answered);
            assert_eq!(rt;
                Some(writer.taken.as_slice()),
                FIRST_REPLIES.as_bytes().get(..written),
                "at {at}"
            );
        }
        written = written.saturating_add(reply.len()).min(FIRST_REPLIES.len());
    }
    assert_eq!(rt; written, FIRST_REPLIES.len());
}

#[test]
fn each_byte_fails(rt: HostRuntime) {
    let mut reply = 0;
    for (at, byte) in FIRST_REPLIES.bytes().enumerate() {
        let mut writer = FailingWriter {
            taken: Vec::new(rt.alloc()),
            most: 1,
            fails_at: at as u64 + 1,
            with: Failure::Error,
        };
        let answered = ANSWERED.get(reply).copied().unwrap_or(0);
        run_into(&rt, rt.alloc(), &mut writer, Some("V2"), answered);
        if byte == b'\n' {
            reply = reply.saturating_add(1);
        }
        assert_eq!(rt;
            Some(writer.taken.as_slice()),
            FIRST_REPLIES.as_bytes().get(..at),
            "at {at}"
        );
    }
}

/// Lines that leave two records.
const RECORDS: &str =
    "n: HELLO north\nn: ADD 1 mast POINT (3 4)\nn: COMMIT\nn: SEARCH POINT (3 4)\n";

const ROLL: &str = "c: HELLO chief\nc: ROLL\n";

/// The replies to `ROLL` after `RECORDS`.
const ROLLED: &str = r#"c: hello chief
c: rolled 2
c: {"changes":[{"class":"mast","id":1,"shape":"POINT (3 4)","what":"add"}],"kind":"applied","number":1,"seat":1,"subject":"north","version":1}
c: {"ids":[1],"kind":"answered","number":2,"seat":1,"subject":"north","window":"POINT (3 4)"}
"#;

/// Rolls two records into a failing writer, and checks that a new run finds an empty trail. Returns
/// the code of the fault.
fn roll_into(rt: &impl Abort, alloc: Global, writer: &mut FailingWriter) -> Option<&'static str> {
    let mut world = opened(rt, alloc, alloc);
    replies(rt, alloc, &mut world, RECORDS);
    let ended = run_script(alloc, alloc, &mut world, &mut ROLL.as_bytes(), writer);
    let output = replies(rt, alloc, &mut world, ROLL);
    assert_eq!(rt;
        output.as_slice(),
        b"c: hello chief\nc: rolled 0\n".as_slice()
    );
    ended.err().map(|fault| fault.code())
}

/// Each write of a roll's reply in turn fails, from number `first` on, and each takes at most
/// `most` bytes. What was written is a prefix of the reply, longer each time.
fn fail_each_of_a_roll(rt: &impl Abort, alloc: Global, most: usize, first: u64) {
    let mut least = "c: hello chief\n".len();
    for fails_at in first..1_000 {
        let mut writer = FailingWriter {
            taken: Vec::new(alloc),
            most,
            fails_at,
            with: Failure::Error,
        };
        let code = roll_into(rt, alloc, &mut writer);
        assert!(rt;
            ROLLED.as_bytes().starts_with(writer.taken.as_slice()),
            "at {fails_at}"
        );
        assert!(rt; writer.taken.len() >= least, "at {fails_at}");
        if writer.fails_at > 0 {
            // The run makes fewer writes than `fails_at`.
            assert_eq!(rt; code, None);
            assert_eq!(rt; writer.taken.len(), ROLLED.len());
            return;
        }
        assert_eq!(rt; code, Some("V2"), "at {fails_at}");
        least = writer.taken.len().saturating_add(1);
    }
    assert!(rt; false, "each write failed");
}

#[test]
fn each_write_of_a_roll_fails(rt: HostRuntime) {
    fail_each_of_a_roll(&rt, rt.alloc(), 1_000, 2);
    fail_each_of_a_roll(&rt, rt.alloc(), 1, 16);
}

#[test]
fn writes_go_on(rt: HostRuntime) {
    for (most, fails_at) in [(1_000, 0), (1, 0), (7, 0), (1_000, 2), (3, 20)] {
        let mut writer = FailingWriter {
            taken: Vec::new(rt.alloc()),
            most,
            fails_at,
            with: Failure::Interrupted,
        };
        run_into(&rt, rt.alloc(), &mut writer, None, 5);
        assert_eq!(rt; writer.taken.as_slice(), FIRST_REPLIES.as_bytes());
    }
}

/// An input with more bytes than the limit of reads is served, since a read returns many of them.
#[test]
fn more_bytes_than_reads(rt: HostRuntime) {
    assert_eq!(rt; READ_LIMIT, 16_777_216);
    let mut world = opened(&rt, rt.alloc(), rt.alloc());
    let mut output = Vec::new(rt.alloc());
    let mut reader = LongReader { left: 17_000_000 };
    let ended = run_script(rt.alloc(), rt.alloc(), &mut world, &mut reader, &mut output);
    assert!(rt; ended.is_ok());
    assert_eq!(rt; (reader.left, output.len()), (0, 0));
}

#[test]
fn buffers_refused(rt: HostRuntime) {
    let memory = Refusing::new(rt.alloc(), 0);
    for at in 1..3 {
        let mut world = opened(&rt, &memory, rt.alloc());
        let mut output = Vec::new(rt.alloc());
        let mut reader = FIRST_POINT.as_bytes();
        memory.refuse(at);
        let end = run_script(&memory, rt.alloc(), &mut world, &mut reader, &mut output);
        // The allocations of the table of sessions and of the line buffer: nothing is read.
        assert!(rt; matches!(end, Err(ServeFault::Memory(_))));
        assert_eq!(rt; (reader.len(), output.len()), (FIRST_POINT.len(), 0));
    }
}
