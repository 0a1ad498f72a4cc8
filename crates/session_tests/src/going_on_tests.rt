//! Runs and sessions that are broken off at a read, and gone on with: nothing of them is lost.
use crate::fakes::FailingReader;
use crate::worlds::opened;
use byte_streams::{WriteFailed, write_whole};
use line_streams::{BegunLine, LineDesk, Next, ServeFault, go_on_within};
use scripts::Solo;
use session_lines::{Sitting, serve_on};
use std::alloc::Global;
use std::io::Write;
use std::process::Abort;

/// A desk that counts each line, and answers it with its bytes in brackets.
#[derive(Drop)]
struct Bracketing;

impl LineDesk for Bracketing {
    type World = u64;

    ghost tells = { λ line old new said next. Unit {0} };

    fn take_line<W: Write>(
        &mut self,
        lines: &mut u64,
        line: &[u8],
        writer: &mut W,
    ) -> Result<Next, WriteFailed> {
        *lines += 1;
        write_whole(b"[", writer)?;
        write_whole(line, writer)?;
        write_whole(b"]", writer)?;
        Ok(Next::Line)
    }

    ghost long_alike = { λ line other old new said next long longer told. told };
}

/// Three lines: the second ends with a return, the last with the input.
const THREE: &str = "one\ntwo\r\n\nthree";

/// The answers to `THREE`.
const BRACKETED: &str = "[one][two][][three]";

/// An empty buffer.
fn nothing_begun(rt: &impl Abort, heap: Global) -> BegunLine<Global> {
    match BegunLine::new(heap) {
        Ok(begun) => begun,
        Err(_) => panic!(rt; "no line"),
    }
}

/// Each read fails in turn, also the one that would find the end. The run goes on in another world,
/// and the answers of both are those of one run.
#[test]
fn each_read_breaks_a_run_off(rt: HostRuntime) {
    for at in 0..=THREE.len() {
        let mut begun = nothing_begun(&rt, rt.alloc());
        let mut output = Vec::new(rt.alloc());
        let (mut earlier, mut later) = (0, 0);
        let mut reader = FailingReader {
            bytes: THREE.as_bytes(),
            fails_at: at as u64 + 1,
        };
        let desk = &mut Bracketing;
        let end = go_on_within(99, &mut begun, desk, &mut earlier, &mut reader, &mut output);
        assert!(rt; matches!(end, Err(ServeFault::Read(_))), "at {at}");
        let whole = THREE.as_bytes()[..at]
            .iter()
            .filter(|byte| **byte == b'\n')
            .count();
        assert_eq!(rt; earlier, whole as u64, "at {at}");
        let end = go_on_within(99, &mut begun, desk, &mut later, &mut reader, &mut output);
        assert!(rt; end.is_ok(), "at {at}");
        assert_eq!(rt; earlier.saturating_add(later), 4, "at {at}");
        assert_eq!(rt; output.as_slice(), BRACKETED.as_bytes(), "at {at}");
    }
}

/// A run of one read a call is V3 each time, until one read finds the end of the input.
#[test]
fn each_read_is_a_run(rt: HostRuntime) {
    let mut begun = nothing_begun(&rt, rt.alloc());
    let mut output = Vec::new(rt.alloc());
    let mut lines = 0;
    let mut reader = FailingReader {
        bytes: THREE.as_bytes(),
        fails_at: 0,
    };
    let desk = &mut Bracketing;
    for _ in 0..THREE.len() {
        let end = go_on_within(1, &mut begun, desk, &mut lines, &mut reader, &mut output);
        assert!(rt; matches!(end, Err(ServeFault::TooManyTurns(_))));
    }
    let end = go_on_within(1, &mut begun, desk, &mut lines, &mut reader, &mut output);
    assert!(rt; end.is_ok());
    assert_eq!(rt; lines, 4);
    assert_eq!(rt; output.as_slice(), BRACKETED.as_bytes());
}

/// Lines that stage a point, search and commit it.
const STAGED: &str = "HELLO north\nADD 1 mast POINT (3 4)\nSEARCH POINT (3 4)\nCOMMIT\nBYE\n";

/// The replies to `STAGED`.
const STAGED_TOLD: &str = "hello north\nstaged\nrows 0\napplied 1\nbye\n";

/// A session that has not begun.
fn nothing_staged(rt: &impl Abort, heap: Global) -> Sitting<Global> {
    match Sitting::new(heap) {
        Ok(sitting) => sitting,
        Err(_) => panic!(rt; "no session"),
    }
}

/// Each read of a session fails in turn. It is served on by the same service, and its replies are
/// those of one run.
#[test]
fn each_read_breaks_a_session_off(rt: HostRuntime) {
    for at in 0..STAGED.len() {
        let mut world = opened(&rt, rt.alloc(), rt.alloc());
        let mut service = Solo::new(&mut world, rt.alloc());
        let mut sitting = nothing_staged(&rt, rt.alloc());
        let mut output = Vec::new(rt.alloc());
        let mut reader = FailingReader {
            bytes: STAGED.as_bytes(),
            fails_at: at as u64 + 1,
        };
        let end = serve_on(
            rt.alloc(),
            &mut sitting,
            &mut service,
            &mut reader,
            &mut output,
        );
        assert!(rt; matches!(end, Err(ServeFault::Read(_))), "at {at}");
        let end = serve_on(
            rt.alloc(),
            &mut sitting,
            &mut service,
            &mut reader,
            &mut output,
        );
        assert!(rt; end.is_ok(), "at {at}");
        assert_eq!(rt; output.as_slice(), STAGED_TOLD.as_bytes(), "at {at}");
    }
}

/// Serves a session over a world of its own, up to the end of these lines.
fn served_there(
    rt: &impl Abort,
    heap: Global,
    sitting: &mut Sitting<Global>,
    lines: &str,
) -> Vec<u8> {
    let mut world = opened(rt, heap, heap);
    let mut service = Solo::new(&mut world, heap);
    let mut output = Vec::new(heap);
    let mut reader = FailingReader {
        bytes: lines.as_bytes(),
        fails_at: lines.len() as u64 + 1,
    };
    let end = serve_on(heap, sitting, &mut service, &mut reader, &mut output);
    assert!(rt; matches!(end, Err(ServeFault::Read(_))), "{lines}");
    output
}

/// A session goes from one world to another in the middle of a line: what is staged and what has
/// begun go with it, the seat is the service's.
#[test]
fn another_service_goes_on(rt: HostRuntime) {
    let mut sitting = nothing_staged(&rt, rt.alloc());
    let told = served_there(
        &rt,
        rt.alloc(),
        &mut sitting,
        "HELLO north\nADD 1 mast POINT (3 4)\nHELLO s",
    );
    assert_eq!(rt; told.as_slice(), b"hello north\nstaged\n".as_slice());
    let told = served_there(
        &rt,
        rt.alloc(),
        &mut sitting,
        "outh\nADD 1 mast POINT (3 5)\nCOMMIT\nSEARCH POINT (3 4)\nCOMMIT\nCOMM",
    );
    let expected =
        "hello south\nerror X5\napplied 1\nrows 1\n1 1 south mast POINT (3 4)\nerror E7\n";
    assert_eq!(rt; told.as_slice(), expected.as_bytes());
}
