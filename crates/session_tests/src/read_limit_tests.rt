//! Runs of lines that end by their limit of reads. The limit of a script is too far for a test, so
//! the runs here have smaller ones.
use byte_streams::WriteFailed;
use failing_streams::CountingReader;
use line_streams::{LineDesk, Next, run_lines_within};
use std::alloc::Global;
use std::io::Write;
use std::process::Abort;

/// A desk that counts the lines, and answers none.
#[derive(Drop)]
struct Counter;

impl LineDesk for Counter {
    ghost use Rattle.std.specs.Prelude.{◌≡◌, ◌+◌};

    type World = u64;

    ghost tells = { λ line old new said next. new.0 ≡ old.0 + 1 };

    fn take_line<W: Write>(
        &mut self,
        lines: &mut u64,
        _line: &[u8],
        _writer: &mut W,
    ) -> Result<Next, WriteFailed> {
        *lines += 1;
        Ok(Next::Line)
    }

    ghost long_alike = { λ line other old new said next long longer told. told };
}

/// Runs an input of this byte, so many times, one a read, with a limit of 100 reads. Checks the code
/// of the fault, the number of reads, and the number of lines that were answered.
fn run_within_100(
    rt: &impl Abort,
    heap: Global,
    input: (u8, u64),
    code: Option<&str>,
    counts: (u64, u64),
) {
    let mut lines = 0;
    let mut output = Vec::new(heap);
    let mut reader = CountingReader {
        gives: input.0,
        left: input.1,
        calls: 0,
    };
    let ended = run_lines_within(
        100,
        heap,
        &mut Counter,
        &mut lines,
        &mut reader,
        &mut output,
    );
    assert_eq!(rt; ended.err().map(|fault| fault.code()), code);
    assert_eq!(rt; (reader.calls, lines), counts);
    assert_eq!(rt; output.len(), 0);
}

/// A run ends by V3 behind its last read, and well where that read found the end of the input.
#[test]
fn a_reader_that_does_not_end(rt: HostRuntime) {
    run_within_100(&rt, rt.alloc(), (b'\n', 99), None, (100, 99));
    run_within_100(&rt, rt.alloc(), (b'\n', 100), Some("V3"), (100, 100));
    run_within_100(&rt, rt.alloc(), (b'\n', u64::MAX), Some("V3"), (100, 100));
}

/// A line without an end is read up to the limit of reads, and not answered.
#[test]
fn a_line_that_does_not_end(rt: HostRuntime) {
    run_within_100(&rt, rt.alloc(), (b'#', u64::MAX), Some("V3"), (100, 0));
    run_within_100(&rt, rt.alloc(), (b'#', 99), None, (100, 1));
}
