//! Talks that end well: what is sent, what is written, and in which order.
use crate::talking::{ASKED, NONE_FAILS, TOLD, check, outcome_of};
use client::{End, TalkFault, talk};
use failing_streams::{FailingWriter, Failure};
use std::alloc::Global;
use std::cell::Cell;
use std::io;
use std::io::{ErrorKind, Read, Write};
use std::process::Abort;

/// Checks that a talk between this input and this server ends with `end`, writes all of `told`, and
/// sends `sent`.
fn ends(rt: &impl Abort, heap: Global, asked: &str, told: &str, end: End, sent: &str) {
    let outcome = outcome_of(heap, heap, asked, told.as_bytes(), NONE_FAILS);
    let Ok(talked) = &outcome.end else {
        panic!(rt; "a fault: {asked}")
    };
    assert_eq!(rt; talked.end, end, "{asked}");
    check(rt, &outcome, sent.as_bytes(), told.as_bytes());
}

#[test]
fn lines_and_replies(rt: HostRuntime) {
    ends(&rt, rt.alloc(), ASKED, TOLD, End::AtEnd, ASKED);
    ends(&rt, rt.alloc(), "", "", End::AtEnd, "");
    ends(&rt, rt.alloc(), "\n", "error E2\n", End::AtEnd, "\n");
    ends(
        &rt,
        rt.alloc(),
        "A\r\n\n",
        "error E5\nerror E2\n",
        End::AtEnd,
        "A\r\n\n",
    );
}

#[test]
fn a_last_line_without_its_end(rt: HostRuntime) {
    ends(
        &rt,
        rt.alloc(),
        "COMMIT",
        "error E5\n",
        End::AtEnd,
        "COMMIT\n",
    );
    ends(
        &rt,
        rt.alloc(),
        "A\nB",
        "error E5\nerror E5\n",
        End::AtEnd,
        "A\nB\n",
    );
}

#[test]
fn behind_bye(rt: HostRuntime) {
    ends(
        &rt,
        rt.alloc(),
        "BYE\nCOMMIT\n",
        "bye\n",
        End::Farewell,
        "BYE\n",
    );
    ends(&rt, rt.alloc(), "BYE", "bye\n", End::Farewell, "BYE\n");
    ends(
        &rt,
        rt.alloc(),
        "A\nBYE\nA\n",
        "bye bye\nbye\n",
        End::Farewell,
        "A\nBYE\n",
    );
}

/// The number of a reply's lines comes from its first line. Each text here is the reply to one
/// line, and the talk goes on after it.
#[test]
fn first_lines(rt: HostRuntime) {
    for told in [
        "rows 0\n",
        "rows 1\na\n",
        "rows 03\na\nb\n\n",
        "rolled 2\nrows 9\nbye\n",
        "rolled 0\n",
        "rows\n",
        "rows \n",
        "rows x\n",
        "rows +1\n",
        "rows 1 \n",
        "rows 18446744073709551616\n",
        "rows  1\n",
        "Rows 1\n",
        "rolled\n",
        "rolls 1\n",
        " rows 1\n",
        "bye\r\n",
        "Bye\n",
    ] {
        ends(&rt, rt.alloc(), "A\n", told, End::AtEnd, "A\n");
    }
}

/// Bytes that the server sends unasked are written, too.
#[test]
fn bytes_unasked(rt: HostRuntime) {
    let mut input = b"A\n".as_slice();
    let mut peer = b"staged\nunasked".as_slice();
    let mut sent = Vec::new(rt.alloc());
    let mut written = Vec::new(rt.alloc());
    let end = talk(rt.alloc(), &mut input, &mut peer, &mut sent, &mut written);
    assert!(rt; end.is_ok());
    assert_eq!(rt; written.as_slice(), b"staged\nunasked".as_slice());
}

/// They are written before the last flush: the first one is behind the reply, and the second, which
/// fails here, is behind them.
#[test]
fn bytes_unasked_are_flushed(rt: HostRuntime) {
    let mut input = b"A\n".as_slice();
    let mut peer = b"staged\nunasked".as_slice();
    let mut sent = Vec::new(rt.alloc());
    let mut output = FailingWriter {
        taken: Vec::new(rt.alloc()),
        most: usize::MAX,
        fails_at: 2,
        with: Failure::OneFlush,
    };
    let end = talk(rt.alloc(), &mut input, &mut peer, &mut sent, &mut output);
    assert!(rt; matches!(end, Err(TalkFault::Output(_))));
    assert_eq!(rt;
        output.taken.as_slice(),
        b"staged\nunasked(flush)".as_slice()
    );
}

/// The progress of a talk: the lines that the server received, and the flushes of the output, one
/// for each reply.
#[derive(Drop)]
struct Progress {
    lines: Cell<usize>,
    replies: Cell<usize>,
}

/// An input that fails when it is read before the last reply was flushed.
#[derive(Drop)]
struct Patient<'a> {
    progress: &'a Progress,
    lines: &'a [&'a str],
    next: usize,
}

impl Read for Patient<'_> {
    fn read(&mut self, buf: &mut [u8]) -> io::Result<usize> {
        if self.progress.lines.get() != self.progress.replies.get() {
            return Err(ErrorKind::Other.into());
        }
        let Some(line) = self.lines.get(self.next) else {
            return Ok(0);
        };
        let count = line.len().min(buf.len());
        buf[..count].copy_from_slice(&line.as_bytes()[..count]);
        self.next = self.next.saturating_add(1);
        Ok(count)
    }
}

/// The server's end, which counts the lines that it receives: each write is one.
#[derive(Drop)]
struct Lines<'a> {
    progress: &'a Progress,
}

impl Write for Lines<'_> {
    fn write(&mut self, buf: &[u8]) -> io::Result<usize> {
        self.progress
            .lines
            .set(self.progress.lines.get().saturating_add(1));
        Ok(buf.len())
    }

    fn flush(&mut self) -> io::Result<()> {
        Ok(())
    }
}

/// An output that counts its flushes.
#[derive(Drop)]
struct Shown<'a> {
    progress: &'a Progress,
    bytes: Vec<u8>,
}

impl Write for Shown<'_> {
    fn write(&mut self, buf: &[u8]) -> io::Result<usize> {
        self.bytes.extend_from_slice(buf)?;
        Ok(buf.len())
    }

    fn flush(&mut self) -> io::Result<()> {
        self.progress
            .replies
            .set(self.progress.replies.get().saturating_add(1));
        Ok(())
    }
}

/// No line is read before the reply to the previous line is flushed.
#[test]
fn each_line_waits_for_its_reply(rt: HostRuntime) {
    let progress = Progress {
        lines: Cell::new(0),
        replies: Cell::new(0),
    };
    let lines = [
        "HELLO north\n",
        "SEARCH POINT (3 4)\n",
        "ADD 1 mast POINT (3 4)\n",
        "COMMIT\n",
    ];
    let mut input = Patient {
        progress: &progress,
        lines: lines.as_slice(),
        next: 0,
    };
    let mut peer = TOLD.as_bytes();
    let mut sent = Lines {
        progress: &progress,
    };
    let mut output = Shown {
        progress: &progress,
        bytes: Vec::new(rt.alloc()),
    };
    let end = talk(rt.alloc(), &mut input, &mut peer, &mut sent, &mut output);
    assert!(rt; end.is_ok());
    assert_eq!(rt; progress.lines.get(), 4);
    assert_eq!(rt; output.bytes.as_slice(), TOLD.as_bytes());
}
