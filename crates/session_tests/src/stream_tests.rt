//! Unlabelled sessions over a buffered writer: replies are flushed before a read waits, and BYE
//! ends the stream.
use crate::worlds::opened;
use byte_streams::let_go;
use failing_streams::{FailingReader, FailingWriter, Failure};
use refusing::Refusing;
use scripts::{ServeFault, serve_world};
use std::alloc::Global;
use std::cell::RefCell;
use std::io;
use std::io::{BufWriter, ErrorKind, Read, Write};
use std::process::Abort;

/// The bytes that a client has received, and the number of writes.
#[derive(Drop)]
struct Received {
    bytes: Vec<u8>,
    writes: u64,
}

/// The receiving end of a client's connection.
#[derive(Drop)]
struct Replies<'a> {
    received: &'a RefCell<Received>,
}

impl Write for Replies<'_> {
    fn write(&mut self, buf: &[u8]) -> io::Result<usize> {
        match self.received.try_borrow_mut() {
            Ok(mut received) => {
                received.bytes.extend_from_slice(buf)?;
                received.writes = received.writes.saturating_add(1);
                Ok(buf.len())
            }
            Err(_) => Err(ErrorKind::WouldBlock.into()),
        }
    }

    fn flush(&mut self) -> io::Result<()> {
        Ok(())
    }
}

/// A client that sends more only after it has received every reply it is owed. An earlier read
/// would wait for ever; here it fails.
#[derive(Drop)]
struct Client<'a> {
    talk: &'a [(&'a str, &'a str)],
    owed: usize,
    received: &'a RefCell<Received>,
}

impl Client<'_> {
    /// Whether all owed replies have come.
    fn has_all(&self) -> bool {
        match self.received.try_borrow() {
            Ok(received) => received.bytes.len() == self.owed,
            Err(_) => false,
        }
    }
}

impl Read for Client<'_> {
    fn read(&mut self, buf: &mut [u8]) -> io::Result<usize> {
        if !self.has_all() {
            return Err(ErrorKind::WouldBlock.into());
        }
        let [(lines, replies), rest @ ..] = self.talk else {
            return Ok(0);
        };
        let count = lines.len().min(buf.len());
        buf[..count].copy_from_slice(&lines.as_bytes()[..count]);
        self.owed = self.owed.saturating_add(replies.len());
        self.talk = rest;
        Ok(count)
    }
}

/// The texts that a client sends, some of several lines, each with the replies that it is then
/// owed. Nothing after BYE is read.
const TALK: [(&str, &str); 6] = [
    ("HELLO north\n", "hello north\n"),
    ("ADD 1 mast POINT (3 4)\n", "staged\n"),
    (
        "COMMIT\nSEARCH POINT (3 4)\nABORT\n",
        "applied 1\nrows 1\n1 1 north mast POINT (3 4)\naborted\n",
    ),
    ("SEARCH POINT (3 5)\nCOM", "rows 0\n"),
    ("MIT\nBYE\nHELLO south\n", "error E7\nbye\n"),
    ("HELLO south\n", ""),
];

const TALKED: &str =
    "hello north\nstaged\napplied 1\nrows 1\n1 1 north mast POINT (3 4)\naborted\nrows 0\nerror E7\nbye\n";

/// The last line has no line feed, and is answered at the end of the input.
const CUT_OFF: [(&str, &str); 2] = [
    ("HELLO north\n", "hello north\n"),
    ("SEARCH POINT (3 5)", ""),
];

/// What a client has received when its run has ended, and how many of its texts it has not sent.
fn converse(rt: &impl Abort, alloc: Global, talk: &[(&str, &str)]) -> (Received, usize) {
    let mut world = opened(rt, alloc, alloc);
    let received = RefCell::new(Received {
        bytes: Vec::new(alloc),
        writes: 0,
    });
    let mut client = Client {
        talk,
        owed: 0,
        received: &received,
    };
    let writer = BufWriter::new(
        alloc,
        Replies {
            received: &received,
        },
    );
    assert!(rt; writer.is_ok());
    let mut writer = writer.unwrap();
    let end = serve_world(alloc, alloc, &mut world, &mut client, &mut writer);
    assert!(rt; end.is_ok());
    let _ = let_go(writer);
    let left = client.talk.len();
    (received.into_inner(), left)
}

/// The replies to lines sent together are written together: one write for each read.
#[test]
fn a_client_waits_for_its_replies(rt: HostRuntime) {
    let (received, left) = converse(&rt, rt.alloc(), &TALK);
    assert_eq!(rt; received.bytes.as_slice(), TALKED.as_bytes());
    assert_eq!(rt; (received.writes, left), (5, 1));
    let (received, left) = converse(&rt, rt.alloc(), &CUT_OFF);
    assert_eq!(rt;
        received.bytes.as_slice(),
        b"hello north\nrows 0\n".as_slice()
    );
    assert_eq!(rt; (received.writes, left), (2, 0));
}

/// After the reply `bye` nothing more is read: the next read would fail.
#[test]
fn nothing_is_read_behind_bye(rt: HostRuntime) {
    for lines in [
        "BYE\n",
        "HELLO north\nBYE\n",
        "HELLO north\nADD 1 mast POINT (3 4)\nBYE\n",
    ] {
        let mut world = opened(&rt, rt.alloc(), rt.alloc());
        let mut output = Vec::new(rt.alloc());
        let mut reader = FailingReader {
            bytes: lines.as_bytes(),
            fails_at: (lines.len() as u64).saturating_add(1),
        };
        let end = serve_world(rt.alloc(), rt.alloc(), &mut world, &mut reader, &mut output);
        assert!(rt; end.is_ok(), "{lines}");
        assert!(rt; output.ends_with(b"bye\n"), "{lines}");
        assert_eq!(rt; reader.fails_at, 1, "{lines}");
    }
}

/// If the line buffer cannot be allocated, nothing is read.
#[test]
fn the_held_line_is_refused(rt: HostRuntime) {
    let memory = Refusing::new(rt.alloc(), 0);
    let mut world = opened(&rt, &memory, rt.alloc());
    let mut output = Vec::new(rt.alloc());
    let mut reader = b"HELLO north\n".as_slice();
    memory.refuse(1);
    let end = serve_world(&memory, rt.alloc(), &mut world, &mut reader, &mut output);
    assert!(rt; matches!(end, Err(ServeFault::Memory(_))));
    assert_eq!(rt; (reader.len(), output.len()), (12, 0));
}

/// The flush before the first read fails.
#[test]
fn the_first_flush_fails(rt: HostRuntime) {
    let mut world = opened(&rt, rt.alloc(), rt.alloc());
    let mut reader = b"HELLO north\n".as_slice();
    let mut writer = FailingWriter {
        taken: Vec::new(rt.alloc()),
        most: 1_000,
        fails_at: 0,
        with: Failure::Flush,
    };
    let end = serve_world(rt.alloc(), rt.alloc(), &mut world, &mut reader, &mut writer);
    assert!(rt; matches!(end, Err(ServeFault::Write(_))));
    assert_eq!(rt; reader.len(), 12);
    assert_eq!(rt; writer.taken.as_slice(), b"(flush)".as_slice());
}

/// The flush after a line fails, because the writer under the buffer fails. The line was answered,
/// and the buffered bytes are not written again.
#[test]
fn a_later_flush_fails(rt: HostRuntime) {
    let mut world = opened(&rt, rt.alloc(), rt.alloc());
    let mut reader = FailingReader {
        bytes: b"HELLO north\nBYE\n",
        fails_at: 0,
    };
    let writer = BufWriter::new(
        rt.alloc(),
        FailingWriter {
            taken: Vec::new(rt.alloc()),
            most: 1_000,
            fails_at: 1,
            with: Failure::Error,
        },
    );
    assert!(rt; writer.is_ok());
    let mut writer = writer.unwrap();
    let end = serve_world(rt.alloc(), rt.alloc(), &mut world, &mut reader, &mut writer);
    assert!(rt; matches!(end, Err(ServeFault::Write(_))));
    assert_eq!(rt; reader.bytes.len(), 4);
    let inner = let_go(writer);
    assert_eq!(rt; inner.taken.len(), 0);
}
