//! Clients of a socket.
use std::alloc::Global;
use std::io::{BufRead, BufReader, Write};
use std::net::{Net, Shutdown};
use std::os::unix::net::UnixStream;
use std::process::Abort;
use std::{io, thread};

/// Connects as soon as somebody listens; `None` after a million tries.
pub fn connected<R: Net>(rt: &R, path: &str) -> Option<UnixStream> {
    for _ in 0..1_000_000 {
        if let Ok(stream) = UnixStream::connect(rt, path) {
            return Some(stream);
        }
        thread::yield_now();
    }
    None
}

/// The replies to a client that sends these bytes and then closes its side.
pub fn told<R: Net>(rt: &R, heap: Global, path: &str, bytes: &[u8]) -> Option<String> {
    let mut stream = connected(rt, path)?;
    stream.write_all(bytes).ok()?;
    stream.shutdown(Shutdown::Write).ok()?;
    io::read_to_string(heap, stream).ok()
}

/// A client that waits for its replies before it sends more.
#[derive(Drop)]
pub struct Talk {
    stream: UnixStream,
    replies: BufReader<UnixStream>,
}

impl Talk {
    /// Connects.
    pub fn begin<R: Net>(rt: &R, heap: Global, path: &str) -> Option<Talk> {
        let stream = connected(rt, path)?;
        let replies = BufReader::new(heap, stream.try_clone().ok()?).ok()?;
        Some(Talk { stream, replies })
    }

    /// Sends lines, and returns the next `count` lines of the replies.
    pub fn ask(&mut self, heap: Global, lines: &str, count: u32) -> Option<String> {
        self.stream.write_all(lines.as_bytes()).ok()?;
        let mut told = String::new(heap);
        for _ in 0..count {
            self.replies.read_line(&mut told).ok()?;
        }
        Some(told)
    }
}

/// Adds a point, finds it, deletes it and finds nothing. Checks all replies.
fn go_round(rt: &impl Abort, heap: Global, talk: &mut Talk) {
    let added = talk.ask(heap, "ADD 900 mast POINT (-900 5)\nCOMMIT\n", 2);
    let added = added.expect(rt, "replies");
    let version = added.strip_prefix("staged\napplied ");
    let version = version.expect(rt, "it is applied").trim_end();
    let lines = format!(in heap;
        "SEARCH POINT (-900 5)\nDELETE 900 {version}\nCOMMIT\nSEARCH POINT (-900 5)\n"
    );
    let told = talk.ask(heap, lines.expect(rt, "lines").as_str(), 5);
    let told = told.expect(rt, "replies");
    let found = format!(in heap;
        "rows 1\n900 {version} north mast POINT (-900 5)\nstaged\napplied "
    );
    assert!(rt;
        told.starts_with(found.expect(rt, "a row").as_str()),
        "{told}"
    );
    assert!(rt; told.ends_with("\nrows 0\n"), "{told}");
}

/// How many records a round of `watch` leaves.
pub const ROUND: u64 = 4;

/// A client that knows all replies beforehand, and makes this many rounds.
pub fn watch<R: Net + Abort>(rt: &R, heap: Global, path: &str, rounds: u32) {
    let mut talk = Talk::begin(rt, heap, path).expect(rt, "a connection");
    let hello = talk.ask(heap, "HELLO north\n", 1).expect(rt, "a reply");
    assert_eq!(rt; hello.as_str(), "hello north\n");
    for _ in 0..rounds {
        go_round(rt, heap, &mut talk);
    }
    let bye = talk.ask(heap, "BYE\n", 1).expect(rt, "a reply");
    assert_eq!(rt; bye.as_str(), "bye\n");
}
