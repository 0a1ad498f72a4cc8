//! Runs a talk over streams that can fail, and keeps what it sent and wrote.
use client::{TalkFault, Talked, talk};
use failing_streams::{FailingReader, FailingWriter, Failure};
use std::alloc::{Allocator, Global};
use std::process::Abort;

/// The lines of a worked session; `TOLD` has the replies to them.
pub(crate) const ASKED: &str = "HELLO north\nSEARCH POINT (3 4)\nADD 1 mast POINT (3 4)\nCOMMIT\n";

pub(crate) const TOLD: &str =
    "hello north\nrows 2\n1 1 north mast POINT (3 4)\n2 1 north mast POINT (3 4)\nstaged\napplied 1\n";

/// Where each line ends in `ASKED`, after a 0 for the start. `TOLD_ENDS` has the same for the
/// replies in `TOLD`.
pub(crate) const ASKED_ENDS: [usize; 5] = [0, 12, 31, 54, 61];

pub(crate) const TOLD_ENDS: [usize; 5] = [0, 12, 73, 80, 90];

/// The call at which each of the four streams fails, counted from 1; 0 for none.
#[derive(Clone, Copy)]
pub(crate) struct Fails {
    pub(crate) input: u64,
    pub(crate) heard: u64,
    pub(crate) sent: u64,
    pub(crate) output: u64,
}

/// No stream fails.
pub(crate) const NONE_FAILS: Fails = Fails {
    input: 0,
    heard: 0,
    sent: 0,
    output: 0,
};

/// How a talk ended, and what it sent and wrote.
#[derive(Drop)]
pub(crate) struct Outcome {
    pub(crate) end: Result<Talked, TalkFault>,
    pub(crate) sent: Vec<u8>,
    pub(crate) written: Vec<u8>,
}

/// A writer that takes everything, and fails at the call of this number.
pub(crate) fn writer(heap: Global, fails_at: u64) -> FailingWriter {
    FailingWriter {
        taken: Vec::new(heap),
        most: 1_000_000,
        fails_at,
        with: Failure::Error,
    }
}

/// The outcome of a talk between this input and this server. Each reader returns one byte a call.
pub(crate) fn outcome_of<A: Allocator + Copy>(
    alloc: A,
    heap: Global,
    asked: &str,
    told: &[u8],
    fails: Fails,
) -> Outcome {
    let mut input = FailingReader {
        bytes: asked.as_bytes(),
        fails_at: fails.input,
    };
    let mut heard = FailingReader {
        bytes: told,
        fails_at: fails.heard,
    };
    let mut sent = writer(heap, fails.sent);
    let mut written = writer(heap, fails.output);
    let end = talk(alloc, &mut input, &mut heard, &mut sent, &mut written);
    Outcome {
        end,
        sent: sent.taken,
        written: written.taken,
    }
}

/// Checks what was sent and what was written.
pub(crate) fn check(rt: &impl Abort, outcome: &Outcome, sent: &[u8], written: &[u8]) {
    assert_eq!(rt; outcome.sent.as_slice(), sent);
    assert_eq!(rt; outcome.written.as_slice(), written);
}
