//! Draws over streams that can fail, and keeps what was written.
use byte_streams::Flushed;
use drawing::{DrawFault, draw};
use failing_streams::{FailingReader, FailingWriter, Failure};
use std::alloc::{Allocator, Global};

/// The call at which each stream fails, counted from 1, or 0 for none; and how the output fails.
#[derive(Clone, Copy, Drop)]
pub(crate) struct Fails {
    pub(crate) script: u64,
    pub(crate) replies: u64,
    pub(crate) output: u64,
    pub(crate) with: Failure,
}

/// No stream fails.
pub(crate) const NONE_FAILS: Fails = Fails {
    script: 0,
    replies: 0,
    output: 0,
    with: Failure::Error,
};

/// How a drawing ended, and what was written.
#[derive(Drop)]
pub(crate) struct Outcome {
    pub(crate) end: Result<Flushed, DrawFault>,
    pub(crate) written: Vec<u8>,
}

/// The outcome of drawing this script and these replies. Each reader returns one byte a call.
pub(crate) fn outcome_of<A: Allocator + Copy>(
    alloc: A,
    heap: Global,
    script: &str,
    replies: &str,
    fails: Fails,
) -> Outcome {
    let mut script = FailingReader {
        bytes: script.as_bytes(),
        fails_at: fails.script,
    };
    let mut replies = FailingReader {
        bytes: replies.as_bytes(),
        fails_at: fails.replies,
    };
    let mut output = FailingWriter {
        taken: Vec::new(heap),
        most: 1_000_000,
        fails_at: fails.output,
        with: fails.with,
    };
    let end = draw(alloc, &mut script, &mut replies, &mut output);
    Outcome {
        end,
        written: output.taken,
    }
}
