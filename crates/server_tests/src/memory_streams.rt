//! Streams in memory, and pauses and clients that wait for each other.
use failing_streams::{FailingWriter, Failure};
use hall::Pause;
use std::alloc::Global;
use std::io::{Read, Write};
use std::process::Abort;
use std::sync::atomic::{AtomicU64, Ordering};
use std::sync::{Mutex, Wait};
use std::{io, thread};

/// How often a thread yields while it waits for another, at most.
const TURNS: u32 = 10_000_000;

/// Writes a session's replies into a shared writer, which is read after the session has ended.
#[derive(Drop)]
pub struct Replies<'a, R: Wait> {
    rt: &'a R,
    told: &'a Mutex<FailingWriter>,
}

impl<'a, R: Wait> Replies<'a, R> {
    /// Replies written into this writer.
    pub fn kept_in(rt: &'a R, told: &'a Mutex<FailingWriter>) -> Self {
        Replies { rt, told }
    }
}

impl<R: Wait> Write for Replies<'_, R> {
    fn write(&mut self, buf: &[u8]) -> io::Result<usize> {
        self.told.lock(self.rt).write(buf)
    }

    fn flush(&mut self) -> io::Result<()> {
        self.told.lock(self.rt).flush()
    }
}

/// A writer that takes everything.
pub fn whole(heap: Global) -> Mutex<FailingWriter> {
    failing(heap, usize::MAX, 0, Failure::Error)
}

/// A writer that takes at most `most` bytes a call. The call number `fails_at`, counted from 1,
/// fails as `with` says, and later calls succeed; 0 for none.
pub fn failing(heap: Global, most: usize, fails_at: u64, with: Failure) -> Mutex<FailingWriter> {
    Mutex::new(FailingWriter {
        taken: Vec::new(heap),
        most,
        fails_at,
        with,
    })
}

/// Checks what a session was answered.
pub fn check_told(rt: &impl Abort, told: Mutex<FailingWriter>, expected: &str) {
    assert_eq!(rt; told.into_inner().taken.as_slice(), expected.as_bytes());
}

/// Waits until a flag is set, for at most `TURNS` turns, and returns whether it is set.
fn wait_for(flag: &AtomicU64) -> bool {
    for _ in 0..TURNS {
        if flag.load(Ordering::SeqCst) != 0 {
            return true;
        }
        thread::yield_now();
    }
    false
}

/// A pause that wants steps, and lets the first `passes` calls pass. The next call sets the flag
/// `mine` and waits until the flag `other` is set; all later calls pass.
#[derive(Drop)]
pub struct Meeting<'a> {
    pub passes: u64,
    pub mine: &'a AtomicU64,
    pub other: &'a AtomicU64,
}

impl Meeting<'_> {
    /// The value of `mine` once `other` has been seen.
    pub const MET: u64 = 2;
}

impl Pause for Meeting<'_> {
    fn between(&mut self) {
        if self.passes > 0 {
            self.passes -= 1;
        } else if self.mine.load(Ordering::SeqCst) == 0 {
            self.mine.store(1, Ordering::SeqCst);
            if wait_for(self.other) {
                self.mine.store(Meeting::MET, Ordering::SeqCst);
            }
        }
    }

    fn wants_steps(&self) -> bool {
        true
    }
}

/// What a client does next.
#[derive(Clone, Copy, Drop)]
pub enum Step {
    /// Sends a text.
    Sends(&'static str),
    /// Sends a text again and again, until the flag `answered` is set.
    Repeats(&'static str),
    /// Waits until the flag `seen` is set.
    Awaits,
    /// Sets the flag `answered`: everything sent before has been answered.
    Sets,
}

/// A client that takes one step after another. It is read from only when everything it has sent is
/// answered.
#[derive(Drop)]
pub struct Client<'a> {
    pub steps: &'static [Step],
    pub seen: &'a AtomicU64,
    pub answered: &'a AtomicU64,
}

impl Client<'_> {
    /// What it sends next; empty after its last step.
    fn next_text(&mut self) -> &'static str {
        for _ in 0..self.steps.len() {
            let [step, rest @ ..] = self.steps else {
                break;
            };
            match *step {
                Step::Sends(text) => {
                    self.steps = rest;
                    return text;
                }
                Step::Repeats(text) => {
                    if self.answered.load(Ordering::SeqCst) == 0 {
                        return text;
                    }
                }
                Step::Awaits => {
                    wait_for(self.seen);
                }
                Step::Sets => self.answered.store(1, Ordering::SeqCst),
            }
            self.steps = rest;
        }
        ""
    }
}

impl Read for Client<'_> {
    fn read(&mut self, buf: &mut [u8]) -> io::Result<usize> {
        let text = self.next_text();
        let count = text.len().min(buf.len());
        buf[..count].copy_from_slice(&text.as_bytes()[..count]);
        Ok(count)
    }
}
