//! Readers that fail, are interrupted, count their calls, or have very long contents.
use std::io;
use std::io::{ErrorKind, Read};

/// A reader that returns one byte a call. The call number `fails_at`, counted from 1, fails, and
/// later calls succeed; 0 for none.
#[derive(Drop)]
pub struct FailingReader<'a> {
    pub bytes: &'a [u8],
    pub fails_at: u64,
}

impl Read for FailingReader<'_> {
    fn read(&mut self, buf: &mut [u8]) -> io::Result<usize> {
        let fails = self.fails_at == 1;
        self.fails_at = self.fails_at.saturating_sub(1);
        if fails {
            return Err(ErrorKind::Other.into());
        }
        if self.bytes.is_empty() || buf.is_empty() {
            return Ok(0);
        }
        buf[0] = self.bytes[0];
        self.bytes = &self.bytes[1..];
        Ok(1)
    }
}

/// A reader that returns one byte a call, and is interrupted before each byte, and before it tells
/// the end, in so many calls.
#[derive(Drop)]
pub struct InterruptedReader<'a> {
    bytes: &'a [u8],
    times: u64,
    left: u64,
}

impl<'a> InterruptedReader<'a> {
    /// A reader of these bytes.
    pub fn new(bytes: &'a [u8], times: u64) -> Self {
        InterruptedReader {
            bytes,
            times,
            left: times,
        }
    }
}

impl Read for InterruptedReader<'_> {
    fn read(&mut self, buf: &mut [u8]) -> io::Result<usize> {
        if self.left > 0 {
            self.left -= 1;
            return Err(ErrorKind::Interrupted.into());
        }
        self.left = self.times;
        if self.bytes.is_empty() || buf.is_empty() {
            return Ok(0);
        }
        buf[0] = self.bytes[0];
        self.bytes = &self.bytes[1..];
        Ok(1)
    }
}

/// A reader that returns the byte `gives`, one a call, `left` times in total, and counts its calls.
#[derive(Drop)]
pub struct CountingReader {
    pub gives: u8,
    pub left: u64,
    pub calls: u64,
}

impl Read for CountingReader {
    fn read(&mut self, buf: &mut [u8]) -> io::Result<usize> {
        self.calls = self.calls.saturating_add(1);
        if buf.is_empty() || self.left == 0 {
            return Ok(0);
        }
        self.left -= 1;
        buf[0] = self.gives;
        Ok(1)
    }
}

/// A reader that fills each buffer with one comment line, `left` bytes in total.
#[derive(Drop)]
pub struct LongReader {
    pub left: usize,
}

impl Read for LongReader {
    fn read(&mut self, buf: &mut [u8]) -> io::Result<usize> {
        let count = buf.len().min(self.left);
        buf[..count].fill(b'#');
        if let Some(last) = buf[..count].last_mut() {
            *last = b'\n';
        }
        self.left -= count;
        Ok(count)
    }
}
