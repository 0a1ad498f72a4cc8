//! A writer that fails.
use std::io;
use std::io::{ErrorKind, Write};

/// A writer that takes at most `most` bytes a call. The call number `fails_at`, counted from 1,
/// fails as `with` says, and later calls succeed; 0 for none.
#[derive(Drop)]
pub struct FailingWriter {
    pub taken: Vec<u8>,
    pub most: usize,
    pub fails_at: u64,
    pub with: Failure,
}

/// How a `FailingWriter` fails.
#[derive(Clone, Copy, Drop)]
pub enum Failure {
    /// The write returns an error.
    Error,
    /// The write takes no byte.
    Nothing,
    /// The write is interrupted.
    Interrupted,
    /// No write fails. Every flush fails, and appends a mark to the bytes taken.
    Flush,
    /// No write fails. The flush number `fails_at` fails, and appends the same mark.
    OneFlush,
}

impl FailingWriter {
    /// Counts this call, and returns whether it is the one to fail.
    fn is_due(&mut self) -> bool {
        let due = self.fails_at == 1;
        self.fails_at = self.fails_at.saturating_sub(1);
        due
    }
}

impl Write for FailingWriter {
    fn write(&mut self, buf: &[u8]) -> io::Result<usize> {
        let fails = match self.with {
            Failure::Flush | Failure::OneFlush => false,
            Failure::Error | Failure::Nothing | Failure::Interrupted => self.is_due(),
        };
        if fails {
            return match self.with {
                Failure::Nothing => Ok(0),
                Failure::Interrupted => Err(ErrorKind::Interrupted.into()),
                _ => Err(ErrorKind::Other.into()),
            };
        }
        let count = buf.len().min(self.most);
        self.taken.write_all(&buf[..count])?;
        Ok(count)
    }

    fn flush(&mut self) -> io::Result<()> {
        let fails = match self.with {
            Failure::Flush => true,
            Failure::OneFlush => self.is_due(),
            Failure::Error | Failure::Nothing | Failure::Interrupted => false,
        };
        if fails {
            self.taken.write_all(b"(flush)")?;
            return Err(ErrorKind::Other.into());
        }
        Ok(())
    }
}
