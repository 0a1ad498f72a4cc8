//! Readers and writers of tests.
use std::io::{self, Read, Write};

/// Bytes, given three at a time.
#[derive(Drop)]
pub(crate) struct Told<'a>(pub &'a [u8]);

impl Read for Told<'_> {
    fn read(&mut self, buffer: &mut [u8]) -> io::Result<usize> {
        let count = buffer.len().min(self.0.len()).min(3);
        buffer[..count].copy_from_slice(&self.0[..count]);
        self.0 = &self.0[count..];
        Ok(count)
    }
}

/// What was written.
#[derive(Drop)]
pub(crate) struct Sent<'a>(pub &'a mut Vec<u8>);

impl Write for Sent<'_> {
    fn write(&mut self, bytes: &[u8]) -> io::Result<usize> {
        self.0.extend_from_slice(bytes)?;
        Ok(bytes.len())
    }

    fn flush(&mut self) -> io::Result<()> {
        Ok(())
    }
}
