//! The lines that a server sends, one at a time.

use crate::faults::ListFault;
use byte_streams::read_some;
use memory::{GrowVec, try_extend};
use std::alloc::Allocator;
use std::io::Read;

/// How many bytes are read at once.
const CHUNK: usize = 4_096;

/// The most bytes of a line that is kept, without its end; a longer one is no reply.
pub const REPLY_LIMIT: usize = 1_024;

/// Bytes that a server has sent, the first of which are used already.
#[derive(Drop)]
pub struct Peer<A: Allocator> {
    bytes: Vec<u8, A>,
    /// How many of the bytes are used.
    used: usize,
}

impl<A: Allocator + Copy> Peer<A> {
    /// Nothing is read yet.
    pub fn new(alloc: A) -> Self {
        Peer {
            bytes: Vec::new(alloc),
            used: 0,
        }
    }

    /// Reads once more. `Ended` at the end of what the server sends.
    fn read_more<R: Read>(&mut self, reader: &mut R) -> Result<(), ListFault> {
        self.bytes.clear();
        self.used = 0;
        let mut chunk = [0; CHUNK];
        let count = read_some(reader, &mut chunk)?;
        if count == 0 {
            return Err(ListFault::Ended);
        }
        try_extend(&mut self.bytes, &chunk[..count.min(CHUNK)])?;
        Ok(())
    }

    /// The next byte that is held, if there is one.
    fn next_held(&mut self) -> Option<u8> {
        let byte = *self.bytes.get(self.used)?;
        self.used = self.used.wrapping_add(1);
        Some(byte)
    }

    /// Reads the next line into `line`, without its line feed. `TooLong` if it has more than
    /// `REPLY_LIMIT` bytes.
    pub fn read_line<R: Read>(
        &mut self,
        reader: &mut R,
        line: &mut Vec<u8, A>,
    ) -> Result<(), ListFault> {
        line.clear();
        for _ in 0..u64::MAX {
            match self.next_held() {
                Some(b'\n') => return Ok(()),
                Some(byte) => {
                    if line.len() >= REPLY_LIMIT {
                        return Err(ListFault::TooLong);
                    }
                    line.try_push(byte)?;
                }
                None => self.read_more(reader)?,
            }
        }
        Err(ListFault::TooLong)
    }
}
