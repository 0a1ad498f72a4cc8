//! A buffer of bytes that were read from a reader and not used yet.

ghost use Rattle.std.specs.Prelude.{◌≡◌, ◌≤◌, ◌++◌, ◌∷◌, [], drop, if◌then◌else◌, is_ok, length, vec_len};
ghost use Rattle.client.specs.Lines.{Fills, FindsFeed, FindsLine, Gains};

use byte_streams::{ReadFailed, read_some};
use memory::{GrowVec, NoMemory, try_extend};
use std::alloc::Allocator;
use std::io::Read;

/// How many bytes are read at once.
const CHUNK: usize = 4_096;

/// Why the next line is not in memory whole.
#[derive(Debug, Drop, PartialEq, Eq)]
pub(crate) enum AheadFault {
    /// A read failed.
    Read(ReadFailed),
    /// Out of memory.
    Memory(NoMemory),
}

impl From<ReadFailed> for AheadFault {
    ghost use Rattle.client.specs.declared.ahead.AheadFault.TheVariants as reasons;

    ghost from_gives = { λ failed fault. fault ≡ reasons.Read failed };

    fn from(failed: ReadFailed) -> AheadFault {
        AheadFault::Read(failed)
    }
}

impl From<NoMemory> for AheadFault {
    ghost use Rattle.client.specs.declared.ahead.AheadFault.TheVariants as reasons;

    ghost from_gives = { λ no_memory fault. fault ≡ reasons.Memory no_memory };

    fn from(no_memory: NoMemory) -> AheadFault {
        AheadFault::Memory(no_memory)
    }
}

/// How much of the next line is held.
#[derive(Clone, Copy, Debug, Drop, PartialEq, Eq)]
pub(crate) enum Found {
    /// The whole line: its length in bytes, with the line feed at its end.
    Whole(usize),
    /// The reader is at its end, and what is held has no line feed.
    Open,
}

/// The index of the first line feed.
fn first_feed(bytes: &[u8]) -> Option<usize>
    ensures { FindsFeed result bytes.now }
{
    for at in 0..bytes.len() {
        if bytes[at] == b'\n' {
            return Some(at);
        }
    }
    None
}

/// Bytes that were read, the first of which are used already.
#[derive(Drop)]
pub(crate) struct Ahead<A: Allocator> {
    bytes: Vec<u8, A>,
    /// How many of the bytes are used.
    done: usize,
    ghost within: { done ≤ vec_len bytes },
}

impl<A: Allocator> Ahead<A> {
    /// An empty buffer.
    pub(crate) fn none(alloc: A) -> Self
        ensures { drop result.done result.bytes.items ≡ [] }
    {
        Ahead {
            bytes: Vec::new(alloc),
            done: 0,
        }
    }

    /// The bytes that were read and not used yet.
    pub(crate) fn held(&self) -> &[u8]
        ensures { result.now ≡ drop self.now.done self.now.bytes.items }
    {
        &self.bytes[self.done..]
    }

    /// Marks the first `count` held bytes as used.
    pub(crate) fn pass(&mut self, count: usize)
        requires { count ≤ length (drop self.old.done self.old.bytes.items) }
        ensures { drop self.new.done self.new.bytes.items
            ≡ drop count (drop self.old.done self.old.bytes.items) }
    {
        self.done += count;
    }

    /// Appends a line feed to the held bytes. On an error they are unchanged.
    pub(crate) fn end_line(&mut self) -> Result<(), NoMemory>
        ensures { drop self.new.done self.new.bytes.items
            ≡ (if is_ok result then drop self.old.done self.old.bytes.items ++ 10
            ∷ [] else drop self.old.done self.old.bytes.items) }
    {
        self.bytes.try_push(b'\n')
    }

    /// Removes the used bytes from the buffer.
    fn tidy(&mut self)
        ensures { drop self.new.done self.new.bytes.items
            ≡ drop self.old.done self.old.bytes.items }
    {
        let left = self.bytes.len() - self.done;
        self.bytes.rotate_left(self.done);
        self.bytes.truncate(left);
        self.done = 0;
    }

    /// Reads once, and returns how many bytes were added: 0 only at the reader's end.
    fn read_more<R: Read>(&mut self, reader: &mut R) -> Result<usize, AheadFault>
        ensures { Fills result (drop self.old.done self.old.bytes.items)
            (drop self.new.done self.new.bytes.items) (R.remaining reader.old)
            (R.remaining reader.new) }
    {
        self.tidy();
        self.bytes.make_room(CHUNK)?;
        let mut chunk = [0; CHUNK];
        let count = read_some(reader, &mut chunk)?;
        try_extend(&mut self.bytes, &chunk[..count])?;
        Ok(count)
    }

    /// Reads until a whole line is held or the reader is at its end. Bytes already held stay in
    /// front.
    pub(crate) fn read_line<R: Read>(&mut self, reader: &mut R) -> Result<Found, AheadFault>
        ensures gains { Gains (drop self.old.done self.old.bytes.items)
            (drop self.new.done self.new.bytes.items) (R.remaining reader.old)
            (R.remaining reader.new) }
        ensures finds { FindsLine result (drop self.new.done self.new.bytes.items)
            (R.remaining reader.new) }
    {
        let mut seen = 0;
        loop {
            if let Some(at) = first_feed(self.held().split_at(seen).1) {
                return Ok(Found::Whole(seen + at + 1));
            }
            seen = self.held().len();
            if self.read_more(reader)? == 0 {
                return Ok(Found::Open);
            }
        }
    }
}
