//! Writes bytes to a writer.

ghost use Rattle.std.specs.Prelude.{◌≡◌, OnOk, IfSome};
ghost use Rattle.std.specs.Io.Buffered.{writer_inner};
ghost use Rattle.std.specs.Io.KnownBytes.{Appends, Keeps};
ghost use Rattle.byte_streams.specs.Written.{Took, WriteTook};

use crate::failures::WriteFailed;
use std::alloc::Allocator;
use std::fmt::Display;
use std::io::{BufWriter, ErrorKind, Write};

/// A writer was flushed. Only `flush` makes one, and only after the writer's own flush succeeded,
/// so that no result that carries one is returned without a flush.
#[derive(Debug, Drop, PartialEq, Eq)]
pub struct Flushed {
    seal: (),
}

/// Calls the writer once, and returns how many of the bytes it took: 0 if the call was interrupted.
/// `WriteFailed` if the writer returns an error, or takes no byte.
fn write_some<W: Write>(bytes: &[u8], writer: &mut W) -> Result<usize, WriteFailed>
    ensures { WriteTook result (W.contents writer.old) (W.contents writer.new) bytes.now }
{
    match writer.write(bytes) {
        Ok(0) => Err(WriteFailed::seen()),
        Ok(count) => Ok(count),
        Err(error) if error.kind() == ErrorKind::Interrupted => Ok(0),
        Err(_) => Err(WriteFailed::seen()),
    }
}

/// Writes all these bytes, in as many calls as the writer needs; an interrupted call is repeated.
/// Does what `Write::write_all` does, and also states what the writer took if a call fails: the
/// front of the bytes. `WriteFailed` if the writer returns an error, takes no byte, or has not
/// taken all bytes in 2^64 - 1 calls.
pub fn write_whole<W: Write>(bytes: &[u8], writer: &mut W) -> Result<(), WriteFailed>
    ensures { Took result (W.contents writer.old) (W.contents writer.new) bytes.now }
{
    let mut rest = bytes;
    for _ in 0..u64::MAX {
        if rest.is_empty() {
            return Ok(());
        }
        let count = write_some(rest, writer)?;
        rest = rest.split_at(count).1;
    }
    Err(WriteFailed::seen())
}

/// Flushes the writer. `WriteFailed` if it returns an error.
pub fn flush<W: Write>(writer: &mut W) -> Result<Flushed, WriteFailed>
    ensures { Keeps (W.contents writer.old) (W.contents writer.new) }
{
    match writer.flush() {
        Ok(()) => Ok(Flushed { seal: () }),
        Err(_) => Err(WriteFailed::seen()),
    }
}

/// The writer in a `BufWriter`, after a run that ended with a fault. The bytes in the buffer are
/// dropped; dropping the `BufWriter` would try to write them once more.
pub fn let_go<W: Write + Drop, A: Allocator>(writer: BufWriter<W, A>) -> W
    ensures { result ≡ writer_inner writer }
{
    let (inner, _) = writer.into_parts();
    inner
}

/// Writes a value as `Display` shows it. `WriteFailed` if the writer returns an error, or the value
/// cannot be shown.
pub fn write_shown<T: Display, W: Write>(shown: &T, writer: &mut W) -> Result<(), WriteFailed>
    ensures { OnOk result
        (IfSome (T.output shown.now) (Appends (W.contents writer.old) (W.contents writer.new))) }
{
    match write!(writer, "{shown}") {
        Ok(()) => Ok(()),
        Err(_) => Err(WriteFailed::seen()),
    }
}
