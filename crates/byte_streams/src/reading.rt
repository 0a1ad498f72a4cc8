//! Reads bytes from a reader.

ghost use Rattle.std.specs.Prelude.{◌≡◌, ◌<◌, ◌+◌};
ghost use Rattle.std.specs.Io.KnownBytes.{ReadConsumes};
ghost use Rattle.std.specs.Io.{ReadsAtMost};

use crate::failures::ReadFailed;
use std::io::{ErrorKind, Read};

/// Makes one read, and returns how many bytes the reader gave: 0 only at the end of its input, or
/// for an empty buffer. A call that is interrupted is repeated. `ReadFailed` if the reader returns
/// another error, or has been interrupted in 2^64 - 1 calls; the known rest of its input is then
/// unchanged.
pub fn read_some<R: Read>(reader: &mut R, buffer: &mut [u8]) -> Result<usize, ReadFailed>
    ensures bound { ReadsAtMost result buffer.new }
    ensures bytes { ReadConsumes (R.remaining reader.old) (R.remaining reader.new) result
        buffer.new }
{
    for _ in 0..u64::MAX {
        match reader.read(buffer) {
            Ok(count) => return Ok(count),
            Err(error) if error.kind() == ErrorKind::Interrupted => {}
            Err(_) => return Err(ReadFailed::seen()),
        }
    }
    Err(ReadFailed::seen())
}

/// How many reads were made; one that was interrupted and repeated counts once. Only this crate
/// counts them, and only by calling a reader, so that no count in a fault is invented.
#[derive(Debug, Drop, PartialEq, Eq)]
pub struct Turns {
    made: u32,
}

impl Turns {
    /// No reads.
    pub fn none() -> Self
        ensures { result.made ≡ 0 }
    {
        Turns { made: 0 }
    }

    /// One more read, as `read_some` makes it. A read that fails counts too.
    pub fn read_some<R: Read>(
        &mut self,
        reader: &mut R,
        buffer: &mut [u8],
    ) -> Result<usize, ReadFailed>
        requires { self.old.made < u32.MAX }
        ensures counts { self.new.made ≡ self.old.made + 1 }
        ensures bound { ReadsAtMost result buffer.new }
        ensures bytes { ReadConsumes (R.remaining reader.old) (R.remaining reader.new) result
            buffer.new }
    {
        self.made += 1;
        read_some(reader, buffer)
    }
}
