//! The line on standard error about the fault by which the program ended.

ghost use Rattle.std.specs.Prelude.{◌++◌};
ghost use Rattle.program.specs.Ends.{fault_line};
ghost use Rattle.byte_streams.specs.Written.{Took};

use crate::faults::ProgramFault;
use byte_streams::{WriteFailed, write_whole};
use std::io::Write;

/// Writes two texts, one after the other.
fn write_both<W: Write>(first: &[u8], second: &[u8], writer: &mut W) -> Result<(), WriteFailed>
    ensures { Took result (W.contents writer.old) (W.contents writer.new)
        (first.now ++ second.now) }
{
    write_whole(first, writer)?;
    write_whole(second, writer)
}

/// Writes the one line about a fault. If a write fails, only a prefix of it is written.
pub fn tell<E: Write>(fault: &ProgramFault<'_>, errors: &mut E) -> Result<(), WriteFailed>
    ensures { Took result (E.contents errors.old) (E.contents errors.new) (fault_line fault.now) }
{
    write_both(b"landmap: ", fault.word().as_bytes(), errors)?;
    write_both(fault.name().as_bytes(), b"\n", errors)
}
