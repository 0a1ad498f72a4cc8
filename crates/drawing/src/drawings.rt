//! Draws a script and its replies.

ghost use Rattle.drawing.specs.Drawings.{Draws};

use crate::faults::DrawFault;
use crate::pictures::{area_of, classes_of};
use crate::reading::read_marks;
use crate::writing::write_document;
use byte_streams::{Flushed, flush};
use memory::vec_with_room;
use std::alloc::Allocator;
use std::io::{Read, Write};

/// Reads a script and its replies to their ends, and writes a drawing of what their lines show: the
/// windows of SEARCH and OPEN, and the features that are listed. Other lines are passed over. What
/// a line shows does not depend on which of the two it is in; a feature that is listed twice is
/// drawn twice.
///
/// Nothing is written before both are read. The writer is flushed at the end. Faults: `Read` if a
/// read fails; `TooManyTurns` after 16,777,216 reads of one of the two without its end; `Memory` if
/// an allocation is refused; `TooManyMarks` if there are more than `MARK_LIMIT` marks; `Write` if a
/// write or a flush fails.
pub fn draw<A: Allocator + Copy, S: Read, R: Read, W: Write>(
    alloc: A,
    script: &mut S,
    replies: &mut R,
    writer: &mut W,
) -> Result<Flushed, DrawFault>
    ensures { Draws result (S.remaining script.old) (S.remaining script.new)
        (R.remaining replies.old) (R.remaining replies.new) (W.contents writer.old)
        (W.contents writer.new) }
{
    let marks = vec_with_room(alloc, 0)?;
    let marks = read_marks(alloc, marks, script)?;
    let marks = read_marks(alloc, marks, replies)?;
    let classes = classes_of(alloc, marks.as_slice())?;
    let area = area_of(marks.as_slice());
    write_document(area, classes.as_slice(), marks.as_slice(), writer)?;
    Ok(flush(writer)?)
}
