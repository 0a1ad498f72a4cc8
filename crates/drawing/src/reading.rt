//! Reads marks from lines.

ghost use Rattle.std.specs.Prelude.{◌≡◌, [], ◌∷◌, IfOk, OnOk, None};
ghost use Rattle.drawing.specs.Gathering.{ReadsMarks};

use crate::faults::DrawFault;
use crate::marks::{Mark, read_mark};
use byte_streams::WriteFailed;
use line_streams::{LINE_LIMIT, LineDesk, Next, run_lines};
use memory::{GrowVec, NoMemory};
use std::alloc::Allocator;
use std::io::{Read, Write, sink};
use std::marker::PhantomData;

/// The most marks of a drawing.
pub const MARK_LIMIT: usize = 100_000;

/// Why no further mark is gathered.
#[derive(Debug, Drop)]
enum Stop {
    /// Out of memory for a mark.
    Memory(NoMemory),
    /// There are `MARK_LIMIT` marks already.
    Full,
}

/// The marks that are gathered.
#[derive(Drop)]
struct Sheet<A: Allocator> {
    marks: Vec<Mark, A>,
    stop: Option<Stop>,
}

impl<A: Allocator> Sheet<A> {
    ghost use Rattle.drawing.specs.Gathering.{GathersAs, gathered};
    ghost use Rattle.drawing.specs.Marks.{marks_on};

    /// Adds a mark. `End` if it is not added.
    fn add(&mut self, mark: Mark) -> Next
        ensures { GathersAs result (mark ∷ [])
            (gathered self.old.marks.items self.old.stop)
            (gathered self.new.marks.items self.new.stop) }
    {
        if self.marks.len() >= MARK_LIMIT {
            self.stop = Some(Stop::Full);
            return Next::End;
        }
        match self.marks.try_push(mark) {
            Ok(()) => Next::Line,
            Err(no_memory) => {
                self.stop = Some(Stop::Memory(no_memory));
                Next::End
            }
        }
    }

    /// Adds what a line shows, if it shows something. `End` if it is not added.
    fn add_line(&mut self, line: &[u8]) -> Next
        ensures { GathersAs result (marks_on line.now)
            (gathered self.old.marks.items self.old.stop)
            (gathered self.new.marks.items self.new.stop) }
    {
        if line.len() > LINE_LIMIT {
            return Next::Line;
        }
        match read_mark(line) {
            None => Next::Line,
            Some(mark) => self.add(mark),
        }
    }

    /// The marks; the fault if one was not added.
    fn finish(self) -> Result<Vec<Mark, A>, DrawFault>
        ensures marks { IfOk result (λ marks. marks.items ≡ self.marks.items) }
        ensures none { OnOk result (self.stop ≡ None) }
    {
        match self.stop {
            None => Ok(self.marks),
            Some(Stop::Memory(no_memory)) => Err(DrawFault::Memory(no_memory)),
            Some(Stop::Full) => Err(DrawFault::TooManyMarks),
        }
    }
}

/// Gathers the marks of lines. It writes nothing.
#[derive(Drop)]
struct Gatherer<A: Allocator> {
    /// The allocator's type is named, since an `impl` for `Gatherer` has no other place that fixes
    /// it.
    alloc: PhantomData<A>,
}

impl<A: Allocator> LineDesk for Gatherer<A> {
    ghost use Rattle.drawing.specs.Gathering.{LineGathers, gathered};
    ghost use Rattle.std.proofs.Common.{rules};

    type World = Sheet<A>;

    ghost tells = { λ line old new said next. LineGathers line
        (gathered old.0.marks.items old.0.stop) (gathered new.0.marks.items new.0.stop) said next };

    fn take_line<W: Write>(
        &mut self,
        sheet: &mut Sheet<A>,
        line: &[u8],
        _writer: &mut W,
    ) -> Result<Next, WriteFailed> {
        Ok(sheet.add_line(line))
    }

    ghost long_alike = { Prim.search rules };
}

/// Reads lines to the end, and returns these marks and what the lines show after them.
pub(crate) fn read_marks<A: Allocator + Copy, R: Read>(
    alloc: A,
    marks: Vec<Mark, A>,
    reader: &mut R,
) -> Result<Vec<Mark, A>, DrawFault>
    ensures { IfOk result
        (λ read. ReadsMarks marks.items read.items (R.remaining reader.old)
        (R.remaining reader.new)) }
{
    let mut gatherer = Gatherer { alloc: PhantomData };
    let mut sheet = Sheet { marks, stop: None };
    run_lines(alloc, &mut gatherer, &mut sheet, reader, &mut sink())?;
    sheet.finish()
}
