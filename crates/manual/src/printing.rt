//! Writing a page.

ghost use Rattle.std.specs.Prelude.{IfOk};
ghost use Rattle.byte_streams.specs.Written.{Took};
ghost use Rattle.manual.specs.Printing.{IsPageFor, IsPrinted};

use crate::pages::{completions, manual_page};
use byte_streams::{Flushed, WriteFailed, flush, write_whole};
use command_line::{Shell, help_table};
use memory::NoMemory;
use std::alloc::Allocator;
use std::io::Write;

/// Why a page is not printed.
#[derive(Debug, Drop, PartialEq, Eq)]
pub enum PageFault {
    /// There was no memory for it, and nothing is written.
    Memory(NoMemory),
    /// A write or the flush failed; some of the front of the page may be written.
    Write(WriteFailed),
}

/// The manual page, or the completions for a shell.
fn page_for<A: Allocator>(alloc: A, shell: Option<Shell>) -> Result<Vec<u8, A>, NoMemory>
    ensures { IfOk result (λ page. IsPageFor shell page.items) }
{
    let table = help_table();
    match shell {
        None => manual_page(alloc, &table),
        Some(shell) => completions(alloc, shell, &table),
    }
}

/// Writes a text whole, and flushes.
fn write_page<W: Write>(page: &[u8], output: &mut W) -> Result<Flushed, WriteFailed>
    ensures { Took result (W.contents output.old) (W.contents output.new) page.now }
{
    write_whole(page, output)?;
    flush(output)
}

/// Prints the manual page, or what a shell reads to complete the words of a command line. Both are
/// made of the table of help.
pub fn print_page<A: Allocator, W: Write>(
    alloc: A,
    shell: Option<Shell>,
    output: &mut W,
) -> Result<Flushed, PageFault>
    ensures { IsPrinted shell result (W.contents output.old) (W.contents output.new) }
{
    let page = match page_for(alloc, shell) {
        Ok(page) => page,
        Err(no_memory) => return Err(PageFault::Memory(no_memory)),
    };
    match write_page(page.as_slice(), output) {
        Ok(flushed) => Ok(flushed),
        Err(failed) => Err(PageFault::Write(failed)),
    }
}
