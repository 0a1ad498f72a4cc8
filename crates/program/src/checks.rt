//! Looking at a configuration, drawing, and printing pages.

ghost use Rattle.program.specs.Checks.{DrawsNamed, FindingWritten, Finds, Looks, Prints};

use crate::faults::ProgramFault;
use crate::runs::Folder;
use byte_streams::{Flushed, WriteFailed, flush, write_shown};
use command_line::Shell;
use configuration::{Checked, FileFault, ReadFault, check_config_file};
use drawing::{DrawFault, draw};
use manual::{PageFault, print_page};
use std::alloc::Global;
use std::io::Write;

/// What there is to tell of the configuration in the file of this name.
fn find_named<'a, F: Folder>(
    heap: Global,
    name: &'a str,
    folder: &F,
) -> Result<Checked<Global>, ProgramFault<'a>>
    ensures { Finds (F.holds folder.now) (F.closed folder.now) name.now result }
{
    let mut file = match folder.open_file(name) {
        Ok(file) => file,
        Err(closed) => return Err(ProgramFault::CannotRead(name, ReadFault::NotOpened(closed))),
    };
    match check_config_file(heap, heap, &mut file) {
        Ok(checked) => Ok(checked),
        Err(FileFault::CannotRead(fault)) => Err(ProgramFault::CannotRead(name, fault)),
        Err(FileFault::Config(fault)) => Err(ProgramFault::Config(fault)),
    }
}

/// Writes what was found, and flushes the output.
fn write_finding<W: Write>(
    checked: &Checked<Global>,
    output: &mut W,
) -> Result<Flushed, WriteFailed>
    ensures { FindingWritten checked.now result (W.contents output.old) (W.contents output.new) }
{
    write_shown(checked, output)?;
    flush(output)
}

/// Looks at the configuration in the file of this name, and writes what was found. A configuration
/// that is wrong is a fault, too.
#[tactic(auto, using(crate::proofs::CheckLemmas::found_right, crate::proofs::CheckLemmas::found_wrong))]
pub fn check_named<'a, F: Folder, W: Write>(
    heap: Global,
    name: &'a str,
    folder: &F,
    output: &mut W,
) -> Result<Flushed, ProgramFault<'a>>
    ensures { Looks (F.holds folder.now) (F.closed folder.now) name.now (W.contents output.old)
        (W.contents output.new) result }
{
    let checked = match find_named(heap, name, folder) {
        Ok(checked) => checked,
        Err(fault) => return Err(fault),
    };
    let flushed = match write_finding(&checked, output) {
        Ok(flushed) => flushed,
        Err(failed) => return Err(ProgramFault::CannotWrite(failed)),
    };
    match checked {
        Checked::Right(_summary, _grid, _web) => Ok(flushed),
        Checked::Wrong(fault) => Err(ProgramFault::Config(fault)),
    }
}

/// The name of standard input.
const REPLIES: &str = "-";

/// Draws the script in the file of this name, with the replies that the file `-` has.
pub fn draw_named<'a, F: Folder, W: Write>(
    heap: Global,
    name: &'a str,
    folder: &F,
    output: &mut W,
) -> Result<Flushed, ProgramFault<'a>>
    ensures { DrawsNamed (F.holds folder.now) (F.closed folder.now) name.now (W.contents output.old)
        (W.contents output.new) result }
{
    let mut script = match folder.open_file(name) {
        Ok(file) => file,
        Err(closed) => return Err(ProgramFault::CannotRead(name, ReadFault::NotOpened(closed))),
    };
    let mut replies = match folder.open_file(REPLIES) {
        Ok(file) => file,
        Err(closed) => {
            return Err(ProgramFault::CannotRead(REPLIES, ReadFault::NotOpened(closed)));
        }
    };
    match draw(heap, &mut script, &mut replies, output) {
        Ok(flushed) => Ok(flushed),
        Err(DrawFault::Write(failed)) => Err(ProgramFault::CannotWrite(failed)),
        Err(fault) => Err(ProgramFault::Draw(fault)),
    }
}

/// Prints the manual page, or the completions for a shell.
pub(crate) fn print_asked<'a, W: Write>(
    heap: Global,
    shell: Option<Shell>,
    output: &mut W,
) -> Result<Flushed, ProgramFault<'a>>
    ensures { Prints shell (W.contents output.old) (W.contents output.new) result }
{
    match print_page(heap, shell, output) {
        Ok(flushed) => Ok(flushed),
        Err(PageFault::Memory(no_memory)) => Err(ProgramFault::Memory(no_memory)),
        Err(PageFault::Write(failed)) => Err(ProgramFault::CannotWrite(failed)),
    }
}
