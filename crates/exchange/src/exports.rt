//! Features of a server, written as its reply comes.

use crate::forms::{Form, put_feature, put_head, put_tail};
use crate::replies::feature_of_row;
use byte_streams::{WriteFailed, flush, write_whole};
use features::{Feature, Name};
use grid::Grid;
use importing::{ListFault, Peer};
use line_words::read_number;
use memory::{NoMemory, copied};
use std::alloc::Allocator;
use std::io::{Read, Write};

/// What is wanted of a server.
#[derive(Clone, Copy)]
pub struct Wanted<'a> {
    /// What stands behind HELLO: the name of the subject whose session it is, and its secret where
    /// the server asks for one.
    pub hello: &'a [u8],
    /// The text of the window.
    pub window: &'a [u8],
    /// The class of the features; `None` for all.
    pub class: Option<Name>,
    /// The grid of the coordinates that are written.
    pub grid: Grid,
    /// The form of the document.
    pub form: Form,
}

/// Why an export has no end. What is written then is not whole.
#[derive(Debug, Drop)]
pub enum ExportFault<A: Allocator> {
    /// The connection to the server failed, or it ended.
    Server(ListFault),
    /// The server answers otherwise than with what was asked for: by this line.
    Answered(Vec<u8, A>),
    /// The output cannot be written.
    Output(WriteFailed),
}

impl<A: Allocator> From<ListFault> for ExportFault<A> {
    ghost use Rattle.std.specs.Prelude.{◌≡◌};
    ghost use Rattle.exchange.specs.declared.exports.ExportFault.TheVariants as faults;

    ghost from_gives = { λ fault made. made ≡ faults.Server fault };

    fn from(fault: ListFault) -> ExportFault<A> {
        ExportFault::Server(fault)
    }
}

impl<A: Allocator> From<NoMemory> for ExportFault<A> {
    fn from(no_memory: NoMemory) -> ExportFault<A> {
        ExportFault::Server(ListFault::Memory(no_memory))
    }
}

impl<A: Allocator> From<WriteFailed> for ExportFault<A> {
    ghost use Rattle.std.specs.Prelude.{◌≡◌};
    ghost use Rattle.exchange.specs.declared.exports.ExportFault.TheVariants as faults;

    ghost from_gives = { λ failed made. made ≡ faults.Output failed };

    fn from(failed: WriteFailed) -> ExportFault<A> {
        ExportFault::Output(failed)
    }
}

/// Sends a word and a text as one line.
fn ask<W: Write>(word: &[u8], text: &[u8], writer: &mut W) -> Result<(), ListFault> {
    write_whole(word, writer)?;
    write_whole(text, writer)?;
    write_whole(b"\n", writer)?;
    flush(writer)?;
    Ok(())
}

/// Says HELLO with these words, the subject's name and its secret where the server asks for one, and
/// reads the answer.
pub fn greet<A: Allocator + Copy, R: Read, W: Write>(
    alloc: A,
    hello: &[u8],
    peer: &mut Peer<A>,
    reader: &mut R,
    writer: &mut W,
) -> Result<(), ExportFault<A>> {
    ask(b"HELLO ", hello, writer)?;
    let mut line = Vec::new(alloc);
    peer.read_line(reader, &mut line)?;
    if line.as_slice().starts_with(b"hello ") {
        Ok(())
    } else {
        Err(ExportFault::Answered(line))
    }
}

/// Searches a window, and reads how many rows the reply has.
fn search<A: Allocator + Copy, R: Read, W: Write>(
    alloc: A,
    window: &[u8],
    peer: &mut Peer<A>,
    reader: &mut R,
    writer: &mut W,
) -> Result<u64, ExportFault<A>> {
    ask(b"SEARCH ", window, writer)?;
    let mut line = Vec::new(alloc);
    peer.read_line(reader, &mut line)?;
    let count = match line.as_slice().strip_prefix(b"rows ") {
        Some(count) => read_number(count),
        None => None,
    };
    match count {
        Some(count) => Ok(count),
        None => Err(ExportFault::Answered(line)),
    }
}

/// Whether a feature is wanted.
fn is_wanted(class: Option<Name>, feature: &Feature) -> bool {
    match class {
        Some(class) => class == feature.class,
        None => true,
    }
}

/// The feature of the next row of a reply.
fn next_feature<A: Allocator + Copy, R: Read>(
    peer: &mut Peer<A>,
    reader: &mut R,
    line: &mut Vec<u8, A>,
    alloc: A,
) -> Result<Feature, ExportFault<A>> {
    peer.read_line(reader, line)?;
    match feature_of_row(alloc, line.as_slice())? {
        Some(feature) => Ok(feature),
        None => Err(ExportFault::Answered(copied(alloc, line.as_slice())?)),
    }
}

/// Writes the features of a reply that has so many rows, and returns how many were written.
fn pass_rows<A: Allocator + Copy, R: Read, O: Write>(
    alloc: A,
    rows: u64,
    wanted: &Wanted<'_>,
    peer: &mut Peer<A>,
    reader: &mut R,
    output: &mut O,
) -> Result<u64, ExportFault<A>> {
    let mut line = Vec::new(alloc);
    let mut count: u64 = 0;
    for _ in 0..rows {
        let feature = next_feature(peer, reader, &mut line, alloc)?;
        if is_wanted(wanted.class, &feature) {
            put_feature(wanted.form, &wanted.grid, count == 0, &feature, output)?;
            count = count.saturating_add(1);
        }
    }
    Ok(count)
}

/// Writes the features that a server lists for a subject in a window, each as its row comes, and
/// returns how many there are. The session is left without BYE.
///
/// Faults: `Server` if the connection fails, the server ends it, or a line is too long; `Answered`
/// if the server refuses HELLO or the search, or a row is none of a feature; `Output` if a write or
/// the last flush fails. After a fault the tail of the document is not written.
pub fn export<A: Allocator + Copy, R: Read, W: Write, O: Write>(
    alloc: A,
    wanted: &Wanted<'_>,
    reader: &mut R,
    writer: &mut W,
    output: &mut O,
) -> Result<u64, ExportFault<A>> {
    let mut peer = Peer::new(alloc);
    greet(alloc, wanted.hello, &mut peer, reader, writer)?;
    let rows = search(alloc, wanted.window, &mut peer, reader, writer)?;
    put_head(wanted.form, output)?;
    let count = pass_rows(alloc, rows, wanted, &mut peer, reader, output)?;
    put_tail(wanted.form, output)?;
    flush(output)?;
    Ok(count)
}
