//! The rows that are refused, as comma-separated values.

use crate::faults::{RowFault, SourceFault};
use crate::sources::Source;
use byte_streams::{WriteFailed, write_shown, write_whole};
use importing::Refused;
use itoa::Buffer;
use line_words::read_number;
use std::alloc::{Allocator, Global};
use std::io::{Read, Write};

/// The first line of a file of refused rows.
pub const REFUSED_HEADER: &[u8] = b"row,id,code,rule,place\n";

/// Writes a number.
fn put_number<W: Write>(n: u64, output: &mut W) -> Result<(), WriteFailed> {
    let mut buffer = Buffer::new();
    write_whole(buffer.format(n).as_bytes(), output)
}

/// Writes the row of a file that is no feature: `17,,M2,,/geometry/coordinates/0/2/1`.
pub fn put_refusal<W: Write>(
    heap: Global,
    row: u64,
    fault: &RowFault,
    output: &mut W,
) -> Result<(), WriteFailed> {
    let mut text = Vec::new(heap);
    write_shown(fault, &mut text)?;
    let (code, place) = cut_at(text.as_slice(), b' ');
    put_number(row, output)?;
    write_whole(b",,", output)?;
    write_whole(code, output)?;
    write_whole(b",,", output)?;
    write_whole(place, output)?;
    write_whole(b"\n", output)
}

/// What is before and behind the first byte of this value; behind none there is nothing.
pub(crate) fn cut_at(text: &[u8], byte: u8) -> (&[u8], &[u8]) {
    let len = text
        .iter()
        .take_while(|other| **other != byte)
        .count()
        .min(text.len());
    let (front, rest) = text.split_at(len);
    match rest {
        [_, behind @ ..] => (front, behind),
        [] => (front, rest),
    }
}

/// The code and the rule of a server's reply: of `denied rule NAME change 3`, `denied` and NAME; of
/// `error X11`, the code.
fn parts_of(reply: &[u8]) -> (&[u8], &[u8]) {
    if let Some(code) = reply.strip_prefix(b"error ") {
        return (code, b"");
    }
    if let Some(rule) = reply.strip_prefix(b"denied rule ") {
        return (b"denied", cut_at(rule, b' ').0);
    }
    (cut_at(reply, b' ').0, b"")
}

/// Writes the row of an addition that the server has refused: `17,1003,denied,harbour,`.
pub fn put_reply<A: Allocator, W: Write>(
    refused: &Refused<A>,
    output: &mut W,
) -> Result<(), WriteFailed> {
    let (code, rule) = parts_of(refused.reply.as_slice());
    put_number(refused.row, output)?;
    write_whole(b",", output)?;
    put_number(refused.id, output)?;
    write_whole(b",", output)?;
    write_whole(code, output)?;
    write_whole(b",", output)?;
    write_whole(rule, output)?;
    write_whole(b",\n", output)
}

/// The row that a line of such a file is of; `None` for another line.
pub fn rows_of_refusal(line: &[u8]) -> Option<u64> {
    read_number(cut_at(line, b',').0)
}

/// How many bytes at the front of a file of refused rows are about rows up to this one: its first
/// line, and the lines behind it.
pub fn kept_len<A: Allocator + Copy, R: Read>(
    alloc: A,
    done: u64,
    reader: &mut R,
) -> Result<u64, SourceFault> {
    let mut source = Source::new(alloc);
    let mut line = Vec::new(alloc);
    let mut kept: u64 = 0;
    for _ in 0..u64::MAX {
        if !source.read_line(reader, &mut line)? {
            break;
        }
        if rows_of_refusal(line.as_slice()).unwrap_or(0) > done {
            break;
        }
        kept = kept.saturating_add(line.len() as u64).saturating_add(1);
    }
    Ok(kept)
}
