//! Replies as bytes. Writing takes no memory.

ghost use Rattle.std.specs.Prelude.{◌≡◌, ◌+◌, ◌≤◌, ◌++◌, codes, decimal, length, map, string_bytes};
ghost use Rattle.std.specs.List.{flat_map};
ghost use Rattle.arrayvec.specs.ArrayVec.{array_vec_len};
ghost use Rattle.byte_streams.specs.Written.{Took};
ghost use Rattle.session_lines.specs.Printed.{lead_text, led, reply_text, row_text, rows_text, rule_text, said_text, texts_text};
ghost use Rattle.session_lines.specs.Replies.{said_view};

use crate::replies::{Reply, Said};
use arrayvec::ArrayVec;
use byte_streams::{WriteFailed, write_whole};
use features::{Feature, Name};
use itoa::Buffer;
use std::alloc::Allocator;
use std::io::Write;
use wkt::shape_text;

/// Room for every line but those of a roll. The longest one is a row of 510 bytes: a label, two
/// numbers, two names, a polygon's text and the end of the line.
const LINE_ROOM: usize = 512;

/// The most bytes of a lead, which is a session's label.
pub const LEAD_LIMIT: usize = 32;

/// A line of a reply while it is made.
type Line = ArrayVec<u8, LINE_ROOM>;

/// Appends bytes, for which there is room.
fn push_bytes(line: &mut Line, bytes: &[u8])
    requires room { array_vec_len line.old + length bytes.now ≤ 512 }
    ensures items { line.new.items ≡ line.old.items ++ bytes.now }
    ensures len { array_vec_len line.new ≡ array_vec_len line.old + length bytes.now }
{
    line.try_extend_from_slice(bytes).unwrap();
}

/// Appends a number, which has at most 20 bytes.
fn push_number(line: &mut Line, number: u64)
    requires room { array_vec_len line.old + 20 ≤ 512 }
    ensures items { line.new.items ≡ line.old.items ++ decimal number }
    ensures len { array_vec_len line.new ≤ array_vec_len line.old + 20 }
{
    let mut buffer = Buffer::new();
    push_bytes(line, buffer.format(number).as_bytes());
}

fn push_numbered(line: &mut Line, word: &[u8], number: u64)
    requires room { array_vec_len line.old ≤ 300 }
    requires word { length word.now ≤ 14 }
    ensures items { line.new.items ≡ line.old.items ++ (word.now ++ decimal number) }
    ensures len { array_vec_len line.new ≤ array_vec_len line.old + 34 }
{
    push_bytes(line, word);
    push_number(line, number);
}

/// A line that has only its lead: a session's label and `: `, or nothing.
fn begin(lead: &[u8]) -> Line
    requires { length lead.now ≤ LEAD_LIMIT }
    ensures items { result.items ≡ lead_text lead.now }
    ensures len { array_vec_len result ≤ 34 }
{
    let mut line = ArrayVec::new();
    match lead {
        [] => {}
        [_, ..] => {
            push_bytes(&mut line, lead);
            push_bytes(&mut line, b": ");
        }
    }
    line
}

/// `error`, and the code of a fault.
fn push_error(line: &mut Line, code: &str)
    requires room { array_vec_len line.old ≤ 34 }
    requires code { length code.now ≤ 3 }
    ensures items { line.new.items ≡ line.old.items ++ (codes "error " ++ code.now) }
    ensures len { array_vec_len line.new ≤ 100 }
{
    push_bytes(line, b"error ");
    push_bytes(line, code.as_bytes());
}

/// `hello`, and a name.
fn push_hello(line: &mut Line, name: &Name)
    requires room { array_vec_len line.old ≤ 34 }
    ensures items { line.new.items ≡ line.old.items ++ (codes "hello " ++ name.now) }
    ensures len { array_vec_len line.new ≤ 100 }
{
    push_bytes(line, b"hello ");
    push_bytes(line, name.as_bytes());
}

/// ` rule` and the name of a rule, or ` none`.
fn push_rule(line: &mut Line, rule: &Option<Name>)
    requires room { array_vec_len line.old ≤ 200 }
    ensures items { line.new.items ≡ line.old.items ++ rule_text rule.now }
    ensures len { array_vec_len line.new ≤ array_vec_len line.old + 38 }
{
    match rule {
        None => push_bytes(line, b" none"),
        Some(name) => push_named_rule(line, name),
    }
}

/// ` rule`, and its name.
fn push_named_rule(line: &mut Line, name: &Name)
    requires room { array_vec_len line.old ≤ 200 }
    ensures items { line.new.items ≡ line.old.items ++ (codes " rule " ++ name.now) }
    ensures len { array_vec_len line.new ≤ array_vec_len line.old + 38 }
{
    push_bytes(line, b" rule ");
    push_bytes(line, name.as_bytes());
}

/// A verdict, the rule that gives it, and a numbered word.
fn push_verdict(line: &mut Line, verdict: &[u8], rule: &Option<Name>, word: &[u8], number: u64)
    requires room { array_vec_len line.old ≤ 34 }
    requires verdict { length verdict.now ≤ 14 }
    requires word { length word.now ≤ 14 }
    ensures items { line.new.items ≡ line.old.items
        ++ (verdict.now ++ rule_text rule.now ++ word.now ++ decimal number) }
    ensures len { array_vec_len line.new ≤ 160 }
{
    push_bytes(line, verdict);
    push_rule(line, rule);
    push_numbered(line, word, number);
}

fn push_two(line: &mut Line, word: &[u8], number: u64, then: &[u8], further: u64)
    requires room { array_vec_len line.old ≤ 34 }
    requires word { length word.now ≤ 14 }
    requires then { length then.now ≤ 14 }
    ensures items { line.new.items ≡ line.old.items
        ++ (word.now ++ decimal number ++ then.now ++ decimal further) }
    ensures len { array_vec_len line.new ≤ 160 }
{
    push_numbered(line, word, number);
    push_numbered(line, then, further);
}

/// A reply of one line.
fn push_reply(line: &mut Line, reply: &Reply)
    requires room { array_vec_len line.old ≤ 34 }
    ensures items { line.new.items ≡ line.old.items ++ reply_text reply.now }
    ensures len { array_vec_len line.new ≤ 160 }
{
    match reply {
        Reply::Hello(name) => push_hello(line, name),
        Reply::Staged => push_bytes(line, b"staged"),
        Reply::Applied(version) => push_numbered(line, b"applied ", *version),
        Reply::Denied(rule, change) => push_verdict(line, b"denied", rule, b" change ", *change),
        Reply::Absent(change) => push_numbered(line, b"absent change ", *change),
        Reply::Exists(change) => push_numbered(line, b"exists change ", *change),
        Reply::Stale(current, change) => {
            push_two(line, b"stale ", *current, b" change ", *change)
        }
        Reply::Held => push_bytes(line, b"held"),
        Reply::Opened => push_bytes(line, b"opened"),
        Reply::More => push_bytes(line, b"more"),
        Reply::Ready => push_bytes(line, b"ready"),
        Reply::Aborted => push_bytes(line, b"aborted"),
        Reply::Edition(edition) => push_numbered(line, b"edition ", *edition),
        Reply::Permitted(rule, edition) => {
            push_verdict(line, b"permit", rule, b" edition ", *edition)
        }
        Reply::Forbidden(rule, edition) => {
            push_verdict(line, b"denied", rule, b" edition ", *edition)
        }
        Reply::Bye => push_bytes(line, b"bye"),
        Reply::Memory(_) => push_bytes(line, b"memory"),
        Reply::Error(fault) => push_error(line, fault.code()),
        Reply::Unread(fault) => push_error(line, fault.code()),
        Reply::Failed(fault) => push_error(line, fault.code()),
    }
}

/// A feature as the line of a listing.
fn push_row(line: &mut Line, feature: &Feature)
    requires room { array_vec_len line.old ≤ 34 }
    ensures items { line.new.items ≡ line.old.items ++ row_text feature.now }
    ensures len { array_vec_len line.new ≤ 509 }
{
    push_number_field(line, feature.id);
    push_number_field(line, feature.version);
    push_field(line, feature.office.as_bytes());
    push_field(line, feature.class.as_bytes());
    push_bytes(line, shape_text(&feature.shape).as_bytes());
}

/// A field of a row, and the space after it.
fn push_field(line: &mut Line, field: &[u8])
    requires room { array_vec_len line.old + length field.now ≤ 511 }
    ensures items { line.new.items ≡ line.old.items ++ (field.now ++ codes " ") }
    ensures len { array_vec_len line.new ≡ array_vec_len line.old + length field.now + 1 }
{
    push_bytes(line, field);
    push_bytes(line, b" ");
}

/// A number as a field.
fn push_number_field(line: &mut Line, number: u64)
    requires room { array_vec_len line.old ≤ 400 }
    ensures items { line.new.items ≡ line.old.items ++ (decimal number ++ codes " ") }
    ensures len { array_vec_len line.new ≤ array_vec_len line.old + 21 }
{
    push_number(line, number);
    push_bytes(line, b" ");
}

/// Writes a line and its end in one piece.
fn finish<W: Write>(mut line: Line, writer: &mut W) -> Result<(), WriteFailed>
    requires { array_vec_len line ≤ 511 }
    ensures { Took result (W.contents writer.old) (W.contents writer.new)
        (line.items ++ codes "\n") }
{
    push_bytes(&mut line, b"\n");
    write_whole(line.as_slice(), writer)
}

/// Writes the reply to a line, each of its own lines led by the session's label. Takes no memory.
/// An error is the writer's.
pub fn write_said<A: Allocator, W: Write>(
    lead: &[u8],
    said: &Said<A>,
    writer: &mut W,
) -> Result<(), WriteFailed>
    requires { length lead.now ≤ LEAD_LIMIT }
    ensures { Took result (W.contents writer.old) (W.contents writer.new)
        (said_text lead.now (said_view said.now)) }
{
    match said {
        Said::Line(reply) => write_line(lead, reply, writer),
        Said::Rows(answer) => write_rows(lead, answer.rows(), writer),
        Said::Rolled(piece) => write_texts(lead, piece.lines(), writer),
    }
}

/// Writes a reply of one line. Takes no memory. An error is the writer's.
pub fn write_line<W: Write>(lead: &[u8], reply: &Reply, writer: &mut W) -> Result<(), WriteFailed>
    requires { length lead.now ≤ LEAD_LIMIT }
    ensures { Took result (W.contents writer.old) (W.contents writer.new)
        (led lead.now (reply_text reply.now)) }
{
    let mut line = begin(lead);
    push_reply(&mut line, reply);
    finish(line, writer)
}

/// Writes the first line of a listing or a roll: a word, and the number of lines that follow.
fn write_count<W: Write>(
    lead: &[u8],
    word: &[u8],
    count: u64,
    writer: &mut W,
) -> Result<(), WriteFailed>
    requires lead { length lead.now ≤ LEAD_LIMIT }
    requires word { length word.now ≤ 14 }
    ensures { Took result (W.contents writer.old) (W.contents writer.new)
        (led lead.now (word.now ++ decimal count)) }
{
    let mut line = begin(lead);
    push_numbered(&mut line, word, count);
    finish(line, writer)
}

/// Writes the number of rows, and then the rows.
fn write_rows<W: Write>(lead: &[u8], rows: &[Feature], writer: &mut W) -> Result<(), WriteFailed>
    requires { length lead.now ≤ LEAD_LIMIT }
    ensures { Took result (W.contents writer.old) (W.contents writer.new)
        (rows_text lead.now rows.now) }
{
    write_count(lead, b"rows ", rows.len() as u64, writer)?;
    write_each(lead, rows, writer)
}

/// Writes the number of a roll's lines, and then the lines.
fn write_texts<A: Allocator, W: Write>(
    lead: &[u8],
    texts: &[String<A>],
    writer: &mut W,
) -> Result<(), WriteFailed>
    requires { length lead.now ≤ LEAD_LIMIT }
    ensures { Took result (W.contents writer.old) (W.contents writer.new)
        (texts_text lead.now (map string_bytes texts.now)) }
{
    write_count(lead, b"rolled ", texts.len() as u64, writer)?;
    write_each_text(lead, texts, writer)
}

/// Writes a line for each text.
fn write_each_text<A: Allocator, W: Write>(
    lead: &[u8],
    texts: &[String<A>],
    writer: &mut W,
) -> Result<(), WriteFailed>
    requires lead { length lead.now ≤ LEAD_LIMIT }
    ensures { Took result (W.contents writer.old) (W.contents writer.new)
        (flat_map (λ text. led lead.now (string_bytes text)) texts.now) }
{
    for text in texts {
        write_text(lead, text.as_bytes(), writer)?;
    }
    Ok(())
}

/// Writes a line of any length in three pieces: its lead, the text, and its end.
fn write_text<W: Write>(lead: &[u8], text: &[u8], writer: &mut W) -> Result<(), WriteFailed>
    requires { length lead.now ≤ LEAD_LIMIT }
    ensures { Took result (W.contents writer.old) (W.contents writer.new) (led lead.now text.now) }
{
    let line = begin(lead);
    write_whole(line.as_slice(), writer)?;
    write_ended(text, writer)
}

/// Writes a text, and then the end of its line.
fn write_ended<W: Write>(text: &[u8], writer: &mut W) -> Result<(), WriteFailed>
    ensures { Took result (W.contents writer.old) (W.contents writer.new) (text.now ++ codes "\n") }
{
    write_whole(text, writer)?;
    write_whole(b"\n", writer)
}

/// Writes a line for each row.
fn write_each<W: Write>(lead: &[u8], rows: &[Feature], writer: &mut W) -> Result<(), WriteFailed>
    requires lead { length lead.now ≤ LEAD_LIMIT }
    ensures { Took result (W.contents writer.old) (W.contents writer.new)
        (flat_map (λ row. led lead.now (row_text row)) rows.now) }
{
    for row in rows {
        write_row(lead, row, writer)?;
    }
    Ok(())
}

/// Writes the line of a feature.
fn write_row<W: Write>(lead: &[u8], feature: &Feature, writer: &mut W) -> Result<(), WriteFailed>
    requires { length lead.now ≤ LEAD_LIMIT }
    ensures { Took result (W.contents writer.old) (W.contents writer.new)
        (led lead.now (row_text feature.now)) }
{
    let mut line = begin(lead);
    push_row(&mut line, feature);
    finish(line, writer)
}
