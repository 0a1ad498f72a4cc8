//! A talk with a server: send a line of the input, write the whole reply, then take the next line.

ghost use Rattle.std.specs.Prelude.{◌≡◌, ◌≤◌, drop, length, take};
ghost use Rattle.byte_streams.specs.Written.{Took};
ghost use Rattle.client.specs.Ends.{Talks};
ghost use Rattle.client.specs.Held.{held};
ghost use Rattle.client.specs.Steps.{PassesLine, PassesReply, SendsLast, SendsLine, TakesTurn, TakesTurns};
ghost use Rattle.client.specs.Turns.{sight};

use crate::ahead::{Ahead, AheadFault, Found};
use crate::faults::{Gone, TalkFault};
use crate::replies::{is_farewell, rows_of};
use byte_streams::{Flushed, WriteFailed, flush, write_whole};
use std::alloc::Allocator;
use std::io::{Read, Write};

/// What ended a talk.
#[derive(Clone, Copy, Debug, Drop, PartialEq, Eq)]
pub enum End {
    /// The end of the input: each of its lines has had its reply.
    AtEnd,
    /// The server's `bye`.
    Farewell,
}

/// A talk that ended without a fault. Its replies are flushed.
#[derive(Debug, Drop, PartialEq, Eq)]
pub struct Talked {
    /// What ended it.
    pub end: End,
    /// The last flush of the output.
    pub flushed: Flushed,
}

/// What was sent.
#[derive(Clone, Copy, Debug, Drop, PartialEq, Eq)]
enum Sent {
    /// The next line of the input.
    Line,
    /// The last line, which had no line feed.
    Last,
    /// Nothing: there are no more lines.
    Nothing,
}

/// How a talk goes on after a turn.
#[derive(Clone, Copy, Debug, Drop, PartialEq, Eq)]
enum Turn {
    /// With the next line.
    Next,
    /// It has ended.
    Closed(End),
}

/// What the first line of a reply says about the reply.
#[derive(Clone, Copy, Debug, Drop, PartialEq, Eq)]
struct Head {
    /// How many lines follow it.
    rows: u64,
    /// Whether the reply is the last of a session.
    farewell: bool,
}

/// Writes a line and flushes.
fn write_line<Q: Write>(line: &[u8], peer: &mut Q) -> Result<(), WriteFailed>
    ensures { Took result (Q.contents peer.old) (Q.contents peer.new) line.now }
{
    write_whole(line, peer)?;
    flush(peer)?;
    Ok(())
}

/// Sends the first `count` held bytes, and marks them as used even if the write fails.
fn send_held<A: Allocator, Q: Write>(
    asked: &mut Ahead<A>,
    count: usize,
    peer: &mut Q,
) -> Result<(), WriteFailed>
    requires { count ≤ length (held asked.old) }
    ensures passes { held asked.new ≡ drop count (held asked.old) }
    ensures sends { Took result (Q.contents peer.old) (Q.contents peer.new)
        (take count (held asked.old)) }
{
    let (line, _) = asked.held().split_at(count);
    let sent = write_line(line, peer);
    asked.pass(count);
    sent
}

/// Sends the held bytes, if there are any, as the last line of the input, with a line feed.
fn send_last<A: Allocator, Q: Write>(asked: &mut Ahead<A>, peer: &mut Q) -> Result<Sent, TalkFault>
    ensures { SendsLast result (held asked.old) (held asked.new) (Q.contents peer.old)
        (Q.contents peer.new) }
{
    if asked.held().is_empty() {
        return Ok(Sent::Nothing);
    }
    if let Err(no_memory) = asked.end_line() {
        return Err(TalkFault::Memory(no_memory));
    }
    let count = asked.held().len();
    match send_held(asked, count, peer) {
        Ok(()) => Ok(Sent::Last),
        Err(failed) => Err(TalkFault::Gone(Gone::Unsent(failed))),
    }
}

/// Sends the next line of the input, if there is one. A line that was not read whole is not sent.
fn send_line<A: Allocator, I: Read, Q: Write>(
    asked: &mut Ahead<A>,
    input: &mut I,
    peer: &mut Q,
) -> Result<Sent, TalkFault>
    ensures { SendsLine result (held asked.old) (held asked.new) (I.remaining input.old)
        (I.remaining input.new) (Q.contents peer.old) (Q.contents peer.new) }
{
    let count = match asked.read_line(input) {
        Ok(Found::Whole(count)) => count,
        Ok(Found::Open) => return send_last(asked, peer),
        Err(AheadFault::Read(failed)) => return Err(TalkFault::Input(failed)),
        Err(AheadFault::Memory(no_memory)) => return Err(TalkFault::Memory(no_memory)),
    };
    match send_held(asked, count, peer) {
        Ok(()) => Ok(Sent::Line),
        Err(failed) => Err(TalkFault::Gone(Gone::Unsent(failed))),
    }
}

/// Passes one line of a reply on, and returns what it says if it is the first of its reply.
fn pass_line<A: Allocator, P: Read, W: Write>(
    told: &mut Ahead<A>,
    peer: &mut P,
    output: &mut W,
) -> Result<Head, TalkFault>
    ensures { PassesLine result (held told.old) (held told.new) (P.remaining peer.old)
        (P.remaining peer.new) (W.contents output.old) (W.contents output.new) }
{
    let count = match told.read_line(peer) {
        Ok(Found::Whole(count)) => count,
        Ok(Found::Open) => return Err(TalkFault::Gone(Gone::Ended)),
        Err(AheadFault::Read(failed)) => return Err(TalkFault::Gone(Gone::Unread(failed))),
        Err(AheadFault::Memory(no_memory)) => return Err(TalkFault::Memory(no_memory)),
    };
    let (line, _) = told.held().split_at(count);
    let (head, _) = line.split_at(count - 1);
    let found = Head {
        rows: rows_of(head),
        farewell: is_farewell(head),
    };
    write_whole(line, output)?;
    told.pass(count);
    Ok(found)
}

/// Passes a whole reply on, and returns whether it ends the session.
fn pass_reply<A: Allocator, P: Read, W: Write>(
    told: &mut Ahead<A>,
    peer: &mut P,
    output: &mut W,
) -> Result<bool, TalkFault>
    ensures { PassesReply result (held told.old) (held told.new) (P.remaining peer.old)
        (P.remaining peer.new) (W.contents output.old) (W.contents output.new) }
{
    let head = pass_line(told, peer, output)?;
    for _ in 0..head.rows {
        pass_line(told, peer, output)?;
    }
    flush(output)?;
    Ok(head.farewell)
}

/// Sends a line, if there is one, and passes its reply on.
fn take_turn<A: Allocator, I: Read, P: Read, Q: Write, W: Write>(
    asked: &mut Ahead<A>,
    told: &mut Ahead<A>,
    input: &mut I,
    peer_in: &mut P,
    peer_out: &mut Q,
    output: &mut W,
) -> Result<Turn, TalkFault>
    ensures { TakesTurn result
        (sight (held asked.old) (held told.old) (I.remaining input.old) (P.remaining peer_in.old)
        (Q.contents peer_out.old) (W.contents output.old))
        (sight (held asked.new) (held told.new) (I.remaining input.new) (P.remaining peer_in.new)
        (Q.contents peer_out.new) (W.contents output.new)) }
{
    match send_line(asked, input, peer_out)? {
        Sent::Nothing => Ok(Turn::Closed(End::AtEnd)),
        Sent::Line => match pass_reply(told, peer_in, output)? {
            true => Ok(Turn::Closed(End::Farewell)),
            false => Ok(Turn::Next),
        },
        Sent::Last => match pass_reply(told, peer_in, output)? {
            true => Ok(Turn::Closed(End::Farewell)),
            false => Ok(Turn::Closed(End::AtEnd)),
        },
    }
}

/// Takes turns until the talk ends.
fn take_turns<A: Allocator, I: Read, P: Read, Q: Write, W: Write>(
    asked: &mut Ahead<A>,
    told: &mut Ahead<A>,
    input: &mut I,
    peer_in: &mut P,
    peer_out: &mut Q,
    output: &mut W,
) -> Result<End, TalkFault>
    ensures { TakesTurns result
        (sight (held asked.old) (held told.old) (I.remaining input.old) (P.remaining peer_in.old)
        (Q.contents peer_out.old) (W.contents output.old))
        (sight (held asked.new) (held told.new) (I.remaining input.new) (P.remaining peer_in.new)
        (Q.contents peer_out.new) (W.contents output.new)) }
{
    for _ in 0..u64::MAX {
        match take_turn(asked, told, input, peer_in, peer_out, output)? {
            Turn::Next => {}
            Turn::Closed(end) => return Ok(end),
        }
    }
    Err(TalkFault::TooManyLines)
}

/// Writes the held bytes of the server, and flushes.
fn write_rest<A: Allocator, W: Write>(
    told: &Ahead<A>,
    output: &mut W,
) -> Result<Flushed, WriteFailed>
    ensures { Took result (W.contents output.old) (W.contents output.new) (held told.now) }
{
    write_whole(told.held(), output)?;
    flush(output)
}

/// Talks with a server: sends a line of the input, writes the whole reply to the output and flushes
/// it, then reads the next line. A reply is one line, and N more lines if the first is `rows N` or
/// `rolled N`. A last line without a line feed is sent with one. The talk ends at the end of the
/// input, or after the reply `bye`.
///
/// Faults: `Input` if a read of the input fails; `Gone` if a line cannot be sent, a read from the
/// server fails, or the server ends before a reply is whole; `Memory` if there is no memory for a
/// line; `TooManyLines` after 2^64 - 1 lines; `Output` if a write or a flush of the output fails.
/// Except after `Output`, all that was read from the server is written.
pub fn talk<A: Allocator + Copy, I: Read, P: Read, Q: Write, W: Write>(
    alloc: A,
    input: &mut I,
    peer_in: &mut P,
    peer_out: &mut Q,
    output: &mut W,
) -> Result<Talked, TalkFault>
    ensures { Talks result (I.remaining input.old) (I.remaining input.new) (P.remaining peer_in.old)
        (P.remaining peer_in.new) (Q.contents peer_out.old) (Q.contents peer_out.new)
        (W.contents output.old) (W.contents output.new) }
{
    let mut asked = Ahead::none(alloc);
    let mut told = Ahead::none(alloc);
    match take_turns(&mut asked, &mut told, input, peer_in, peer_out, output) {
        Ok(end) => {
            let flushed = write_rest(&told, output)?;
            Ok(Talked { end, flushed })
        }
        Err(fault) => match fault {
            TalkFault::Output(failed) => Err(TalkFault::Output(failed)),
            fault => {
                write_rest(&told, output)?;
                Err(fault)
            }
        },
    }
}
