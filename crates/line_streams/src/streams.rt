//! Runs of lines from any reader to any writer. How a line is answered is up to a `LineDesk`.
ghost use Rattle.std.specs.Prelude.{◌≡◌, ◌≢◌, ℕ, ◌++◌, ◌∷◌, [], List, Option, true, IfOk, IfErr};
ghost use Rattle.std.specs.Io.BufRead.{strip_last};
ghost use Rattle.byte_streams.specs.Written.{Took};
ghost use Rattle.line_streams.specs.Lines.{is_too_long, lines_of};
ghost use Rattle.line_streams.specs.Streams.{Concludes, IsLine, OnMemory, Passes, Ran, RanOn, RanWithin, TookLast, TookLine, TookOne, held_of, held_with, with_begun};

use byte_streams::{Flushed, ReadFailed, Turns, WriteFailed, flush};
use memory::{NoMemory, vec_with_room};
use std::alloc::Allocator;
use std::fmt;
use std::io::{Read, Write};
use std::marker::Model;

/// The most bytes of a line, without its end.
pub const LINE_LIMIT: usize = 65_536;

/// `LINE_LIMIT`, a trailing carriage return, and one byte that marks the line as too long. Later
/// bytes of a line are dropped.
const HELD: usize = 65_538;

/// The most reads of a run.
pub const READ_LIMIT: u32 = 16_777_216;

/// The most bytes of a read.
const CHUNK: usize = 4_096;

/// Why a run ends before its input does, and not by a line that ends it. What was done before stays
/// done.
#[derive(Debug, Drop, PartialEq, Eq)]
pub enum ServeFault {
    /// V1: a read failed.
    Read(ReadFailed),
    /// V2: a write or a flush failed.
    Write(WriteFailed),
    /// V3: the input did not end within the reads of a run. These were made.
    TooManyTurns(Turns),
    /// V4: out of memory for the line buffer, before anything was read.
    Memory(NoMemory),
}

impl ServeFault {
    ghost use Rattle.line_streams.specs.Faults.{serve_code_of};

    /// The fault's code, as the program shows it.
    pub fn code(&self) -> &'static str
        ensures { result.now ≡ serve_code_of self.now }
    {
        match self {
            ServeFault::Read(_) => "V1",
            ServeFault::Write(_) => "V2",
            ServeFault::TooManyTurns(_) => "V3",
            ServeFault::Memory(_) => "V4",
        }
    }
}

impl fmt::Display for ServeFault {
    ghost use Rattle.std.specs.Prelude.{Some};
    ghost use Rattle.line_streams.specs.Faults.{serve_code_of};

    ghost output = { λ fault. Some (serve_code_of fault) };

    fn fmt<W: fmt::Write>(&self, f: &mut fmt::Formatter<W>) -> fmt::Result {
        f.write_str(self.code())
    }
}

impl From<ReadFailed> for ServeFault {
    ghost use Rattle.line_streams.specs.declared.streams.ServeFault.TheVariants as reasons;

    ghost from_gives = { λ failed fault. fault ≡ reasons.Read failed };

    fn from(failed: ReadFailed) -> ServeFault {
        ServeFault::Read(failed)
    }
}

impl From<WriteFailed> for ServeFault {
    ghost use Rattle.line_streams.specs.declared.streams.ServeFault.TheVariants as reasons;

    ghost from_gives = { λ failed fault. fault ≡ reasons.Write failed };

    fn from(failed: WriteFailed) -> ServeFault {
        ServeFault::Write(failed)
    }
}

impl From<NoMemory> for ServeFault {
    ghost use Rattle.line_streams.specs.declared.streams.ServeFault.TheVariants.{Memory};

    ghost from_gives = { λ no_memory fault. fault ≡ Memory no_memory };

    fn from(no_memory: NoMemory) -> ServeFault {
        ServeFault::Memory(no_memory)
    }
}

/// Whether a stream of lines goes on after a line.
#[derive(Clone, Copy, Debug, Drop, PartialEq, Eq)]
pub enum Next {
    /// The next line is answered, if there is one.
    Line,
    /// No further line is answered.
    End,
}

impl Next {
    /// `self`, if the line's answer was written; otherwise the failure of that write.
    pub fn behind(self, written: Result<(), WriteFailed>) -> Result<Next, WriteFailed>
        ensures { (before after : Option (List ℕ)) (said : List ℕ) → Took written before after said
            → TookLine result before after said self }
    {
        match written {
            Ok(()) => Ok(self),
            Err(failed) => Err(failed),
        }
    }
}

/// Answers lines, given a world.
pub trait LineDesk {
    ghost use Rattle.line_streams.specs.declared.streams.Next.{Next};

    /// The state that lines act on. It outlives the desk.
    type World;

    /// How a line is answered: it leads from one world and desk to others, with these bytes as its
    /// answer, and the stream goes on or ends.
    ghost tells: { List ℕ → Self.World × Self → Self.World × Self → List ℕ → Next → Type 0 };

    /// Answers a line, given without its line feed, and returns whether the stream goes on. An
    /// error is the writer's; the line has taken effect all the same.
    fn take_line<W: Write>(
        &mut self,
        world: &mut Self::World,
        line: &[u8],
        writer: &mut W,
    ) -> Result<Next, WriteFailed>
        ensures { (said : List ℕ) × (next : Next)
            × TookLine result (W.contents writer.old) (W.contents writer.new) said next
            × tells line.now (world.old, self.old) (world.new, self.new) said next };

    /// All lines that are too long are answered alike.
    ghost long_alike: { (line other : List ℕ) (old new : Self.World
        × Self) (said : List ℕ) (next : Next)
        → is_too_long line ≡ true → is_too_long other ≡ true
        → tells line old new said next → tells other old new said next };
}

/// Why a run stops at a line.
#[derive(Drop)]
enum Stop {
    /// The line ended the stream.
    Ended,
    /// The line's answer was not written in full.
    Failed(WriteFailed),
}

impl From<WriteFailed> for Stop {
    ghost use Rattle.line_streams.specs.declared.streams.Stop.TheVariants as stops;

    ghost from_gives = { λ failed stop. stop ≡ stops.Failed failed };

    fn from(failed: WriteFailed) -> Stop {
        Stop::Failed(failed)
    }
}

/// What a run keeps between two reads: the first 65,538 bytes of the line that has begun. With it a
/// run whose read failed is gone on with (`go_on_within`). Contracts see these bytes.
#[derive(Drop)]
pub struct BegunLine<A: Allocator> {
    bytes: Vec<u8, A>,
}

impl<A: Allocator> Model for BegunLine<A> {
    ghost use Rattle.std.specs.Prelude.{ℕ, ◌≤◌, List, vec_len, vec_capacity};
    ghost use Rattle.line_streams.specs.Streams.{IsLine};
    ghost use Rattle.line_streams.specs.declared.streams.TheConstants.{HELD};

    ghost Value = { List ℕ };

    ghost view = { λ begun. begun.bytes.items };

    ghost invariant = { λ begun. (HELD ≤ vec_capacity begun.bytes)
        × (vec_len begun.bytes ≤ HELD) × IsLine begun.bytes.items };
}

impl<A: Allocator> BegunLine<A> {
    /// No line has begun. Makes room for all bytes of a line that are ever kept; `NoMemory` if that
    /// is refused.
    pub fn new(alloc: A) -> Result<Self, NoMemory>
        ensures { IfOk result (λ begun. begun ≡ []) }
    {
        let bytes = vec_with_room(alloc, HELD)?;
        Ok(BegunLine { bytes })
    }

    /// A fact for callers, without effect: what is held is the start of a line.
    pub fn fact_start(&self)
        ensures { (start : List ℕ) × IsLine start × (self.now ≡ held_of start) }
    {
        let _bytes = &self.bytes;
    }

    /// Adds a byte of the line, or drops it if `HELD` bytes are there.
    fn hold(&mut self, byte: u8)
        requires { byte ≢ 10 }
        ensures { self.new ≡ held_with byte self.old }
    {
        if self.bytes.len() < HELD {
            self.bytes.push_reserved(byte);
        }
    }

    /// The line has ended: no other one has begun yet.
    fn clear(&mut self)
        ensures { self.new ≡ [] }
    {
        self.bytes.clear();
    }

    /// The line, as far as its bytes are held.
    fn as_slice(&self) -> &[u8]
        ensures { result.now ≡ self.now }
    {
        self.bytes.as_slice()
    }

    /// The line without the carriage return at its end.
    fn without_return(&self) -> &[u8]
        ensures { result.now ≡ strip_last 13 self.now }
    {
        match self.bytes.as_slice() {
            [line @ .., b'\r'] => line,
            line => line,
        }
    }
}

/// Answers a line. `Stop` if the line ends the stream, or its answer is not written.
fn answer_line<D: LineDesk, W: Write>(
    desk: &mut D,
    world: &mut D::World,
    line: &[u8],
    writer: &mut W,
) -> Result<(), Stop>
    ensures { TookOne D.tells result line.now (world.old, desk.old) (world.new, desk.new)
        (W.contents writer.old) (W.contents writer.new) }
{
    match desk.take_line(world, line, writer) {
        Ok(Next::Line) => Ok(()),
        Ok(Next::End) => Err(Stop::Ended),
        Err(failed) => Err(Stop::Failed(failed)),
    }
}

/// Takes one byte of the input; a line feed has the line answered.
fn take_byte<D: LineDesk, A: Allocator, W: Write>(
    desk: &mut D,
    world: &mut D::World,
    held: &mut BegunLine<A>,
    byte: u8,
    writer: &mut W,
) -> Result<(), Stop>
    ensures { (begun : List ℕ) → IsLine begun → held.old ≡ held_of begun
        → Passes D.tells result (begun ++ byte ∷ []) (world.old, desk.old) (world.new, desk.new)
        held.new (W.contents writer.old) (W.contents writer.new) }
{
    if byte != b'\n' {
        held.hold(byte);
        return Ok(());
    }
    answer_line(desk, world, held.without_return(), writer)?;
    held.clear();
    Ok(())
}

/// Takes bytes of the input, one by one.
fn take_bytes<D: LineDesk, A: Allocator, W: Write>(
    desk: &mut D,
    world: &mut D::World,
    held: &mut BegunLine<A>,
    bytes: &[u8],
    writer: &mut W,
) -> Result<(), Stop>
    ensures { (begun : List ℕ) → IsLine begun → held.old ≡ held_of begun
        → Passes D.tells result (begun ++ bytes.now) (world.old, desk.old) (world.new, desk.new)
        held.new (W.contents writer.old) (W.contents writer.new) }
{
    for byte in bytes {
        take_byte(desk, world, held, *byte, writer)?;
    }
    Ok(())
}

/// Answers the last line, which has no line feed, if there is one.
fn end<D: LineDesk, A: Allocator, W: Write>(
    desk: &mut D,
    world: &mut D::World,
    held: &BegunLine<A>,
    writer: &mut W,
) -> Result<(), Stop>
    ensures { (begun : List ℕ) → IsLine begun → held.now ≡ held_of begun
        → TookLast D.tells result (lines_of begun) (world.old, desk.old) (world.new, desk.new)
        (W.contents writer.old) (W.contents writer.new) }
{
    let line = held.as_slice();
    if line.is_empty() {
        return Ok(());
    }
    answer_line(desk, world, line, writer)
}

/// Ends a run after its last line: flushes, unless the line's answer could not be written.
fn conclude<W: Write>(end: Result<(), Stop>, writer: &mut W) -> Result<Flushed, ServeFault>
    ensures { Concludes end result (W.contents writer.old) (W.contents writer.new) }
{
    match end {
        Ok(()) | Err(Stop::Ended) => Ok(flush(writer)?),
        Err(Stop::Failed(failed)) => Err(ServeFault::Write(failed)),
    }
}

/// Reads lines up to the end of the input, or to the line that ends the stream, and has the desk
/// answer each. A line ends with a line feed or with the input; a carriage return right before the
/// line feed is dropped. After the line that ends the stream, no line is answered and nothing is
/// read.
///
/// The writer is flushed before each read, and before the run ends, except after a failed write and
/// for `Memory`. Memory for one line is allocated before the first read, and none later. Faults:
/// `Memory` if that is refused; `Read` or `Write` if a read, a write or a flush fails;
/// `TooManyTurns` after 16,777,216 reads of which none failed or reached the end of the input.
pub fn run_lines<D: LineDesk, A: Allocator, R: Read, W: Write>(
    alloc: A,
    desk: &mut D,
    world: &mut D::World,
    reader: &mut R,
    writer: &mut W,
) -> Result<Flushed, ServeFault>
    ensures ran { Ran D.tells result (world.old, desk.old) (world.new, desk.new)
        (R.remaining reader.old) (R.remaining reader.new) (W.contents writer.old)
        (W.contents writer.new) }
    ensures untouched { IfErr result
        (λ fault. OnMemory fault ((reader.new ≡ reader.old) × (writer.new ≡ writer.old))) }
{
    run_lines_within(READ_LIMIT, alloc, desk, world, reader, writer)
}

/// `run_lines` with another limit of reads: `TooManyTurns` comes after so many.
pub fn run_lines_within<D: LineDesk, A: Allocator, R: Read, W: Write>(
    reads: u32,
    alloc: A,
    desk: &mut D,
    world: &mut D::World,
    reader: &mut R,
    writer: &mut W,
) -> Result<Flushed, ServeFault>
    ensures ran { RanWithin reads D.tells result (world.old, desk.old) (world.new, desk.new)
        (R.remaining reader.old) (R.remaining reader.new) (W.contents writer.old)
        (W.contents writer.new) }
    ensures untouched { IfErr result
        (λ fault. OnMemory fault ((reader.new ≡ reader.old) × (writer.new ≡ writer.old))) }
{
    let mut begun = BegunLine::new(alloc)?;
    go_on_within(reads, &mut begun, desk, world, reader, writer)
}

/// Goes on with a run of lines: as `run_lines_within`, with the line that has begun.
///
/// After `Read` or `TooManyTurns` the same call can be made again with this line, and goes on where
/// the run was broken off, with this desk or another, and with this world or another of its type:
/// what was read is answered, up to the line that has begun, and the answers are flushed. So a
/// reader may break off a read on purpose, by an error. After any other end there is nothing to go
/// on with. `Memory` never comes.
pub fn go_on_within<D: LineDesk, A: Allocator, R: Read, W: Write>(
    reads: u32,
    begun: &mut BegunLine<A>,
    desk: &mut D,
    world: &mut D::World,
    reader: &mut R,
    writer: &mut W,
) -> Result<Flushed, ServeFault>
    ensures { (start : List ℕ) → IsLine start → begun.old ≡ held_of start
        → RanOn reads D.tells result (world.old, desk.old) (world.new, desk.new) begun.new
        (with_begun start (R.remaining reader.old)) (R.remaining reader.new)
        (W.contents writer.old) (W.contents writer.new) }
{
    let mut chunk = [0; CHUNK];
    let mut turns = Turns::none();
    for _ in 0..reads {
        flush(writer)?;
        let count = turns.read_some(reader, &mut chunk)?;
        if count == 0 {
            let end = end(desk, world, begun, writer);
            return conclude(end, writer);
        }
        if let Err(stop) = take_bytes(desk, world, begun, &chunk[..count], writer) {
            return conclude(Err(stop), writer);
        }
    }
    flush(writer)?;
    Err(ServeFault::TooManyTurns(turns))
}
