//! One session by itself, whose lines have no label.

ghost use Rattle.std.specs.Prelude.{◌≡◌, [], List, ℕ, OnOk, IfErr, IfOk, IfSome};
ghost use Rattle.std.specs.Io.KnownBytes.{Appends};
ghost use Rattle.features.specs.declared.rows.Change.{Change};
ghost use Rattle.session_lines.specs.Replies.{SaidData, said_view};
ghost use Rattle.session_lines.specs.Services.{Call};
ghost use Rattle.session_lines.specs.Serving.{Calls, IsServedText, DeskTells, next_behind};
ghost use Rattle.session_lines.specs.Desks.{desk};
ghost use Rattle.line_streams.specs.Streams.{IsLine, OnMemory, Ran, RanOn, held_of, with_begun};

use crate::desks::Staged;
use crate::faults::LineFault;
use crate::opening::answer_opened;
use crate::replies::{Reply, Said};
use crate::services::Service;
use crate::writing::{write_line, write_said};
use byte_streams::{Flushed, WriteFailed};
use line_streams::{BegunLine, LINE_LIMIT, LineDesk, Next, READ_LIMIT, ServeFault, go_on_within};
use memory::NoMemory;
use std::alloc::{Allocator, Global};
use std::io::{Read, Write};
use std::marker::PhantomData;
use std::mem;

/// `End` after `bye`, `Line` after any other reply.
fn next_behind<A: Allocator>(said: &Said<A>) -> Next
    ensures { result ≡ next_behind (said_view said.now) }
{
    match said {
        Said::Line(Reply::Bye) => Next::End,
        _ => Next::Line,
    }
}

/// What a session by itself keeps between two reads, whoever serves it: its staged list, and the
/// line that has begun.
#[derive(Drop)]
pub struct Sitting<A: Allocator> {
    staged: Staged,
    begun: BegunLine<A>,
}

impl<A: Allocator> Sitting<A> {
    /// Nothing is staged, and no line has begun. `NoMemory` where there is none for the line.
    pub fn new(alloc: A) -> Result<Self, NoMemory>
        ensures { IfOk result (λ sitting. (sitting.staged ≡ []) × (sitting.begun ≡ [])) }
    {
        let begun = BegunLine::new(alloc)?;
        Ok(Sitting {
            staged: Staged::new(),
            begun,
        })
    }
}

/// What a session by itself keeps between two lines.
#[derive(Drop)]
struct Alone<S: Service> {
    heap: Global,
    staged: Staged,
    /// The service is not kept here: it is the `World` of the `LineDesk`. Its type is named, since
    /// an `impl` for `Alone` has no other place that fixes `S`.
    service: PhantomData<S>,
}

impl<S: Service> LineDesk for Alone<S> {
    ghost use Rattle.session_lines.specs.Serving.{DeskTells};
    ghost use Rattle.session_lines.specs.Desks.{desk};
    ghost use Rattle.std.proofs.Common.{rules};

    type World = S;

    ghost tells = { λ line old new said next. DeskTells S.keys_of S.subject_of S.serves line
        (desk old.1.staged old.0) (desk new.1.staged new.0) said next };

    fn take_line<W: Write>(
        &mut self,
        service: &mut S,
        line: &[u8],
        writer: &mut W,
    ) -> Result<Next, WriteFailed> {
        if line.len() > LINE_LIMIT {
            let too_long = Reply::Error(LineFault::LineTooLong);
            return Next::Line.behind(write_line(b"", &too_long, writer));
        }
        let said = answer_opened(service, self.heap, &mut self.staged, line);
        next_behind(&said).behind(write_said(b"", &said, writer))
    }

    ghost long_alike = { Prim.search rules };
}

/// Serves one session to the end of the input, or to the line that is answered `bye`. Each line is
/// answered as a script answers it, but without labels; OPEN, STEP and FINISH, which scripts alone
/// know, are E2. No line is skipped: an empty one and one that begins with `#` are E2. Where the
/// service has keys, HELLO says a secret behind the name: it is E2 without one, and H1 where no key
/// of the name has it. Replies are written out before a read waits. `alloc` serves the buffers, `heap` the documents that are read.
/// The faults, and what holds after them, are those of `run_lines`.
pub fn serve<S: Service, A: Allocator, R: Read, W: Write>(
    alloc: A,
    heap: Global,
    service: &mut S,
    reader: &mut R,
    writer: &mut W,
) -> Result<Flushed, ServeFault>
    ensures served_text { OnOk result
        (IfSome (R.remaining reader.old)
        (λ input. (said : List ℕ) × Appends (W.contents writer.old) (W.contents writer.new) said
        × IsServedText S.keys_of S.subject_of S.serves service.old input service.new said)) }
    ensures ran { (staged : List Change)
        × Ran (DeskTells S.keys_of S.subject_of S.serves) result (desk [] service.old)
        (desk staged service.new) (R.remaining reader.old) (R.remaining reader.new)
        (W.contents writer.old) (W.contents writer.new) }
    ensures calls { (calls : List (Call × SaidData))
        × Calls S.serves calls service.old service.new }
    ensures untouched { IfErr result
        (λ fault. OnMemory fault
        ((service.new ≡ service.old) × (reader.new ≡ reader.old) × (writer.new ≡ writer.old))) }
{
    let mut sitting = Sitting::new(alloc)?;
    serve_on(heap, &mut sitting, service, reader, writer)
}

/// Serves on a session that was broken off by a read that failed, or that has not begun: as `serve`
/// does, with what is staged and the line that has begun. The service need not be the one that
/// served it before; who asks is the service's to know. After `Read` or `TooManyTurns` the session
/// can be served on again, and nothing of it is lost. `Memory` never comes.
pub fn serve_on<S: Service, A: Allocator, R: Read, W: Write>(
    heap: Global,
    sitting: &mut Sitting<A>,
    service: &mut S,
    reader: &mut R,
    writer: &mut W,
) -> Result<Flushed, ServeFault>
    ensures ran { (start : List ℕ) → IsLine start → sitting.old.begun ≡ held_of start
        → RanOn READ_LIMIT (DeskTells S.keys_of S.subject_of S.serves) result
        (desk sitting.old.staged service.old) (desk sitting.new.staged service.new)
        sitting.new.begun (with_begun start (R.remaining reader.old)) (R.remaining reader.new)
        (W.contents writer.old) (W.contents writer.new) }
    ensures calls { (calls : List (Call × SaidData))
        × Calls S.serves calls service.old service.new }
{
    sitting.begun.fact_start();
    let mut alone = Alone {
        heap,
        staged: mem::replace(&mut sitting.staged, Staged::new()),
        service: PhantomData,
    };
    let ended = go_on_within(
        READ_LIMIT,
        &mut sitting.begun,
        &mut alone,
        service,
        reader,
        writer,
    );
    sitting.staged = alone.staged;
    ended
}
