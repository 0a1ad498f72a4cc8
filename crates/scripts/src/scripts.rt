//! Scripts: lines of many sessions, each with its session's label, and the table of these sessions.
ghost use Rattle.std.specs.Prelude.{◌≡◌, ◌≤◌, ◌<◌, ◌+◌, [], List, None, OnOk, IfOk, IfErr, IfSome, length, slice_set, slice_index_or, vec_len, vec_capacity, ℕ, Result};
ghost use Rattle.std.specs.Io.KnownBytes.{Appends};
ghost use Rattle.scripts.specs.Heard.{heard_text};
ghost use Rattle.scripts.specs.Indexed.{AllShut, LineRuns, indexed, with_index};
ghost use Rattle.scripts.specs.Scripts.{IsScriptText, LabelTells, LineTells, LineTellsIn, SessionAnswers, is_skipped, place, script, with_label};
ghost use Rattle.session_lines.specs.Replies.{said_view};
ghost use Rattle.plain_world.specs.Events.{Happens, Tend, Tended, reply_of};
ghost use Rattle.plain_world.specs.declared.faults.Fault.{Fault as WorldFault};
ghost use Rattle.tree_answers.specs.declared.answers.Tending.{Tending};
ghost use Rattle.scripts.specs.Stepping.{AllDrop};
ghost use Rattle.world.specs.Index.{IndexedWorld, slots_of};
ghost use Rattle.world.specs.Refusing.{RefusesGrowth};
ghost use Rattle.world.specs.Stepping.{TendsIndex};
ghost use Rattle.world.specs.Turns.{behind};
ghost use Rattle.byte_streams.specs.Written.{Took};
ghost use Rattle.line_streams.specs.Streams.{NeverEnds, OnMemory, Ran};
ghost use Rattle.scripts.specs.States.{IsIdle, SessionState, session_in};
ghost use Rattle.plain_world.specs.States.{WorldData};
ghost use Rattle.scripts.specs.declared.scripts.TheConstants.{LABEL_LIMIT};

use crate::script_sessions::Session;
use byte_streams::{Flushed, WriteFailed};
use features::Name;
use line_streams::{LINE_LIMIT, LineDesk, Next, ServeFault, run_lines};
use line_words::split_label;
use memory::{NoMemory, vec_with_room};
use session_lines::{LineFault, Reply, Said, write_line, write_said};
use std::alloc::{Allocator, Global};
use std::io::{Read, Write};
use world::World;

/// The most labels that a script may use.
pub const LABEL_LIMIT: usize = 64;

/// The sessions of a script, with room for `LABEL_LIMIT` of them, and the slot of the index to tend
/// next.
#[derive(Drop)]
pub(crate) struct Table<A: Allocator> {
    heap: Global,
    next_slot: u32,
    pub(crate) sessions: Vec<Session, A>,
    ghost room: { LABEL_LIMIT ≤ vec_capacity sessions },
    ghost within: { vec_len sessions ≤ LABEL_LIMIT },
}

/// Whether the line is empty or a comment.
fn is_to_skip(line: &[u8]) -> bool
    ensures { result ≡ is_skipped line.now }
{
    match line {
        [] => true,
        [first, ..] => *first == b'#',
    }
}

/// The place of the label's session; the number of sessions if there is none.
fn place_of(sessions: &[Session], label: &Name) -> usize
    ensures place { result ≡ place label.now sessions.now }
    ensures within { result ≤ length sessions.now }
{
    let mut at = 0;
    for session in sessions {
        if session.label() == *label {
            return at;
        }
        at += 1;
    }
    at
}

impl<A: Allocator + Copy> Table<A> {
    /// No sessions, and room for `LABEL_LIMIT` of them.
    pub(crate) fn new(alloc: A, heap: Global) -> Result<Self, NoMemory>
        ensures sessions { IfOk result (λ table. table.sessions.items ≡ []) }
        ensures turn { IfOk result (λ table. table.next_slot ≡ 0) }
    {
        let sessions = vec_with_room(alloc, LABEL_LIMIT)?;
        Ok(Table {
            heap,
            next_slot: 0,
            sessions,
        })
    }

    /// Adds a fresh session for the label if it has none.
    fn begin_session(&mut self, label: Name, at: usize)
        requires place { at ≡ place label self.old.sessions.items }
        requires room { at < LABEL_LIMIT }
        ensures sessions { self.new.sessions.items ≡ with_label label self.old.sessions.items }
        ensures turn { self.new.next_slot ≡ self.old.next_slot }
    {
        if at == self.sessions.len() {
            self.sessions.push_reserved(Session::new(label));
        }
    }

    /// Answers the text after the label, for the session at this place.
    fn answer_at(&mut self, world: &mut World<A>, at: usize, text: &[u8]) -> Said<A>
        requires { at < length self.old.sessions.items }
        ensures turn { self.new.next_slot ≡ self.old.next_slot }
        ensures answers { (session : SessionState)
            × (self.new.sessions.items ≡ slice_set self.old.sessions.items at session)
            × ((d : SessionState)
            → SessionAnswers with_index text.now
            (session_in (slice_index_or self.old.sessions.items at d) world.old)
            (session_in session world.new) (said_view result)) }
    {
        let heap = self.heap;
        let session = &mut self.sessions[at];
        session.answer_text(world, heap, text)
    }

    /// Tends the slot of the index whose turn it is. The turn passes on even if the index refuses.
    pub(crate) fn tend(&mut self, world: &mut World<A>)
        ensures sessions { self.new.sessions.items ≡ self.old.sessions.items }
        ensures world { world.new.plain ≡ world.old.plain }
        ensures walks { world.new.walks ≡ world.old.walks }
        ensures index { (answer : Result Tending WorldFault)
            × Happens (Tend self.old.next_slot) world.old.plain world.new.plain
            (reply_of Tended answer) × IfErr answer (RefusesGrowth world.old.index)
            × TendsIndex world.old.plain self.old.next_slot world.old.index world.new.index answer }
        ensures turn { self.new.next_slot ≡ behind self.old.next_slot (slots_of world.new.index) }
    {
        let _ = world.tend_next(&mut self.next_slot);
    }

    /// Answers a line, in this order: E1 if it is too long; nothing for an empty line or a comment;
    /// E9 if it has no label, or one that would be the 65th. Nothing is written.
    pub(crate) fn answer(&mut self, world: &mut World<A>, line: &[u8]) -> Heard<A>
        ensures turn { self.new.next_slot ≡ self.old.next_slot }
        ensures answers { LineTellsIn with_index line.now (script world.old self.old.sessions.items)
            (script world.new self.new.sessions.items) (heard_text result) }
    {
        if line.len() > LINE_LIMIT {
            return Heard::Refused(LineFault::LineTooLong);
        }
        if is_to_skip(line) {
            return Heard::Nothing;
        }
        let Some((label, text)) = split_label(line) else {
            return Heard::Refused(LineFault::NoLabel);
        };
        match Name::new(label) {
            Some(label) => self.answer_labelled(world, label, text),
            None => Heard::Refused(LineFault::NoLabel),
        }
    }

    /// Answers a line with this label. E9 if it would be the 65th label.
    fn answer_labelled(&mut self, world: &mut World<A>, label: Name, text: &[u8]) -> Heard<A>
        ensures turn { self.new.next_slot ≡ self.old.next_slot }
        ensures answers { LabelTells with_index label text.now
            (script world.old self.old.sessions.items) (script world.new self.new.sessions.items)
            (heard_text result) }
    {
        let at = place_of(&self.sessions, &label);
        if at >= LABEL_LIMIT {
            return Heard::Refused(LineFault::NoLabel);
        }
        self.begin_session(label, at);
        let said = self.answer_at(world, at, text);
        Heard::Said(label, said)
    }
}

/// What a line of a script is answered, before it is written.
#[derive(Drop)]
pub(crate) enum Heard<A: Allocator> {
    /// Nothing: the line is empty or a comment.
    Nothing,
    /// A fault of a line that belongs to no session.
    Refused(LineFault),
    /// What the session of a label says.
    Said(Name, Said<A>),
}

/// Writes what a line is answered; a fault that belongs to no session with `?` for a label.
pub(crate) fn write_heard<A: Allocator, W: Write>(
    heard: &Heard<A>,
    writer: &mut W,
) -> Result<(), WriteFailed>
    ensures { Took result (W.contents writer.old) (W.contents writer.new) (heard_text heard.now) }
{
    match heard {
        Heard::Nothing => Ok(()),
        Heard::Refused(fault) => write_line(b"?", &Reply::Error(*fault), writer),
        Heard::Said(label, said) => write_said(label.as_bytes(), said, writer),
    }
}

impl<A: Allocator + Copy> LineDesk for Table<A> {
    ghost use Rattle.line_streams.specs.Streams.{NeverEnds};
    ghost use Rattle.scripts.specs.Indexed.{LineRuns, indexed};
    ghost use Rattle.std.proofs.Common.{rules};

    type World = World<A>;

    ghost tells = { λ line old new said next. NeverEnds LineRuns line
        (indexed old.0 old.1.sessions.items old.1.next_slot)
        (indexed new.0 new.1.sessions.items new.1.next_slot) said next };

    fn take_line<W: Write>(
        &mut self,
        world: &mut World<A>,
        line: &[u8],
        writer: &mut W,
    ) -> Result<Next, WriteFailed> {
        let heard = self.answer(world, line);
        let end = write_heard(&heard, writer);
        self.tend(world);
        Next::Line.behind(end)
    }

    ghost long_alike = { Prim.search rules };
}

/// Runs the lines of a script to the end of the input. Each line is `label: line`, for the session
/// of its label. The replies are written, and after each line one slot of the index is tended.
/// `alloc` serves the buffers, `heap` the documents, their texts and the lines of a roll. Faults:
/// `Memory` where an allocation for the buffers is refused, before anything is read; `Read` and
/// `Write` where a read, a write or a flush fails; `TooManyTurns` after 16,777,216 reads. What was
/// done before a fault stays done; staged lists and open searches are dropped. If no search and no
/// transaction was open before the run, none is open after it, however it ends.
pub fn run_script<A: Allocator + Copy, R: Read, W: Write>(
    alloc: A,
    heap: Global,
    world: &mut World<A>,
    reader: &mut R,
    writer: &mut W,
) -> Result<Flushed, ServeFault>
    ensures script_text { OnOk result
        (IfSome (R.remaining reader.old)
        (λ input. (said : List ℕ) × Appends (W.contents writer.old) (W.contents writer.new) said
        × IsScriptText world.old.plain input world.new.plain said)) }
    ensures ran { (sessions : List SessionState) × (last : WorldData)
        × Ran (NeverEnds LineTells) result (script world.old.plain []) (script last sessions)
        (R.remaining reader.old) (R.remaining reader.new) (W.contents writer.old)
        (W.contents writer.new) × AllDrop sessions last world.new.plain }
    ensures runs { (sessions : List SessionState) × (slot : ℕ) × (last : IndexedWorld)
        × Ran (NeverEnds LineRuns) result (indexed world.old [] 0) (indexed last sessions slot)
        (R.remaining reader.old) (R.remaining reader.new) (W.contents writer.old)
        (W.contents writer.new) × AllShut sessions last world.new }
    ensures idle { IsIdle world.old.plain → IsIdle world.new.plain }
    ensures untouched { IfErr result
        (λ fault. OnMemory fault
        ((world.new ≡ world.old) × (reader.new ≡ reader.old) × (writer.new ≡ writer.old))) }
{
    let mut table = Table::new(alloc, heap)?;
    let end = run_lines(alloc, &mut table, world, reader, writer);
    drop_all(&table.sessions, world);
    end
}

/// Drops the open search of each session.
pub(crate) fn drop_all<A: Allocator + Copy>(sessions: &[Session], world: &mut World<A>)
    ensures shuts { AllShut sessions.now world.old world.new }
    ensures none { sessions.now ≡ [] → world.new ≡ world.old }
{
    for session in sessions {
        session.drop_search(world);
    }
}
