//! OPEN, STEP and FINISH, which scripts alone know: their words, and their calls of the world.

ghost use Rattle.std.specs.Prelude.{◌≡◌, option_map};
ghost use Rattle.plain_world.specs.Admitting.{may_go_on};
ghost use Rattle.plain_world.specs.Events.{Failed, Rows, reply_of};
ghost use Rattle.scripts.specs.Indexed.{FinishesIn};
ghost use Rattle.scripts.specs.Services.{is_overrun_reply};
ghost use Rattle.scripts.specs.Stepping.{FinishesLine, GoesOn, VisitsOn, count_at, left_open, step_command_at, step_count, step_verb_at, step_verb_of};

use crate::calls::seek;
use line_words::next_word;
use plane::Shape;
use session_lines::{LineFault, as_number, as_shape, due_word, end};
use std::alloc::Allocator;
use world::{Answer, Fault as WorldFault, STEP_LIMIT, TreeFault, Visit, World};

/// A command of a search that goes step by step. STEP and FINISH carry the number of the session's
/// open search.
#[derive(Clone, Copy, Debug, PartialEq, Eq)]
pub(crate) enum StepCommand {
    /// OPEN: opens a search of this window.
    Open(Shape),
    /// STEP: makes at most `count` visits.
    Step { search: u64, count: u32 },
    /// FINISH: visits until the search is ready, and lists what it found.
    Finish { search: u64 },
}

/// The first word of such a command. A session by itself does not know it (E2).
#[derive(Clone, Copy, Debug, PartialEq, Eq)]
pub(crate) enum StepVerb {
    Open,
    Step,
    Finish,
}

/// The command that a word names, if it is OPEN, STEP or FINISH.
fn step_verb_named(word: &[u8]) -> Option<StepVerb>
    ensures { result ≡ step_verb_of word.now }
{
    if word == b"OPEN".as_slice() {
        Some(StepVerb::Open)
    } else if word == b"STEP".as_slice() {
        Some(StepVerb::Step)
    } else if word == b"FINISH".as_slice() {
        Some(StepVerb::Finish)
    } else {
        None
    }
}

/// The command that a line begins with, and the rest of the line; `None` if it is another one.
#[tactic(auto, unfolding(crate::specs::Stepping::step_verb_at))]
pub(crate) fn read_step_verb(text: &[u8]) -> Option<(StepVerb, &[u8])>
    ensures { option_map (λ r. (r.0, r.1.now)) result ≡ step_verb_at text.now }
{
    let (word, rest) = next_word(text)?;
    let verb = step_verb_named(word)?;
    Some((verb, rest))
}

/// Reads the command, for a session with this open search or with none. Faults in this order:
/// `OutOfTurn` for OPEN where a search is open, and for STEP and FINISH where none is; then those
/// of the words from left to right; then `Command` for something left over.
#[tactic(auto, unfolding(crate::specs::Stepping::step_command_at))]
pub(crate) fn read_step_command(
    search: Option<u64>,
    verb: StepVerb,
    rest: &[u8],
) -> Result<StepCommand, LineFault>
    ensures { result ≡ step_command_at search verb rest.now }
{
    match (verb, search) {
        (StepVerb::Open, None) => Ok(StepCommand::Open(as_shape(rest)?)),
        (StepVerb::Step, Some(search)) => {
            let count = step_words(rest)?;
            Ok(StepCommand::Step { search, count })
        }
        (StepVerb::Finish, Some(search)) => {
            end(rest)?;
            Ok(StepCommand::Finish { search })
        }
        _ => Err(LineFault::OutOfTurn),
    }
}

/// The words of STEP: how many steps.
#[tactic(auto, unfolding(crate::specs::Stepping::count_at))]
fn step_words(rest: &[u8]) -> Result<u32, LineFault>
    ensures { result ≡ count_at rest.now }
{
    let (word, rest) = due_word(rest)?;
    let number = as_number(word)?;
    let count = as_count(number)?;
    end(rest)?;
    Ok(count)
}

/// The number of steps; `Number` unless it is from 1 to 1,000,000.
fn as_count(number: u64) -> Result<u32, LineFault>
    ensures { result ≡ step_count number }
{
    if number < 1 || number > STEP_LIMIT as u64 {
        return Err(LineFault::Number);
    }
    Ok(number as u32)
}

/// Makes at most `steps` visits; stops when the search is ready or a visit is refused. S7 where the
/// search has made all the steps that it may: it is gone then. X1 or X2 where the seat has no such
/// open search; X12 where an allocation is refused.
pub(crate) fn go_on<A: Allocator + Copy>(
    world: &mut World<A>,
    seat: u32,
    number: u64,
    steps: u32,
) -> Result<Visit, WorldFault>
    ensures happens { GoesOn seat number steps world.old.plain world.new.plain result }
    ensures index { VisitsOn (may_go_on seat number world.old.plain) number steps world.old.index
        world.new.index result }
    ensures walks { world.new.walks ≡ world.old.walks }
{
    for _ in 0..steps {
        match world.visit(seat, number)? {
            Visit::More => {}
            Visit::Ready => return Ok(Visit::Ready),
        }
    }
    Ok(Visit::More)
}

/// Visits an open search until it is ready, and finishes it. After S7 it is gone. After every other
/// fault it stays open: X10 where the trail is full, X12 where an allocation is refused, X1 or X2
/// where the seat has no such open search.
pub(crate) fn finish_open<A: Allocator + Copy>(
    world: &mut World<A>,
    seat: u32,
    number: u64,
) -> Result<Answer<A>, WorldFault>
    ensures finishes { FinishesLine seat number world.old.plain world.new.plain
        (reply_of Rows result) }
    ensures index { FinishesIn seat number world.old world.new result }
    ensures walks { world.new.walks ≡ world.old.walks }
{
    match seek(world, seat, number) {
        Ok(answer) => Ok(answer),
        Err(fault) => {
            if is_overrun(&fault) {
                let _ = world.drop_search(seat, number);
            }
            Err(fault)
        }
    }
}

/// Whether the fault is S7, which ends a search.
fn is_overrun(fault: &WorldFault) -> bool
    ensures { result ≡ is_overrun_reply (Failed fault.now) }
{
    matches!(fault, WorldFault::Tree(TreeFault::Overrun))
}

/// The open search of a session after a fault: none after S7.
pub(crate) fn left_open(fault: &WorldFault, number: u64) -> Option<u64>
    ensures { result ≡ left_open fault.now number }
{
    if is_overrun(fault) {
        None
    } else {
        Some(number)
    }
}
