//! The trail: taken out, shown, let go.

ghost use Rattle.std.specs.Prelude.{◌≡◌, ◌+◌, ◌≤◌, vec_capacity, vec_len};
ghost use Rattle.std.specs.Arc.{arc_value};
ghost use Rattle.map_calls.specs.Keeping.{pieces_data};
ghost use Rattle.map_calls.specs.Rolling.{Keeps, LetsGo, LetsGoFor, MakesRoom, Rolls, RollsFor, Shows, ShowsFor, TakesOut, is_let_go};
ghost use Rattle.map_sessions.specs.Visiting.{place_of};

use crate::outcomes::{CallFault, Outcome};
use crate::pieces::Pieces;
use crate::texts::lines_text;
use features::Name;
use map_sessions::{Host, Refusal, greet, unasked};
use plain_world::Rolled;
use session_lines::{Said, Service};
use std::alloc::{Allocator, Global};
use std::sync::Arc;

/// Keeps what was taken out.
fn keep<A: Allocator>(pieces: &mut Pieces<A>, asker: &Name, rolled: Arc<Rolled<A>, A>) -> Outcome
    requires { vec_len pieces.old.pieces + 1 ≤ vec_capacity pieces.old.pieces }
    ensures { Keeps asker.now (arc_value rolled) (pieces_data pieces.old) (pieces_data pieces.new)
        result }
{
    let records = u64::from(rolled.trail().len());
    let piece = pieces.keep(*asker, rolled);
    Outcome::Rolled { piece, records }
}

/// Takes the trail out for the session's subject, and keeps it. There is room for it.
fn roll<S: Service>(service: &mut S, pieces: &mut Pieces<S::Memory>, asker: &Name) -> Outcome
    requires { vec_len pieces.old.pieces + 1 ≤ vec_capacity pieces.old.pieces }
    ensures { Rolls S.serves asker.now service.old service.new (pieces_data pieces.old)
        (pieces_data pieces.new) result }
{
    match service.roll() {
        Said::Rolled(rolled) => keep(pieces, asker, rolled),
        Said::Line(reply) => Outcome::NotRolled(reply),
        Said::Rows(_) => Outcome::Refused(Refusal::Misplaced),
    }
}

/// Takes the trail out for a subject, and keeps it. There is room for it.
fn take_out<S: Service>(service: &mut S, pieces: &mut Pieces<S::Memory>, asker: &Name) -> Outcome
    requires { vec_len pieces.old.pieces + 1 ≤ vec_capacity pieces.old.pieces }
    ensures { TakesOut S.subject_of S.serves asker.now service.old service.new
        (pieces_data pieces.old) (pieces_data pieces.new) result }
{
    match greet(service, asker) {
        Ok(()) => roll(service, pieces, asker),
        Err(refusal) => Outcome::Refused(refusal),
    }
}

/// Makes room for one more piece, and then takes the trail out.
fn make_room<S: Service>(service: &mut S, pieces: &mut Pieces<S::Memory>, asker: &Name) -> Outcome
    ensures { MakesRoom S.subject_of S.serves asker.now service.old service.new
        (pieces_data pieces.old) (pieces_data pieces.new) result }
{
    match pieces.make_room() {
        Ok(()) => take_out(service, pieces, asker),
        Err(refused) => Outcome::Refused(Refusal::Memory(refused)),
    }
}

/// Takes the trail out for who asks, and keeps it.
pub(crate) fn roll_for<S: Service>(
    host: &Host,
    asker: Option<Name>,
    service: &mut S,
    pieces: &mut Pieces<S::Memory>,
) -> Outcome
    ensures { RollsFor S.subject_of S.serves (place_of host.now) asker service.old service.new
        (pieces_data pieces.old) (pieces_data pieces.new) result }
{
    let Some(asker) = asker else {
        return Outcome::Refused(unasked(host));
    };
    if pieces.is_full() {
        return Outcome::Fault(CallFault::Full);
    }
    make_room(service, pieces, &asker)
}

/// Shows the lines of a piece to a subject.
fn show<A: Allocator>(heap: Global, pieces: &Pieces<A>, asker: &Name, number: u64) -> Outcome
    ensures { Shows asker.now number (pieces_data pieces.now) result }
{
    let Some(lines) = pieces.lines(number, asker) else {
        return Outcome::Refused(Refusal::Absent);
    };
    match lines_text(heap, lines) {
        Ok(text) => Outcome::Shown(text),
        Err(refused) => Outcome::Refused(Refusal::Memory(refused)),
    }
}

/// Shows the lines of a piece to who asks.
pub(crate) fn show_to<A: Allocator>(
    heap: Global,
    host: &Host,
    asker: Option<Name>,
    pieces: &Pieces<A>,
    number: u64,
) -> Outcome
    ensures { ShowsFor (place_of host.now) asker number (pieces_data pieces.now) result }
{
    match asker {
        Some(asker) => show(heap, pieces, &asker, number),
        None => Outcome::Refused(unasked(host)),
    }
}

/// That a piece was let go, or that there is none.
fn told_gone(is_gone: bool) -> Outcome
    ensures { result ≡ is_let_go is_gone }
{
    if is_gone {
        Outcome::LetGo
    } else {
        Outcome::Refused(Refusal::Absent)
    }
}

/// Lets a piece of a subject go.
fn let_go<A: Allocator>(pieces: &mut Pieces<A>, asker: &Name, number: u64) -> Outcome
    ensures { LetsGo asker.now number (pieces_data pieces.old) (pieces_data pieces.new) result }
{
    told_gone(pieces.let_go(number, asker))
}

/// Lets a piece of who asks go.
pub(crate) fn let_go_for<A: Allocator>(
    host: &Host,
    asker: Option<Name>,
    pieces: &mut Pieces<A>,
    number: u64,
) -> Outcome
    ensures { LetsGoFor (place_of host.now) asker number (pieces_data pieces.old)
        (pieces_data pieces.new) result }
{
    match asker {
        Some(asker) => let_go(pieces, &asker, number),
        None => Outcome::Refused(unasked(host)),
    }
}
