//! A world that serves one session.

ghost use Rattle.std.specs.Prelude.{◌≡◌, None};
ghost use Rattle.session_lines.specs.Replies.{name_of_rule, ruling_reply};
ghost use Rattle.scripts.specs.Services.{seated};

use crate::calls::{commit, govern, roll, search};
use combining::Question;
use credentials::Key;
use decision::{Decider, Ruling};
use features::{Change, Name, Subject};
use plane::Shape;
use policy_documents::Document;
use session_lines::{LineFault, Reply, Said, Service, fault_reply, outcome_reply};
use std::alloc::{Allocator, Global};
use world::World;

/// A world as the service of one session, which has it alone meanwhile. `heap` holds documents and
/// the lines of a roll.
#[derive(Drop)]
pub struct Solo<'a, A: Allocator> {
    world: &'a mut World<A>,
    heap: Global,
    seat: Option<u32>,
}

impl<'a, A: Allocator + Copy> Solo<'a, A> {
    /// Serves a session that has not begun.
    pub fn new(world: &'a mut World<A>, heap: Global) -> Self
        ensures same_reference { result.world.ghost_name ≡ world.entry.ghost_name }
        ensures world { result.world.now ≡ world.old }
        ensures seat { result.seat ≡ None }
    {
        Solo::at(world, heap, None)
    }

    /// Serves a session that has this seat.
    pub(crate) fn at(world: &'a mut World<A>, heap: Global, seat: Option<u32>) -> Self
        ensures same_reference { result.world.ghost_name ≡ world.entry.ghost_name }
        ensures world { result.world.now ≡ world.old }
        ensures seat { result.seat ≡ seat }
    {
        Solo { world, heap, seat }
    }

    /// The session's seat.
    pub(crate) fn seat(&self) -> Option<u32>
        ensures { result ≡ self.now.seat }
    {
        self.seat
    }
}

impl<'a, A: Allocator + Copy> Service for Solo<'a, A> {
    ghost use Rattle.std.specs.Prelude.{◌≡◌};
    ghost use Rattle.scripts.specs.Causes.{Causes};
    ghost use Rattle.scripts.specs.Services.{ServesCall, solo_subject};
    ghost use Rattle.scripts.specs.States.{solo};
    ghost use Rattle.session_lines.specs.Services.{no_keys};

    type Memory = A;

    ghost keys_of = { no_keys };

    ghost subject_of = { λ s. solo_subject (solo s.world.now.plain s.seat) };

    ghost serves = { λ call old new said. (new.world.ghost_name ≡ old.world.ghost_name)
        × ServesCall call (solo old.world.now.plain old.seat) (solo new.world.now.plain new.seat)
        said
        × Causes call old.seat old.world.now new.world.now said };

    fn keys(&self) -> &[Key] {
        &[]
    }

    fn subject(&self) -> Option<Subject> {
        subject_in(self.world, self.seat)
    }

    fn hello(&mut self, name: Name) -> Reply {
        match self.world.seat(name) {
            Ok(seat) => {
                self.seat = Some(seat);
                Reply::Hello(name)
            }
            Err(fault) => fault_reply(fault),
        }
    }

    fn search(&mut self, window: Shape) -> Said<A> {
        let Some(seat) = self.seat else {
            return Said::Line(Reply::Error(LineFault::BeforeHello));
        };
        match search(self.world, seat, window) {
            Ok(answer) => Said::Rows(answer),
            Err(fault) => Said::Line(fault_reply(fault)),
        }
    }

    fn commit(&mut self, changes: &[Change]) -> Reply {
        let Some(seat) = self.seat else {
            return Reply::Error(LineFault::BeforeHello);
        };
        match commit(self.world, seat, changes) {
            Ok(outcome) => outcome_reply(&outcome),
            Err(fault) => fault_reply(fault),
        }
    }

    fn govern(&mut self, document: Document<Global>) -> Reply {
        let Some(seat) = self.seat else {
            return Reply::Error(LineFault::BeforeHello);
        };
        match govern(self.world, self.heap, seat, document) {
            Ok(edition) => Reply::Edition(edition),
            Err(fault) => fault_reply(fault),
        }
    }

    fn explain(&mut self, question: &Question) -> Reply {
        let decider = self.world.decider();
        ruling_reply(decider, decider.decide(question))
    }

    fn roll(&mut self) -> Said<A> {
        let Some(seat) = self.seat else {
            return Said::Line(Reply::Error(LineFault::BeforeHello));
        };
        match roll(self.world, self.heap, seat) {
            Ok(piece) => Said::Rolled(piece),
            Err(fault) => Said::Line(fault_reply(fault)),
        }
    }

    fn leave(&mut self) -> Reply {
        self.seat = None;
        Reply::Bye
    }
}

/// The subject of a session's seat, if it has one.
fn subject_in<A: Allocator>(world: &World<A>, seat: Option<u32>) -> Option<Subject>
    ensures { result ≡ seated seat world.now.plain }
{
    match seat {
        None => None,
        Some(seat) => world.subject_at(seat).ok(),
    }
}

/// The reply to EXPLAIN for a ruling of this decider.
fn ruling_reply(decider: &Decider, ruling: Ruling) -> Reply
    ensures { result ≡ ruling_reply decider.now ruling }
{
    let edition = decider.edition();
    match ruling {
        Ruling::Permit(rule) => Reply::Permitted(name_of_rule(decider, rule), edition),
        Ruling::DeniedBy(rule) => Reply::Forbidden(decider.rule_name(rule), edition),
        Ruling::NoneApplied => Reply::Forbidden(None, edition),
    }
}

/// The name of a rule, where there is one.
fn name_of_rule(decider: &Decider, rule: Option<u32>) -> Option<Name>
    ensures { result ≡ name_of_rule decider.now rule }
{
    match rule {
        Some(number) => decider.rule_name(number),
        None => None,
    }
}
