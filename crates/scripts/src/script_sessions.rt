//! A session of a script: how its lines change it and its open search.

ghost use Rattle.std.specs.Bool.{MatchBool};
ghost use Rattle.std.specs.Prelude.{◌≡◌, None};
ghost use Rattle.session_lines.specs.Desks.{Answers};
ghost use Rattle.scripts.specs.Indexed.{ServesThere, Shuts, asks_for, with_index};
ghost use Rattle.session_lines.specs.Replies.{line as said_in_line, said_view};
ghost use Rattle.scripts.specs.Scripts.{Ends, ObeysStep, Opens, SessionAnswers, Steps, TakesPlain, TakesStep, desk_of, fresh, keeps_seat};
ghost use Rattle.scripts.specs.States.{session_in};

use crate::solos::Solo;
use crate::stepping::{
    StepCommand, StepVerb, finish_open, go_on, left_open, read_step_command, read_step_verb,
};
use features::Name;
use plane::Shape;
use session_lines::{LineFault, Reply, Said, Staged, answer, fault_reply, visit_reply};
use std::alloc::{Allocator, Global};
use std::marker::Model;
use world::World;

/// A session of a script. Contracts see its label, its seat, its open search and its staged
/// changes.
#[derive(Debug, Drop)]
pub(crate) struct Session {
    label: Name,
    seat: Option<u32>,
    search: Option<u64>,
    staged: Staged,
}

impl Model for Session {
    ghost use Rattle.scripts.specs.States.{SessionState};

    ghost Value = { SessionState };

    ghost view = { λ s. record {
      label = s.label;
      seat = s.seat;
      search = s.search;
      staged = s.staged;
    } };
}

impl Session {
    /// A session that has not begun.
    pub(crate) fn new(label: Name) -> Self
        ensures { result ≡ fresh label }
    {
        Session {
            label,
            seat: None,
            search: None,
            staged: Staged::new(),
        }
    }

    /// The session's label.
    pub(crate) fn label(&self) -> Name
        ensures { result ≡ self.now.label }
    {
        self.label
    }

    /// Answers a line of the session, without its label.
    pub(crate) fn answer_text<A: Allocator + Copy>(
        &mut self,
        world: &mut World<A>,
        heap: Global,
        text: &[u8],
    ) -> Said<A>
        ensures { SessionAnswers with_index text.now (session_in self.old world.old)
            (session_in self.new world.new) (said_view result) }
    {
        match read_step_verb(text) {
            None => self.take_plain(world, heap, text),
            Some((verb, rest)) => self.take_step(world, verb, rest),
        }
    }

    /// Answers any line but OPEN, STEP and FINISH. Drops the open search unless the session keeps
    /// its seat.
    fn take_plain<A: Allocator + Copy>(
        &mut self,
        world: &mut World<A>,
        heap: Global,
        text: &[u8],
    ) -> Said<A>
        ensures label { self.new.label ≡ self.old.label }
        ensures takes { TakesPlain with_index text.now (session_in self.old world.old)
            (session_in self.new world.new) (said_view result) }
    {
        let seat = self.seat;
        let said = self.be_served(world, heap, text);
        self.settle(world, seat);
        said
    }

    /// Drops the open search, unless the session still has the seat that it had `before`.
    fn settle<A: Allocator + Copy>(&mut self, world: &mut World<A>, before: Option<u32>)
        ensures kept { self.new ≡ record self.old { search = self.new.search } }
        ensures settles { MatchBool (keeps_seat before self.old.seat)
            ((self.new.search ≡ self.old.search) × (world.new ≡ world.old))
            ((self.new.search ≡ None) × Shuts before self.old.search world.old world.new) }
    {
        if keeps_seat(before, self.seat) {
            return;
        }
        drop_open(world, before, self.search);
        self.search = None;
    }

    /// Answers one line of the session, with the world as its service.
    fn be_served<A: Allocator + Copy>(
        &mut self,
        world: &mut World<A>,
        heap: Global,
        text: &[u8],
    ) -> Said<A>
        ensures label { self.new.label ≡ self.old.label }
        ensures search { self.new.search ≡ self.old.search }
        ensures answers { Answers asks_for ServesThere text.now
            (desk_of (session_in self.old world.old)) (desk_of (session_in self.new world.new))
            (said_view result) }
    {
        let mut solo = Solo::at(world, heap, self.seat);
        let said = answer(&mut solo, heap, &mut self.staged, text);
        self.seat = solo.seat();
        said
    }

    /// Answers a line OPEN, STEP or FINISH. Nothing is done before HELLO (E5), or if its words have
    /// a fault.
    fn take_step<A: Allocator + Copy>(
        &mut self,
        world: &mut World<A>,
        verb: StepVerb,
        rest: &[u8],
    ) -> Said<A>
        ensures label { self.new.label ≡ self.old.label }
        ensures takes { TakesStep with_index verb rest.now (session_in self.old world.old)
            (session_in self.new world.new) (said_view result) }
    {
        let Some(seat) = self.seat else {
            return Said::Line(Reply::Error(LineFault::BeforeHello));
        };
        match read_step_command(self.search, verb, rest) {
            Err(fault) => Said::Line(Reply::Error(fault)),
            Ok(command) => self.obey_step(world, seat, command),
        }
    }

    /// Makes the call of OPEN, STEP or FINISH, and keeps the search that is open after it.
    fn obey_step<A: Allocator + Copy>(
        &mut self,
        world: &mut World<A>,
        seat: u32,
        command: StepCommand,
    ) -> Said<A>
        ensures label { self.new.label ≡ self.old.label }
        ensures obeys { ObeysStep with_index seat command (session_in self.old world.old)
            (session_in self.new world.new) (said_view result) }
    {
        match command {
            StepCommand::Open(window) => Said::Line(self.open_search(world, seat, window)),
            StepCommand::Step { search, count } => {
                Said::Line(self.step_search(world, seat, search, count))
            }
            StepCommand::Finish { search } => self.finish_search(world, seat, search),
        }
    }

    /// Opens a search. After a fault the session has no open search.
    fn open_search<A: Allocator + Copy>(
        &mut self,
        world: &mut World<A>,
        seat: u32,
        window: Shape,
    ) -> Reply
        ensures label { self.new.label ≡ self.old.label }
        ensures opens { Opens with_index seat window (session_in self.old world.old)
            (session_in self.new world.new) (said_in_line result) }
    {
        match world.open_search(seat, window) {
            Ok(number) => {
                self.search = Some(number);
                Reply::Opened
            }
            Err(fault) => {
                self.search = None;
                fault_reply(fault)
            }
        }
    }

    /// Makes up to `count` visits. After S7 the session has no open search.
    fn step_search<A: Allocator + Copy>(
        &mut self,
        world: &mut World<A>,
        seat: u32,
        search: u64,
        count: u32,
    ) -> Reply
        ensures label { self.new.label ≡ self.old.label }
        ensures steps { Steps with_index seat search count (session_in self.old world.old)
            (session_in self.new world.new) (said_in_line result) }
    {
        match go_on(world, seat, search, count) {
            Ok(visit) => {
                self.search = Some(search);
                visit_reply(visit)
            }
            Err(fault) => {
                self.search = left_open(&fault, search);
                fault_reply(fault)
            }
        }
    }

    /// Finishes the open search. After a fault it stays open, except after S7.
    fn finish_search<A: Allocator + Copy>(
        &mut self,
        world: &mut World<A>,
        seat: u32,
        search: u64,
    ) -> Said<A>
        ensures label { self.new.label ≡ self.old.label }
        ensures ends { Ends with_index seat search (session_in self.old world.old)
            (session_in self.new world.new) (said_view result) }
    {
        match finish_open(world, seat, search) {
            Ok(answer) => {
                self.search = None;
                Said::Rows(answer)
            }
            Err(fault) => {
                self.search = left_open(&fault, search);
                Said::Line(fault_reply(fault))
            }
        }
    }

    /// Drops the open search, if there is one.
    pub(crate) fn drop_search<A: Allocator + Copy>(&self, world: &mut World<A>)
        ensures { Shuts self.now.seat self.now.search world.old world.new }
    {
        drop_open(world, self.seat, self.search);
    }
}

/// Whether a session had a seat and still has the same one.
fn keeps_seat(before: Option<u32>, after: Option<u32>) -> bool
    ensures { result ≡ keeps_seat before after }
{
    match (before, after) {
        (Some(before), Some(after)) => before == after,
        _ => false,
    }
}

/// Drops the open search of a session with this seat. Does nothing if it lacks either.
fn drop_open<A: Allocator + Copy>(world: &mut World<A>, seat: Option<u32>, search: Option<u64>)
    ensures { Shuts seat search world.old world.new }
{
    if let Some(seat) = seat {
        if let Some(number) = search {
            let _ = world.drop_search(seat, number);
        }
    }
}
