//! A session over a hall.

ghost use Rattle.std.specs.Prelude.{◌≡◌, IfSome, length};
ghost use Rattle.hall_sessions.specs.Services.{IsSeatNamed};

use crate::events::event_of;
use crate::replies::{explained_reply, hall_reply};
use combining::Question;
use credentials::Key;
use features::{Change, Name, Subject};
use hall::{Hall, HallFault, HallName, Pause, Seat, View};
use map_metrics::{Event, Tally};
use memory::GrowVec;
use plane::Shape;
use policy_documents::Document;
use session_lines::{LineFault, Reply, Said, Service, outcome_reply};
use std::alloc::{Allocator, Global};
use std::sync::Wait;

/// The place of the first seat whose subject has this name.
fn seat_named<'h, L: HallName, R: Wait + Drop, A: Allocator>(
    seats: &[Seat<'h, L, R, A>],
    name: Name,
) -> Option<usize>
    ensures { IfSome result (λ place. IsSeatNamed name place seats.now) }
{
    for place in 0..seats.len() {
        let Some(seat) = seats.get(place) else {
            unreachable!()
        };
        if seat.subject().name == name {
            return Some(place);
        }
    }
    None
}

/// A session over a hall. HELLO takes a seat, and appends it to those of the worker's earlier
/// sessions. It stays there when the session ends, since a hall is closed with all its seats; where
/// seats are given again, a later session of its subject has it. The
/// pause is that of its calls. EXPLAIN asks the worker's view, which needs no seat
/// and no lock; the view is told of each document that the session puts in force. What comes of its
/// calls is counted, where there is a tally.
#[derive(Drop)]
pub struct Attended<'a, 'h, L: HallName, R: Wait + Drop, A: Allocator, W: Wait, P: Pause> {
    rt: &'a W,
    hall: &'h Hall<L, R, A>,
    seats: &'a mut Vec<Seat<'h, L, R, A>, A>,
    view: &'a mut View<L>,
    pause: &'a mut P,
    /// How many seats are before the session's own.
    earlier: usize,
    /// Whether HELLO takes a seat of an earlier session, if one is the subject's.
    reuses: bool,
    /// The keys of those who may begin the session.
    keys: &'a [Key],
    tally: Option<&'a Tally>,
}

impl<'a, 'h, L: HallName, R: Wait + Drop, A: Allocator + Copy, W: Wait, P: Pause> Attended<
    'a,
    'h,
    L,
    R,
    A,
    W,
    P,
> {
    /// A session before HELLO. `seats` are those of the worker's earlier sessions, `view` is the
    /// worker's. `reuses` says whether a seat of an earlier session is given again. Where there are
    /// keys, HELLO says a secret. `tally` counts what comes of its calls.
    pub fn new(
        rt: &'a W,
        hall: &'h Hall<L, R, A>,
        seats: &'a mut Vec<Seat<'h, L, R, A>, A>,
        view: &'a mut View<L>,
        pause: &'a mut P,
        reuses: bool,
        keys: &'a [Key],
        tally: Option<&'a Tally>,
    ) -> Self
        ensures same_seats { result.seats.ghost_name ≡ seats.entry.ghost_name }
        ensures seats { result.seats.now ≡ seats.old }
        ensures same_view { result.view.ghost_name ≡ view.entry.ghost_name }
        ensures view { result.view.now ≡ view.old }
        ensures earlier { result.earlier ≡ length seats.old.items }
        ensures reuses { result.reuses ≡ reuses }
        ensures keys { result.keys.now ≡ keys.now }
    {
        let earlier = seats.len();
        Attended {
            rt,
            hall,
            seats,
            view,
            pause,
            earlier,
            reuses,
            keys,
            tally,
        }
    }

    /// Counts what a reply tells of, if there is a tally.
    fn count(&self, reply: &Reply) {
        if let (Some(tally), Some(event)) = (self.tally, event_of(reply)) {
            tally.count_event(event);
        }
    }

    /// Counts a search that is answered by so many rows, if there is a tally.
    fn count_search(&self, rows: usize) {
        if let Some(tally) = self.tally {
            tally.count_event(Event::Searched);
            tally.count_rows(rows);
        }
    }
}

impl<'a, 'h, L: HallName, R: Wait + Drop, A: Allocator + Copy, W: Wait, P: Pause> Service
    for Attended<'a, 'h, L, R, A, W, P> {
    ghost use Rattle.std.specs.Prelude.{◌≡◌};
    ghost use Rattle.hall_sessions.specs.Services.{ServesInHall};
    ghost use Rattle.hall_sessions.specs.Sessions.{session, session_subject};

    type Memory = A;

    ghost keys_of = { λ s. s.keys.now };

    ghost subject_of = { λ s. session_subject (session s.earlier s.seats.now.items s.view.now) };

    ghost serves = { λ call old new said. (new.seats.ghost_name ≡ old.seats.ghost_name)
        × (new.view.ghost_name ≡ old.view.ghost_name) × (new.reuses ≡ old.reuses) × (new.keys ≡ old.keys)
        × ServesInHall old.reuses L.opening.subjects call (session old.earlier old.seats.now.items old.view.now)
        (session new.earlier new.seats.now.items new.view.now) said };

    fn keys(&self) -> &[Key] {
        self.keys
    }

    fn subject(&self) -> Option<Subject> {
        Some(self.seats.get(self.earlier)?.subject())
    }

    fn hello(&mut self, name: Name) -> Reply {
        if self.reuses {
            if let Some(place) = seat_named(self.seats.as_slice(), name) {
                self.earlier = place;
                return Reply::Hello(name);
            }
        }
        if let Err(no_memory) = self.seats.make_slot() {
            return Reply::Memory(no_memory);
        }
        match self.hall.seat(self.rt, name) {
            Ok(seat) => {
                self.earlier = self.seats.len();
                self.seats.push_reserved(seat);
                Reply::Hello(name)
            }
            Err(fault) => hall_reply(fault),
        }
    }

    fn search(&mut self, window: Shape) -> Said<A> {
        let Some(seat) = self.seats.get_mut(self.earlier) else {
            return Said::Line(Reply::Error(LineFault::BeforeHello));
        };
        match seat.search(self.rt, window, self.pause) {
            Ok(answer) => {
                self.count_search(answer.rows().len());
                Said::Rows(answer)
            }
            Err(fault) => Said::Line(hall_reply(fault)),
        }
    }

    fn commit(&mut self, changes: &[Change]) -> Reply {
        let Some(seat) = self.seats.get_mut(self.earlier) else {
            return Reply::Error(LineFault::BeforeHello);
        };
        match seat.commit(self.rt, changes, self.pause) {
            Ok(outcome) => {
                let reply = outcome_reply(&outcome);
                self.count(&reply);
                reply
            }
            Err(fault) => {
                let reply = hall_reply(fault);
                self.count(&reply);
                reply
            }
        }
    }

    fn govern(&mut self, document: Document<Global>) -> Reply {
        let Some(seat) = self.seats.get_mut(self.earlier) else {
            return Reply::Error(LineFault::BeforeHello);
        };
        match seat.govern(self.rt, document) {
            Ok(edition) => {
                let number = edition.number();
                self.view.catch_up(edition);
                let reply = Reply::Edition(number);
                self.count(&reply);
                reply
            }
            Err(fault) => {
                let reply = hall_reply(fault);
                self.count(&reply);
                reply
            }
        }
    }

    fn explain(&mut self, question: &Question) -> Reply {
        self.view.prepare(question);
        match self.view.explain(question) {
            Some(explained) => explained_reply(explained),
            None => hall_reply(HallFault::NotRead),
        }
    }

    fn roll(&mut self) -> Said<A> {
        let Some(seat) = self.seats.get_mut(self.earlier) else {
            return Said::Line(Reply::Error(LineFault::BeforeHello));
        };
        match seat.roll(self.rt) {
            Ok(piece) => Said::Rolled(piece),
            Err(fault) => Said::Line(hall_reply(fault)),
        }
    }

    fn leave(&mut self) -> Reply {
        self.earlier = self.seats.len();
        Reply::Bye
    }
}
