//! Closing a hall.

ghost use Rattle.std.specs.Prelude.{◌≡◌, ◌≤◌, ◌<◌, ◌+◌, false, IfErr, IfNone, IfOk, IfSome, length, All};
ghost use Rattle.features.specs.Rows.{IsSortedById};
ghost use Rattle.hall.specs.Closing.{IsCause, IsClosed, IsClosedAt};
ghost use Rattle.hall.specs.Seats.{IsKeptBy, receipts_of};

use crate::faults::{CloseFault, HallFault};
use crate::guarded::{Guarded, LEDGER_PARTS};
use crate::lobby::Lobby;
use crate::names::HallName;
use crate::seats::Seat;
use chronicle::Chronicle;
use feature_store::FEATURE_LIMIT;
use std::alloc::Allocator;
use std::sync::ledger::Share;
use std::sync::{Mutex, Wait};
use world::Base;

/// The account of a closed hall.
#[derive(Clone, Copy, Debug, PartialEq, Eq)]
pub struct Closed {
    /// How many records there are, with those that were rolled out.
    pub records: u64,
    /// How many seats were given.
    pub seats: usize,
}

/// What a hall leaves to the one that follows it.
#[derive(Debug, Drop)]
pub struct Left<A: Allocator> {
    /// The account of the hall that is closed.
    pub closed: Closed,
    /// The state that it has come to.
    pub base: Base<A>,
}

/// Why a hall that was to be followed by another one is not closed.
#[derive(Debug, Drop, PartialEq, Eq)]
pub enum LeaveFault {
    /// There is no memory for a copy of its state: the call may be made again.
    State(HallFault),
    /// It does not close.
    Close(CloseFault),
}

/// The first seat whose receipts are not its records, as C1; `None` if there is no such seat.
pub(crate) fn mismatch<'h, L: HallName, R: Wait + Drop, A: Allocator>(
    chronicle: &Chronicle<A>,
    seats: &Vec<Seat<'h, L, R, A>, A>,
) -> Option<CloseFault>
    ensures same { IfNone result (All (IsKeptBy chronicle.now.records) seats.now.items) }
    ensures differ { IfSome result (IsCause chronicle.now false seats.now.items) }
{
    for seat in seats {
        match chronicle.differs(seat.number, seat.receipts.as_slice()) {
            Some(place) => return Some(CloseFault::Mismatch(seat.number, place)),
            None => {}
        }
    }
    None
}

/// Merges a seat's share into the spare one.
fn take_in<'h, L: HallName, R: Wait + Drop, A: Allocator>(
    spare: &mut Share<L>,
    seat: Seat<'h, L, R, A>,
)
    ensures parts { spare.new.parts ≡ spare.old.parts + 1 }
    ensures amount { spare.new.amount ≡ spare.old.amount + length seat.entry.receipts }
{
    let Seat {
        hall: _,
        number: _,
        subject: _,
        share,
        receipts: _receipts,
    } = seat;
    spare.merge(share);
}

/// Merges the shares of these seats into the spare one.
pub(crate) fn gather<'h, L: HallName, R: Wait + Drop, A: Allocator>(
    spare: &mut Share<L>,
    seats: Vec<Seat<'h, L, R, A>, A>,
)
    ensures parts { spare.new.parts ≡ spare.old.parts + length seats.entry.items }
    ensures amount { spare.new.amount ≡ spare.old.amount + receipts_of seats.entry.items }
{
    let mut left = seats;
    while let Some(seat) = left.pop() {
        take_in(spare, seat);
    }
}

impl<L: HallName, A: Allocator + Copy> Guarded<L, A> {
    /// Closes the hall, once the answers in the tray are taken in; H6 where they cannot be.
    pub(crate) fn close<'h, R: Wait + Drop, W: Wait>(
        &mut self,
        rt: &W,
        lobby: &Mutex<Lobby<L, R, A>>,
        seats: Vec<Seat<'h, L, R, A>, A>,
    ) -> Result<Closed, (CloseFault, Vec<Seat<'h, L, R, A>, A>)>
        requires { L.parts ≡ LEDGER_PARTS }
        ensures records { IfOk result (λ closed. closed.records ≡ receipts_of seats.entry.items) }
        ensures seats { IfOk result (λ closed. closed.seats ≡ length seats.entry.items) }
        ensures trail { IfOk result
            (λ closed. IsClosed L.opening closed.records closed.seats seats.entry.items) }
        ensures back { IfErr result (λ e. e.1.items ≡ seats.entry.items) }
    {
        let mut lobby = lobby.lock(rt);
        let lobby = &mut *lobby;
        match self.take_in(rt, lobby) {
            Ok(()) => {}
            Err(_) => return Err((CloseFault::Memory, seats)),
        }
        self.sound();
        self.settle(lobby, seats)
    }

    /// Closes the hall as `close` does, and returns the state that it has come to.
    pub(crate) fn leave<'h, R: Wait + Drop, W: Wait>(
        &mut self,
        rt: &W,
        lobby: &Mutex<Lobby<L, R, A>>,
        seats: Vec<Seat<'h, L, R, A>, A>,
    ) -> Result<Left<A>, (LeaveFault, Vec<Seat<'h, L, R, A>, A>)>
        requires { L.parts ≡ LEDGER_PARTS }
        ensures records { IfOk result (λ left. left.closed.records ≡ receipts_of seats.entry.items) }
        ensures seats { IfOk result (λ left. left.closed.seats ≡ length seats.entry.items) }
        ensures trail { IfOk result (λ left. IsClosedAt L.opening left.closed.records
            left.closed.seats seats.entry.items left.base) }
        ensures sorted { IfOk result (λ left. IsSortedById left.base.features) }
        ensures few { IfOk result (λ left. length left.base.features ≤ FEATURE_LIMIT) }
        ensures edition { IfOk result (λ left. 0 < left.base.decider.edition) }
        ensures back { IfErr result (λ e. e.1.items ≡ seats.entry.items) }
    {
        let mut lobby = lobby.lock(rt);
        let lobby = &mut *lobby;
        match self.take_in(rt, lobby) {
            Ok(()) => {}
            Err(fault) => return Err((LeaveFault::State(HallFault::from(fault)), seats)),
        }
        self.sound();
        let base = match self.state() {
            Ok(base) => base,
            Err(fault) => return Err((LeaveFault::State(fault), seats)),
        };
        match self.settle(lobby, seats) {
            Ok(closed) => Ok(Left { closed, base }),
            Err((fault, seats)) => Err((LeaveFault::Close(fault), seats)),
        }
    }
}
