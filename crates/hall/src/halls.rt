//! The hall, and how it is opened, used and closed.

ghost use Rattle.std.specs.Prelude.{◌≡◌, [], ◌∷◌, ◌<◌, ◌≤◌, IfOk, IfErr, OnOk, Some, length, slice_get};
ghost use Rattle.features.specs.Rows.{IsSortedById};
ghost use Rattle.features.specs.Subjects.{subject_named};
ghost use Rattle.chronicle.specs.Chronicles.{opened_with, opening_by};
ghost use Rattle.plain_world.specs.declared.settings.TheConstants.{SEAT_LIMIT};
ghost use Rattle.hall.specs.declared.halls.TheConstants.{VIEW_LIMIT};
ghost use Rattle.hall.specs.Closing.{IsClosed, IsClosedAt, IsLeft};
ghost use Rattle.hall.specs.Seats.{receipts_of};

use crate::closing::{Closed, LeaveFault, Left};
use crate::faults::{CloseFault, HallFault, OpenFault};
use crate::guarded::{Guarded, LEDGER_PARTS, SLOTS_AT_ONCE};
use crate::lobby::Lobby;
use crate::names::{HallName, Unnamed};
use crate::seats::Seat;
use answer_tray::{ANSWER_LIMIT, Tray};
use audit_trail::RECORD_LIMIT;
use chronicle::Chronicle;
use feature_store::FEATURE_LIMIT;
use features::{Name, Subjects};
use memory::another;
use policy_documents::Document;
use published_policies::{EmptyList, ListName, Publisher, View};
use std::alloc::{Allocator, Global};
use std::mem;
use std::sync::atomic::AtomicBool;
use std::sync::{Condvar, Mutex, RwLock, Wait};
use world::{Base, Limits, ROLLED_LIMIT, STEP_LIMIT, Starts};

/// The most views that a hall gives.
pub const VIEW_LIMIT: usize = 1_024;

/// The most critical sections in which `tend_round` tends what is due.
const SECTIONS: u32 = 64;

/// So many answers are taken in by a round of tending: half of what the tray holds.
const MANY_ANSWERS: u64 = ANSWER_LIMIT as u64 / 2;

/// Publishes the policy with which a chronicle was opened, for this many views.
fn publish_first<L: ListName, R: Wait + Drop, A: Allocator>(
    rt: R,
    heap: Global,
    list: EmptyList,
    chronicle: &Chronicle<A>,
    views: usize,
) -> Result<Publisher<L, R>, OpenFault>
    requires list { list ≡ L.book }
    requires first { 0 < chronicle.now.state.decider.edition }
    requires views { views ≤ VIEW_LIMIT }
    ensures { IfOk result (λ publisher. publisher ≡ chronicle.now.state.decider ∷ []) }
{
    let first = another(chronicle.decider())?;
    // A pair of copies needs a reader; a hall for no views has one that it never gives out.
    let readers = if views == 0 { 1 } else { views };
    Ok(Publisher::open(rt, heap, list, first, readers)?)
}

/// One world that many threads share. Each event is made in a critical section of the world's lock;
/// a whole search, which only reads, beside others. Calls of the world are made through a seat.
///
/// Who takes several locks takes them in the order in which they stand here.
#[derive(Drop)]
pub struct Hall<L: HallName, R: Wait + Drop, A: Allocator> {
    /// Of those who find the world taken and are to change it, one at a time looks for it.
    pub(crate) turn: Mutex<()>,
    /// Whether somebody looks for the world to change it: who reads lets him go first. Nothing
    /// rests on it.
    pub(crate) wanted: AtomicBool,
    pub(crate) world: RwLock<Guarded<L, A>>,
    /// The records of answers that the world has not taken in yet, and the published policies.
    pub(crate) lobby: Mutex<Lobby<L, R, A>>,
    /// Held by whoever is about to wait for one of the two below, so that it misses no end. It is true
    /// where something has ended since the last round of tending.
    pub(crate) waiting: Mutex<bool>,
    /// Notified when a search has ended: a list that it held back may be tried again, and a search
    /// that found as many open as may be.
    pub(crate) search_ended: Condvar,
    /// Notified when a transaction has ended: a list that found as many open as may be may be
    /// tried again.
    pub(crate) transaction_ended: Condvar,
    pub(crate) alloc: A,
    pub(crate) heap: Global,
}

impl<L: HallName, R: Wait + Drop, A: Allocator + Copy> Hall<L, R, A> {
    /// A hall with no features and no seats, with this document as its first edition, for this many
    /// views. `rt` is the hall's own handle, with which it publishes policies. `alloc` keeps
    /// features, records and receipts; `heap` keeps documents, the lines of a trail and what views
    /// read. H2 where more than `VIEW_LIMIT` views are asked for; H6, or the world's X12, where an
    /// allocation is refused. A fault returns the document. The limits are `Limits::USUAL`.
    pub fn open(
        rt: R,
        alloc: A,
        heap: Global,
        unnamed: Unnamed<A>,
        subjects: Subjects,
        document: Document<Global>,
        views: usize,
    ) -> Result<Self, (Document<Global>, OpenFault)>
        requires name { unnamed.ledger.name ≡ L.name }
        requires parts { (unnamed.ledger.parts ≡ L.parts) × (L.parts ≡ LEDGER_PARTS) }
        requires list { unnamed.list ≡ L.book }
        requires states { unnamed.states ≡ L.states }
        requires opening { L.opening ≡ opening_by subjects document }
        ensures ok { OnOk result (views ≤ VIEW_LIMIT) }
        ensures err { IfErr result (λ e. e.0 ≡ document) }
    {
        let limits = Limits::USUAL;
        Hall::open_within(rt, alloc, heap, unnamed, subjects, document, views, limits)
    }

    /// The same within other limits. No limit is above that of `Limits::GREATEST`.
    pub fn open_within(
        rt: R,
        alloc: A,
        heap: Global,
        unnamed: Unnamed<A>,
        subjects: Subjects,
        document: Document<Global>,
        views: usize,
        limits: Limits,
    ) -> Result<Self, (Document<Global>, OpenFault)>
        requires name { unnamed.ledger.name ≡ L.name }
        requires parts { (unnamed.ledger.parts ≡ L.parts) × (L.parts ≡ LEDGER_PARTS) }
        requires list { unnamed.list ≡ L.book }
        requires states { unnamed.states ≡ L.states }
        requires opening { L.opening ≡ opening_by subjects document }
        requires records { limits.records ≤ RECORD_LIMIT }
        requires features { limits.features ≤ FEATURE_LIMIT }
        requires steps { limits.steps ≤ STEP_LIMIT }
        ensures ok { OnOk result (views ≤ VIEW_LIMIT) }
        ensures err { IfErr result (λ e. e.0 ≡ document) }
    {
        if views > VIEW_LIMIT {
            return Err((document, OpenFault::NoPlace));
        }
        // A fault returns this copy where the world has the document already.
        let copy = match document.copy(heap) {
            Ok(copy) => copy,
            Err(no_memory) => return Err((document, OpenFault::Memory(no_memory))),
        };
        let starts = Starts::FIRST;
        let chronicle = match Chronicle::open_at(alloc, heap, subjects, document, starts, limits) {
            Ok(chronicle) => chronicle,
            Err((document, fault)) => return Err((document, OpenFault::Core(fault))),
        };
        match Hall::over(rt, alloc, heap, unnamed, chronicle, views, limits.records) {
            Ok(hall) => Ok(hall),
            Err(fault) => Err((copy, fault)),
        }
    }

    /// A hall that begins at a state: with its features, its version and its policy, no seats and no
    /// records. The features rise by id, and the edition is not 0. Before its first record `rolled`
    /// records had a number. H2 where more than `VIEW_LIMIT` views are asked for, the world's S4 to
    /// S7 where the index does not take the features; H6, or the world's X12, where an allocation
    /// is refused.
    pub fn open_from(
        rt: R,
        alloc: A,
        heap: Global,
        unnamed: Unnamed<A>,
        subjects: Subjects,
        base: Base<A>,
        rolled: u64,
        views: usize,
        limits: Limits,
    ) -> Result<Self, OpenFault>
        requires name { unnamed.ledger.name ≡ L.name }
        requires parts { (unnamed.ledger.parts ≡ L.parts) × (L.parts ≡ LEDGER_PARTS) }
        requires list { unnamed.list ≡ L.book }
        requires states { unnamed.states ≡ L.states }
        requires opening { L.opening ≡ record { subjects = subjects; base = base } }
        requires sorted { IsSortedById base.features }
        requires few { length base.features ≤ FEATURE_LIMIT }
        requires edition { 0 < base.decider.edition }
        requires rolled { rolled ≤ ROLLED_LIMIT }
        requires records { limits.records ≤ RECORD_LIMIT }
        requires features { limits.features ≤ FEATURE_LIMIT }
        requires steps { limits.steps ≤ STEP_LIMIT }
        ensures { OnOk result (views ≤ VIEW_LIMIT) }
    {
        if views > VIEW_LIMIT {
            return Err(OpenFault::NoPlace);
        }
        let starts = Starts {
            rolled,
            ..Starts::FIRST
        };
        let chronicle = match Chronicle::open_from(alloc, subjects, base, starts, limits) {
            Ok(chronicle) => chronicle,
            Err(fault) => return Err(OpenFault::Core(fault)),
        };
        Hall::over(rt, alloc, heap, unnamed, chronicle, views, limits.records)
    }

    /// The hall of a chronicle that was just opened, whose trail takes so many records.
    fn over(
        rt: R,
        alloc: A,
        heap: Global,
        unnamed: Unnamed<A>,
        chronicle: Chronicle<A>,
        views: usize,
        records: u32,
    ) -> Result<Self, OpenFault>
        requires name { unnamed.ledger.name ≡ L.name }
        requires parts { (unnamed.ledger.parts ≡ L.parts) × (L.parts ≡ LEDGER_PARTS) }
        requires list { unnamed.list ≡ L.book }
        requires states { unnamed.states ≡ L.states }
        requires opened { chronicle ≡ opened_with L.opening }
        requires edition { 0 < L.opening.base.decider.edition }
        requires views { views ≤ VIEW_LIMIT }
    {
        let Unnamed {
            ledger,
            list,
            states,
        } = unnamed;
        let (book, spare) = ledger.open::<L>();
        let (chronicles, nothing) = states.named::<L>();
        let mut seen = nothing;
        seen.grow(&rt, &chronicles, &chronicle);
        let publisher = publish_first(rt, heap, list, &chronicle, views)?;
        let limit = u64::from(records);
        let tray = Tray::new(alloc, seen.again(), book, limit);
        let lobby = Lobby::new(tray, publisher, views);
        let guarded = Guarded::new(chronicle, chronicles, seen, limit, spare);
        Ok(Hall {
            turn: Mutex::new(()),
            wanted: AtomicBool::new(false),
            world: RwLock::new(guarded),
            lobby: Mutex::new(lobby),
            waiting: Mutex::new(false),
            search_ended: Condvar::new(),
            transaction_ended: Condvar::new(),
            alloc,
            heap,
        })
    }

    /// Gives a seat to the subject of a name. H3 where the hall is closed, H5 with X12 where there is
    /// no memory for the answers that lie in the lobby; then H1 where there is no such subject, H2
    /// where all seats are given, H5 where an allocation is refused.
    pub fn seat<'h, W: Wait>(&'h self, rt: &W, name: Name) -> Result<Seat<'h, L, R, A>, HallFault>
        ensures number { IfOk result (λ seat. (0 < seat.number) × (seat.number ≤ SEAT_LIMIT)) }
        ensures named { IfOk result
            (λ seat. subject_named name L.opening.subjects ≡ Some seat.subject) }
        ensures receipts { IfOk result (λ seat. seat.receipts ≡ []) }
    {
        let (number, subject, share) = self.write_world(rt).seat(rt, &self.lobby, name)?;
        Ok(Seat {
            hall: self,
            number,
            subject,
            share,
            receipts: Vec::new(self.alloc),
        })
    }

    /// A view of the policies, which asks how they rule without the lock and without waiting. H3
    /// where the hall is closed, H2 where all views are given; a view that was dropped is not given
    /// again. The view's list begins with the policy that the hall was opened with.
    pub fn view<W: Wait>(&self, rt: &W) -> Result<View<L>, HallFault>
        ensures begins { IfOk result (λ view. slice_get view 0 ≡ Some L.opening.base.decider) }
    {
        self.read_world(rt).view(rt, &self.lobby)
    }

    /// Tends the slots of the index that may have something to do, as far as the events so far tell:
    /// removes what is there and no longer needed. Then, if a round over all slots is wanted, tends
    /// each slot once. Returns how many slots it has tended. A critical section tends 16 slots at
    /// most. H3 where the hall is closed, H5 where the index's counter is at its end (S6).
    ///
    /// A round over all slots is wanted if `want_round` asked for one, or if more was to be tended
    /// than the hall has noted. The world takes in the answers that were given meanwhile, where they
    /// are many. Where nothing has ended since the last round, no other search waits for this one.
    pub fn tend_round<W: Wait>(&self, rt: &W) -> Result<u32, HallFault> {
        if self.read_world(rt).untaken(rt, &self.lobby)? >= MANY_ANSWERS {
            self.take_in(rt);
        }
        if !mem::replace(&mut *self.waiting.lock(rt), false) {
            return Ok(0);
        }
        let mut tended: u32 = 0;
        for _ in 0..SECTIONS {
            let more = self.write_world(rt).tend_due()?;
            if more == 0 {
                break;
            }
            tended = tended.saturating_add(more);
        }
        if tended >= SECTIONS * SLOTS_AT_ONCE {
            *self.waiting.lock(rt) = true;
        }
        let slots = self.write_world(rt).begin_round()?;
        for first in (0..slots).step_by(SLOTS_AT_ONCE as usize) {
            let more = self.write_world(rt).tend_from(first, slots)?;
            tended = tended.saturating_add(more);
        }
        Ok(tended)
    }

    /// Asks for a round over all slots, if anything has changed since the last one. The next
    /// `tend_round` makes it. What `tend_round` tends without it comes from a hint, which may miss a
    /// slot: so a server asks for such a round at long intervals.
    pub fn want_round<W: Wait>(&self, rt: &W) {
        self.write_world(rt).want_round();
        *self.waiting.lock(rt) = true;
    }

    /// The world takes in the answers that were given since it was changed last. Those that it cannot
    /// take in yet wait: whoever records something next tries again.
    pub(crate) fn take_in<W: Wait>(&self, rt: &W) {
        let mut world = self.write_world(rt);
        let mut lobby = self.lobby.lock(rt);
        let _ = world.take_in(rt, &mut lobby);
    }

    /// Whether answers lie in the lobby, of a hall that is not closed.
    pub(crate) fn holds_answers<W: Wait>(&self, rt: &W) -> bool {
        match self.read_world(rt).untaken(rt, &self.lobby) {
            Ok(count) => count > 0,
            Err(_) => false,
        }
    }

    /// Wakes whoever waits for one of the two conditions: whoever has begun to wait has let go of
    /// the lock of those who wait.
    pub(crate) fn wake<W: Wait>(&self, rt: &W, ended: &Condvar) {
        *self.waiting.lock(rt) = true;
        ended.notify_all();
    }

    /// Closes the hall, if all seats that were given are handed in and the receipts of each are
    /// just its records. C1 where these differ; C2 where fewer or more seats are handed in than
    /// were given, or they were handed in before; H6 where an allocation is refused. A fault returns
    /// the seats.
    pub fn close<'h, W: Wait>(
        &'h self,
        rt: &W,
        seats: Vec<Seat<'h, L, R, A>, A>,
    ) -> Result<Closed, (CloseFault, Vec<Seat<'h, L, R, A>, A>)>
        requires { L.parts ≡ LEDGER_PARTS }
        ensures records { IfOk result (λ closed. closed.records ≡ receipts_of seats.entry.items) }
        ensures seats { IfOk result (λ closed. closed.seats ≡ length seats.entry.items) }
        ensures trail { IfOk result
            (λ closed. IsClosed L.opening closed.records closed.seats seats.entry.items) }
        ensures back { IfErr result (λ e. e.1.items ≡ seats.entry.items) }
    {
        self.write_world(rt).close(rt, &self.lobby, seats)
    }

    /// Closes the hall as `close` does, and returns with its account the state that it has come to:
    /// what the hall that follows it begins with. `State` where there is no memory for that, or for
    /// the answers that lie in the lobby; the call may be made again. A fault returns the seats.
    pub fn leave<'h, W: Wait>(
        &'h self,
        rt: &W,
        seats: Vec<Seat<'h, L, R, A>, A>,
    ) -> Result<Left<A>, (LeaveFault, Vec<Seat<'h, L, R, A>, A>)>
        requires { L.parts ≡ LEDGER_PARTS }
        ensures records { IfOk result (λ left. left.closed.records ≡ receipts_of seats.entry.items) }
        ensures seats { IfOk result (λ left. left.closed.seats ≡ length seats.entry.items) }
        ensures trail { IfOk result (λ left. IsClosedAt L.opening left.closed.records
            left.closed.seats seats.entry.items left.base) }
        ensures sorted { IfOk result (λ left. IsSortedById left.base.features) }
        ensures few { IfOk result (λ left. length left.base.features ≤ FEATURE_LIMIT) }
        ensures edition { IfOk result (λ left. 0 < left.base.decider.edition) }
        ensures back { IfErr result (λ e. e.1.items ≡ seats.entry.items) }
    {
        self.write_world(rt).leave(rt, &self.lobby, seats)
    }

    /// Ends the hall, and returns the state that it has come to: what another hall can begin with.
    /// H5 with X12 where an allocation is refused.
    pub fn into_state(self) -> Result<Base<A>, HallFault>
        ensures left { IfOk result (IsLeft L.opening) }
        ensures sorted { IfOk result (λ base. IsSortedById base.features) }
        ensures few { IfOk result (λ base. length base.features ≤ FEATURE_LIMIT) }
        ensures edition { IfOk result (λ base. 0 < base.decider.edition) }
    {
        let Hall {
            turn: _turn,
            wanted: _,
            world,
            lobby: _lobby,
            waiting: _waiting,
            search_ended: _search_ended,
            transaction_ended: _transaction_ended,
            alloc: _,
            heap: _,
        } = self;
        let guarded = world.into_inner();
        guarded.sound();
        guarded.state()
    }
}
