//! What the world's lock guards.

ghost use Rattle.std.specs.Prelude.{◌≡◌, ◌<◌, ◌≤◌, ◌+◌, ◌-◌, ℕ, [], ◌∷◌, ◌++◌, drop, false, length, map, min, slice_get, take, vec_capacity, vec_len, None, Some, Ok, IfOk, IfErr, OnOk, OnErr, All};
ghost use Rattle.std.specs.Arc.{arc_value};
ghost use Rattle.std.specs.List.{last_or};
ghost use Rattle.audit_trail.specs.Records.{governed};
ghost use Rattle.features.specs.Rows.{IsSortedById};
ghost use Rattle.features.specs.Subjects.{subject_named};
ghost use Rattle.chronicle.specs.Chronicles.{IsLastChange, IsSoundChronicle, opened_with, subject_given};
ghost use Rattle.chronicle.specs.Coding.{opening_set};
ghost use Rattle.answer_tray.specs.Trays.{AreAnswersAt, empty_at};
ghost use Rattle.chronicle.specs.Noting.{told_answer};
ghost use Rattle.plain_world.specs.Answers.{IsAnswer};
ghost use Rattle.plain_world.specs.Laws.{deed_of};
ghost use Rattle.plain_world.specs.declared.settings.TheConstants.{SEAT_LIMIT};
ghost use Rattle.published_policies.specs.Lists.{last_edition};
ghost use Rattle.hall.specs.Calls.{IsNext, IsOutcome, put_in_force};
ghost use Rattle.hall.specs.Present.{present_set};
ghost use Rattle.hall.specs.Closing.{IsCause};
ghost use Rattle.hall.specs.Reading.{IsCounted};
ghost use Rattle.hall.specs.Seats.{IsKeptBy, receipts_of};
ghost use Rattle.hall.specs.declared.guarded.TheConstants.{COPIED_AT_ONCE, LEDGER_PARTS};

use crate::checks::{another_owner, is_seat_of, next_decider};
use crate::closing::{Closed, gather, mismatch};
use crate::faults::{CloseFault, HallFault};
use crate::lobby::Lobby;
use crate::names::HallName;
use crate::seats::Seat;
use crate::sections::{Committing, Searching, Unfinished};
use audit_trail::Record;
use chronicle::Chronicle;
use decision::Decider;
use feature_store::FEATURE_LIMIT;
use features::{Change, Name, Subject};
use memory::{NoMemory, another};
use plane::Shape;
use policy_documents::Document;
use published_policies::{Edition, View};
use state_lists::{ListLength, SeenStates};
use std::alloc::{Allocator, Global};
use std::sync::ledger::Share;
use std::sync::{Arc, Mutex, Wait};
use world::{Advance, Answer, Base, Fault, Outcome, Rolled, SEAT_LIMIT, Visit};

/// The parts of a hall's ledger: one for each seat that may be given, and one that stays.
pub const LEDGER_PARTS: u64 = SEAT_LIMIT as u64 + 1;

/// The most records that are copied in one call.
pub const COPIED_AT_ONCE: u64 = 256;

/// How many slots are tended in one critical section.
pub(crate) const SLOTS_AT_ONCE: u32 = 16;

/// What the first lock guards, which many may have for reading: the world, with the records that it
/// has taken in. The records of the readers' answers lie in the lobby, behind the second lock, until
/// the world takes them in; the list of chronicles says that the two go together. Whoever gets the
/// lock knows the facts below, and those of a chronicle.
#[derive(Drop)]
pub(crate) struct Guarded<L: HallName, A: Allocator> {
    chronicle: Chronicle<A>,
    /// The list of the chronicles that there were.
    list: ListLength<L, Chronicle<A>>,
    /// All of that list: it ends with the present chronicle.
    seen: SeenStates<L, Chronicle<A>>,
    /// How many records the trail takes between two rolls.
    trail_limit: u64,
    /// The parts of the ledger for the seats that are not given yet.
    spare: Share<L>,
    /// No seat and no view is given any more, and nothing is tended.
    closed: bool,
    /// Seats were given, and all of them were handed in.
    gathered: bool,
    pub ghost ends: { closed ≡ false → gathered ≡ false },
    pub ghost idle: { gathered ≡ false → spare.amount ≡ 0 },
    pub ghost cut: { gathered ≡ false → spare.parts + length chronicle.seats ≡ LEDGER_PARTS },
    pub ghost opened: { chronicle.opening ≡ L.opening } by { opening_set _ _ },
    pub ghost edition: { 0 < chronicle.state.decider.edition },
    pub ghost present: { last_or None seen ≡ Some chronicle } by { present_set _ _ },
}

impl<L: HallName, A: Allocator> Guarded<L, A> {
    /// A chronicle that was just opened, with which the list of chronicles ends, with all parts of a
    /// new ledger, and a trail of so many records.
    pub(crate) fn new(
        chronicle: Chronicle<A>,
        list: ListLength<L, Chronicle<A>>,
        seen: SeenStates<L, Chronicle<A>>,
        trail_limit: u64,
        spare: Share<L>,
    ) -> Self
        requires whole { (spare.parts ≡ LEDGER_PARTS) × (spare.amount ≡ 0) }
        requires opened { chronicle ≡ opened_with L.opening }
        requires edition { 0 < L.opening.base.decider.edition }
        requires present { last_or None seen ≡ Some chronicle }
        ensures { result.chronicle ≡ chronicle }
    {
        Guarded {
            chronicle,
            list,
            seen,
            trail_limit,
            spare,
            closed: false,
            gathered: false,
        }
    }

    /// Gives a view of the policies. H3 where the hall is closed, H2 where all views are given.
    pub(crate) fn view<R: Wait + Drop, W: Wait>(
        &self,
        rt: &W,
        lobby: &Mutex<Lobby<L, R, A>>,
    ) -> Result<View<L>, HallFault>
        ensures { IfOk result (λ view. slice_get view 0 ≡ Some L.opening.base.decider) }
    {
        if self.closed {
            return Err(HallFault::Closed);
        }
        match lobby.lock(rt).view() {
            Some(view) => Ok(view),
            None => Err(HallFault::NoPlace),
        }
    }

    /// How many answers lie in the lobby. H3 where the hall is closed.
    pub(crate) fn untaken<R: Wait + Drop, W: Wait>(
        &self,
        rt: &W,
        lobby: &Mutex<Lobby<L, R, A>>,
    ) -> Result<u64, HallFault> {
        if self.closed {
            return Err(HallFault::Closed);
        }
        let told = lobby.lock(rt).tray.told();
        Ok(told.saturating_sub(self.chronicle.len()))
    }

    /// Drops a search that is still open. Returns whether it was opened.
    pub(crate) fn drop_search(&mut self, seat: u32, searching: Searching) -> bool {
        match searching {
            Searching::New => false,
            Searching::Open(number) | Searching::Ready(number) => {
                let _ = self.chronicle.drop_search(seat, number);
                true
            }
        }
    }

    /// Stages a change in a transaction.
    fn stage(&mut self, seat: u32, number: u64, change: Change) -> Result<(), Fault> {
        self.chronicle.stage(seat, number, change)
    }

    /// Aborts a list's transaction that is still open. Returns whether it was begun.
    pub(crate) fn abort(&mut self, seat: u32, committing: Committing) -> bool {
        match committing {
            Committing::New => false,
            Committing::Open(number, _) | Committing::Placed(number) => {
                let _ = self.chronicle.abort(seat, number);
                true
            }
        }
    }

    /// Tends a slot. H3 where the hall is closed, H5 where the index's counter is at its end (S6).
    pub(crate) fn tend(&mut self, slot: u32) -> Result<(), HallFault> {
        if self.closed {
            return Err(HallFault::Closed);
        }
        self.chronicle.tend(slot)?;
        Ok(())
    }

    /// Tends some of the slots that may have something to do, and returns how many: 0 if none is
    /// known. H3 where the hall is closed, H5 where the index's counter is at its end (S6).
    pub(crate) fn tend_due(&mut self) -> Result<u32, HallFault> {
        if self.closed {
            return Err(HallFault::Closed);
        }
        for tended in 0..SLOTS_AT_ONCE {
            let Some(slot) = self.chronicle.next_due() else {
                return Ok(tended);
            };
            self.tend(slot)?;
        }
        Ok(SLOTS_AT_ONCE)
    }

    /// How many slots a round over all slots has, if one is wanted; 0 if none is. H3 where the hall
    /// is closed.
    pub(crate) fn begin_round(&mut self) -> Result<u32, HallFault> {
        if self.closed {
            Err(HallFault::Closed)
        } else if self.chronicle.begin_round() {
            Ok(self.chronicle.slots())
        } else {
            Ok(0)
        }
    }

    /// Asks for a round over all slots, if anything has changed since the last one.
    pub(crate) fn want_round(&mut self) {
        self.chronicle.want_round();
    }

    /// Tends the next slots from `first` on, all of them below `slots`, and returns how many. H3
    /// where the hall is closed, H5 where the index's counter is at its end (S6).
    pub(crate) fn tend_from(&mut self, first: u32, slots: u32) -> Result<u32, HallFault> {
        let end = slots.min(first.saturating_add(SLOTS_AT_ONCE));
        for slot in first..end {
            self.tend(slot)?;
        }
        Ok(end.saturating_sub(first))
    }
}

impl<L: HallName, A: Allocator> Guarded<L, A> {
    /// A fact for callers, without effect: all records are one legal trail, from what the hall was
    /// opened with.
    pub(crate) fn sound(&self)
        ensures sound { IsSoundChronicle self.now.chronicle }
        ensures opened { self.now.chronicle.opening ≡ L.opening }
    {
        self.chronicle.sound();
    }

    /// How many records there are, with those that were rolled out and those in the tray.
    pub(crate) fn record_count<R: Wait + Drop, W: Wait>(
        &self,
        rt: &W,
        lobby: &Mutex<Lobby<L, R, A>>,
    ) -> u64
        ensures { IsCounted L.opening result }
    {
        let lobby = lobby.lock(rt);
        let lobby = &*lobby;
        lobby.tray.sound(rt, &self.seen, &self.chronicle);
        lobby.tray.told()
    }

    /// How many seats were given.
    pub(crate) fn seat_count(&self) -> usize
        ensures { result ≡ length self.now.chronicle.seats }
    {
        self.chronicle.seats_given()
    }

    /// How many records there were when the last list was applied or policy put in force.
    pub(crate) fn last_change(&self) -> u64
        ensures { IsLastChange result self.now.chronicle.records }
    {
        self.chronicle.last_change()
    }

    /// Appends other owners of the records from a place on, as many as there are, but at most
    /// `COPIED_AT_ONCE`, and no more than `into` has room for. A fault where one of them has as many
    /// owners as there may be. Takes no memory.
    pub(crate) fn copy_from(
        &self,
        place: u64,
        into: &mut Vec<Arc<Record<A>, A>, A>,
    ) -> Result<(), NoMemory>
        ensures ok { OnOk result (map arc_value into.new.items ≡ map arc_value into.old.items
            ++ take (min COPIED_AT_ONCE (vec_capacity into.old - vec_len into.old))
            (drop place self.now.chronicle.records)) }
        ensures err { OnErr result ((copied : ℕ) × (map arc_value into.new.items
            ≡ map arc_value into.old.items
            ++ take copied (drop place self.now.chronicle.records))) }
    {
        self.chronicle.copy_from(place, COPIED_AT_ONCE, into)
    }

    /// Closes the hall, and takes the seats' shares back. C1 where the receipts of a seat are not
    /// its records; C2 where fewer or more seats are handed in than were given, or they were handed
    /// in before. A fault returns the seats.
    pub(crate) fn settle<'h, R: Wait + Drop>(
        &mut self,
        lobby: &mut Lobby<L, R, A>,
        seats: Vec<Seat<'h, L, R, A>, A>,
    ) -> Result<Closed, (CloseFault, Vec<Seat<'h, L, R, A>, A>)>
        requires parts { L.parts ≡ LEDGER_PARTS }
        requires level { lobby.old.tray ≡ empty_at self.old.seen }
        ensures same { self.new.chronicle ≡ self.old.chronicle }
        ensures kept { IfOk result
            (λ _. All (IsKeptBy self.old.chronicle.records) seats.entry.items) }
        ensures records { IfOk result
            (λ closed. closed.records ≡ length self.old.chronicle.records) }
        ensures sum { IfOk result (λ closed. closed.records ≡ receipts_of seats.entry.items) }
        ensures seats { IfOk result (λ closed. closed.seats ≡ length seats.entry.items) }
        ensures given { IfOk result (λ closed. closed.seats ≡ length self.old.chronicle.seats) }
        ensures back { IfErr result (λ e. e.1.items ≡ seats.entry.items) }
        ensures cause { IfErr result
            (λ e. IsCause self.old.chronicle self.old.gathered seats.entry.items e.0) }
    {
        let Guarded {
            chronicle,
            spare,
            closed,
            gathered,
            ..
        } = self;
        if let Some(fault) = mismatch(chronicle, &seats) {
            return Err((fault, seats));
        }
        if *gathered || seats.len() != chronicle.seats_given() {
            return Err((CloseFault::SeatOut, seats));
        }
        let account = Closed {
            records: chronicle.len(),
            seats: seats.len(),
        };
        gather(spare, seats);
        lobby.tray.audit(spare);
        *closed = true;
        *gathered = account.seats > 0;
        Ok(account)
    }
}

impl<L: HallName, A: Allocator + Copy> Guarded<L, A> {
    /// Takes in the answers that lie in the tray. X10 where the trail is full, X12 where an
    /// allocation is refused; what was not taken in stays in the tray.
    pub(crate) fn take_in<R: Wait + Drop, W: Wait>(
        &mut self,
        rt: &W,
        lobby: &mut Lobby<L, R, A>,
    ) -> Result<(), Fault>
        ensures level { OnOk result (lobby.new.tray ≡ empty_at self.new.seen) }
        ensures same { self.new.chronicle
            ≡ record self.old.chronicle { records = self.new.chronicle.records } }
        ensures closed { self.new.closed ≡ self.old.closed }
    {
        let Guarded {
            chronicle,
            list,
            seen,
            ..
        } = self;
        lobby.take_in(rt, list, seen, chronicle)
    }

    /// Gives a seat: its number, the subject of this name, and a part of the ledger. H3 where the
    /// hall is closed, H5 where an allocation is refused, H1 where there is no such subject, H2 where
    /// all seats are given.
    pub(crate) fn seat<R: Wait + Drop, W: Wait>(
        &mut self,
        rt: &W,
        lobby: &Mutex<Lobby<L, R, A>>,
        name: Name,
    ) -> Result<(u32, Subject, Share<L>), HallFault>
        ensures next { IfOk result (λ given. given.0 ≡ length self.old.chronicle.seats + 1) }
        ensures few { IfOk result (λ given. given.0 ≤ SEAT_LIMIT) }
        ensures named { IfOk result (λ given. subject_named name L.opening.subjects ≡ Some given.1) }
        ensures share { IfOk result (λ given. (given.2.parts ≡ 1) × (given.2.amount ≡ 0)) }
    {
        if self.closed {
            return Err(HallFault::Closed);
        }
        let mut lobby = lobby.lock(rt);
        let lobby = &mut *lobby;
        self.take_in(rt, lobby)?;
        self.seat_in(rt, lobby, name)
    }

    /// Gives a seat of a hall that is not closed.
    fn seat_in<R: Wait + Drop, W: Wait>(
        &mut self,
        rt: &W,
        lobby: &mut Lobby<L, R, A>,
        name: Name,
    ) -> Result<(u32, Subject, Share<L>), HallFault>
        requires level { lobby.old.tray ≡ empty_at self.old.seen }
        requires open { self.old.closed ≡ false }
        ensures next { IfOk result (λ given. given.0 ≡ length self.old.chronicle.seats + 1) }
        ensures few { IfOk result (λ given. given.0 ≤ SEAT_LIMIT) }
        ensures named { IfOk result (λ given. subject_named name L.opening.subjects ≡ Some given.1) }
        ensures share { IfOk result (λ given. (given.2.parts ≡ 1) × (given.2.amount ≡ 0)) }
    {
        let Guarded {
            chronicle,
            list,
            seen,
            spare,
            ..
        } = self;
        let number = chronicle.seat(name)?;
        lobby.go_on(rt, list, seen, chronicle);
        let Ok(subject) = chronicle.subject_at(number) else {
            unreachable!()
        };
        Ok((number, subject, spare.split_off(1, 0)))
    }

    /// Opens a search.
    fn open_search(&mut self, seat: u32, window: Shape) -> Result<u64, Fault> {
        self.chronicle.open_search(seat, window)
    }

    /// Makes a step of a search.
    fn visit(&mut self, seat: u32, number: u64) -> Result<Visit, Fault> {
        self.chronicle.visit(seat, number)
    }

    /// Opens a search unless it is open, and visits it, with so many events in all at most. Returns
    /// its number once it is ready.
    fn visit_up_to(
        &mut self,
        seat: u32,
        window: &Shape,
        searching: &mut Searching,
        events: u32,
    ) -> Result<u64, Unfinished> {
        for _ in 0..events {
            match *searching {
                Searching::New => {
                    let number = self.open_search(seat, *window)?;
                    *searching = Searching::Open(number);
                }
                Searching::Open(number) => match self.visit(seat, number)? {
                    Visit::More => {}
                    Visit::Ready => *searching = Searching::Ready(number),
                },
                Searching::Ready(number) => return Ok(number),
            }
        }
        Err(Unfinished::More)
    }

    /// Begins a transaction.
    fn begin(&mut self, seat: u32) -> Result<u64, Fault> {
        self.chronicle.begin(seat)
    }

    /// Makes a step of a transaction's walk.
    fn advance(&mut self, seat: u32, number: u64) -> Result<Advance, Fault> {
        self.chronicle.advance(seat, number)
    }

    /// Begins a list's transaction unless it is begun, stages its changes and places their shapes,
    /// with so many events in all at most. Returns the transaction's number once all are placed.
    fn place_up_to(
        &mut self,
        seat: u32,
        changes: &[Change],
        committing: &mut Committing,
        events: u32,
    ) -> Result<u64, Unfinished> {
        for _ in 0..events {
            match *committing {
                Committing::New => {
                    let number = self.begin(seat)?;
                    *committing = Committing::Open(number, 0);
                }
                Committing::Open(number, staged) => match changes.get(staged) {
                    Some(change) => {
                        self.stage(seat, number, *change)?;
                        *committing = Committing::Open(number, staged + 1);
                    }
                    None => match self.advance(seat, number)? {
                        Advance::Walked(_) => {}
                        Advance::AllPlaced => *committing = Committing::Placed(number),
                    },
                },
                Committing::Placed(number) => return Ok(number),
            }
        }
        Err(Unfinished::More)
    }

    /// The present state. X12 where an allocation is refused.
    pub(crate) fn state(&self) -> Result<Base<A>, HallFault>
        ensures state { IfOk result (λ base. base ≡ self.now.chronicle.state) }
        ensures sorted { IfOk result (λ base. IsSortedById base.features) }
        ensures few { IfOk result (λ base. length base.features ≤ FEATURE_LIMIT) }
        ensures edition { IfOk result (λ base. 0 < base.decider.edition) }
    {
        Ok(self.chronicle.present()?)
    }

    /// Finishes a search of a seat of this subject for a window. The record is counted in the
    /// seat's share.
    fn finish<R: Wait + Drop, W: Wait>(
        &mut self,
        rt: &W,
        lobby: &mut Lobby<L, R, A>,
        seat: u32,
        subject: &Subject,
        share: &mut Share<L>,
        number: u64,
        window: &Shape,
    ) -> Result<(Answer<A>, Arc<Record<A>, A>), Fault>
        requires parts { 0 < share.old.parts }
        requires level { lobby.old.tray ≡ empty_at self.old.seen }
        ensures subject { IfOk result (λ done. done.0.subject ≡ subject.now) }
        ensures window { IfOk result (λ done. done.0.window ≡ window.now) }
        ensures shown { IfOk result (λ done. IsAnswer done.0) }
        ensures receipt { IfOk result
            (λ done. arc_value done.1 ≡ record { seat = seat; deed = told_answer done.0 }) }
        ensures amount { OnOk result (share.new.amount ≡ share.old.amount + 1) }
        ensures err { OnErr result (share.new.amount ≡ share.old.amount) }
        ensures parts { share.new.parts ≡ share.old.parts }
    {
        let Guarded {
            chronicle,
            list,
            seen,
            ..
        } = self;
        is_seat_of(chronicle, seat, subject)?;
        let answer = chronicle.finish(seat, number, window)?;
        let _shown = answer.rows();
        let receipt = lobby.note(rt, list, seen, chronicle, share);
        Ok((answer, receipt))
    }

    /// Makes the answer to a whole search of a seat of this subject for a window, which changes
    /// nothing, and its record.
    fn answer(
        &self,
        seat: u32,
        subject: &Subject,
        window: &Shape,
    ) -> Result<(Answer<A>, Arc<Record<A>, A>), Fault>
        ensures subject { IfOk result (λ made. made.0.subject ≡ subject.now) }
        ensures window { IfOk result (λ made. made.0.window ≡ window.now) }
        ensures shown { IfOk result (λ made. IsAnswer made.0) }
        ensures entry { IfOk result
            (λ made. arc_value made.1 ≡ record { seat = seat; deed = told_answer made.0 }) }
        ensures legal { IfOk result
            (λ made. AreAnswersAt (last_or None self.now.seen) (arc_value made.1 ∷ [])) }
    {
        is_seat_of(&self.chronicle, seat, subject)?;
        let (answer, entry) = self.chronicle.answer(seat, window)?;
        let _shown = answer.rows();
        Ok((answer, entry))
    }

    /// Answers a whole search of a seat of this subject for a window, in one event, beside others
    /// who read. The record is put down in the tray, and counted in the seat's share. `More` where
    /// it cannot be put down there: the search is to be made by `search_whole` then.
    pub(crate) fn search_beside<R: Wait + Drop, W: Wait>(
        &self,
        rt: &W,
        lobby: &Mutex<Lobby<L, R, A>>,
        seat: u32,
        subject: &Subject,
        share: &mut Share<L>,
        window: &Shape,
    ) -> Result<(Answer<A>, Arc<Record<A>, A>), Unfinished>
        requires { 0 < share.old.parts }
        ensures subject { IfOk result (λ done. done.0.subject ≡ subject.now) }
        ensures window { IfOk result (λ done. done.0.window ≡ window.now) }
        ensures shown { IfOk result (λ done. IsAnswer done.0) }
        ensures receipt { IfOk result
            (λ done. arc_value done.1 ≡ record { seat = seat; deed = told_answer done.0 }) }
        ensures amount { OnOk result (share.new.amount ≡ share.old.amount + 1) }
        ensures err { OnErr result (share.new.amount ≡ share.old.amount) }
        ensures parts { share.new.parts ≡ share.old.parts }
    {
        let (answer, entry) = self.answer(seat, subject, window)?;
        let receipt = another_owner(rt, &entry);
        match lobby.lock(rt).put(&self.seen, share, entry) {
            Ok(()) => Ok((answer, receipt)),
            Err(_) => Err(Unfinished::More),
        }
    }

    /// Answers a whole search of a seat of this subject for a window, in one event, while nobody
    /// else reads. The record is counted in the seat's share.
    pub(crate) fn search_whole<R: Wait + Drop, W: Wait>(
        &mut self,
        rt: &W,
        lobby: &Mutex<Lobby<L, R, A>>,
        seat: u32,
        subject: &Subject,
        share: &mut Share<L>,
        window: &Shape,
    ) -> Result<(Answer<A>, Arc<Record<A>, A>), Fault>
        requires { 0 < share.old.parts }
        ensures subject { IfOk result (λ done. done.0.subject ≡ subject.now) }
        ensures window { IfOk result (λ done. done.0.window ≡ window.now) }
        ensures shown { IfOk result (λ done. IsAnswer done.0) }
        ensures receipt { IfOk result
            (λ done. arc_value done.1 ≡ record { seat = seat; deed = told_answer done.0 }) }
        ensures amount { OnOk result (share.new.amount ≡ share.old.amount + 1) }
        ensures err { OnErr result (share.new.amount ≡ share.old.amount) }
        ensures parts { share.new.parts ≡ share.old.parts }
    {
        let mut lobby = lobby.lock(rt);
        let lobby = &mut *lobby;
        self.take_in(rt, lobby)?;
        let Guarded {
            chronicle,
            list,
            seen,
            ..
        } = self;
        is_seat_of(chronicle, seat, subject)?;
        let answer = chronicle.search(seat, window)?;
        let _shown = answer.rows();
        let receipt = lobby.note(rt, list, seen, chronicle, share);
        Ok((answer, receipt))
    }

    /// Goes on with a search of a seat of this subject for a window, with so many events at most,
    /// its finish among them.
    pub(crate) fn search_on<R: Wait + Drop, W: Wait>(
        &mut self,
        rt: &W,
        lobby: &Mutex<Lobby<L, R, A>>,
        seat: u32,
        subject: &Subject,
        share: &mut Share<L>,
        window: &Shape,
        searching: &mut Searching,
        events: u32,
    ) -> Result<(Answer<A>, Arc<Record<A>, A>), Unfinished>
        requires { 0 < share.old.parts }
        ensures subject { IfOk result (λ done. done.0.subject ≡ subject.now) }
        ensures window { IfOk result (λ done. done.0.window ≡ window.now) }
        ensures shown { IfOk result (λ done. IsAnswer done.0) }
        ensures receipt { IfOk result
            (λ done. arc_value done.1 ≡ record { seat = seat; deed = told_answer done.0 }) }
        ensures amount { OnOk result (share.new.amount ≡ share.old.amount + 1) }
        ensures err { OnErr result (share.new.amount ≡ share.old.amount) }
        ensures parts { share.new.parts ≡ share.old.parts }
    {
        let number = self.visit_up_to(seat, window, searching, events)?;
        let mut lobby = lobby.lock(rt);
        let lobby = &mut *lobby;
        self.take_in(rt, lobby)?;
        match self.finish(rt, lobby, seat, subject, share, number, window) {
            Ok(done) => Ok(done),
            Err(fault) => Err(Unfinished::Refused(fault)),
        }
    }

    /// Commits a list of a seat of this subject. The record is counted in the seat's share.
    fn commit<R: Wait + Drop, W: Wait>(
        &mut self,
        rt: &W,
        lobby: &mut Lobby<L, R, A>,
        seat: u32,
        subject: &Subject,
        share: &mut Share<L>,
        number: u64,
        changes: &[Change],
    ) -> Result<(Outcome, Arc<Record<A>, A>), Fault>
        requires parts { 0 < share.old.parts }
        requires level { lobby.old.tray ≡ empty_at self.old.seen }
        ensures judged { IfOk result (λ done. IsOutcome subject.now changes.now done.0) }
        ensures receipt { IfOk result
            (λ done. arc_value done.1
            ≡ record { seat = seat; deed = deed_of subject.now changes.now done.0 }) }
        ensures amount { OnOk result (share.new.amount ≡ share.old.amount + 1) }
        ensures err { OnErr result (share.new.amount ≡ share.old.amount) }
        ensures parts { share.new.parts ≡ share.old.parts }
    {
        let Guarded {
            chronicle,
            list,
            seen,
            ..
        } = self;
        is_seat_of(chronicle, seat, subject)?;
        let outcome = chronicle.commit(seat, number, changes)?;
        let receipt = lobby.note(rt, list, seen, chronicle, share);
        Ok((outcome, receipt))
    }

    /// Goes on with a list of a seat of this subject, with so many events at most, its commit among
    /// them.
    pub(crate) fn commit_on<R: Wait + Drop, W: Wait>(
        &mut self,
        rt: &W,
        lobby: &Mutex<Lobby<L, R, A>>,
        seat: u32,
        subject: &Subject,
        share: &mut Share<L>,
        changes: &[Change],
        committing: &mut Committing,
        events: u32,
    ) -> Result<(Outcome, Arc<Record<A>, A>), Unfinished>
        requires { 0 < share.old.parts }
        ensures judged { IfOk result (λ done. IsOutcome subject.now changes.now done.0) }
        ensures receipt { IfOk result
            (λ done. arc_value done.1
            ≡ record { seat = seat; deed = deed_of subject.now changes.now done.0 }) }
        ensures amount { OnOk result (share.new.amount ≡ share.old.amount + 1) }
        ensures err { OnErr result (share.new.amount ≡ share.old.amount) }
        ensures parts { share.new.parts ≡ share.old.parts }
    {
        let number = self.place_up_to(seat, changes, committing, events)?;
        let mut lobby = lobby.lock(rt);
        let lobby = &mut *lobby;
        self.take_in(rt, lobby)?;
        match self.commit(rt, lobby, seat, subject, share, number, changes) {
            Ok(done) => Ok(done),
            Err(fault) => Err(Unfinished::Refused(fault)),
        }
    }

    /// Puts a document in force for a seat, publishes it, and returns the list that ends with it.
    /// The record is counted in the seat's share. X1, X7, X8 or X10 as the world refuses the event;
    /// then H6 where there is no memory for the decider, and X12 where there is none for the answers
    /// that lie in the lobby, or for the event. After a fault nothing is published.
    pub(crate) fn govern<R: Wait + Drop, W: Wait>(
        &mut self,
        rt: &W,
        lobby: &Mutex<Lobby<L, R, A>>,
        heap: Global,
        seat: u32,
        share: &mut Share<L>,
        document: Document<Global>,
    ) -> Result<(Edition<L>, Arc<Record<A>, A>), HallFault>
        requires { 0 < share.old.parts }
        ensures last { IfOk result
            (λ done. last_or None done.0 ≡ Some (put_in_force document done.0)) }
        ensures receipt { IfOk result
            (λ done. arc_value done.1
            ≡ record {
              seat = seat;
              deed = governed (last_edition done.0) (put_in_force document done.0);
            }) }
        ensures amount { OnOk result (share.new.amount ≡ share.old.amount + 1) }
        ensures err { OnErr result (share.new.amount ≡ share.old.amount) }
        ensures parts { share.new.parts ≡ share.old.parts }
    {
        let decider = next_decider(&self.chronicle, heap, seat, document)?;
        let mut lobby = lobby.lock(rt);
        let lobby = &mut *lobby;
        self.take_in(rt, lobby)?;
        let Guarded {
            chronicle,
            list,
            seen,
            ..
        } = self;
        let published = another(&decider)?;
        chronicle.govern_by(seat, decider)?;
        Ok(lobby.publish(rt, list, seen, chronicle, share, published))
    }

    /// Takes the present trail out, and returns it. All its records stay in the chronicle.
    pub(crate) fn roll<R: Wait + Drop, W: Wait>(
        &mut self,
        rt: &W,
        lobby: &Mutex<Lobby<L, R, A>>,
        heap: Global,
        seat: u32,
    ) -> Result<Arc<Rolled<A>, A>, HallFault> {
        let mut lobby = lobby.lock(rt);
        let lobby = &mut *lobby;
        // Without memory for them they come in the next piece, if there is memory for this one.
        let _ = self.take_in(rt, lobby);
        let rolled = self.chronicle.roll(heap, seat)?;
        lobby
            .tray
            .fill_at(self.chronicle.len().saturating_add(self.trail_limit));
        Ok(rolled)
    }
}
