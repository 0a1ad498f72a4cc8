//! The tray.

ghost use Rattle.std.specs.Prelude.{◌≡◌, ◌<◌, ◌+◌, ◌++◌, ◌∷◌, [], length, None, Some, IfErr, OnErr, OnOk};
ghost use Rattle.std.specs.Arc.{arc_value};
ghost use Rattle.std.specs.List.{last_or};
ghost use Rattle.chronicle.specs.Chronicles.{IsSoundChronicle};
ghost use Rattle.answer_tray.specs.Trays.{AreAnswersAt, empty_at, records_of, told_in, with_records};

use crate::taking::{drop_front, taken_by};
use audit_trail::Record;
use chronicle::Chronicle;
use memory::{GrowVec, another};
use state_lists::{ListLength, SeenStates, StatesName};
use std::alloc::Allocator;
use std::marker::Model;
use std::sync::ledger::{Book, Ledger, Share};
use std::sync::{Arc, Wait};
use world::Fault;

/// The most answers that a tray holds.
pub const ANSWER_LIMIT: usize = 4_096;

/// The records of answers that were given since a chronicle was changed last, in order, and the
/// count of all its records in a ledger. The chronicle lies behind a lock that many may have for
/// reading, the tray behind a lock of its own; what was seen of a list of chronicles, here and
/// there, says that they go together.
#[derive(Drop)]
pub struct Tray<L: Ledger + StatesName, A: Allocator> {
    seen: SeenStates<L, Chronicle<A>>,
    answers: Vec<Arc<Record<A>, A>, A>,
    /// All records, those of the chronicle and those of the tray.
    book: Book<L>,
    /// How many records there are in all.
    told: u64,
    /// How many records there are in all once the trail is full.
    full_at: u64,
}

impl<L: Ledger + StatesName, A: Allocator> Model for Tray<L, A> {
    ghost use Rattle.std.specs.Prelude.{◌≡◌, length, map, None};
    ghost use Rattle.std.specs.Arc.{arc_value};
    ghost use Rattle.std.specs.Coded.{code_by, codes};
    ghost use Rattle.std.specs.List.{last_or};
    ghost use Rattle.answer_tray.specs.Coding.{StoredTray, stored_tray, restored_tray, restored_tray-stored_tray};
    ghost use Rattle.answer_tray.specs.Trays.{AreAnswersAt, TrayData, told_in};

    ghost Value = { TrayData };

    ghost coded = { code_by StoredTray (Prim.hlevel codes) stored_tray restored_tray
        restored_tray-stored_tray };

    ghost view = { λ t. record { seen = t.seen; answers = map arc_value t.answers.items } };

    ghost invariant = { λ t. AreAnswersAt (last_or None t.seen) (map arc_value t.answers.items)
        × (t.book.total ≡ t.told)
        × (t.told ≡ told_in (record { seen = t.seen; answers = map arc_value t.answers.items })) };
}

impl<L: Ledger + StatesName, A: Allocator> Tray<L, A> {
    /// A tray with nothing in it, for a chronicle without records, whose trail is full at so many.
    pub fn new(alloc: A, seen: SeenStates<L, Chronicle<A>>, book: Book<L>, full_at: u64) -> Self
        requires empty { records_of (last_or None seen) ≡ 0 }
        requires uncounted { book.total ≡ 0 }
        ensures { result ≡ empty_at seen }
    {
        Tray {
            seen,
            answers: Vec::new(alloc),
            book,
            told: 0,
            full_at,
        }
    }

    /// How many records there are: those of the chronicle, and those that wait here.
    pub fn told(&self) -> u64
        ensures { result ≡ told_in self.now }
    {
        self.told
    }

    /// The trail is full at so many records in all from now on.
    pub fn fill_at(&mut self, full_at: u64)
        ensures { self.new ≡ self.old }
    {
        self.full_at = full_at;
    }

    /// Puts down the record of an answer that was given at the last of these chronicles, and counts
    /// it in a seat's share. The record comes back where the tray or the trail is full, where there
    /// is no memory, and where what was seen here is not as much.
    pub fn put(
        &mut self,
        at: &SeenStates<L, Chronicle<A>>,
        share: &mut Share<L>,
        entry: Arc<Record<A>, A>,
    ) -> Result<(), Arc<Record<A>, A>>
        requires parts { 0 < share.old.parts }
        requires answer { AreAnswersAt (last_or None at.now) (arc_value entry ∷ []) }
        ensures ok { OnOk result (self.new
            ≡ record self.old { answers = self.old.answers ++ arc_value entry ∷ [] }) }
        ensures err { OnErr result (self.new ≡ self.old) }
        ensures entry_returned { IfErr result (λ e. e ≡ entry) }
        ensures counted { OnOk result (share.new.amount ≡ share.old.amount + 1) }
        ensures uncounted { OnErr result (share.new.amount ≡ share.old.amount) }
        ensures share_parts { share.new.parts ≡ share.old.parts }
    {
        if self.told >= self.full_at || self.answers.len() >= ANSWER_LIMIT {
            return Err(entry);
        }
        if !self.seen.is_same(at) {
            return Err(entry);
        }
        if let Err(failed) = self.answers.store(entry) {
            return Err(failed.value);
        }
        self.told += 1;
        self.book.add(share, 1);
        Ok(())
    }

    /// A share of all parts has counted all records.
    pub fn audit(&mut self, share: &mut Share<L>)
        ensures same { self.new ≡ self.old }
        ensures parts { share.new.parts ≡ share.old.parts }
        ensures amount { share.new.amount ≡ share.old.amount }
        ensures whole { share.old.parts ≡ L.parts → share.old.amount ≡ told_in self.old }
    {
        self.book.audit(share);
    }

    /// A fact for callers, without effect: the chronicle with which these end, with the answers that
    /// wait here, is as sound as it is without them.
    pub fn sound<W: Wait>(&self, rt: &W, at: &SeenStates<L, Chronicle<A>>, chronicle: &Chronicle<A>)
        requires { last_or None at.now ≡ Some chronicle.now }
        ensures sound { IsSoundChronicle (with_records chronicle.now self.now.answers) }
        ensures told { told_in self.now ≡ length (with_records chronicle.now self.now.answers).records }
    {
        self.seen.meet(rt, at);
        chronicle.sound();
    }
}

impl<L: Ledger + StatesName, A: Allocator + Copy> Tray<L, A> {
    /// The chronicle takes in the answers that wait here, and is added to the list. X10 where the
    /// trail is full, X12 where an allocation is refused; what was not taken in stays here.
    pub fn take_in<W: Wait>(
        &mut self,
        rt: &W,
        list: &ListLength<L, Chronicle<A>>,
        seen: &mut SeenStates<L, Chronicle<A>>,
        chronicle: &mut Chronicle<A>,
    ) -> Result<(), Fault>
        requires { last_or None seen.old ≡ Some chronicle.old }
        ensures seen { last_or None seen.new ≡ Some chronicle.new }
        ensures met { self.old.seen ≡ seen.old }
        ensures level { self.new.seen ≡ seen.new }
        ensures same { chronicle.new ≡ record chronicle.old { records = chronicle.new.records } }
        ensures all { chronicle.new.records ++ self.new.answers
            ≡ chronicle.old.records ++ self.old.answers }
        ensures ok { OnOk result (self.new.answers ≡ []) }
    {
        self.seen.meet(rt, seen);
        if self.answers.is_empty() {
            return Ok(());
        }
        let (count, taken) = taken_by(chronicle, self.answers.as_slice());
        drop_front(&mut self.answers, count);
        seen.grow(rt, list, chronicle);
        self.seen = seen.again();
        taken
    }

    /// The chronicle has changed, and has no more records: it is added to the list.
    pub fn go_on<W: Wait>(
        &mut self,
        rt: &W,
        list: &ListLength<L, Chronicle<A>>,
        seen: &mut SeenStates<L, Chronicle<A>>,
        chronicle: &Chronicle<A>,
    )
        requires empty { self.old.answers ≡ [] }
        requires told { length chronicle.now.records ≡ told_in self.old }
        ensures seen { last_or None seen.new ≡ Some chronicle.now }
        ensures level { self.new ≡ empty_at seen.new }
    {
        seen.grow(rt, list, chronicle);
        self.seen = seen.again();
    }

    /// The chronicle has one more record: it is counted in a seat's share, and the chronicle added to
    /// the list. Returns another owner of the record.
    pub fn note<W: Wait>(
        &mut self,
        rt: &W,
        list: &ListLength<L, Chronicle<A>>,
        seen: &mut SeenStates<L, Chronicle<A>>,
        chronicle: &Chronicle<A>,
        share: &mut Share<L>,
    ) -> Arc<Record<A>, A>
        requires parts { 0 < share.old.parts }
        requires empty { self.old.answers ≡ [] }
        requires told { length chronicle.now.records ≡ told_in self.old + 1 }
        ensures last { last_or None chronicle.now.records ≡ Some (arc_value result) }
        ensures seen { last_or None seen.new ≡ Some chronicle.now }
        ensures level { self.new ≡ empty_at seen.new }
        ensures counted { share.new.amount ≡ share.old.amount + 1 }
        ensures share_parts { share.new.parts ≡ share.old.parts }
    {
        seen.grow(rt, list, chronicle);
        self.seen = seen.again();
        self.told = chronicle.len();
        self.book.add(share, 1);
        last_record(rt, chronicle)
    }
}

/// Another owner of the last record. Only the number of its owners can refuse one more, and then it
/// is tried again.
fn last_record<W: Wait, A: Allocator>(rt: &W, chronicle: &Chronicle<A>) -> Arc<Record<A>, A>
    ensures { last_or None chronicle.now.records ≡ Some (arc_value result) }
{
    for _ in rt.forever() {
        match chronicle.last() {
            None => {}
            Some(record) => match another(record) {
                Ok(receipt) => return receipt,
                Err(_) => {}
            },
        }
    }
    unreachable!()
}
