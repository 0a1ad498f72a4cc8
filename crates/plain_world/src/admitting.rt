//! Whether an event is admitted. Refusals are tested in the order of `specs/Admitting`.

ghost use Rattle.std.specs.Prelude.{◌≡◌, ◌≤◌, ◌<◌, ◌+◌, length, OnOk, IfOk, IsTrue, Some};
ghost use Rattle.features.specs.Changes.{change_id, IsUnnamed};
ghost use Rattle.audit_trail.specs.Legal.{subject_of, IsSeated};
ghost use Rattle.plain_world.specs.Admitting.{may_sit, subject_at, stewarded, own_search, next_search, may_open, may_go_on, has_answered_ready, may_record, may_finish, next_transaction, may_begin, own_transaction, may_step, may_add, may_stage, all_placed, may_commit, edition_left, may_govern, may_roll, map_ok};
ghost use Rattle.plain_world.specs.Staging.{TransactionData, transaction_with};

use crate::faults::Fault;
use crate::open_searches::Search;
use crate::open_transactions::{Transaction, names, placement_count, transaction_in};
use crate::settings::{CHANGE_LIMIT, SEARCH_LIMIT, SEAT_LIMIT, TRANSACTION_LIMIT};
use crate::worlds::PlainWorld;
use audit_trail::FIRST_LIMIT;
use features::{Change, Name, Subject};
use std::alloc::Allocator;
use tree_answers::TreeFault;

impl<A: Allocator> PlainWorld<A> {
    /// The subject of a name. X13 where there is none, X14 where all seats are given.
    pub(crate) fn may_sit(&self, name: Name) -> Result<Subject, Fault>
        ensures value { result ≡ may_sit name self.now }
        ensures few { OnOk result (length self.now.seats < SEAT_LIMIT) }
    {
        let Some(subject) = self.subjects.get(name) else {
            return Err(Fault::NoSubject);
        };
        if self.seats.len() >= SEAT_LIMIT {
            return Err(Fault::NoPlace);
        }
        Ok(subject)
    }

    /// The subject of a seat. X1 where the seat was not given.
    pub fn subject_at(&self, seat: u32) -> Result<Subject, Fault>
        ensures { result ≡ subject_at seat self.now }
    {
        match subject_in(&self.seats, seat) {
            Some(subject) => Ok(subject),
            None => Err(Fault::NoSuch),
        }
    }

    /// The search of a number. X1 where it is not open, X2 where it is another seat's.
    pub(crate) fn own_search(&self, seat: u32, number: u64) -> Result<Search, Fault>
        ensures { result ≡ own_search seat number self.now }
    {
        let Some(found) = self.searches.get(number) else {
            return Err(Fault::NoSuch);
        };
        if found.seat == seat {
            Ok(found)
        } else {
            Err(Fault::NotYours)
        }
    }

    /// X10 unless the trail has room for one more record.
    pub(crate) fn may_record(&self) -> Result<(), Fault>
        ensures value { result ≡ may_record self.now }
        ensures below { OnOk result (length self.now.trail < self.now.limits.records) }
    {
        if self.trail.len() >= self.limits.records {
            return Err(Fault::TrailFull);
        }
        Ok(())
    }

    /// The number of the next search. X9 where 16 searches are open (S2) or the number is
    /// `u64::MAX` (S6).
    pub(crate) fn next_search(&self) -> Result<u64, Fault>
        ensures value { result ≡ next_search self.now }
        ensures few { OnOk result (length self.now.searches < SEARCH_LIMIT) }
        ensures left { IfOk result (λ number. number < u64.MAX) }
        ensures next { IfOk result (λ number. number ≡ self.now.next_search) }
    {
        if self.searches.len() >= SEARCH_LIMIT {
            return Err(Fault::Tree(TreeFault::TooMany));
        }
        if self.next_search == u64::MAX {
            return Err(Fault::Tree(TreeFault::Spent));
        }
        Ok(self.next_search)
    }

    /// The number of the search that a seat opens next. X1 where the seat was not given, X9 where
    /// 16 searches are open (S2) or the number is `u64::MAX` (S6).
    pub fn may_open(&self, seat: u32) -> Result<u64, Fault>
        ensures value { result ≡ may_open seat self.now }
        ensures few { OnOk result (length self.now.searches < SEARCH_LIMIT) }
        ensures left { IfOk result (λ number. number < u64.MAX) }
        ensures next { IfOk result (λ number. number ≡ self.now.next_search) }
    {
        self.subject_at(seat)?;
        self.next_search()
    }

    /// The seat's own search of a number. X1 where the seat was not given or no such search is
    /// open, X2 where it is another seat's.
    pub fn may_go_on(&self, seat: u32, number: u64) -> Result<Search, Fault>
        ensures { result ≡ may_go_on seat number self.now }
    {
        self.subject_at(seat)?;
        self.own_search(seat, number)
    }

    /// The subject and the search to finish. X1, X2, X3 and X10, in this order.
    pub(crate) fn may_finish(&self, seat: u32, number: u64) -> Result<(Subject, Search), Fault>
        ensures value { result ≡ may_finish seat number self.now }
        ensures seated { IfOk result (λ who. IsSeated seat self.now.seats who.0) }
        ensures below { OnOk result (length self.now.trail < self.now.limits.records) }
    {
        let subject = self.subject_at(seat)?;
        let found = self.own_search(seat, number)?;
        ready(&found)?;
        self.may_record()?;
        Ok((subject, found))
    }

    /// The number of the next transaction. X15 where `TRANSACTION_LIMIT` are open, X8 where the
    /// number is `u64::MAX`.
    pub(crate) fn next_transaction(&self) -> Result<u64, Fault>
        ensures value { result ≡ next_transaction self.now }
        ensures left { IfOk result (λ number. number < u64.MAX) }
    {
        if self.transactions.len() >= TRANSACTION_LIMIT {
            return Err(Fault::TooMany);
        }
        if self.next_transaction == u64::MAX {
            return Err(Fault::Spent);
        }
        Ok(self.next_transaction)
    }

    /// The number of the transaction that a seat opens next. X1, X15 and X8, in this order.
    pub(crate) fn may_begin(&self, seat: u32) -> Result<u64, Fault>
        ensures value { result ≡ may_begin seat self.now }
        ensures left { IfOk result (λ number. number < u64.MAX) }
    {
        self.subject_at(seat)?;
        self.next_transaction()
    }

    /// The transaction of a number. X1 where it is not open, X2 where it is another seat's.
    pub(crate) fn own_transaction(&self, seat: u32, number: u64) -> Result<&Transaction<A>, Fault>
        ensures value { map_ok (λ t. t.now) result ≡ own_transaction seat number self.now }
        ensures is { IfOk result (λ t. transaction_with number self.now.transactions ≡ Some t.now) }
    {
        let Some(transaction) = transaction_in(&self.transactions, number) else {
            return Err(Fault::NoSuch);
        };
        if transaction.seat() == seat {
            Ok(transaction)
        } else {
            Err(Fault::NotYours)
        }
    }

    /// The seat's own transaction, to advance or to abort. X1 where the seat was not given or no
    /// such transaction is open, X2 where it is another seat's.
    pub(crate) fn may_step(&self, seat: u32, number: u64) -> Result<&Transaction<A>, Fault>
        ensures value { map_ok (λ t. t.now) result ≡ may_step seat number self.now }
        ensures is { IfOk result (λ t. transaction_with number self.now.transactions ≡ Some t.now) }
    {
        self.subject_at(seat)?;
        self.own_transaction(seat, number)
    }

    /// Whether the seat's own transaction takes this change. X1, X2, X6 and X5, in this order.
    pub(crate) fn may_stage(&self, seat: u32, number: u64, change: &Change) -> Result<(), Fault>
        ensures value { result ≡ may_stage seat number change.now self.now }
        ensures may { OnOk result
            ((t : TransactionData) × (transaction_with number self.now.transactions ≡ Some t)
            × (length t.changes < CHANGE_LIMIT) × IsUnnamed (change_id change.now) t.changes) }
    {
        let transaction = self.may_step(seat, number)?;
        may_add(transaction.changes(), change)
    }

    /// The subject that commits. X1, X2, X4 and X10, in this order.
    pub(crate) fn may_commit(&self, seat: u32, number: u64) -> Result<Subject, Fault>
        ensures value { result ≡ may_commit seat number self.now }
        ensures seated { IfOk result (λ subject. IsSeated seat self.now.seats subject) }
        ensures below { OnOk result (length self.now.trail < self.now.limits.records) }
    {
        let subject = self.subject_at(seat)?;
        all_placed(self.own_transaction(seat, number)?)?;
        self.may_record()?;
        Ok(subject)
    }

    /// X8 where the edition is `u64::MAX`.
    pub(crate) fn edition_left(&self) -> Result<(), Fault>
        ensures value { result ≡ edition_left self.now }
        ensures left { OnOk result (self.now.state.decider.edition < u64.MAX) }
    {
        if self.in_force.shared().edition() == u64::MAX {
            return Err(Fault::Spent);
        }
        Ok(())
    }

    /// The steward who puts a document in force. X1, X7, X8 and X10, in this order.
    pub(crate) fn may_govern(&self, seat: u32) -> Result<Subject, Fault>
        ensures value { result ≡ may_govern seat self.now }
        ensures seated { IfOk result
            (λ subject. IsSeated seat self.now.seats subject × IsTrue subject.steward) }
        ensures left { OnOk result (self.now.state.decider.edition < u64.MAX) }
        ensures below { OnOk result (length self.now.trail < self.now.limits.records) }
    {
        let subject = self.subject_at(seat)?;
        stewarded(&subject)?;
        self.edition_left()?;
        self.may_record()?;
        Ok(subject)
    }

    /// Whether a seat may roll the trail. X1 where the seat was not given, X7 where its subject is no
    /// steward, X8 where the new trail's first number would be above `FIRST_LIMIT`, in this order. It
    /// takes no memory.
    pub fn may_roll(&self, seat: u32) -> Result<(), Fault>
        ensures value { result ≡ may_roll seat self.now }
        ensures left { OnOk result (self.now.first + length self.now.trail ≤ FIRST_LIMIT) }
    {
        let subject = self.subject_at(seat)?;
        stewarded(&subject)?;
        let next = self.trail.first() + u64::from(self.trail.len());
        if next > FIRST_LIMIT {
            return Err(Fault::Spent);
        }
        Ok(())
    }
}

/// X3 unless the search has answered Ready.
fn ready(search: &Search) -> Result<(), Fault>
    ensures { result ≡ has_answered_ready search.now }
{
    if !search.ready {
        return Err(Fault::NotReady);
    }
    Ok(())
}

/// X7 unless the subject is a steward.
fn stewarded(subject: &Subject) -> Result<(), Fault>
    ensures value { result ≡ stewarded subject.now }
    ensures steward { OnOk result (IsTrue subject.now.steward) }
{
    if !subject.steward {
        return Err(Fault::NotSteward);
    }
    Ok(())
}

/// X4 unless each shape of the list is placed.
fn all_placed<A: Allocator>(transaction: &Transaction<A>) -> Result<(), Fault>
    ensures { result ≡ all_placed transaction.now }
{
    if transaction.placed() < placement_count(transaction.changes()) {
        return Err(Fault::NotPlaced);
    }
    Ok(())
}

/// Whether a list takes one more change. X6 where it is full, X5 where it names the feature.
#[tactic(auto, using(crate::proofs::TransactionLemmas::unnamed))]
fn may_add(changes: &[Change], change: &Change) -> Result<(), Fault>
    ensures value { result ≡ may_add change.now changes.now }
    ensures few { OnOk result (length changes.now < CHANGE_LIMIT) }
    ensures unnamed { OnOk result (IsUnnamed (change_id change.now) changes.now) }
{
    if changes.len() >= CHANGE_LIMIT {
        return Err(Fault::TooManyChanges);
    }
    if names(changes, change.id()) {
        return Err(Fault::NamedTwice);
    }
    Ok(())
}

/// The subject of a seat; seats are numbered from 1.
fn subject_in(seats: &[Subject], seat: u32) -> Option<Subject>
    ensures { result ≡ subject_of seat seats.now }
{
    if seat == 0 {
        return None;
    }
    seats.get(seat as usize - 1).copied()
}
