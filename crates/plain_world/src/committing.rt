//! Transactions: staged, placed, and committed as a whole or not at all.

ghost use Rattle.std.specs.Prelude.{◌≡◌, ◌<◌, ◌≤◌, length, OnOk, Option};
ghost use Rattle.std.specs.Arc.{arc_value};
ghost use Rattle.features.specs.Changes.{after, CanApply};
ghost use Rattle.combining.specs.declared.questions.Question.{Question};
ghost use Rattle.judging.specs.declared.causes.Judgement.TheVariants as judgements;
ghost use Rattle.judging.specs.Judging.{Judged, AreDistinct, IsFounded};
ghost use Rattle.audit_trail.specs.Legal.{IsSeated};
ghost use Rattle.audit_trail.specs.Records as deeds;
ghost use Rattle.plain_world.specs.Answers.{denial_of};
ghost use Rattle.plain_world.specs.Events.{Happens, Begin, Stage, Commit, Abort, Number, Done, Ended, reply_of, UnlessMemory, TurnsAway, Applies, without_transaction};
ghost use Rattle.plain_world.specs.Staging.{staged_in};
ghost use Rattle.plain_world.specs.States.{most_features};
ghost use Rattle.feature_store.specs.declared.tables.TheConstants.{FEATURE_LIMIT};

use crate::denials::denial_for;
use crate::faults::Fault;
use crate::open_transactions::{Transaction, end, stage_in, staged_in};
use crate::outcomes::Outcome;
use crate::settings::CHANGE_LIMIT;
use crate::worlds::PlainWorld;
use audit_trail::{Deed, Record};
use combining::Question;
use decision::InForce;
use features::{Action, Change, Name, Subject};
use judging::{Judgement, Refusal, judge};
use kept_shapes::ChangeList;
use memory::{GrowVec, copied};
use std::alloc::Allocator;

impl<A: Allocator> PlainWorld<A> {
    /// Stages a change. X1 where the seat was not given or no such transaction is open, X2 where it
    /// is another seat's, X6 where the list has 16 changes, X5 where it names the feature already.
    /// It takes no memory.
    pub fn stage(&mut self, seat: u32, number: u64, change: Change) -> Result<(), Fault>
        ensures { Happens (Stage seat number change) self.old self.new
            (reply_of (λ _. Done) result) }
    {
        self.may_stage(seat, number, &change)?;
        stage_in(&mut self.transactions, number, change);
        Ok(())
    }

    /// The most features that a list may leave: as many as the limit says, or as many as there are.
    fn most_features(&self) -> usize
        ensures value { result ≡ most_features self.now }
        ensures within { result ≤ FEATURE_LIMIT }
    {
        (self.limits.features as usize).max(self.store.len())
    }

    /// Aborts a transaction. X1 where the seat was not given or no such transaction is open, X2
    /// where it is another seat's. It takes no memory.
    pub fn abort(&mut self, seat: u32, number: u64) -> Result<(), Fault>
        ensures { Happens (Abort seat number) self.old self.new (reply_of (λ _. Done) result) }
    {
        self.may_step(seat, number)?;
        end(&mut self.transactions, number);
        Ok(())
    }
}

impl<A: Allocator + Copy> PlainWorld<A> {
    /// Opens a transaction of a seat, and returns its number. X1 where the seat was not given, X15
    /// where 64 are open, X8 where the number is `u64::MAX`, X12 where an allocation is refused.
    pub fn begin(&mut self, seat: u32) -> Result<u64, Fault>
        ensures { Happens (Begin seat) self.old self.new (reply_of Number result) }
    {
        let number = self.may_begin(seat)?;
        let transaction = Transaction::new(self.alloc, number, seat)?;
        self.transactions.make_slot()?;
        self.transactions.push_reserved(transaction);
        self.next_transaction = number + 1;
        Ok(number)
    }

    /// Commits a transaction's list, all or none of it, and ends the transaction. X1 where the seat
    /// was not given or no such transaction is open, X2 where it is another seat's, X4 where a
    /// shape is not placed, X10 where the trail is full, X12 where the allocation for a copy of the
    /// list is refused. Then the list is judged on the present state.
    ///
    /// Of an accepted list: X8 where the version is `u64::MAX`, X11 where it would leave more
    /// features than the limit says and more than there are, then X12 where an allocation for its record or for the features that it adds is
    /// refused. A failing list is rejected, and the outcome names its first failing change; X12
    /// where an allocation for its record or its denial is refused.
    pub fn commit(&mut self, seat: u32, number: u64) -> Result<Outcome, Fault>
        ensures { Happens (Commit seat number) self.old self.new (reply_of Ended result) }
    {
        self.prepare_changes(seat, number);
        self.commit_list(seat, number)
    }

    /// Keeps what the policy in force says of some kinds of features to a list like this one.
    fn prepare_changes(&mut self, seat: u32, number: u64)
        ensures { self.new ≡ self.old }
    {
        let action = match staged_in(&self.transactions, number).first() {
            Some(Change::Add { .. }) => Action::Add,
            Some(Change::Reshape { .. }) => Action::Reshape,
            Some(Change::Delete { .. }) => Action::Delete,
            None => return,
        };
        self.prepare_for(seat, action);
    }

    /// Commits a list, as `commit` does.
    fn commit_list(&mut self, seat: u32, number: u64) -> Result<Outcome, Fault>
        ensures { Happens (Commit seat number) self.old self.new (reply_of Ended result) }
    {
        let subject = self.may_commit(seat, number)?;
        let held = copied(self.alloc, staged_in(&self.transactions, number))?;
        let changes = held.as_slice();
        match judge(&self.in_force, &self.store, &subject, changes) {
            Judgement::Accepted => {
                self.tell_kinds(subject.office, changes);
                self.apply(seat, number, subject, changes)
            }
            Judgement::Refused(refusal, question) => {
                self.turn_away(seat, number, subject, changes, &refusal, &question)
            }
        }
    }

    /// Tells the policy in force of the kinds of features that a list adds.
    fn tell_kinds(&mut self, office: Name, changes: &[Change])
        ensures { self.new ≡ self.old }
    {
        tell_added(&mut self.in_force, office, changes);
    }

    /// Records a rejected list, and ends its transaction.
    fn turn_away(
        &mut self,
        seat: u32,
        number: u64,
        subject: Subject,
        changes: &[Change],
        refusal: &Refusal,
        question: &Option<Question>,
    ) -> Result<Outcome, Fault>
        requires seated { IsSeated seat self.old.seats subject }
        requires judged { Judged self.old.state subject changes.now
            (judgements.Refused refusal.now question.now) }
        requires founded { IsFounded self.old.state.decider.document refusal.now.cause
            question.now }
        requires below { length self.old.trail < self.old.limits.records }
        ensures { UnlessMemory self.old self.new (reply_of Ended result)
            (TurnsAway seat number subject changes.now
            (judgements.Refused refusal.now question.now) self.old self.new
            (reply_of Ended result)) }
    {
        let list = ChangeList::new(self.alloc, changes)?;
        let told = turned_away(seat, subject, list, refusal);
        let entry = self.trail.prepare(told)?;
        let denial = denial_for(self.in_force.shared(), &refusal.cause, question)?;
        self.trail.put(entry);
        end(&mut self.transactions, number);
        Ok(Outcome::Refused(*refusal, denial))
    }

    /// Applies an accepted list as a whole, records it, and ends its transaction.
    fn apply(
        &mut self,
        seat: u32,
        number: u64,
        subject: Subject,
        changes: &[Change],
    ) -> Result<Outcome, Fault>
        requires seated { IsSeated seat self.old.seats subject }
        requires accepted { Judged self.old.state subject changes.now judgements.Accepted }
        requires distinct { AreDistinct changes.now }
        requires few { length changes.now ≤ CHANGE_LIMIT }
        requires below { length self.old.trail < self.old.limits.records }
        ensures { UnlessMemory self.old self.new (reply_of Ended result)
            (Applies seat number subject changes.now self.old self.new (reply_of Ended result)) }
    {
        if self.version == u64::MAX {
            return Err(Fault::Spent);
        }
        if self.store.len_after(changes) > self.most_features() {
            return Err(Fault::StoreFull);
        }
        let version = self.version + 1;
        let office = subject.office;
        let list = ChangeList::new(self.alloc, changes)?;
        let told = applied(seat, subject, version, list);
        let entry = self.trail.prepare(told)?;
        self.store.apply(version, office, changes)?;
        self.version = version;
        self.trail.put(entry);
        end(&mut self.transactions, number);
        Ok(Outcome::Applied(version))
    }
}

/// Tells a policy of the kinds of features that a list of this office adds.
fn tell_added(in_force: &mut InForce, office: Name, changes: &[Change])
    ensures { in_force.new ≡ in_force.old }
{
    for change in changes {
        if let Change::Add { class, .. } = change {
            in_force.tell(office, *class);
        }
    }
}

/// The record of a rejected list.
fn turned_away<A: Allocator>(
    seat: u32,
    subject: Subject,
    changes: ChangeList<A>,
    refusal: &Refusal,
) -> Record<A>
    ensures { result
        ≡ record { seat = seat; deed = deeds.turned_away subject changes refusal.now } }
{
    Record::new(
        seat,
        Deed::Refused {
            subject,
            changes,
            refusal: *refusal,
        },
    )
}

/// The record of a list that is applied.
fn applied<A: Allocator>(
    seat: u32,
    subject: Subject,
    version: u64,
    changes: ChangeList<A>,
) -> Record<A>
    ensures { result
        ≡ record { seat = seat; deed = deeds.applied subject version changes } }
{
    Record::new(
        seat,
        Deed::Applied {
            subject,
            version,
            changes,
        },
    )
}
