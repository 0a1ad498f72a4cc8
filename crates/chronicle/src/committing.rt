//! Transactions.

ghost use Rattle.std.specs.Prelude.{◌≡◌, IfOk, OnErr};
ghost use Rattle.chronicle.specs.Changing.{after_list};
ghost use Rattle.chronicle.specs.Noting.{IsEndedBy};

use crate::chronicles::Chronicle;
use crate::reading::count;
use features::{Change, same_changes};
use std::alloc::Allocator;
use world::{Advance, Fault, Outcome};

impl<A: Allocator> Chronicle<A> {
    /// Stages a change. X1 where the seat was not given or no such transaction is open, X2 where it
    /// is another seat's, X6 where the list has 16 changes, X5 where it names the feature already.
    /// Takes no memory.
    pub fn stage(&mut self, seat: u32, number: u64, change: Change) -> Result<(), Fault>
        ensures { self.new ≡ self.old }
    {
        self.world.stage(seat, number, change)
    }

    /// Aborts a transaction. X1 where the seat was not given or no such transaction is open, X2
    /// where it is another seat's. Takes no memory.
    pub fn abort(&mut self, seat: u32, number: u64) -> Result<(), Fault>
        ensures { self.new ≡ self.old }
    {
        self.due.note_new(&self.world, self.world.staged(number));
        self.world.abort(seat, number)
    }
}

impl<A: Allocator + Copy> Chronicle<A> {
    /// Opens a transaction of a seat, and returns its number. X1 where the seat was not given, X15
    /// where 64 are open, X8 where the number is at its end, X12 where an allocation is refused.
    pub fn begin(&mut self, seat: u32) -> Result<u64, Fault>
        ensures { self.new ≡ self.old }
    {
        self.world.begin(seat)
    }

    /// Makes a step of the walk of the next shape that is not yet placed. X1 where the seat was not
    /// given or no such transaction is open, X2 where it is another seat's, X9 where the index
    /// refuses the step (S3 to S7), X12 where an allocation is refused. S7, where the walk has made
    /// all its steps, ends the transaction.
    pub fn advance(&mut self, seat: u32, number: u64) -> Result<Advance, Fault>
        ensures { self.new ≡ self.old }
    {
        let advanced = self.world.advance(seat, number);
        self.due
            .advanced(&advanced, self.world.slot_left_of(number));
        advanced
    }

    /// Commits the transaction that has staged this list, all or none, ends it, and records the
    /// outcome in the trail. X1 where the seat was not given, no such transaction is open or its
    /// list is another one, X2 where it is another seat's, X4 where a shape is not placed, X10
    /// where the trail is full, X8 where the version is at its end, X11 where there would be more
    /// features than the limit, X12 where an allocation is refused.
    pub fn commit(&mut self, seat: u32, number: u64, changes: &[Change]) -> Result<Outcome, Fault>
        ensures ok { IfOk result (λ outcome. IsEndedBy seat changes.now outcome self.old self.new) }
        ensures err { OnErr result (self.new ≡ self.old) }
    {
        if same_changes(self.world.staged(number), changes) {
            self.due.note_old(&self.world, changes);
            let committed = self.world.commit(seat, number);
            self.due.committed(&self.world, changes, &committed);
            let now = count(&self.rolled, self.world.trail());
            self.changed = changed_by_list(&committed, self.changed, now);
            committed
        } else {
            Err(Fault::NoSuch)
        }
    }
}

/// How many records there were at the last change, where a list has ended: `before` if it changed
/// nothing, and `now`, how many there are, if it was applied.
fn changed_by_list(ended: &Result<Outcome, Fault>, before: u64, now: u64) -> u64
    ensures { result ≡ after_list ended.now before now }
{
    match ended {
        Ok(Outcome::Applied(_)) => now,
        Ok(Outcome::Refused(..)) | Err(_) => before,
    }
}
