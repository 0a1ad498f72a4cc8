//! Transactions: staged, placed in the index, and committed as a whole or not at all.

ghost use Rattle.std.specs.Prelude.{◌≡◌, None, IfErr};
ghost use Rattle.plain_world.specs.Events.{Happens, Begin, Stage, AdvanceWalk, Commit, Abort, Number, Done, Advanced, Ended, reply_of};
ghost use Rattle.world.specs.Refusing.{RefusesGrowth};
ghost use Rattle.world.specs.Walking.{WalksOn, next_walk};
ghost use Rattle.world.specs.Walks.{walk_begun, walk_ended, if_done, with_walk};

use crate::faults::{fault_of, is_overrun};
use crate::kept_slots::KeptSlots;
use crate::open_walks::Walks;
use crate::worlds::World;
use features::Change;
use frame_keys::Frames;
use plain_world::{Advance, Fault, Outcome};
use plane::Shape;
use search_tree::{Tree, Walk};
use std::alloc::Allocator;

impl<A: Allocator> World<A> {
    /// Stages a change. X1 where the seat was not given or no such transaction is open, X2 where it
    /// is another seat's, X6 where the list has 16 changes, X5 where it names the feature already.
    /// Takes no memory.
    pub fn stage(&mut self, seat: u32, number: u64, change: Change) -> Result<(), Fault>
        ensures happens { Happens (Stage seat number change) self.old.plain self.new.plain
            (reply_of (λ _. Done) result) }
        ensures index { self.new.index ≡ self.old.index }
        ensures walks { self.new.walks ≡ self.old.walks }
    {
        self.plain.stage(seat, number, change)
    }

    /// Aborts a transaction. X1 where the seat was not given or no such transaction is open, X2
    /// where it is another seat's. Takes no memory.
    pub fn abort(&mut self, seat: u32, number: u64) -> Result<(), Fault>
        ensures happens { Happens (Abort seat number) self.old.plain self.new.plain
            (reply_of (λ _. Done) result) }
        ensures index { self.new.index ≡ self.old.index }
        ensures walks { self.new.walks
            ≡ if_done result self.old.walks (λ _. walk_ended number self.old.walks) }
    {
        self.plain.abort(seat, number)?;
        self.walks.end(number);
        self.kept = KeptSlots::none();
        Ok(())
    }
}

impl<A: Allocator + Copy> World<A> {
    /// Opens a transaction of a seat, and returns its number. X1 where the seat was not given, X15
    /// where 64 are open, X8 where the number is at its end, X12 where an allocation is refused.
    pub fn begin(&mut self, seat: u32) -> Result<u64, Fault>
        ensures happens { Happens (Begin seat) self.old.plain self.new.plain
            (reply_of Number result) }
        ensures index { self.new.index ≡ self.old.index }
        ensures walks { self.new.walks
            ≡ if_done result self.old.walks (λ number. walk_begun number self.old.walks) }
    {
        let number = self.plain.begin(seat)?;
        self.walks.begin(number);
        Ok(number)
    }

    /// Makes a step of the walk of the next shape that is not yet placed. X1 where the seat was not
    /// given or no such transaction is open. X2 where it is another seat's. X9 where the index
    /// refuses the step: S3 while a search that looks for the shape is done with its leaf, S4 where
    /// fewer slots are free than the step needs, S5 where the index would become too high, S6 where
    /// its counter is at its end, S7 where the walk has made all its steps. X12 where an allocation
    /// is refused. S7 ends the transaction; any other fault leaves it open and its walk where it
    /// was.
    pub fn advance(&mut self, seat: u32, number: u64) -> Result<Advance, Fault>
        ensures happens { Happens (AdvanceWalk seat number) self.old.plain self.new.plain
            (reply_of Advanced result) }
        ensures refused { IfErr result (RefusesGrowth self.old.index) }
        ensures walked { WalksOn seat number self.old self.new result }
    {
        let Some(placement) = self.plain.next_to_place(seat, number)? else {
            return Ok(Advance::AllPlaced);
        };
        let mut walk = next_walk(&mut self.walks, &self.index, number, placement);
        self.kept = KeptSlots::none();
        match self.index.advance(&mut walk) {
            Ok(step) => {
                if walk.placed() {
                    self.plain.place_next(number);
                } else {
                    self.walks.keep(number, walk);
                }
                Ok(Advance::Walked(step))
            }
            Err(fault) => {
                if is_overrun(&fault) {
                    self.plain.end_transaction(number);
                    self.walks.end(number);
                } else {
                    self.walks.keep(number, walk);
                }
                Err(fault_of(fault))
            }
        }
    }

    /// Commits a transaction's list, all or none, and ends the transaction. X1 where the seat was
    /// not given or no such transaction is open, X2 where it is another seat's, X4 where a shape is
    /// not placed, X10 where the trail is full, X12 where there is no memory for a copy of the
    /// list. Then the list is judged on the present world. If it is accepted: X8 where the version
    /// is at its end, X11 where there would be more features than the limit, and then X12 where
    /// there is no memory for its record or for the features that it adds. If it is rejected: its
    /// first failing change, or X12 where there is no memory for its record or its denial. A fault
    /// leaves the transaction open.
    pub fn commit(&mut self, seat: u32, number: u64) -> Result<Outcome, Fault>
        ensures happens { Happens (Commit seat number) self.old.plain self.new.plain
            (reply_of Ended result) }
        ensures index { self.new.index ≡ self.old.index }
        ensures walks { self.new.walks
            ≡ if_done result self.old.walks (λ _. walk_ended number self.old.walks) }
    {
        let outcome = self.plain.commit(seat, number)?;
        self.walks.end(number);
        self.kept = KeptSlots::none();
        Ok(outcome)
    }
}

/// The walk of what a transaction is to place next: the stored one, which is taken out, or a new
/// one.
fn next_walk<A: Allocator>(
    walks: &mut Walks<A>,
    index: &Tree<Frames, A>,
    number: u64,
    placement: (u64, Shape),
) -> Walk<Shape>
    ensures walk { result ≡ next_walk number placement index.now walks.old }
    ensures left { walks.new ≡ with_walk number None walks.old }
{
    match walks.take(number) {
        Some(walk) => walk,
        None => index.start_walk(placement.0, placement.1),
    }
}
