//! Open transactions.

ghost use Rattle.std.specs.Prelude.{◌≡◌, ◌<◌, ◌≤◌, ◌++◌, ◌+◌, [], ◌∷◌, ◌==◌, not, filter, length, slice_get, ℕ, List, IfOk, IfSome, IfNone, IsTrue, IsSome, Some};
ghost use Rattle.plane.specs.declared.point.Point.{Point};
ghost use Rattle.std.specs.Option.{option_copied};
ghost use Rattle.features.specs.Changes.{change_id, IsUnnamed};
ghost use Rattle.judging.specs.Judging.{AreDistinct};
ghost use Rattle.plain_world.specs.Staging.{transaction_with, with_step, staged, one_placed, staged_in, placements, next_placement, brought_by, names, ended, MayStage, MayPlace};

use crate::settings::CHANGE_LIMIT;
use features::Change;
use memory::{NoMemory, vec_with_room};
use plane::Shape;
use std::alloc::Allocator;
use std::marker::Model;

/// An open transaction: the seat that opened it, the changes that it has staged, and how many of
/// their shapes are placed in the index. No two changes name one feature, and there is room for
/// `CHANGE_LIMIT` changes.
#[derive(Drop)]
pub(crate) struct Transaction<A: Allocator> {
    number: u64,
    seat: u32,
    changes: Vec<Change, A>,
    placed: usize,
}

impl<A: Allocator> Model for Transaction<A> {
    ghost use Rattle.std.specs.Prelude.{◌≤◌, length, vec_capacity};
    ghost use Rattle.judging.specs.Judging.{AreDistinct};
    ghost use Rattle.plain_world.specs.Staging.{TransactionData};
    ghost use Rattle.plain_world.specs.declared.settings.TheConstants.{CHANGE_LIMIT};

    ghost Value = { TransactionData };

    ghost view = { λ t. record {
      number = t.number;
      seat = t.seat;
      changes = t.changes.items;
      placed = t.placed;
    } };

    ghost invariant = { λ t. (CHANGE_LIMIT ≤ vec_capacity t.changes)
        × (length t.changes.items ≤ CHANGE_LIMIT) × AreDistinct t.changes.items };
}

impl<A: Allocator> Transaction<A> {
    /// A transaction of a seat, with nothing staged and room for `CHANGE_LIMIT` changes.
    pub(crate) fn new(alloc: A, number: u64, seat: u32) -> Result<Self, NoMemory>
        ensures { IfOk result
            (λ t. t ≡ record { number = number; seat = seat; changes = []; placed = 0 }) }
    {
        let changes = vec_with_room(alloc, CHANGE_LIMIT)?;
        Ok(Transaction {
            number,
            seat,
            changes,
            placed: 0,
        })
    }

    pub(crate) fn number(&self) -> u64
        ensures { result ≡ self.now.number }
    {
        self.number
    }

    pub(crate) fn seat(&self) -> u32
        ensures { result ≡ self.now.seat }
    {
        self.seat
    }

    /// How many of the shapes that the changes bring are placed.
    pub(crate) fn placed(&self) -> usize
        ensures { result ≡ self.now.placed }
    {
        self.placed
    }

    /// The changes that were staged, in order.
    pub(crate) fn changes(&self) -> &[Change]
        ensures value { result.now ≡ self.now.changes }
        ensures distinct { AreDistinct self.now.changes }
        ensures few { length self.now.changes ≤ CHANGE_LIMIT }
    {
        self.changes.as_slice()
    }

    /// Stages a change. It takes no memory.
    fn push(&mut self, change: Change)
        requires few { length self.old.changes < CHANGE_LIMIT }
        requires unnamed { IsUnnamed (change_id change) self.old.changes }
        ensures { self.new ≡ staged change self.old }
    {
        self.changes.push_reserved(change);
    }

    /// Counts one more shape as placed.
    fn place(&mut self)
        requires { self.old.placed < CHANGE_LIMIT }
        ensures { self.new ≡ one_placed self.old }
    {
        self.placed += 1;
    }

    /// The pair that is to be placed next, if one is left.
    pub(crate) fn next(&self) -> Option<(u64, Shape)>
        ensures value { result ≡ next_placement self.now }
        ensures few { IsSome result → self.now.placed < CHANGE_LIMIT }
    {
        placement_at(&self.changes, self.placed)
    }
}

/// The pair that a change puts into the index: an added or reshaped feature's id and new shape.
fn brought_by(change: &Change) -> Option<(u64, Shape)>
    ensures some { IfSome result
        (λ placement. (later : List (ℕ × List Point))
        → brought_by change.now later ≡ placement ∷ later) }
    ensures none { IfNone result
        ((later : List (ℕ × List Point)) → brought_by change.now later ≡ later) }
{
    match change {
        Change::Add { id, shape, .. } => Some((*id, *shape)),
        Change::Reshape { id, shape, .. } => Some((*id, *shape)),
        Change::Delete { .. } => None,
    }
}

/// The pair at a position among those that a list of changes puts into the index.
fn placement_at(changes: &[Change], place: usize) -> Option<(u64, Shape)>
    ensures value { result ≡ slice_get (placements changes.now) place }
    ensures within { IsSome result → place < length changes.now }
{
    let Some((first, rest)) = changes.split_first() else {
        return None;
    };
    match brought_by(first) {
        None => placement_at(rest, place),
        Some(placement) => {
            if place == 0 {
                Some(placement)
            } else {
                placement_at(rest, place - 1)
            }
        }
    }
}

/// How many pairs a list of changes puts into the index.
pub(crate) fn placement_count(changes: &[Change]) -> usize
    ensures value { result ≡ length (placements changes.now) }
    ensures few { result ≤ length changes.now }
{
    let mut count = 0;
    for change in changes {
        count += match change {
            Change::Add { .. } => 1,
            Change::Reshape { .. } => 1,
            Change::Delete { .. } => 0,
        };
    }
    count
}

/// Whether a change of the list names this feature.
pub(crate) fn names(changes: &[Change], id: u64) -> bool
    ensures { result ≡ names id changes.now }
{
    changes.iter().any(|change| change.id() == id)
}

/// The transaction of a number.
pub(crate) fn transaction_in<A: Allocator>(
    transactions: &[Transaction<A>],
    number: u64,
) -> Option<&Transaction<A>>
    ensures { option_copied result ≡ transaction_with number transactions.now }
{
    for transaction in transactions {
        if transaction.number() == number {
            return Some(transaction);
        }
    }
    None
}

/// The changes that the transaction of a number has staged; none where no such transaction is open.
pub(crate) fn staged_in<A: Allocator>(transactions: &[Transaction<A>], number: u64) -> &[Change]
    ensures value { result.now ≡ staged_in number transactions.now }
    ensures distinct { AreDistinct result.now }
    ensures few { length result.now ≤ CHANGE_LIMIT }
{
    for transaction in transactions {
        if transaction.number() == number {
            return transaction.changes();
        }
    }
    &[]
}

/// Removes the transaction of a number.
pub(crate) fn end<A: Allocator>(transactions: &mut Vec<Transaction<A>, A>, number: u64)
    ensures { transactions.new.items ≡ ended number transactions.old.items }
{
    transactions.retain(|transaction| transaction.number() != number);
}

/// Stages a change in the transaction of a number.
pub(crate) fn stage_in<A: Allocator>(
    transactions: &mut [Transaction<A>],
    number: u64,
    change: Change,
)
    requires { MayStage number change transactions.old }
    ensures { transactions.new ≡ with_step (staged change) number transactions.old }
{
    if let Some((first, rest)) = transactions.split_first_mut() {
        if first.number() == number {
            first.push(change);
        } else {
            stage_in(rest, number, change);
        }
    }
}

/// Counts one more shape as placed in the transaction of a number.
pub(crate) fn place_in<A: Allocator>(transactions: &mut [Transaction<A>], number: u64)
    requires { MayPlace number transactions.old }
    ensures { transactions.new ≡ with_step one_placed number transactions.old }
{
    if let Some((first, rest)) = transactions.split_first_mut() {
        if first.number() == number {
            first.place();
        } else {
            place_in(rest, number);
        }
    }
}
