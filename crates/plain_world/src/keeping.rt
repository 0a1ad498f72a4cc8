//! Which pairs the index of a world keeps.

ghost use Rattle.std.specs.Prelude.{◌≡◌};
ghost use Rattle.std.specs.List.{list_any};
ghost use Rattle.plain_world.specs.Keeping.{brings, is_staged, stands};

use crate::open_transactions::Transaction;
use crate::worlds::PlainWorld;
use feature_store::{Meter, Store};
use features::Change;
use plane::Shape;
use std::alloc::Allocator;
use tree_answers::Keeper;

impl<A: Allocator> Keeper<Shape> for PlainWorld<A> {
    ghost use Rattle.plain_world.specs.Keeping.{is_kept};

    ghost kept = { λ world id shape. is_kept id shape world };

    /// Whether the store has this id with this shape, or an open transaction has staged a change
    /// that would make it so.
    fn keeps(&self, id: u64, shape: &Shape) -> bool {
        stands(&self.store, id, shape) || is_staged(&self.transactions, id, shape)
    }
}

/// Whether the store's feature of this id has this shape.
fn stands<A: Allocator>(store: &Store<A>, id: u64, shape: &Shape) -> bool
    ensures { result ≡ stands id shape.now store.now }
{
    let mut meter = Meter::new();
    match store.get(id, &mut meter) {
        Some(feature) => feature.shape == *shape,
        None => false,
    }
}

/// Whether an open transaction has staged a change that gives the feature of this id this shape.
fn is_staged<A: Allocator>(transactions: &[Transaction<A>], id: u64, shape: &Shape) -> bool
    ensures { result ≡ is_staged id shape.now transactions.now }
{
    transactions
        .iter()
        .any(|transaction| is_brought(transaction.changes(), id, shape))
}

/// Whether a change of the list gives the feature of this id this shape.
fn is_brought(changes: &[Change], id: u64, shape: &Shape) -> bool
    ensures { result ≡ list_any (λ change. brings id shape.now change) changes.now }
{
    changes.iter().any(|change| brings(change, id, shape))
}

/// Whether the change gives the feature of this id this shape.
fn brings(change: &Change, id: u64, shape: &Shape) -> bool
    ensures { result ≡ brings id shape.now change.now }
{
    match change {
        Change::Add {
            id: added,
            shape: new,
            ..
        } => *added == id && *new == *shape,
        Change::Reshape {
            id: known,
            shape: new,
            ..
        } => *known == id && *new == *shape,
        Change::Delete { .. } => false,
    }
}
