//! The walks of open transactions.

ghost use Rattle.std.specs.Prelude.{◌≡◌, ◌<◌, [], None, Some, length, option_map, IfOk};
ghost use Rattle.world.specs.Walks.{walk_begun, walk_ended, walk_of, with_walk};

use memory::{NoMemory, vec_with_room};
use plain_world::TRANSACTION_LIMIT;
use plane::Shape;
use search_tree::Walk;
use std::alloc::Allocator;
use std::marker::Model;

/// An open transaction, and the walk of its next shape to place, once that walk has begun.
#[derive(Drop)]
struct Journey {
    number: u64,
    walk: Option<Walk<Shape>>,
}

impl Model for Journey {
    ghost use Rattle.world.specs.Walks.{JourneyData};

    ghost Value = { JourneyData };

    ghost view = { λ j. record { number = j.number; walk = j.walk } };
}

impl Journey {
    fn number(&self) -> u64
        ensures { result ≡ self.now.number }
    {
        self.number
    }

    fn walk(&self) -> Option<&Walk<Shape>>
        ensures { option_map (λ walk. walk.now) result ≡ self.now.walk }
    {
        self.walk.as_ref()
    }

    /// Replaces the walk; returns the old one.
    fn replace(&mut self, walk: Option<Walk<Shape>>) -> Option<Walk<Shape>>
        ensures before { result ≡ self.old.walk }
        ensures after { self.new ≡ record self.old { walk = walk } }
    {
        let before = self.walk.take();
        self.walk = walk;
        before
    }
}

/// The walks of open transactions, with room for as many as may be open at once. Contracts see the
/// number of each and its walk, if it has one.
#[derive(Drop)]
pub(crate) struct Walks<A: Allocator> {
    journeys: Vec<Journey, A>,
}

impl<A: Allocator> Model for Walks<A> {
    ghost use Rattle.std.specs.Prelude.{List, ◌≤◌, vec_capacity};
    ghost use Rattle.plain_world.specs.declared.settings.TheConstants.{TRANSACTION_LIMIT};
    ghost use Rattle.world.specs.Walks.{JourneyData};

    ghost Value = { List JourneyData };

    ghost view = { λ w. w.journeys.items };

    ghost invariant = { λ w. TRANSACTION_LIMIT ≤ vec_capacity w.journeys };
}

impl<A: Allocator> Walks<A> {
    /// No transactions.
    pub fn new(alloc: A) -> Result<Self, NoMemory>
        ensures { IfOk result (λ walks. walks ≡ []) }
    {
        let journeys = vec_with_room(alloc, TRANSACTION_LIMIT)?;
        Ok(Walks { journeys })
    }

    /// Adds a transaction, without a walk. Takes no memory.
    pub fn begin(&mut self, number: u64)
        requires { length self.old < TRANSACTION_LIMIT }
        ensures { self.new ≡ walk_begun number self.old }
    {
        self.journeys.push_reserved(Journey { number, walk: None });
    }

    /// Removes a transaction.
    pub fn end(&mut self, number: u64)
        ensures { self.new ≡ walk_ended number self.old }
    {
        self.journeys.retain(|journey| journey.number() != number);
    }

    /// The walk of a transaction.
    pub fn get(&self, number: u64) -> Option<&Walk<Shape>>
        ensures { option_map (λ walk. walk.now) result ≡ walk_of number self.now }
    {
        walk_in(&self.journeys, number)
    }

    /// Takes out the walk of a transaction.
    pub fn take(&mut self, number: u64) -> Option<Walk<Shape>>
        ensures walk { result ≡ walk_of number self.old }
        ensures left { self.new ≡ with_walk number None self.old }
    {
        replace_in(&mut self.journeys, number, None)
    }

    /// Stores the walk of a transaction. Takes no memory.
    pub fn keep(&mut self, number: u64, walk: Walk<Shape>)
        ensures { self.new ≡ with_walk number (Some walk) self.old }
    {
        replace_in(&mut self.journeys, number, Some(walk));
    }
}

/// The walk of a transaction.
fn walk_in(journeys: &[Journey], number: u64) -> Option<&Walk<Shape>>
    ensures { option_map (λ walk. walk.now) result ≡ walk_of number journeys.now }
{
    let Some((first, rest)) = journeys.split_first() else {
        return None;
    };
    if first.number() == number {
        first.walk()
    } else {
        walk_in(rest, number)
    }
}

/// Replaces the walk of a transaction; returns the old one.
fn replace_in(
    journeys: &mut [Journey],
    number: u64,
    walk: Option<Walk<Shape>>,
) -> Option<Walk<Shape>>
    ensures before { result ≡ walk_of number journeys.old }
    ensures after { journeys.new ≡ with_walk number walk journeys.old }
{
    let Some((first, rest)) = journeys.split_first_mut() else {
        return None;
    };
    if first.number() == number {
        first.replace(walk)
    } else {
        replace_in(rest, number, walk)
    }
}
