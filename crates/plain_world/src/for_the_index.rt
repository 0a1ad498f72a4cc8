//! Parts of the events `open_search`, `visit` and `advance`, of which the index does the rest. Only
//! `world` calls these: by themselves they are no event.

ghost use Rattle.std.specs.Prelude.{◌≡◌, ◌<◌, ◌+◌, ◌++◌, [], ◌∷◌, false, length, IfOk, IsSome, Option};
ghost use Rattle.plain_world.specs.Admitting.{map_ok, may_step};
ghost use Rattle.plain_world.specs.Events.{with_ready, without_search, without_transaction};
ghost use Rattle.plain_world.specs.Staging.{MayPlace, next_placement, one_placed, with_step};

use crate::faults::Fault;
use crate::open_searches::Search;
use crate::open_transactions::{end, place_in};
use crate::settings::SEARCH_LIMIT;
use crate::worlds::PlainWorld;
use plane::Shape;
use std::alloc::Allocator;

impl<A: Allocator> PlainWorld<A> {
    /// Adds a search that the index has opened for a seat, under the next number. It takes
    /// no memory.
    pub fn enter_search(&mut self, seat: u32, window: Shape)
        requires few { length self.old.searches < SEARCH_LIMIT }
        requires left { self.old.next_search < u64.MAX }
        ensures { self.new
            ≡ record self.old {
              searches = self.old.searches
                  ++ record {
                    number = self.old.next_search;
                    seat = seat;
                    window = window;
                    ready = false;
                  }
                  ∷ [];
              next_search = self.old.next_search + 1;
            } }
    {
        self.searches.push(Search {
            number: self.next_search,
            seat,
            window,
            ready: false,
        });
        self.next_search += 1;
    }

    /// Marks a search as ready. Only a part of the event `visit`: `world` calls it once the
    /// index has answered Ready.
    pub fn make_ready(&mut self, number: u64)
        ensures { self.new ≡ record self.old { searches = with_ready number self.old.searches } }
    {
        self.searches.make_ready(number);
    }

    /// Removes a search that the index has dropped (S7). Only a part of the event `visit`:
    /// `world` calls it.
    pub fn forget_search(&mut self, number: u64)
        ensures { self.new ≡ without_search number self.old }
    {
        self.searches.forget(number);
    }

    /// The pair of a transaction that is to be placed next, or `None` where all are placed. X1
    /// where the seat was not given or no such transaction is open, X2 where it is another seat's.
    pub fn next_to_place(&self, seat: u32, number: u64) -> Result<Option<(u64, Shape)>, Fault>
        ensures value { map_ok next_placement (may_step seat number self.now) ≡ result }
        ensures may { IfOk result (λ next. IsSome next → MayPlace number self.now.transactions) }
    {
        let transaction = self.may_step(seat, number)?;
        Ok(transaction.next())
    }

    /// Counts the next shape of a transaction as placed. Only a part of the event `advance`:
    /// `world` calls it once the index has placed the shape.
    pub fn place_next(&mut self, number: u64)
        requires { MayPlace number self.old.transactions }
        ensures { self.new
            ≡ record self.old { transactions = with_step one_placed number self.old.transactions } }
    {
        place_in(&mut self.transactions, number);
    }

    /// Removes a transaction whose walk the index has ended (S7). Only a part of the event
    /// `advance`: `world` calls it.
    pub fn end_transaction(&mut self, number: u64)
        ensures { self.new ≡ without_transaction number self.old }
    {
        end(&mut self.transactions, number);
    }
}
