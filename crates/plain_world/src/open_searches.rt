//! Open searches.

ghost use Rattle.std.specs.Prelude.{◌≡◌, ◌<◌, ◌++◌, ◌∷◌, ◌==◌, [], not, filter, length, IfOk};
ghost use Rattle.plain_world.specs.Admitting.{search_with};
ghost use Rattle.plain_world.specs.Events.{with_ready};

use crate::settings::SEARCH_LIMIT;
use memory::{NoMemory, vec_with_room};
use plane::Shape;
use std::alloc::Allocator;
use std::marker::Model;

/// An open search: its seat, its window, and whether it has answered Ready.
#[derive(Clone, Copy, Debug, PartialEq, Eq)]
pub struct Search {
    /// Its number, which no other search is given.
    pub number: u64,
    /// The seat that opened it.
    pub seat: u32,
    /// The window: the search looks for the shapes that meet it.
    pub window: Shape,
    /// Whether it has answered Ready.
    pub ready: bool,
}

/// The open searches, with room for `SEARCH_LIMIT` of them. A contract sees their list.
#[derive(Debug, Drop)]
pub(crate) struct Searches<A: Allocator> {
    list: Vec<Search, A>,
}

impl<A: Allocator> Model for Searches<A> {
    ghost use Rattle.std.specs.Prelude.{List, ◌≤◌, vec_capacity};
    ghost use Rattle.plain_world.specs.declared.open_searches.Search.{Search};
    ghost use Rattle.plain_world.specs.declared.settings.TheConstants.{SEARCH_LIMIT};

    ghost Value = { List Search };

    ghost view = { λ s. s.list.items };

    ghost invariant = { λ s. SEARCH_LIMIT ≤ vec_capacity s.list };
}

impl<A: Allocator> Searches<A> {
    /// No searches, with room for all that may be open at once.
    pub fn new(alloc: A) -> Result<Self, NoMemory>
        ensures { IfOk result (λ searches. searches ≡ []) }
    {
        let list = vec_with_room(alloc, SEARCH_LIMIT)?;
        Ok(Searches { list })
    }

    /// How many are open.
    pub fn len(&self) -> usize
        ensures { result ≡ length self.now }
    {
        self.list.len()
    }

    /// The search of a number.
    pub fn get(&self, number: u64) -> Option<Search>
        ensures { result ≡ search_with number self.now }
    {
        search_in(&self.list, number)
    }

    /// Adds a search. It takes no memory.
    pub fn push(&mut self, search: Search)
        requires { length self.old < SEARCH_LIMIT }
        ensures { self.new ≡ self.old ++ search ∷ [] }
    {
        self.list.push_reserved(search);
    }

    /// Marks the search of a number as ready.
    pub fn make_ready(&mut self, number: u64)
        ensures { self.new ≡ with_ready number self.old }
    {
        make_ready(&mut self.list, number);
    }

    /// Removes the search of a number.
    pub fn forget(&mut self, number: u64)
        ensures { self.new ≡ filter (λ s. not (s.number == number)) self.old }
    {
        self.list.retain(|search| search.number != number);
    }
}

/// The search of a number.
fn search_in(searches: &[Search], number: u64) -> Option<Search>
    ensures { result ≡ search_with number searches.now }
{
    for search in searches {
        if search.number == number {
            return Some(*search);
        }
    }
    None
}

/// Marks the search of a number as ready.
fn make_ready(searches: &mut [Search], number: u64)
    ensures { searches.new ≡ with_ready number searches.old }
{
    if let Some((first, rest)) = searches.split_first_mut() {
        if first.number == number {
            first.ready = true;
        } else {
            make_ready(rest, number);
        }
    }
}
