//! The running searches.

ghost use Rattle.std.specs.Prelude.{◌≡◌, ◌↔◌, ℕ, ◌+◌, ◌<◌, ◌≤◌, [], ◌∷◌, ◌++◌, false, true, length, Contains, slice_index_or, is_some, option_copied, option_map, IsTrue, IsSome, IsOk, IfOk, IfErr, IfSome, IfNone, OnErr, Some, Ok, Err};
ghost use Rattle.std.specs.Fn.{FnReturnsAt};
ghost use Rattle.std.specs.List.Sorted.{IsStrictlyIncreasing};
ghost use Rattle.predicate_locks.specs.Sound.{IsRising};
ghost use Rattle.predicate_locks.specs.Searches.{last_number, find_number, search_at, does_run, IsEntered, IsLeft, IsFirstMeeting, NoneMeets, AreMeeting, AllBegunSince};
ghost use Rattle.memory.specs.NoMemory.{out_of_memory};

use crate::MAX_RUNNING;
use crate::attached::Attached;
use crate::fault::LockFault;
use arrayvec::ArrayVec;
use memory::vec_with_slots;
use std::alloc::Allocator;
use std::marker::Model;

/// A search that runs.
#[derive(Clone, Copy, Debug)]
pub struct RunningSearch<Q> {
    /// Its number. No other search gets it.
    pub number: u64,
    /// What it searches for.
    pub query: Q,
    /// The stamp at which it began.
    pub begun: u64,
}

/// The searches that run, at most `MAX_RUNNING` at a time. No number is given twice.
#[derive(Drop)]
pub struct Running<Q, A: Allocator> {
    /// By rising number.
    searches: Vec<RunningSearch<Q>, A>,
    next: u64,
}

impl<Q, A: Allocator> Model for Running<Q, A> {
    ghost use Rattle.std.specs.Prelude.{vec_capacity};
    ghost use Rattle.predicate_locks.specs.Searches.{Searches};
    ghost use Rattle.predicate_locks.specs.Sound.{IsSound};

    ghost Value = { Searches Q };

    ghost view = { λ r. record { running = r.searches.items; next = r.next } };

    ghost invariant = { λ r. IsSound r.searches.items r.next (vec_capacity r.searches) };
}

impl<Q: Copy, A: Allocator> Running<Q, A> {
    /// No searches, with room for `MAX_RUNNING`. The first one gets the number `first_number`. L3
    /// where the allocation is refused.
    pub fn new(alloc: A, first_number: u64) -> Result<Self, LockFault>
        ensures ok { IfOk result (λ made. made ≡ record { running = []; next = first_number }) }
        ensures memory { IfErr result (λ fault. fault ≡ LockFault.Memory out_of_memory) }
    {
        let searches = vec_with_slots(alloc, MAX_RUNNING)?;
        Ok(Running {
            searches,
            next: first_number,
        })
    }

    /// The searches that run, by rising number.
    pub fn searches(&self) -> &[RunningSearch<Q>]
        ensures value { result.now ≡ self.now.running }
        ensures rising { IsRising 0 self.now.running self.now.next }
        ensures limit { length self.now.running ≤ MAX_RUNNING }
        ensures below { (number : ℕ) → IsSome (search_at self.now number) → number < self.now.next }
    {
        &self.searches
    }

    /// The number that the next search gets.
    pub fn next_number(&self) -> u64
        ensures { result ≡ self.now.next }
    {
        self.next
    }

    /// Starts a search for `query` that begins at the stamp `begun`, and returns its number.
    ///
    /// L1 where `MAX_RUNNING` searches run, else L2 where the next number is `u64::MAX`. It takes
    /// no memory.
    pub fn enter(&mut self, query: Q, begun: u64) -> Result<u64, LockFault>
        ensures ok { IfOk result
            (λ number. IsEntered self.old self.new
            (record { number = number; query = query; begun = begun })) }
        ensures listed { IfOk result
            (λ number. self.new.running ≡ self.old.running
            ++ record { number = number; query = query; begun = begun } ∷ []) }
        ensures too_many { (result ≡ Err LockFault.TooMany)
            ↔ (length self.old.running ≡ MAX_RUNNING) }
        ensures spent { (result ≡ Err LockFault.Spent)
            ↔ ((length self.old.running < MAX_RUNNING) × (self.old.next ≡ last_number)) }
        ensures certain { length self.old.running < MAX_RUNNING → self.old.next < last_number
            → IsOk result }
        ensures err { OnErr result (self.new ≡ self.old) }
    {
        if self.searches.len() == MAX_RUNNING {
            return Err(LockFault::TooMany);
        }
        let Some(next) = self.next.checked_add(1) else {
            return Err(LockFault::Spent);
        };
        let number = self.next;
        self.next = next;
        self.searches.push_reserved(RunningSearch {
            number,
            query,
            begun,
        });
        Ok(number)
    }

    /// Ends the search with this number, and returns whether it ran.
    pub fn leave(&mut self, number: u64) -> bool
        ensures ran { result ≡ does_run self.old number }
        ensures left { IsLeft self.old self.new number }
        ensures count { IsTrue result → length self.new.running + 1 ≡ length self.old.running }
        ensures none { result ≡ false → self.new ≡ self.old }
    {
        let Some(at) = self.position(number) else {
            return false;
        };
        self.searches.remove(at);
        true
    }

    /// Whether the search with this number runs.
    pub fn runs(&self, number: u64) -> bool
        ensures { result ≡ does_run self.now number }
    {
        self.position(number).is_some()
    }

    /// The query of the search with this number, if it runs.
    pub fn query(&self, number: u64) -> Option<Q>
        ensures { result ≡ option_map (λ search. search.query) (search_at self.now number) }
    {
        let at = self.position(number)?;
        Some(self.searches[at].query)
    }

    /// `query` without a copy.
    pub fn query_in_place(&self, number: u64) -> Option<&Q>
        ensures { option_copied result
            ≡ option_map (λ search. search.query) (search_at self.now number) }
    {
        let at = self.position(number)?;
        Some(&self.searches[at].query)
    }

    /// The stamp at which the search with this number began, if it runs.
    pub fn begun(&self, number: u64) -> Option<u64>
        ensures { result ≡ option_map (λ search. search.begun) (search_at self.now number) }
    {
        let at = self.position(number)?;
        Some(self.searches[at].begun)
    }

    /// Whether every running search began at this stamp or later.
    pub fn all_begun_since(&self, stamp: u64) -> bool
        ensures { IsTrue result ↔ AllBegunSince self.now stamp }
    {
        for search in &self.searches {
            if search.begun < stamp {
                return false;
            }
        }
        true
    }

    /// The least number that is attached and runs, and whose query `accepts` accepts.
    pub fn first_meeting<F: Fn(&Q) -> bool, B: Allocator>(
        &self,
        attached: &Attached<B>,
        accepts: &F,
    ) -> Option<u64>
        requires { F.IsAlwaysCallable accepts.now }
        ensures first { IfSome result
            (λ number. IsFirstMeeting (FnReturnsAt F.Fn accepts.now) self.now attached.now.numbers
            number) }
        ensures none { IfNone result
            (NoneMeets (FnReturnsAt F.Fn accepts.now) self.now attached.now.numbers) }
    {
        for search in &self.searches {
            if meets(search, attached, accepts) {
                return Some(search.number);
            }
        }
        None
    }

    /// The attached numbers that run and whose query `accepts` accepts, each once, by rising
    /// number.
    pub fn meeting<F: Fn(&Q) -> bool, B: Allocator>(
        &self,
        attached: &Attached<B>,
        accepts: &F,
    ) -> ArrayVec<u64, MAX_RUNNING>
        requires { F.IsAlwaysCallable accepts.now }
        ensures meeting { AreMeeting (FnReturnsAt F.Fn accepts.now) self.now attached.now.numbers
            result.items }
        ensures rising { IsStrictlyIncreasing result.items }
        ensures limit { length result.items ≤ MAX_RUNNING }
    {
        let mut met = ArrayVec::new();
        for search in &self.searches {
            if meets(search, attached, accepts) {
                met.push(search.number);
            }
        }
        met
    }

    /// The index of the search with this number.
    fn position(&self, number: u64) -> Option<usize>
        ensures found { IfSome result
            (λ at. (at < length self.now.running)
            × ((none : RunningSearch Q)
            → (slice_index_or self.now.running at none).number ≡ number)) }
        ensures runs { is_some result ≡ does_run self.now number }
    {
        for (at, search) in self.searches.iter().enumerate() {
            if search.number == number {
                return Some(at);
            }
        }
        None
    }
}

/// Whether a search is attached, and its query accepted.
fn meets<Q, F: Fn(&Q) -> bool, A: Allocator>(
    search: &RunningSearch<Q>,
    attached: &Attached<A>,
    accepts: &F,
) -> bool
    requires { F.IsAlwaysCallable accepts.now }
    ensures met { IsTrue result → Contains attached.now.numbers search.now.number
        × FnReturnsAt F.Fn accepts.now search.now.query true }
    ensures not_met { result ≡ false → Contains attached.now.numbers search.now.number
        → FnReturnsAt F.Fn accepts.now search.now.query false }
{
    if attached.holds(search.number) {
        accepts(&search.query)
    } else {
        false
    }
}
