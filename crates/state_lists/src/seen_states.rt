//! Beginnings of a list, as far as it was seen.

ghost use Rattle.std.specs.Prelude.{◌≡◌, ◌++◌, ◌∷◌, [], length, IsTrue};
ghost use Rattle.std.specs.Bool.{MatchBool};

use crate::growing::{AddState, NoGain, StateRule};
use crate::lists::{ListLength, StatesName};
use logbook::{Offer, Seen};
use std::marker::{Model, PhantomData};
use std::sync::Wait;

/// A beginning of a list that was seen. At run time it is a length, and takes no memory. Contracts
/// see the states, the oldest first.
#[derive(Drop)]
pub struct SeenStates<J: StatesName, S> {
    len: u64,
    seen: Seen<S, u64, StateRule>,
    of: PhantomData<J>,
}

impl<J: StatesName, S> Model for SeenStates<J, S> {
    ghost use Rattle.std.specs.Prelude.{◌≡◌, List, length};

    ghost Value = { List S };

    ghost view = { λ s. s.seen.log };

    ghost invariant = { λ s. (s.len ≡ length s.seen.log) × (s.seen.book ≡ J.states) };
}

impl<J: StatesName, S> SeenStates<J, S> {
    /// Nothing was seen.
    pub(crate) fn nothing(seen: Seen<S, u64, StateRule>) -> SeenStates<J, S>
        requires empty { seen.log ≡ [] }
        requires named { seen.book ≡ J.states }
        ensures { result ≡ [] }
    {
        SeenStates {
            len: 0,
            seen,
            of: PhantomData,
        }
    }

    /// The same beginning again.
    pub fn again(&self) -> SeenStates<J, S>
        ensures { result ≡ self.now }
    {
        SeenStates {
            len: self.len,
            seen: self.seen.again(),
            of: PhantomData,
        }
    }

    /// How many states it has.
    pub fn len(&self) -> u64
        ensures { result ≡ length self.now }
    {
        self.len
    }

    /// Whether two beginnings of the list are as long as each other, and so the same.
    pub fn is_same(&self, other: &SeenStates<J, S>) -> bool
        ensures { IsTrue result → self.now ≡ other.now }
    {
        let mut both = self.seen.again();
        both.learn(&other.seen);
        self.len == other.len
    }

    /// Adds a state to the list, if that is no longer than what was seen of it; returns whether it
    /// did. A list that is longer, and one of 2^64 - 1 states, stay as they are.
    pub fn add(&mut self, list: &ListLength<J, S>, state: &S) -> bool
        ensures { MatchBool result (self.new ≡ self.old ++ state.now ∷ []) (self.new ≡ self.old) }
    {
        if self.len == u64::MAX {
            return false;
        }
        let longer = self.len + 1;
        let mut seen = self.seen.again();
        let mut offer: Offer<S, u64, StateRule, NoGain> = seen.plain::<NoGain, S, AddState>(state);
        let mut pen = seen.no_pen();
        let found = list
            .word
            .compare_exchange::<AddState, NoGain>(
                self.len, longer, &mut seen, &mut offer, &mut pen,
            );
        if found != self.len {
            return false;
        }
        *self = SeenStates {
            len: longer,
            seen,
            of: PhantomData,
        };
        true
    }

    /// A fact for callers, without effect: two beginnings that have seen all of the list are the
    /// same. Where one of them has not, it waits for ever.
    pub fn meet<W: Wait>(&self, rt: &W, other: &SeenStates<J, S>)
        ensures { self.now ≡ other.now }
    {
        for _ in rt.forever() {
            if self.is_same(other) {
                return;
            }
        }
        unreachable!()
    }

    /// Adds a state to the list, of which all was seen: nobody else adds one meanwhile. Where that
    /// is not so, it waits for ever.
    pub fn grow<W: Wait>(&mut self, rt: &W, list: &ListLength<J, S>, state: &S)
        ensures { self.new ≡ self.old ++ state.now ∷ [] }
    {
        for _ in rt.forever() {
            let mut longer = self.again();
            if longer.add(list, state) {
                *self = longer;
                return;
            }
        }
        unreachable!()
    }
}
