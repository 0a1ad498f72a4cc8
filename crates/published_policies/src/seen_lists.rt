//! Prefixes of a list, as far as it was seen.

ghost use Rattle.std.specs.Prelude.{◌≡◌, ◌⊎◌, ◌≤◌, ◌++◌, ◌∷◌, [], length, IsTrue};
ghost use Rattle.std.specs.Bool.{MatchBool};
ghost use Rattle.std.specs.Arc.{arc_value};
ghost use mathlib.Core.List.{IsPrefix};
ghost use Rattle.published_policies.specs.Lists.{AreEditions, IsNextEdition, last_edition, seen_in};
ghost use Rattle.published_policies.specs.Growing.{length_word};

use crate::growing::{Add, ListRule, NoGain};
use decision::Decider;
use logbook::{Offer, Seen, Word};
use std::marker::Model;
use std::sync::Arc;

/// A prefix of a list that was seen. At run time it is a length and an edition, and takes no memory.
/// Contracts see the policies, and the book of the list.
#[derive(Drop)]
pub struct SeenList {
    len: u64,
    /// The edition of the last policy; 0 where there is none.
    edition: u64,
    seen: Seen<Decider, u64, ListRule>,
}

impl Model for SeenList {
    ghost use Rattle.std.specs.Prelude.{◌≡◌, length};
    ghost use Rattle.std.specs.Coded.{code_by, codes};
    ghost use Rattle.published_policies.specs.Lists.{AreEditions, SeenData, last_edition, seen_in};
    ghost use Rattle.published_policies.specs.Coding.{StoredSeen, stored_seen, restored_seen, restored_seen-stored_seen};

    ghost Value = { SeenData };

    ghost coded = { code_by StoredSeen (Prim.hlevel codes) stored_seen restored_seen
        restored_seen-stored_seen };

    ghost view = { λ s. seen_in s.seen.book s.seen.log };

    ghost invariant = { λ s. (s.len ≡ length s.seen.log) × (s.edition ≡ last_edition s.seen.log)
        × AreEditions s.seen.log };
}

impl SeenList {
    /// The empty prefix: nothing was seen.
    #[tactic(auto, using(crate::proofs::ListLemmas::no_editions))]
    pub(crate) fn nothing(seen: Seen<Decider, u64, ListRule>) -> SeenList
        requires { seen.log ≡ [] }
        ensures { result ≡ seen_in seen.book [] }
    {
        SeenList {
            len: 0,
            edition: 0,
            seen,
        }
    }

    /// The edition of its last policy; 0 where there is none.
    pub(crate) fn edition(&self) -> u64
        ensures value { result ≡ last_edition self.now.list }
        ensures editions { AreEditions self.now.list }
    {
        self.edition
    }

    /// The same prefix again.
    pub(crate) fn again(&self) -> SeenList
        ensures { result ≡ self.now }
    {
        SeenList {
            len: self.len,
            edition: self.edition,
            seen: self.seen.again(),
        }
    }

    /// A fact about two prefixes of one list, without effect: the other begins with this one,
    /// unless this one is longer.
    fn begins(&self, other: &SeenList)
        requires { other.now.book ≡ self.now.book }
        ensures { length self.now.list ≤ length other.now.list
            → IsPrefix self.now.list other.now.list }
    {
        let mut both = self.seen.again();
        both.learn(&other.seen);
    }

    /// Whether two prefixes of one list are the same, by their lengths.
    #[tactic(auto, using(crate::proofs::ListLemmas::same_seen))]
    pub(crate) fn is_same(&self, other: &SeenList) -> bool
        requires { other.now.book ≡ self.now.book }
        ensures { IsTrue result → other.now ≡ self.now }
    {
        self.begins(other);
        self.len == other.len
    }

    /// The longer of two prefixes of one list.
    #[tactic(auto, using(crate::proofs::ListLemmas::prefix_self))]
    pub(crate) fn longer(&self, other: &SeenList) -> SeenList
        requires { other.now.book ≡ self.now.book }
        ensures book { result.book ≡ self.now.book }
        ensures this { IsPrefix self.now.list result.list }
        ensures that { IsPrefix other.now.list result.list }
        ensures one { (result ≡ self.now) ⊎ (result ≡ other.now) }
    {
        if self.len <= other.len {
            self.begins(other);
            other.again()
        } else {
            other.begins(self);
            self.again()
        }
    }

    /// Takes another prefix of the list in place of this one, unless it is shorter; returns whether
    /// it did.
    pub(crate) fn advance(&mut self, to: &SeenList) -> bool
        requires { to.now.book ≡ self.old.book }
        ensures { MatchBool result
            ((self.new ≡ to.now) × IsPrefix self.old.list self.new.list)
            (self.new ≡ self.old) }
    {
        if self.len > to.len {
            return false;
        }
        self.begins(to);
        *self = to.again();
        true
    }

    /// Adds a policy to the list, if that is no longer than what was seen of it; returns whether it
    /// did.
    pub(crate) fn add(
        &mut self,
        word: &Word<Decider, u64, ListRule>,
        decider: &Arc<Decider>,
    ) -> bool
        requires word { word.now ≡ length_word self.old.book }
        requires next { IsNextEdition self.old.list (arc_value decider.now).edition }
        ensures { MatchBool result
            (self.new ≡ seen_in self.old.book (self.old.list ++ arc_value decider.now ∷ []))
            (self.new ≡ self.old) }
    {
        let edition = decider.edition();
        let longer = self.len + 1;
        let mut seen = self.seen.again();
        let mut offer: Offer<Decider, u64, ListRule, NoGain> = seen.plain::<
            NoGain,
            Arc<Decider>,
            Add,
        >(decider);
        let mut pen = seen.no_pen();
        let found = word.compare_exchange::<Add, NoGain>(
            self.len, longer, &mut seen, &mut offer, &mut pen,
        );
        if found != self.len {
            return false;
        }
        *self = SeenList {
            len: longer,
            edition,
            seen,
        };
        true
    }
}
