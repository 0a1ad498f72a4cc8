//! Tending: slot by slot, a tree removes what it no longer needs.

ghost use Rattle.std.specs.Prelude.{◌≡◌, ◌+◌, Ok, IsTrue, IsSome, IfOk, IfErr, OnErr};
ghost use Rattle.node_arena.specs.Slots.{taken_count, value_at};
ghost use Rattle.node_arena.specs.declared.handle.Handle.{Handle};
ghost use Rattle.predicate_locks.specs.Searches.{last_number};
ghost use Rattle.search_tree.specs.Calls.{SameContents};
ghost use Rattle.search_tree.specs.Dues.{AnswersFirst};
ghost use Rattle.search_tree.specs.Tends.{HasTended, ContentsLess, ContentsTended, MayClean, MayFree, MayRetire, StepsAt, slots_freed};
ghost use Rattle.search_tree.specs.Trees.{tree_of};
ghost use Rattle.tree_theory.specs.Changes.{IsFreed, IsCleaned, IsRetired};

use crate::needs::Due;
use crate::tree::Tree;
use node_arena::Handle;
use std::alloc::Allocator;
use tree_answers::{Keeper, Tending, TreeFault};
use tree_nodes::{keep, remove_entry, set_place};
use tree_theory::{KeyClass, Position};

impl<C: KeyClass, A: Allocator> Tree<C, A> {
    /// Tends one slot: does the first of the following that is due at its node, and returns which.
    /// Where nothing is due, returns `Idle` and changes nothing.
    ///
    /// - `Freed`: a retired node is removed, once every running search began after it was retired.
    /// - `Installed`: a marked node's right node gets its entry, where their parent has room.
    /// - `Cleaned`: a leaf loses the pairs that are not kept.
    /// - `Retired`: an empty, unmarked leaf loses its entry, where its parent has others.
    ///
    /// It takes no memory, and changes no search. S6 where a node is to be installed or retired and
    /// the counter is `u64::MAX`: nothing changes.
    pub fn tend<K: Keeper<C::Item>>(&mut self, slot: u32, keeper: &K) -> Result<Tending, TreeFault>
        ensures tended { IfOk result (HasTended C.class self.old self.new) }
        ensures contents { IfOk result (ContentsTended C.class self.old
            (λ pair. IsTrue (K.kept keeper.now pair.0 pair.1)) self.new) }
        ensures first { (at : Handle) → at.slot ≡ slot → IsSome (value_at self.old.nodes at)
            → AnswersFirst C.class self.old
            (λ pair. IsTrue (K.kept keeper.now pair.0 pair.1)) at result }
        ensures step { (at : Handle) → at.slot ≡ slot → IsSome (value_at self.old.nodes at)
            → IfOk result (StepsAt C.class self.old
            (λ pair. IsTrue (K.kept keeper.now pair.0 pair.1)) at self.new) }
        ensures nobody { ((at : Handle) → at.slot ≡ slot → IsSome (value_at self.old.nodes at) → ⊥)
            → result ≡ Ok Tending.Idle }
        ensures untouched { ((at : Handle) → at.slot ≡ slot → IsSome (value_at self.old.nodes at)
            → ⊥) → self.new ≡ self.old }
        ensures spent { IfErr result
            (λ fault. (fault ≡ TreeFault.Spent) × (self.old.counter ≡ last_number)) }
        ensures err { OnErr result (self.new ≡ self.old) }
    {
        match self.nodes.at_slot(slot) {
            Some(at) => self.tend_at(at, keeper),
            None => Ok(Tending::Idle),
        }
    }

    /// Does the first thing that is due at a node.
    fn tend_at<K: Keeper<C::Item>>(&mut self, at: Handle, keeper: &K) -> Result<Tending, TreeFault>
        ensures tended { IfOk result (HasTended C.class self.old self.new) }
        ensures contents { IfOk result (ContentsTended C.class self.old
            (λ pair. IsTrue (K.kept keeper.now pair.0 pair.1)) self.new) }
        ensures first { IsSome (value_at self.old.nodes at) → AnswersFirst C.class self.old
            (λ pair. IsTrue (K.kept keeper.now pair.0 pair.1)) at result }
        ensures step { IfOk result (StepsAt C.class self.old
            (λ pair. IsTrue (K.kept keeper.now pair.0 pair.1)) at self.new) }
        ensures spent { IfErr result
            (λ fault. (fault ≡ TreeFault.Spent) × (self.old.counter ≡ last_number)) }
        ensures err { OnErr result (self.new ≡ self.old) }
    {
        match self.first_due(at, keeper) {
            Due::Nothing => Ok(Tending::Idle),
            Due::Free => {
                self.free(at);
                Ok(Tending::Freed)
            }
            Due::Install(entry) => {
                let seq = self.next_count()?;
                self.install(&entry, seq);
                Ok(Tending::Installed)
            }
            Due::Clean => {
                self.clean(at, keeper);
                Ok(Tending::Cleaned)
            }
            Due::Retire { parent, place } => {
                let stamp = self.next_count()?;
                self.retire(at, parent, place, stamp);
                Ok(Tending::Retired)
            }
        }
    }

    /// The counter's next value. S6 where the counter is `u64::MAX`.
    pub(crate) fn next_count(&self) -> Result<u64, TreeFault>
        ensures ok { IfOk result (λ next. next ≡ self.now.counter + 1) }
        ensures err { IfErr result
            (λ fault. (fault ≡ TreeFault.Spent) × (self.now.counter ≡ last_number)) }
    {
        match self.counter.checked_add(1) {
            Some(next) => Ok(next),
            None => Err(TreeFault::Spent),
        }
    }

    /// Removes a retired node.
    fn free(&mut self, at: Handle)
        requires { MayFree C.class self.old at }
        ensures tended { HasTended C.class self.old self.new Tending.Freed }
        ensures contents { SameContents C.class self.old self.new }
        ensures step { IsFreed (tree_of C.class self.old) (tree_of C.class self.new) at }
        ensures freed { taken_count self.new.nodes + slots_freed at ≡ taken_count self.old.nodes }
    {
        self.nodes.remove(at);
    }

    /// Retires an empty leaf: removes its entry, at index `place` of its parent. Searches whose
    /// stacks name it may still visit it.
    fn retire(&mut self, at: Handle, parent: Handle, place: usize, stamp: u64)
        requires may { MayRetire C.class self.old at parent place }
        requires stamp { stamp ≡ self.old.counter + 1 }
        ensures tended { HasTended C.class self.old self.new Tending.Retired }
        ensures contents { SameContents C.class self.old self.new }
        ensures step { IsRetired (tree_of C.class self.old) (tree_of C.class self.new) at parent }
    {
        set_place(&mut self.nodes, at, Position::Retired { stamp });
        remove_entry(&mut self.nodes, parent, place);
        self.counter = stamp;
    }

    /// Removes the pairs of a leaf that are not kept.
    fn clean<K: Keeper<C::Item>>(&mut self, at: Handle, keeper: &K)
        requires { MayClean C.class self.old at }
        ensures tended { HasTended C.class self.old self.new Tending.Cleaned }
        ensures contents { ContentsLess C.class self.old self.new
            (λ pair. IsTrue (K.kept keeper.now pair.0 pair.1)) }
        ensures step { IsCleaned (tree_of C.class self.old) (tree_of C.class self.new)
            (λ pair. IsTrue (K.kept keeper.now pair.0 pair.1)) at }
    {
        keep(&mut self.nodes, at, keeper);
    }
}
