//! How searches begin and end, and what they have found.

ghost use Rattle.std.specs.Prelude.{◌≡◌, ◌≢◌, ◌↔◌, ◌⊎◌, ◌<◌, ◌+◌, ◌==◌, [], not, filter, length, None, Some, Err, IfOk, IfErr, IfSome, IfNone, OnErr};
ghost use Rattle.memory.specs.NoMemory.{out_of_memory};
ghost use Rattle.predicate_locks.specs.Searches.{last_number};
ghost use Rattle.predicate_locks.specs.declared.TheConstants.{MAX_RUNNING};
ghost use Rattle.search_tree.specs.Calls.{IsOpen, IsShut, IsComplete, found_in};
ghost use Rattle.search_tree.specs.Trees.{IsFirstOf, progress_at};

use crate::tree::Tree;
use memory::GrowVec;
use predicate_locks::MAX_RUNNING;
use std::alloc::Allocator;
use tree_answers::TreeFault;
use tree_nodes::Progress;
use tree_theory::KeyClass;

impl<C: KeyClass, A: Allocator + Copy> Tree<C, A> {
    /// Opens a search for the pairs whose item matches the query, and returns its number.
    ///
    /// S2 where `MAX_RUNNING` searches run, else S6 where the next number is `u64::MAX`, else S8
    /// where an allocation is refused.
    pub fn open_search(&mut self, query: C::Query) -> Result<u64, TreeFault>
        ensures ok { IfOk result (IsOpen C.class self.old self.new query) }
        ensures too_many { (result ≡ Err TreeFault.TooMany)
            ↔ (length self.old.running.running ≡ MAX_RUNNING) }
        ensures spent { (result ≡ Err TreeFault.Spent)
            ↔ ((length self.old.running.running ≢ MAX_RUNNING)
            × (self.old.running.next ≡ last_number)) }
        ensures err { OnErr result (self.new ≡ self.old) }
        ensures why { IfErr result
            (λ fault. (fault ≡ TreeFault.TooMany)
            ⊎ ((fault ≡ TreeFault.Spent) ⊎ (fault ≡ TreeFault.Memory out_of_memory))) }
    {
        if self.running.searches().len() == MAX_RUNNING {
            return Err(TreeFault::TooMany);
        }
        let number = self.running.next_number();
        if number == u64::MAX {
            return Err(TreeFault::Spent);
        }
        let progress = Progress::at_root(self.alloc, number, self.root, self.counter)?;
        self.progress.make_slot()?;
        let Ok(number) = self.running.enter(query, self.counter) else {
            unreachable!();
        };
        self.progress.push_reserved(progress);
        Ok(number)
    }
}

impl<C: KeyClass, A: Allocator> Tree<C, A> {
    /// Ends a search. Nothing changes where none runs under the number.
    pub fn close_search(&mut self, search: u64)
        ensures { IsShut C.class self.old self.new search }
    {
        self.running.leave(search);
        drop_progress(&mut self.progress, search);
    }

    /// The pairs that a search has found; none where no search runs under the number. If the search
    /// is ready, they include every pair of the tree whose item matches its query.
    pub fn found(&self, search: u64) -> &[(u64, C::Item)]
        ensures value { result.now ≡ found_in self.now search }
        ensures complete { IsComplete C.class self.now search result.now }
    {
        match place_of(&self.progress, search) {
            Some(at) => self.progress[at].found(),
            None => &[],
        }
    }
}

/// The index of the first progress with this number.
pub fn place_of<I: Copy, A: Allocator>(progress: &[Progress<I, A>], number: u64) -> Option<usize>
    ensures found { IfSome result (IsFirstOf number progress.now) }
    ensures none { IfNone result (progress_at number progress.now ≡ None) }
{
    for (at, held) in progress.iter().enumerate() {
        if held.number() == number {
            return Some(at);
        }
    }
    None
}

/// Removes the progress with this number.
fn drop_progress<I: Copy, A: Allocator>(progress: &mut Vec<Progress<I, A>, A>, number: u64)
    ensures { progress.new.items ≡ filter (λ held. not (held.number == number)) progress.old.items }
{
    progress.retain(|held| held.number() != number);
}
