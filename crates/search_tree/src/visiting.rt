//! One step of a search.

ghost use Rattle.std.specs.Prelude.{◌≡◌, IfOk, OnErr};
ghost use Rattle.search_tree.specs.Calls.{IsFurther, IsUntouched, IsVisit, MayVisit, is_ready};
ghost use Rattle.search_tree.specs.States.{IsState};
ghost use Rattle.tree_nodes.specs.Progresses.{is_empty};

use crate::opening::place_of;
use crate::tree::Tree;
use memory::NoMemory;
use std::alloc::Allocator;
use tree_answers::{TreeFault, Visit};
use tree_nodes::{Progress, visit_last};
use tree_theory::KeyClass;

/// The state of a search before a step.
#[derive(Clone, Copy)]
pub(crate) enum State {
    /// No search runs under the number.
    Gone,
    /// It has seen all there is.
    Ready,
    /// It has made all its steps.
    Spent,
    /// It may make a step; its progress is at this index.
    Waits(usize),
}

impl<C: KeyClass, A: Allocator + Copy> Tree<C, A> {
    /// Makes one step of a search: it sees one node. Returns `Ready` once it has seen all there is;
    /// from then on until it is closed, `found` has every pair of the tree whose item matches its
    /// query.
    ///
    /// S1 where no search runs under the number. A ready search returns `Ready` again, and makes no
    /// step. S7 where it has made all its steps: the search is closed. S8 where an allocation is
    /// refused: nothing changes, the nodes and the search's stack included, except that spare
    /// capacity may grow.
    pub fn visit(&mut self, search: u64) -> Result<Visit, TreeFault>
        ensures { IsVisit C.class self.old self.new search result }
    {
        match self.state_of(search) {
            State::Gone => Err(TreeFault::NoSearch),
            State::Ready => Ok(Visit::Ready),
            State::Spent => {
                self.close_search(search);
                Err(TreeFault::Overrun)
            }
            State::Waits(at) => {
                let visit = self.visit_at(at, search)?;
                Ok(visit)
            }
        }
    }

    /// The state of a search.
    fn state_of(&self, search: u64) -> State
        ensures { IsState self.now search result }
    {
        let limit = self.step_limit();
        let Some(at) = place_of(&self.progress, search) else {
            return State::Gone;
        };
        let progress = &self.progress[at];
        if progress.is_ready() {
            return State::Ready;
        }
        if limit <= progress.steps() {
            return State::Spent;
        }
        State::Waits(at)
    }

    /// The most steps of each search and walk.
    pub(crate) fn step_limit(&self) -> u64
        ensures { result ≡ self.now.limit }
    {
        self.limit
    }

    /// Makes one step of the search whose progress is at this index.
    fn visit_at(&mut self, at: usize, search: u64) -> Result<Visit, NoMemory>
        requires { MayVisit self.old search at }
        ensures ok { IfOk result (λ visit. IsFurther C.class self.old self.new search
            (is_ready visit)) }
        ensures err { OnErr result (IsUntouched C.class self.old self.new) }
    {
        let Some(query) = self.running.query_in_place(search) else {
            unreachable!();
        };
        visit_last::<C, A>(
            &mut self.nodes,
            &self.running,
            &mut self.progress[at],
            query,
            self.counter,
        )?;
        Ok(visit_of(&self.progress[at]))
    }
}

/// What a visit returns that leaves this progress.
fn visit_of<I: Copy, A: Allocator>(progress: &Progress<I, A>) -> Visit
    ensures { is_ready result ≡ is_empty progress.now.stack }
{
    if progress.is_ready() {
        Visit::Ready
    } else {
        Visit::More
    }
}
