//! The progress of a search.

ghost use Rattle.std.specs.Prelude.{◌≡◌, ◌≢◌, ◌∷◌, ◌++◌, ◌+◌, ◌<◌, [], ℕ, List, IfOk, OnOk, length};
ghost use Rattle.predicate_locks.specs.Searches.{last_number};
ghost use Rattle.node_arena.specs.declared.handle.Handle.{Handle};
ghost use Rattle.tree_nodes.specs.Progresses.{SameButRoom, HasVisitRoom, IsLast, is_empty};

use memory::{GrowVec, NoMemory, vec_with_slots};
use node_arena::Handle;
use std::alloc::Allocator;
use std::marker::Model;
use tree_theory::NODE_SIZE;

/// The progress of a search: its steps, its stack of nodes to visit, each with a memo of the
/// counter, and the pairs that it has found.
#[derive(Drop)]
pub struct Progress<I, A: Allocator> {
    number: u64,
    steps: u64,
    stack: Vec<(Handle, u64), A>,
    found: Vec<(u64, I), A>,
}

impl<I, A: Allocator> Model for Progress<I, A> {
    ghost use Rattle.std.specs.Prelude.{vec_capacity};
    ghost use Rattle.tree_nodes.specs.Progresses.{PlainProgress};

    ghost Value = { PlainProgress I };

    ghost view = { λ p. record {
      number = p.number;
      steps = p.steps;
      stack = p.stack.items;
      found = p.found.items;
      stack_places = vec_capacity p.stack;
      found_places = vec_capacity p.found;
    } };
}

impl<I: Copy, A: Allocator> Progress<I, A> {
    /// The progress of a new search: only the root is on its stack.
    pub fn at_root(alloc: A, number: u64, root: Handle, counter: u64) -> Result<Self, NoMemory>
    where
        A: Copy,
        ensures { IfOk result
            (λ made. (made.number ≡ number) × (made.steps ≡ 0) × (made.stack ≡ (root, counter) ∷ [])
            × (made.found ≡ [])) }
    {
        let mut stack = vec_with_slots(alloc, NODE_SIZE)?;
        stack.push_reserved((root, counter));
        Ok(Progress {
            number,
            steps: 0,
            stack,
            found: Vec::new(alloc),
        })
    }

    /// The number of the search.
    pub fn number(&self) -> u64
        ensures { result ≡ self.now.number }
    {
        self.number
    }

    /// How many steps it has made.
    pub fn steps(&self) -> u64
        ensures { result ≡ self.now.steps }
    {
        self.steps
    }

    /// Whether it has seen all there is.
    pub fn is_ready(&self) -> bool
        ensures { result ≡ is_empty self.now.stack }
    {
        self.stack.is_empty()
    }

    /// The pairs that it has found.
    pub fn found(&self) -> &[(u64, I)]
        ensures { result.now ≡ self.now.found }
    {
        &self.found
    }

    /// Makes room for all that one visit may add. Where an allocation is refused, only spare
    /// capacity may have grown.
    pub fn make_room(&mut self) -> Result<(), NoMemory>
        ensures ok { OnOk result (HasVisitRoom self.new) }
        ensures same { SameButRoom self.old self.new }
    {
        self.stack.make_slots(NODE_SIZE + 1)?;
        self.found.make_slots(NODE_SIZE)
    }

    /// The last node of the stack, and its memo.
    pub fn last(&self) -> (Handle, u64)
        requires { self.now.stack ≢ [] }
        ensures { IsLast self.now.stack result }
    {
        self.stack[self.stack.len() - 1]
    }

    /// Takes the last node from the stack, and counts a step.
    pub fn step(&mut self)
        requires stack { self.old.stack ≢ [] }
        requires steps { self.old.steps < last_number }
        ensures { (rest : List (Handle × ℕ)) (last : Handle × ℕ)
            → self.old.stack ≡ rest ++ last ∷ []
            → self.new ≡ record self.old { stack = rest; steps = self.old.steps + 1 } }
    {
        self.stack.pop();
        self.steps += 1;
    }

    /// Puts a node on the stack, for which there is room.
    pub fn push(&mut self, node: Handle, memo: u64)
        requires { length self.old.stack < self.old.stack_places }
        ensures { self.new ≡ record self.old { stack = self.old.stack ++ (node, memo) ∷ [] } }
    {
        self.stack.push_reserved((node, memo));
    }

    /// Adds a copy of a found pair; there must be room. `add` would copy it once more, since it
    /// takes the pair's parts.
    pub(crate) fn add_copy(&mut self, pair: &(u64, I))
        requires { length self.old.found < self.old.found_places }
        ensures { self.new ≡ record self.old { found = self.old.found ++ pair.now ∷ [] } }
    {
        self.found.push_reserved(*pair);
    }

    /// Adds a found pair; there must be room.
    pub fn add(&mut self, key: u64, item: I)
        requires { length self.old.found < self.old.found_places }
        ensures { self.new ≡ record self.old { found = self.old.found ++ (key, item) ∷ [] } }
    {
        self.found.push_reserved((key, item));
    }
}
