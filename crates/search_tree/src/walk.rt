//! A walk: a pair on its way to its leaf.

ghost use Rattle.std.specs.Prelude.{◌≡◌, ◌<◌, false};
ghost use Rattle.predicate_locks.specs.Searches.{last_number};
ghost use Rattle.node_arena.specs.declared.handle.Handle.{Handle};

use node_arena::Handle;
use std::marker::Model;
use tree_answers::Step;

/// A pair on its way from the root to its leaf. Only the caller keeps it: the tree does not know
/// its walks. Between two steps it is at a node.
#[derive(Drop)]
pub struct Walk<I> {
    key: u64,
    item: I,
    at: Handle,
    steps: u64,
    placed: bool,
}

impl<I> Model for Walk<I> {
    ghost use Rattle.search_tree.specs.Trees.{PlainWalk};

    ghost Value = { PlainWalk I };

    ghost view = { λ w. record {
      key = w.key;
      item = w.item;
      at = w.at;
      steps = w.steps;
      placed = w.placed;
    } };
}

impl<I: Copy> Walk<I> {
    ghost use Rattle.search_tree.specs.Advances.{HasStepped};

    /// A walk at the root that has made no step.
    pub(crate) fn at_root(key: u64, item: I, root: Handle) -> Self
        ensures { result ≡ record { key = key; item = item; at = root; steps = 0; placed = false } }
    {
        Walk {
            key,
            item,
            at: root,
            steps: 0,
            placed: false,
        }
    }

    /// The slot of the node where the walk is.
    pub fn slot(&self) -> u32
        ensures { result ≡ self.now.at.slot }
    {
        self.at.slot
    }

    /// Whether its pair is placed.
    pub fn placed(&self) -> bool
        ensures { result ≡ self.now.placed }
    {
        self.placed
    }

    /// The number of its pair.
    pub fn key(&self) -> u64
        ensures { result ≡ self.now.key }
    {
        self.key
    }

    /// The item of its pair.
    pub fn item(&self) -> I
        ensures { result ≡ self.now.item }
    {
        self.item
    }

    /// The node where the walk is.
    pub(crate) fn at(&self) -> Handle
        ensures { result ≡ self.now.at }
    {
        self.at
    }

    /// How many steps it has made.
    pub(crate) fn steps(&self) -> u64
        ensures { result ≡ self.now.steps }
    {
        self.steps
    }

    /// Records one step: what it returned, and the node where the walk is now.
    pub(crate) fn count(&mut self, step: Step, at: Handle)
        requires { self.old.steps < last_number }
        ensures step { HasStepped self.old self.new step }
        ensures at { self.new.at ≡ at }
    {
        self.at = at;
        self.steps += 1;
        self.placed = matches!(step, Step::Placed);
    }
}
