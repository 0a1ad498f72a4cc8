//! A right node gets its entry.

ghost use Rattle.std.specs.Prelude.{◌≡◌, ◌+◌};
ghost use Rattle.search_tree.specs.Calls.{SameContents};
ghost use Rattle.search_tree.specs.Tends.{HasTended, MayInstall};
ghost use Rattle.search_tree.specs.Trees.{tree_of};
ghost use Rattle.tree_theory.specs.Changes.{IsInstalled};

use crate::tree::Tree;
use node_arena::Handle;
use std::alloc::Allocator;
use tree_answers::Tending;
use tree_nodes::{push_entry, set_key, set_place, set_seq};
use tree_theory::{KeyClass, Position};

/// A new entry for a right node, and the new key of its left node's entry, which is at index
/// `place` of the parent.
#[derive(Clone, Copy)]
pub(crate) struct NewEntry<K> {
    pub(crate) parent: Handle,
    pub(crate) place: usize,
    pub(crate) left: Handle,
    pub(crate) left_key: K,
    pub(crate) right: Handle,
    pub(crate) right_key: K,
}

impl<C: KeyClass, A: Allocator> Tree<C, A> {
    /// Gives a right node its entry. The left node loses its mark, and gets the counter's next
    /// value as its number: so a search with a lesser memo still goes on to the right node.
    pub(crate) fn install(&mut self, entry: &NewEntry<C::Key>, seq: u64)
        requires may { MayInstall C.class self.old entry.now }
        requires seq { seq ≡ self.old.counter + 1 }
        ensures tended { HasTended C.class self.old self.new Tending.Installed }
        ensures contents { SameContents C.class self.old self.new }
        ensures step { IsInstalled (tree_of C.class self.old)
            (tree_of C.class self.new) entry.now.parent entry.now.left entry.now.right }
    {
        let place = Position::Linked {
            parent: entry.parent,
            marked: false,
        };
        set_key(&mut self.nodes, entry.parent, entry.place, entry.left_key);
        push_entry(&mut self.nodes, entry.parent, entry.right_key, entry.right);
        set_place(&mut self.nodes, entry.left, place);
        set_seq(&mut self.nodes, entry.left, seq);
        set_place(&mut self.nodes, entry.right, place);
        self.counter = seq;
    }
}
