//! How a walk begins.

ghost use Rattle.std.specs.Prelude.{◌≡◌, false};

use crate::tree::Tree;
use crate::walk::Walk;
use std::alloc::Allocator;
use tree_theory::KeyClass;

impl<C: KeyClass, A: Allocator> Tree<C, A> {
    /// A walk for the pair of this number and item, at the root and with no step made. The tree is
    /// unchanged.
    pub fn start_walk(&self, key: u64, item: C::Item) -> Walk<C::Item>
        ensures { result
            ≡ record { key = key; item = item; at = self.now.root; steps = 0; placed = false } }
    {
        Walk::at_root(key, item, self.root)
    }
}
