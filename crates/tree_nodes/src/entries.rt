//! The entries of an inner node, and the pairs of a leaf. Each list has room for a full node from
//! the start, so it never grows.

ghost use Rattle.std.specs.Prelude.{◌≡◌, ◌∷◌, ◌++◌, ◌<◌, ◌≤◌, [], ℕ, Some, IfOk, filter, length, map, slice_get, slice_set, remove, vec_capacity};
ghost use Rattle.node_arena.specs.declared.handle.Handle.{Handle};
ghost use Rattle.tree_theory.specs.declared.TheConstants.{NODE_SIZE};

use memory::{GrowVec, NoMemory, vec_with_slots};
use node_arena::Handle;
use std::alloc::Allocator;
use std::marker::Model;
use tree_answers::Keeper;
use tree_theory::NODE_SIZE;

/// The entries of an inner node: a key for each child. Keys and children are two lists, so that a
/// search reads the keys alone.
#[derive(Drop)]
pub struct Entries<K, A: Allocator> {
    keys: Vec<K, A>,
    children: Vec<Handle, A>,
}

impl<K, A: Allocator> Model for Entries<K, A> {
    ghost use Rattle.std.specs.Prelude.{List, zip, vec_capacity};
    ghost use Rattle.node_arena.specs.declared.handle.Handle.{Handle};
    ghost use Rattle.tree_nodes.specs.Rooms.{AreAligned};

    ghost Value = { List (K × Handle) };

    ghost view = { λ e. zip e.keys.items e.children.items };

    ghost invariant = { λ e. AreAligned e.keys.items e.children.items (vec_capacity e.keys)
        (vec_capacity e.children) };
}

impl<K: Copy, A: Allocator> Entries<K, A> {
    /// No entries, with room for a full node.
    pub fn with_places(alloc: A) -> Result<Self, NoMemory>
    where
        A: Copy,
        ensures { IfOk result (λ made. made ≡ []) }
    {
        let keys = vec_with_slots(alloc, NODE_SIZE)?;
        let children = vec_with_slots(alloc, NODE_SIZE)?;
        Ok(Entries { keys, children })
    }

    /// How many there are.
    pub(crate) fn len(&self) -> usize
        ensures value { result ≡ length self.now }
        ensures most { length self.now ≤ NODE_SIZE }
    {
        self.keys.len()
    }

    /// The keys, in order.
    pub(crate) fn keys(&self) -> &[K]
        ensures value { result.now ≡ map (λ entry. entry.0) self.now }
        ensures most { length self.now ≤ NODE_SIZE }
    {
        &self.keys
    }

    /// The children, in order.
    pub(crate) fn children(&self) -> &[Handle]
        ensures value { result.now ≡ map (λ entry. entry.1) self.now }
        ensures most { length self.now ≤ NODE_SIZE }
    {
        &self.children
    }

    /// Adds an entry, for which there is room.
    pub fn push(&mut self, key: K, child: Handle)
        requires { length self.old < NODE_SIZE }
        ensures { self.new ≡ self.old ++ (key, child) ∷ [] }
    {
        self.keys.push_reserved(key);
        self.children.push_reserved(child);
    }

    /// Gives an entry another key.
    pub(crate) fn set_key(&mut self, place: usize, key: K)
        requires { place < length self.old }
        ensures { (old : K) (child : Handle) → slice_get self.old place ≡ Some (old, child)
            → self.new ≡ slice_set self.old place (key, child) }
    {
        self.keys[place] = key;
    }

    /// Removes an entry.
    pub(crate) fn remove(&mut self, place: usize)
        requires { place < length self.old }
        ensures { self.new ≡ remove self.old place }
    {
        self.keys.remove(place);
        self.children.remove(place);
    }
}

/// The pairs of a leaf: a number and an item each.
#[derive(Drop)]
pub struct Pairs<I, A: Allocator> {
    pairs: Vec<(u64, I), A>,
}

impl<I, A: Allocator> Model for Pairs<I, A> {
    ghost use Rattle.std.specs.Prelude.{ℕ, List, vec_capacity};
    ghost use Rattle.tree_nodes.specs.Rooms.{FitsNode};

    ghost Value = { List (ℕ × I) };

    ghost view = { λ p. p.pairs.items };

    ghost invariant = { λ p. FitsNode p.pairs.items (vec_capacity p.pairs) };
}

impl<I: Copy, A: Allocator> Pairs<I, A> {
    /// No pairs, with room for a full leaf.
    pub(crate) fn with_places(alloc: A) -> Result<Self, NoMemory>
        ensures { IfOk result (λ made. made ≡ []) }
    {
        let pairs = vec_with_slots(alloc, NODE_SIZE)?;
        Ok(Pairs { pairs })
    }

    /// How many there are.
    pub(crate) fn len(&self) -> usize
        ensures value { result ≡ length self.now }
        ensures most { length self.now ≤ NODE_SIZE }
    {
        self.pairs.len()
    }

    /// The pairs, in order.
    pub(crate) fn pairs(&self) -> &[(u64, I)]
        ensures value { result.now ≡ self.now }
        ensures most { length self.now ≤ NODE_SIZE }
    {
        &self.pairs
    }

    /// Adds a pair, for which there is room.
    pub(crate) fn push(&mut self, key: u64, item: I)
        requires { length self.old < NODE_SIZE }
        ensures { self.new ≡ self.old ++ (key, item) ∷ [] }
    {
        self.pairs.push_reserved((key, item));
    }

    /// Removes the pairs that the keeper does not keep.
    pub(crate) fn keep<K: Keeper<I>>(&mut self, keeper: &K)
        ensures { self.new ≡ filter (λ pair. K.kept keeper.now pair.0 pair.1) self.old }
    {
        sift(&mut self.pairs, keeper);
    }
}

/// Removes the pairs that the keeper does not keep.
fn sift<I: Copy, K: Keeper<I>, A: Allocator>(pairs: &mut Vec<(u64, I), A>, keeper: &K)
    ensures kept { pairs.new.items
        ≡ filter (λ pair. K.kept keeper.now pair.0 pair.1) pairs.old.items }
    ensures fewer { length pairs.new.items ≤ length pairs.old.items }
    ensures places { vec_capacity pairs.new ≡ vec_capacity pairs.old }
{
    pairs.retain(|pair| keeper.keeps(pair.0, &pair.1));
}
