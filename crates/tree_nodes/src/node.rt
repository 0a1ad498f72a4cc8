//! A node of the tree.

ghost use Rattle.std.specs.Prelude.{◌≡◌, ◌∷◌, ◌++◌, ◌+◌, ◌<◌, ◌≤◌, [], Some, false, IsTrue, IfOk, OnOk, OnErr, filter, length, map, slice_get, slice_set, remove};
ghost use Rattle.node_arena.specs.declared.handle.Handle.{Handle};
ghost use Rattle.predicate_locks.specs.Numbers.{with_number, with_numbers};
ghost use Rattle.predicate_locks.specs.Searches.{does_run};
ghost use Rattle.predicate_locks.specs.declared.TheConstants.{MAX_ROOM};
ghost use Rattle.tree_theory.specs.Nodes.{PlainNode, entries_of, pairs_of, children_of, size_of, place_under, under};
ghost use Rattle.tree_theory.specs.Nodes.PlainBody.{Leaf, Inner};
ghost use Rattle.tree_theory.specs.declared.TheConstants.{NODE_SIZE, TOP_LEVEL};
ghost use Rattle.tree_nodes.specs.Bodies.{plain_body, IsLeaf, IsInner};
ghost use Rattle.tree_nodes.specs.NewNodes.{below, left_of, right_of, first_leaf};

use crate::entries::{Entries, Pairs};
use crate::refusals::refusal_in;
use memory::NoMemory;
use node_arena::Handle;
use predicate_locks::{Attached, Running};
use std::alloc::Allocator;
use std::marker::Model;
use tree_answers::Keeper;
use tree_theory::{NODE_SIZE, Position};

/// The contents of a node.
#[derive(Drop)]
pub enum Body<K, I, A: Allocator> {
    Pairs(Pairs<I, A>),
    Entries(Entries<K, A>),
}

/// A node: a leaf with pairs, or an inner node with entries for its children.
#[derive(Drop)]
pub struct TreeNode<K, I, A: Allocator> {
    level: u8,
    body: Body<K, I, A>,
    /// The sequence number.
    seq: u64,
    right: Option<Handle>,
    place: Position,
    /// The searches that are done with the node: they have seen it, or have passed it over.
    attached: Attached<A>,
}

impl<K, I, A: Allocator> Model for TreeNode<K, I, A> {
    ghost use Rattle.tree_theory.specs.Nodes.{PlainNode};

    ghost Value = { PlainNode K I };

    ghost use Rattle.tree_nodes.specs.Bodies.{plain_body};

    ghost view = { λ n. record {
      level = n.level;
      body = plain_body n.body;
      seq = n.seq;
      right = n.right;
      place = n.place;
      attached = n.attached.numbers;
    } };
}

impl<K: Copy, I: Copy, A: Allocator> TreeNode<K, I, A> {
    /// The root of a new tree: an empty leaf.
    pub fn first(alloc: A, seq: u64) -> Result<Self, NoMemory>
    where
        A: Copy,
        ensures { IfOk result (λ made. made ≡ first_leaf seq) }
    {
        let pairs = Pairs::with_places(alloc)?;
        Ok(TreeNode {
            level: 0,
            body: Body::Pairs(pairs),
            seq,
            right: None,
            place: Position::Root,
            attached: Attached::new(alloc),
        })
    }

    /// Its level; a leaf's is 0.
    pub fn level(&self) -> u8
        ensures { result ≡ self.now.level }
    {
        self.level
    }

    /// Its sequence number.
    pub(crate) fn seq(&self) -> u64
        ensures { result ≡ self.now.seq }
    {
        self.seq
    }

    /// Its rightlink.
    pub fn right(&self) -> Option<Handle>
        ensures { result ≡ self.now.right }
    {
        self.right
    }

    /// Its place in the tree.
    pub fn place(&self) -> Position
        ensures { result ≡ self.now.place }
    {
        self.place
    }

    /// The searches that are done with it: they have seen it, or have passed it over.
    pub fn attached(&self) -> &Attached<A>
        ensures { result.now.numbers ≡ self.now.attached }
    {
        &self.attached
    }

    /// Whether it is a leaf.
    pub fn is_leaf(&self) -> bool
        ensures leaf { IsTrue result → IsLeaf self.now.body }
        ensures inner { result ≡ false → IsInner self.now.body }
    {
        match &self.body {
            Body::Pairs(_) => true,
            Body::Entries(_) => false,
        }
    }

    /// How many pairs or entries it has.
    pub fn size(&self) -> usize
        ensures value { result ≡ size_of self.now.body }
        ensures most { size_of self.now.body ≤ NODE_SIZE }
    {
        match &self.body {
            Body::Pairs(pairs) => pairs.len(),
            Body::Entries(entries) => entries.len(),
        }
    }

    /// Whether it has `NODE_SIZE` pairs or entries.
    pub fn is_full(&self) -> bool
        ensures full { IsTrue result → size_of self.now.body ≡ NODE_SIZE }
        ensures room { result ≡ false → size_of self.now.body < NODE_SIZE }
    {
        self.size() == NODE_SIZE
    }

    /// The pairs of a leaf, and none of an inner node.
    pub fn pairs(&self) -> &[(u64, I)]
        ensures value { result.now ≡ pairs_of self.now.body }
        ensures most { length (pairs_of self.now.body) ≤ NODE_SIZE }
    {
        match &self.body {
            Body::Pairs(pairs) => pairs.pairs(),
            Body::Entries(_) => &[],
        }
    }

    /// The keys of an inner node's entries, and none of a leaf.
    pub fn keys(&self) -> &[K]
        ensures value { result.now ≡ map (λ entry. entry.0) (entries_of self.now.body) }
        ensures most { length (entries_of self.now.body) ≤ NODE_SIZE }
    {
        match &self.body {
            Body::Pairs(_) => &[],
            Body::Entries(entries) => entries.keys(),
        }
    }

    /// The children of an inner node, and none of a leaf.
    pub fn children(&self) -> &[Handle]
        ensures value { result.now ≡ children_of self.now.body }
        ensures most { length (entries_of self.now.body) ≤ NODE_SIZE }
    {
        match &self.body {
            Body::Pairs(_) => &[],
            Body::Entries(entries) => entries.children(),
        }
    }

    /// Gives it another sequence number.
    pub(crate) fn set_seq(&mut self, seq: u64)
        ensures { self.new ≡ record self.old { seq = seq } }
    {
        self.seq = seq;
    }

    /// Gives it another place.
    pub(crate) fn set_place(&mut self, place: Position)
        ensures { self.new ≡ record self.old { place = place } }
    {
        self.place = place;
    }

    /// Becomes the marked left one of two nodes under this parent: keeps this part of its contents.
    pub(crate) fn become_left(&mut self, parent: Handle, right: Handle, body: Body<K, I, A>)
        ensures { self.new ≡ left_of self.old parent right (plain_body body) }
    {
        self.body = body;
        self.right = Some(right);
        self.place = Position::Linked {
            parent,
            marked: true,
        };
    }

    /// Rises by one level, and has these entries in place of its contents.
    pub(crate) fn rise(&mut self, entries: Entries<K, A>)
        requires { self.old.level < TOP_LEVEL }
        ensures { self.new ≡ record self.old { level = self.old.level + 1; body = Inner entries } }
    {
        self.level += 1;
        self.body = Body::Entries(entries);
    }

    /// Gives it another parent if it is linked; any other place stays.
    pub(crate) fn set_parent(&mut self, parent: Handle)
        ensures { self.new ≡ under parent self.old }
    {
        self.place = place_below(self.place, parent);
    }

    /// A new right node with this part of its contents, and its level, number, rightlink and
    /// attached searches. No entry names the new node yet.
    pub fn right_half(&self, at: Handle, body: Body<K, I, A>) -> Result<Self, NoMemory>
    where
        A: Copy,
        ensures { IfOk result (λ made. made ≡ right_of self.now at (plain_body body)) }
    {
        let attached = same_numbers(&self.attached)?;
        Ok(TreeNode {
            level: self.level,
            body,
            seq: self.seq,
            right: self.right,
            place: Position::Unlinked { left: at },
            attached,
        })
    }

    /// A new node to be linked below this one, with this part of its contents and its level and
    /// attached searches, the number `seq` and no rightlink.
    pub fn lower_half(&self, at: Handle, seq: u64, body: Body<K, I, A>) -> Result<Self, NoMemory>
    where
        A: Copy,
        ensures { IfOk result (λ made. made ≡ below self.now at seq (plain_body body)) }
    {
        let attached = same_numbers(&self.attached)?;
        Ok(TreeNode {
            level: self.level,
            body,
            seq,
            right: None,
            place: Position::Linked {
                parent: at,
                marked: false,
            },
            attached,
        })
    }

    /// Adds a pair to a leaf with room.
    pub(crate) fn push_pair(&mut self, key: u64, item: I)
        requires leaf { IsLeaf self.old.body }
        requires room { size_of self.old.body < NODE_SIZE }
        ensures { self.new
            ≡ record self.old { body = Leaf (pairs_of self.old.body ++ (key, item) ∷ []) } }
    {
        match &mut self.body {
            Body::Pairs(pairs) => pairs.push(key, item),
            Body::Entries(_) => unreachable!(),
        }
    }

    /// Adds an entry to an inner node with room.
    pub(crate) fn push_entry(&mut self, key: K, child: Handle)
        requires inner { IsInner self.old.body }
        requires room { size_of self.old.body < NODE_SIZE }
        ensures { self.new
            ≡ record self.old { body = Inner (entries_of self.old.body ++ (key, child) ∷ []) } }
    {
        match &mut self.body {
            Body::Pairs(_) => unreachable!(),
            Body::Entries(entries) => entries.push(key, child),
        }
    }

    /// Gives an entry another key.
    pub(crate) fn set_key(&mut self, place: usize, key: K)
        requires inner { IsInner self.old.body }
        requires place { place < size_of self.old.body }
        ensures { (old : K) (child : Handle)
            → slice_get (entries_of self.old.body) place ≡ Some (old, child)
            → self.new ≡ record self.old
            { body = Inner (slice_set (entries_of self.old.body) place (key, child)) } }
    {
        match &mut self.body {
            Body::Pairs(_) => unreachable!(),
            Body::Entries(entries) => entries.set_key(place, key),
        }
    }

    /// Removes an entry.
    pub(crate) fn remove_entry(&mut self, place: usize)
        requires inner { IsInner self.old.body }
        requires place { place < size_of self.old.body }
        ensures { self.new
            ≡ record self.old { body = Inner (remove (entries_of self.old.body) place) } }
    {
        match &mut self.body {
            Body::Pairs(_) => unreachable!(),
            Body::Entries(entries) => entries.remove(place),
        }
    }

    /// Removes the pairs of a leaf that the keeper does not keep.
    pub(crate) fn keep<T: Keeper<I>>(&mut self, keeper: &T)
        requires { IsLeaf self.old.body }
        ensures { self.new
            ≡ record self.old {
              body = Leaf (filter (λ pair. T.kept keeper.now pair.0 pair.1)
                  (pairs_of self.old.body));
            } }
    {
        match &mut self.body {
            Body::Pairs(pairs) => pairs.keep(keeper),
            Body::Entries(_) => unreachable!(),
        }
    }

    /// Attaches a search, and removes numbers that do not run. Nothing changes where an allocation
    /// is refused.
    pub(crate) fn attach<Q: Copy, B: Allocator>(
        &mut self,
        running: &Running<Q, B>,
        search: u64,
    ) -> Result<(), NoMemory>
    where
        A: Copy,
        ensures ok { OnOk result
            (self.new ≡ record self.old
            { attached = filter (does_run running.now) (with_number search self.old.attached) }) }
        ensures err { OnErr result (self.new ≡ self.old) }
    {
        match self.attached.attach(search) {
            Ok(()) => {
                self.attached.prune(running);
                Ok(())
            }
            Err(fault) => Err(refusal_in(fault)),
        }
    }

    /// The list for `set_attached`: its attached searches with these added, without the numbers
    /// that do not run.
    pub(crate) fn joined<Q: Copy, B: Allocator>(
        &self,
        running: &Running<Q, B>,
        searches: &[u64],
    ) -> Result<Attached<A>, NoMemory>
    where
        A: Copy,
        requires { length searches.now ≤ MAX_ROOM }
        ensures { IfOk result
            (λ list. list.numbers
            ≡ filter (does_run running.now) (with_numbers searches.now self.now.attached)) }
    {
        let mut list = same_numbers(&self.attached)?;
        match list.attach_all(searches) {
            Ok(()) => {
                list.prune(running);
                Ok(list)
            }
            Err(fault) => Err(refusal_in(fault)),
        }
    }

    /// Replaces its attached searches by this list.
    pub(crate) fn set_attached(&mut self, list: Attached<A>)
        ensures { self.new ≡ record self.old { attached = list.numbers } }
    {
        self.attached = list;
    }
}

/// The place with another parent if it is linked; any other place is the same.
fn place_below(place: Position, parent: Handle) -> Position
    ensures { result ≡ place_under parent place }
{
    match place {
        Position::Linked { marked, .. } => Position::Linked { parent, marked },
        Position::Root => Position::Root,
        Position::Unlinked { left } => Position::Unlinked { left },
        Position::Retired { stamp } => Position::Retired { stamp },
    }
}

/// A copy of the attached numbers.
fn same_numbers<A: Allocator + Copy>(attached: &Attached<A>) -> Result<Attached<A>, NoMemory>
    ensures { IfOk result (λ made. made.numbers ≡ attached.now.numbers) }
{
    match attached.copy() {
        Ok(copy) => Ok(copy),
        Err(fault) => Err(refusal_in(fault)),
    }
}
