//! The tree: its parts, and how an empty one is made.

ghost use Rattle.std.specs.Prelude.{◌≡◌, ◌≤◌, [], IfOk, IfErr};
ghost use Rattle.memory.specs.NoMemory.{out_of_memory};
ghost use Rattle.node_arena.specs.Slots.{slot_count, taken_count, IsGiven, CountsGiven};
ghost use Rattle.search_tree.specs.Trees.{IsFirst};

use memory::NoMemory;
use node_arena::{Arena, ArenaFault, Handle};
use predicate_locks::Running;
use std::alloc::Allocator;
use std::marker::Model;
use tree_answers::{MAX_STEPS, TreeFault};
use tree_nodes::{Progress, TreeNode, refusal_in};
use tree_theory::KeyClass;

/// An index of items under keys of the class `C`, in which searches and walks go on at the same
/// time, step by step.
#[derive(Drop)]
pub struct Tree<C: KeyClass, A: Allocator> {
    pub(crate) alloc: A,
    pub(crate) nodes: Arena<TreeNode<C::Key, C::Item, A>, A>,
    pub(crate) root: Handle,
    /// It rises at each install and each retiring.
    pub(crate) counter: u64,
    pub(crate) running: Running<C::Query, A>,
    /// The progress of each running search.
    pub(crate) progress: Vec<Progress<C::Item, A>, A>,
    /// The most steps of each search and walk; at most `MAX_STEPS`.
    pub(crate) limit: u64,
}

impl<C: KeyClass, A: Allocator> Model for Tree<C, A> {
    ghost use Rattle.search_tree.specs.Trees.{PlainTree, IsSound};

    ghost Value = { PlainTree C.Key C.Query C.Item };

    ghost view = { λ t. record {
      nodes = t.nodes;
      root = t.root;
      counter = t.counter;
      running = t.running;
      progress = t.progress.items;
      limit = t.limit;
    } };

    ghost invariant = { λ t. IsSound C.class (record {
      nodes = t.nodes;
      root = t.root;
      counter = t.counter;
      running = t.running;
      progress = t.progress.items;
      limit = t.limit;
    }) };
}

impl<C: KeyClass, A: Allocator + Copy> Tree<C, A> {
    /// A tree with no pairs and no searches. S8 where an allocation is refused.
    pub fn new(alloc: A) -> Result<Self, TreeFault>
        ensures ok { IfOk result (IsFirst C.class 0 0 1 MAX_STEPS) }
        ensures memory { IfErr result (λ fault. fault ≡ TreeFault.Memory out_of_memory) }
    {
        Self::starting_at(alloc, 0, 0, 1, MAX_STEPS)
    }

    /// As `new`, but slots start at this generation, the counter at `counter` and the numbers of
    /// searches at `search`, and each search and walk makes at most `steps` steps.
    pub fn starting_at(
        alloc: A,
        generation: u32,
        counter: u64,
        search: u64,
        steps: u64,
    ) -> Result<Self, TreeFault>
        requires { steps ≤ MAX_STEPS }
        ensures ok { IfOk result (IsFirst C.class generation counter search steps) }
        ensures memory { IfErr result (λ fault. fault ≡ TreeFault.Memory out_of_memory) }
    {
        let first = TreeNode::first(alloc, counter)?;
        let running = no_searches(alloc, search)?;
        let mut nodes = Arena::starting_at(alloc, generation);
        let root = plant(&mut nodes, first)?;
        Ok(Tree {
            alloc,
            nodes,
            root,
            counter,
            running,
            progress: Vec::new(alloc),
            limit: steps,
        })
    }
}

impl<C: KeyClass, A: Allocator> Tree<C, A> {
    /// How many slots the tree has used so far. The slot of every node is below this number.
    pub fn slots(&self) -> u32
        ensures value { result ≡ slot_count self.now.nodes }
        ensures taken { taken_count self.now.nodes ≤ result }
    {
        self.nodes.slots()
    }
}

/// No running searches, with room for `MAX_RUNNING`; the first gets the number `first`.
fn no_searches<Q: Copy, A: Allocator>(alloc: A, first: u64) -> Result<Running<Q, A>, NoMemory>
    ensures { IfOk result (λ made. made ≡ record { running = []; next = first }) }
{
    match Running::new(alloc, first) {
        Ok(running) => Ok(running),
        Err(fault) => Err(refusal_in(fault)),
    }
}

/// Puts the first node into an empty arena.
fn plant<T: Drop, A: Allocator>(nodes: &mut Arena<T, A>, first: T) -> Result<Handle, NoMemory>
    requires { taken_count nodes.old ≡ 0 }
    ensures ok { IfOk result (λ handle. IsGiven nodes.old nodes.new handle first) }
    ensures counts { IfOk result (CountsGiven nodes.old nodes.new) }
{
    match nodes.insert(first) {
        Ok(handle) => Ok(handle),
        Err((_, ArenaFault::Memory(no_memory))) => Err(no_memory),
        Err(_) => unreachable!(),
    }
}
