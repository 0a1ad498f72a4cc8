//! The full root grows.

ghost use Rattle.std.specs.Prelude.{◌≡◌, ◌≢◌, ◌↔◌, ◌⊎◌, ◌+◌, ◌<◌, ◌≤◌, [], Err, IfOk, IfErr, OnOk, OnErr};
ghost use Rattle.memory.specs.NoMemory.{out_of_memory};
ghost use Rattle.node_arena.specs.Slots.{value_at, taken_count, HasRoomFor};
ghost use Rattle.node_arena.specs.declared.TheConstants.{MAX_SLOTS};
ghost use Rattle.tree_nodes.specs.Arenas.{AreSame};
ghost use Rattle.tree_nodes.specs.Bodies.{plain_body};
ghost use Rattle.search_tree.specs.Calls.{IsUntouched};
ghost use Rattle.search_tree.specs.Splitting.{HasGrown, HasMoreNodes, HasPutBelow, IsFullRoot, IsLower, MayGrow, MayRise};
ghost use Rattle.tree_nodes.specs.NewNodes.{below};
ghost use Rattle.search_tree.specs.Trees.{level_of, root_level};
ghost use Rattle.tree_theory.specs.Nodes.{size_of};
ghost use Rattle.tree_theory.specs.declared.TheConstants.{TOP_LEVEL};

use crate::splitting::make_slots;
use crate::tree::Tree;
use memory::{NoMemory, copied};
use node_arena::Handle;
use std::alloc::Allocator;
use tree_answers::TreeFault;
use tree_nodes::{Body, Entries, Halves, Nodes, TreeNode, key_for, put_over, rise, shared_out};
use tree_theory::{KeyClass, TOP_LEVEL};

/// A new node to be put below the root, with the key of its entry and the handles of its children.
#[derive(Drop)]
struct Lower<K, I, A: Allocator> {
    key: K,
    children: Vec<Handle, A>,
    node: TreeNode<K, I, A>,
}

impl<C: KeyClass, A: Allocator + Copy> Tree<C, A> {
    /// Moves the contents of the full root into two new nodes, each with a part and with the root's
    /// attached searches. The root then has their two entries, and is one level higher.
    ///
    /// S4 where fewer than two slots are left, else S5 where the root is at `TOP_LEVEL`: nothing
    /// changes. Else S8 where an allocation is refused: only spare capacity may grow.
    pub(crate) fn grow(&mut self) -> Result<(), TreeFault>
        requires { MayGrow C.class self.old }
        ensures ok { OnOk result (HasMoreNodes C.class self.old self.new 2 1) }
        ensures grown { OnOk result (HasGrown C.class C.picks self.old.nodes self.new.nodes
            self.old.root self.old.counter) }
        ensures full { (result ≡ Err TreeFault.Full)
            ↔ (MAX_SLOTS < taken_count self.old.nodes + 2) }
        ensures too_high { (result ≡ Err TreeFault.TooHigh)
            ↔ ((taken_count self.old.nodes + 2 ≤ MAX_SLOTS) × (root_level self.old ≡ TOP_LEVEL)) }
        ensures untouched { (result ≡ Err TreeFault.Full) ⊎ (result ≡ Err TreeFault.TooHigh)
            → self.new ≡ self.old }
        ensures faults { IfErr result
            (λ fault. (fault ≡ TreeFault.TooHigh) ⊎ (fault ≡ TreeFault.Full)
            ⊎ (fault ≡ TreeFault.Memory out_of_memory)) }
        ensures err { OnErr result (IsUntouched C.class self.old self.new) }
    {
        grow_in::<C, A>(&mut self.nodes, self.alloc, self.root, self.counter)
    }
}

/// Grows a full root. On an error no node has changed.
fn grow_in<C: KeyClass, A: Allocator + Copy>(
    nodes: &mut Nodes<C::Key, C::Item, A>,
    alloc: A,
    root: Handle,
    seq: u64,
) -> Result<(), TreeFault>
    requires { IsFullRoot nodes.old root }
    ensures ok { OnOk result (HasGrown C.class C.picks nodes.old nodes.new root seq) }
    ensures full { (result ≡ Err TreeFault.Full) ↔ (MAX_SLOTS < taken_count nodes.old + 2) }
    ensures too_high { (result ≡ Err TreeFault.TooHigh)
        ↔ ((taken_count nodes.old + 2 ≤ MAX_SLOTS)
        × (level_of (value_at nodes.old root) ≡ TOP_LEVEL)) }
    ensures untouched { (result ≡ Err TreeFault.Full) ⊎ (result ≡ Err TreeFault.TooHigh)
        → nodes.new ≡ nodes.old }
    ensures faults { IfErr result
        (λ fault. (fault ≡ TreeFault.TooHigh) ⊎ (fault ≡ TreeFault.Full)
        ⊎ (fault ≡ TreeFault.Memory out_of_memory)) }
    ensures err { OnErr result (AreSame nodes.old nodes.new) }
{
    if !nodes.has_room(2) {
        return Err(TreeFault::Full);
    }
    if level_at(nodes, root) == TOP_LEVEL {
        return Err(TreeFault::TooHigh);
    }
    make_slots(nodes, 2)?;
    grow_root::<C, A>(nodes, alloc, root, seq)?;
    Ok(())
}

/// The level of a node; 0 where the handle names none.
fn level_at<K: Copy, I: Copy, A: Allocator>(nodes: &Nodes<K, I, A>, at: Handle) -> u8
    ensures { result ≡ level_of (value_at nodes.now at) }
{
    match nodes.get(at) {
        Some(node) => node.level(),
        None => 0,
    }
}

/// Grows a full root below `TOP_LEVEL`, where two slots are reserved. Everything that allocates
/// comes before the first change.
fn grow_root<C: KeyClass, A: Allocator + Copy>(
    nodes: &mut Nodes<C::Key, C::Item, A>,
    alloc: A,
    root: Handle,
    seq: u64,
) -> Result<(), NoMemory>
    requires full { IsFullRoot nodes.old root }
    requires level { level_of (value_at nodes.old root) ≢ TOP_LEVEL }
    requires room { HasRoomFor nodes.old 2 }
    ensures ok { OnOk result (HasGrown C.class C.picks nodes.old nodes.new root seq) }
    ensures err { OnErr result (AreSame nodes.old nodes.new) }
{
    let Some(node) = nodes.get(root) else {
        unreachable!();
    };
    let Halves { left, right } = shared_out::<C, A>(node, alloc)?;
    let one = lower_half::<C, A>(node, root, seq, left, alloc)?;
    let two = lower_half::<C, A>(node, root, seq, right, alloc)?;
    let entries = Entries::with_places(alloc)?;
    put_below::<C, A>(nodes, root, one, two, entries);
    Ok(())
}

/// Puts two nodes below the root, whose only entries are then theirs.
fn put_below<C: KeyClass, A: Allocator + Copy>(
    nodes: &mut Nodes<C::Key, C::Item, A>,
    root: Handle,
    one: Lower<C::Key, C::Item, A>,
    two: Lower<C::Key, C::Item, A>,
    mut entries: Entries<C::Key, A>,
)
    requires none { entries ≡ [] }
    requires room { HasRoomFor nodes.old 2 }
    requires rise { MayRise nodes.old root }
    ensures { HasPutBelow nodes.old nodes.new root one.node one.children.items one.key two.node
        two.children.items two.key }
{
    let Lower {
        key,
        children,
        node,
    } = one;
    let first = put_over(nodes, node, &children);
    entries.push(key, first);
    let Lower {
        key,
        children,
        node,
    } = two;
    let second = put_over(nodes, node, &children);
    entries.push(key, second);
    rise(nodes, root, entries);
}

/// A new node with this part of the root's contents.
fn lower_half<C: KeyClass, A: Allocator + Copy>(
    node: &TreeNode<C::Key, C::Item, A>,
    root: Handle,
    seq: u64,
    body: Body<C::Key, C::Item, A>,
    alloc: A,
) -> Result<Lower<C::Key, C::Item, A>, NoMemory>
    requires { 0 < size_of (plain_body body) }
    ensures { IfOk result (λ made. IsLower C.class
        (below node.now root seq (plain_body body)) made.node made.children.items made.key) }
{
    let node = node.lower_half(root, seq, body)?;
    let children = copied(alloc, node.children())?;
    let key = key_for::<C, A>(&node, C::whole());
    Ok(Lower {
        key,
        children,
        node,
    })
}
