//! A full node splits.

ghost use Rattle.std.specs.Prelude.{◌≡◌, ◌↔◌, ◌⊎◌, ◌+◌, ◌<◌, ◌≤◌, Some, Err, IfOk, IfErr, OnOk, OnErr};
ghost use Rattle.memory.specs.NoMemory.{out_of_memory};
ghost use Rattle.node_arena.specs.Slots.{value_at, taken_count, HasRoomFor};
ghost use Rattle.node_arena.specs.declared.TheConstants.{MAX_SLOTS, MOST_RESERVED};
ghost use Rattle.tree_nodes.specs.Arenas.{AreSame};
ghost use Rattle.search_tree.specs.Calls.{IsUntouched};
ghost use Rattle.search_tree.specs.Splitting.{HasMoreNodes, HasSplit, IsFullLinked, MaySplit};
ghost use Rattle.tree_nodes.specs.Descents.{marked_right as right_of_marked};

use crate::tree::Tree;
use memory::{NoMemory, copied};
use node_arena::{ArenaFault, Handle};
use std::alloc::Allocator;
use tree_answers::TreeFault;
use tree_nodes::{Halves, Nodes, leave_left, parent_of, put_over, shared_out};
use tree_theory::KeyClass;

impl<C: KeyClass, A: Allocator + Copy> Tree<C, A> {
    /// Splits a full node that is linked and not marked, and returns its new right node. The right
    /// node has a part of the node's contents, its number, its rightlink and its attached searches;
    /// no entry names it yet. The node is marked, and its rightlink leads to the right node.
    ///
    /// S4 where no slot is left: nothing changes. S8 where an allocation is refused: only spare
    /// capacity may grow.
    pub(crate) fn split(&mut self, at: Handle) -> Result<Handle, TreeFault>
        requires { MaySplit C.class self.old at }
        ensures ok { OnOk result (HasMoreNodes C.class self.old self.new 1 0) }
        ensures right { IfOk result
            (λ right. right_of_marked (value_at self.new.nodes at) ≡ Some right) }
        ensures parted { IfOk result (HasSplit C.class.key_of C.picks self.old.nodes self.new.nodes
            at) }
        ensures full { (result ≡ Err TreeFault.Full)
            ↔ (MAX_SLOTS < taken_count self.old.nodes + 1) }
        ensures faults { IfErr result
            (λ fault. (fault ≡ TreeFault.Full) ⊎ (fault ≡ TreeFault.Memory out_of_memory)) }
        ensures untouched { result ≡ Err TreeFault.Full → self.new ≡ self.old }
        ensures err { OnErr result (IsUntouched C.class self.old self.new) }
    {
        split_in::<C, A>(&mut self.nodes, self.alloc, at)
    }
}

/// Splits a full linked node. On an error no node has changed.
fn split_in<C: KeyClass, A: Allocator + Copy>(
    nodes: &mut Nodes<C::Key, C::Item, A>,
    alloc: A,
    at: Handle,
) -> Result<Handle, TreeFault>
    requires { IsFullLinked nodes.old at }
    ensures ok { IfOk result (HasSplit C.class.key_of C.picks nodes.old nodes.new at) }
    ensures full { (result ≡ Err TreeFault.Full) ↔ (MAX_SLOTS < taken_count nodes.old + 1) }
    ensures faults { IfErr result
        (λ fault. (fault ≡ TreeFault.Full) ⊎ (fault ≡ TreeFault.Memory out_of_memory)) }
    ensures untouched { result ≡ Err TreeFault.Full → nodes.new ≡ nodes.old }
    ensures err { OnErr result (AreSame nodes.old nodes.new) }
{
    make_slots(nodes, 1)?;
    let right = split_node::<C, A>(nodes, alloc, at)?;
    Ok(right)
}

/// Reserves slots for `more` new nodes. S4 where fewer are left, S8 where an allocation is refused.
pub(crate) fn make_slots<K, I, A: Allocator>(
    nodes: &mut Nodes<K, I, A>,
    more: u32,
) -> Result<(), TreeFault>
    requires { more ≤ MOST_RESERVED }
    ensures ok { OnOk result (HasRoomFor nodes.new more) }
    ensures fits { OnOk result (taken_count nodes.old + more ≤ MAX_SLOTS) }
    ensures full { (result ≡ Err TreeFault.Full) ↔ (MAX_SLOTS < taken_count nodes.old + more) }
    ensures faults { IfErr result
        (λ fault. (fault ≡ TreeFault.Full) ⊎ (fault ≡ TreeFault.Memory out_of_memory)) }
    ensures untouched { OnErr result (nodes.new ≡ nodes.old) }
    ensures same { AreSame nodes.old nodes.new }
{
    match nodes.reserve(more) {
        Ok(()) => Ok(()),
        Err(ArenaFault::Full) => Err(TreeFault::Full),
        Err(ArenaFault::Memory(no_memory)) => Err(TreeFault::Memory(no_memory)),
    }
}

/// Splits a full linked node, where a slot is reserved. Everything that allocates comes before the
/// first change.
fn split_node<C: KeyClass, A: Allocator + Copy>(
    nodes: &mut Nodes<C::Key, C::Item, A>,
    alloc: A,
    at: Handle,
) -> Result<Handle, NoMemory>
    requires full { IsFullLinked nodes.old at }
    requires room { HasRoomFor nodes.old 1 }
    ensures ok { IfOk result (HasSplit C.class.key_of C.picks nodes.old nodes.new at) }
    ensures err { OnErr result (AreSame nodes.old nodes.new) }
{
    let Some(node) = nodes.get(at) else {
        unreachable!();
    };
    let Some(parent) = parent_of(node.place(), false) else {
        unreachable!();
    };
    let Halves { left, right } = shared_out::<C, A>(node, alloc)?;
    let right = node.right_half(at, right)?;
    let moved = copied(alloc, right.children())?;
    let right = put_over(nodes, right, &moved);
    leave_left(nodes, at, parent, right, left);
    Ok(right)
}
