//! One step of a search: what it sees of a node.

ghost use Rattle.std.specs.Prelude.{◌≡◌, ◌≢◌, ◌++◌, ◌+◌, ◌<◌, ◌≤◌, [], OnOk, OnErr, length};
ghost use Rattle.predicate_locks.specs.Searches.{last_number};
ghost use Rattle.tree_nodes.specs.Arenas.{AreSame};
ghost use Rattle.tree_nodes.specs.Progresses.{HasVisitRoom, SameButRoom};
ghost use Rattle.tree_nodes.specs.Visits.{HasChildren, HasMatching, HasSeen, HasVisited};
ghost use Rattle.tree_theory.specs.Nodes.{entries_of, pairs_of, followed, is_followed as follows};
ghost use Rattle.tree_theory.specs.declared.TheConstants.{NODE_SIZE};

use crate::node::TreeNode;
use crate::progress::Progress;
use crate::setters::Nodes;
use memory::NoMemory;
use predicate_locks::Running;
use std::alloc::Allocator;
use tree_theory::{KeyClass, Position, has_bit};

/// Makes one step of a search: removes the last node from its stack, attaches the search to it, and
/// sees its contents. A node that is gone is skipped. Where an allocation is refused, no node
/// changes, and of the progress only spare capacity.
pub fn visit_last<C: KeyClass, A: Allocator + Copy>(
    nodes: &mut Nodes<C::Key, C::Item, A>,
    running: &Running<C::Query, A>,
    progress: &mut Progress<C::Item, A>,
    query: &C::Query,
    counter: u64,
) -> Result<(), NoMemory>
    requires stack { progress.old.stack ≢ [] }
    requires steps { progress.old.steps < last_number }
    ensures ok { OnOk result (HasVisited C.class query.now counter running.now nodes.old nodes.new
        progress.old progress.new) }
    ensures nodes_kept { OnErr result (AreSame nodes.old nodes.new) }
    ensures progress_kept { OnErr result (SameButRoom progress.old progress.new) }
{
    progress.make_room()?;
    let (x, memo) = progress.last();
    match nodes.get_mut(x) {
        Some(node) => {
            node.attach(running, progress.number())?;
            progress.step();
            see::<C, A>(progress, node, query, memo, counter);
        }
        None => progress.step(),
    }
    Ok(())
}

/// A search with this memo sees a node: it adds the right node (if it follows) and the children of
/// consistent entries to its stack, and the matching pairs to what it has found.
fn see<C: KeyClass, A: Allocator>(
    progress: &mut Progress<C::Item, A>,
    node: &TreeNode<C::Key, C::Item, A>,
    query: &C::Query,
    memo: u64,
    counter: u64,
)
    requires { HasVisitRoom progress.old }
    ensures { HasSeen C.class query.now counter memo node.now progress.old progress.new }
{
    go_right(progress, node, memo);
    push_children::<C, A>(progress, node, query, counter);
    add_matching::<C, A>(progress, node, query);
}

/// Puts the right node on the stack if a search with this memo follows to it.
fn go_right<K: Copy, I: Copy, A: Allocator>(
    progress: &mut Progress<I, A>,
    node: &TreeNode<K, I, A>,
    memo: u64,
)
    requires { length progress.old.stack < progress.old.stack_places }
    ensures { progress.new
        ≡ record progress.old { stack = progress.old.stack ++ followed node.now memo } }
{
    if is_followed(node.place(), node.seq(), memo) {
        if let Some(right) = node.right() {
            progress.push(right, memo);
        }
    }
}

/// Whether a search with this memo follows from a node to its right node.
fn is_followed(place: Position, seq: u64, memo: u64) -> bool
    ensures { result ≡ follows place seq memo }
{
    matches!(place, Position::Linked { marked: true, .. }) || memo < seq
}

/// Puts the children of consistent entries on the stack.
fn push_children<C: KeyClass, A: Allocator>(
    progress: &mut Progress<C::Item, A>,
    node: &TreeNode<C::Key, C::Item, A>,
    query: &C::Query,
    counter: u64,
)
    requires { length progress.old.stack + NODE_SIZE ≤ progress.old.stack_places }
    ensures { HasChildren C.class query.now counter
        (entries_of node.now.body) progress.old progress.new }
{
    let mask = C::matching_mask(node.keys(), query);
    for (i, child) in node.children().iter().enumerate() {
        if has_bit(mask, i) {
            progress.push(*child, counter);
        }
    }
}

/// Adds the matching pairs to what the search has found.
fn add_matching<C: KeyClass, A: Allocator>(
    progress: &mut Progress<C::Item, A>,
    node: &TreeNode<C::Key, C::Item, A>,
    query: &C::Query,
)
    requires { length progress.old.found + NODE_SIZE ≤ progress.old.found_places }
    ensures most { length (pairs_of node.now.body) ≤ NODE_SIZE }
    ensures matching { HasMatching C.class query.now
        (pairs_of node.now.body) progress.old progress.new }
{
    for pair in node.pairs() {
        if C::matches_in_place(&pair.1, query) {
            progress.add_copy(pair);
        }
    }
}
