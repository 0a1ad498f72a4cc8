//! How the contents of a full node are shared out to two.

ghost use Rattle.std.specs.Prelude.{◌≡◌, ◌≤◌, [], IfOk, length, map, zip};
ghost use Rattle.tree_nodes.specs.Bodies.{plain_body};
ghost use Rattle.tree_nodes.specs.Halvings.{IsPickedOut, IsShared};
ghost use Rattle.tree_theory.specs.Changes.{IsHalved};
ghost use Rattle.tree_theory.specs.Nodes.{size_of};
ghost use Rattle.tree_theory.specs.Nodes.PlainBody.{Leaf, Inner};
ghost use Rattle.tree_theory.specs.declared.TheConstants.{NODE_SIZE};

use crate::entries::{Entries, Pairs};
use crate::node::{Body, TreeNode};
use memory::{GrowVec, NoMemory, vec_with_slots};
use node_arena::Handle;
use std::alloc::Allocator;
use tree_theory::{KeyClass, NODE_SIZE, has_bit};

/// The two parts of a full node's contents, each in lists of its own.
#[derive(Drop)]
pub struct Halves<K, I, A: Allocator> {
    /// The part that stays.
    pub left: Body<K, I, A>,
    /// The part that goes right.
    pub right: Body<K, I, A>,
}

/// Shares out a full node's contents: the part that the class picks goes right. Fails only where an
/// allocation is refused.
pub fn shared_out<C: KeyClass, A: Allocator + Copy>(
    node: &TreeNode<C::Key, C::Item, A>,
    alloc: A,
) -> Result<Halves<C::Key, C::Item, A>, NoMemory>
    requires { size_of node.now.body ≡ NODE_SIZE }
    ensures halved { IfOk result
        (λ made. IsHalved node.now.body (plain_body made.left) (plain_body made.right)) }
    ensures picked { IfOk result (λ made. IsPickedOut C.class.key_of C.picks node.now.body
        (plain_body made.left) (plain_body made.right)) }
{
    if node.is_leaf() {
        halves_of_pairs::<C, A>(node.pairs(), alloc)
    } else {
        halves_of_entries::<C, A>(node.keys(), node.children(), alloc)
    }
}

/// The parts of a full leaf's pairs.
fn halves_of_pairs<C: KeyClass, A: Allocator + Copy>(
    pairs: &[(u64, C::Item)],
    alloc: A,
) -> Result<Halves<C::Key, C::Item, A>, NoMemory>
    requires { length pairs.now ≡ NODE_SIZE }
    ensures halved { IfOk result
        (λ made. IsHalved (Leaf pairs.now) (plain_body made.left) (plain_body made.right)) }
    ensures picked { IfOk result (λ made. IsPickedOut C.class.key_of C.picks (Leaf pairs.now)
        (plain_body made.left) (plain_body made.right)) }
{
    let keys = keys_of::<C, A>(pairs, alloc)?;
    let mut left = Pairs::with_places(alloc)?;
    let mut right = Pairs::with_places(alloc)?;
    share_pairs(pairs, C::pick_split(&keys), &mut left, &mut right);
    Ok(Halves {
        left: Body::Pairs(left),
        right: Body::Pairs(right),
    })
}

/// The two parts of a full inner node's entries, given as keys and children.
fn halves_of_entries<C: KeyClass, A: Allocator + Copy>(
    keys: &[C::Key],
    children: &[Handle],
    alloc: A,
) -> Result<Halves<C::Key, C::Item, A>, NoMemory>
    requires keys { length keys.now ≡ NODE_SIZE }
    requires children { length children.now ≡ NODE_SIZE }
    ensures halved { IfOk result
        (λ made. IsHalved (Inner (zip keys.now children.now)) (plain_body made.left)
        (plain_body made.right)) }
    ensures picked { IfOk result (λ made. IsPickedOut C.class.key_of C.picks
        (Inner (zip keys.now children.now)) (plain_body made.left) (plain_body made.right)) }
{
    let mut left = Entries::with_places(alloc)?;
    let mut right = Entries::with_places(alloc)?;
    share_entries(keys, children, C::pick_split(keys), &mut left, &mut right);
    Ok(Halves {
        left: Body::Entries(left),
        right: Body::Entries(right),
    })
}

/// The keys of these items.
fn keys_of<C: KeyClass, A: Allocator>(
    pairs: &[(u64, C::Item)],
    alloc: A,
) -> Result<Vec<C::Key, A>, NoMemory>
    requires { length pairs.now ≤ NODE_SIZE }
    ensures { IfOk result (λ made. made.items ≡ map (λ pair. C.class.key_of pair.1) pairs.now) }
{
    let mut keys = vec_with_slots(alloc, NODE_SIZE)?;
    for pair in pairs {
        keys.push_reserved(C::key_of(pair.1));
    }
    Ok(keys)
}

/// Shares pairs out to two empty lists: those whose bit in the mask is set go right.
fn share_pairs<I: Copy, A: Allocator>(
    pairs: &[(u64, I)],
    mask: u16,
    left: &mut Pairs<I, A>,
    right: &mut Pairs<I, A>,
)
    requires pairs { length pairs.now ≡ NODE_SIZE }
    requires left { left.old ≡ [] }
    requires right { right.old ≡ [] }
    ensures { IsShared mask pairs.now left.new right.new }
{
    for (place, pair) in pairs.iter().enumerate() {
        if has_bit(mask, place) {
            right.push(pair.0, pair.1);
        } else {
            left.push(pair.0, pair.1);
        }
    }
}

/// As `share_pairs`, for entries, given as keys and children.
fn share_entries<K: Copy, A: Allocator>(
    keys: &[K],
    children: &[Handle],
    mask: u16,
    left: &mut Entries<K, A>,
    right: &mut Entries<K, A>,
)
    requires keys { length keys.now ≡ NODE_SIZE }
    requires children { length children.now ≡ NODE_SIZE }
    requires left { left.old ≡ [] }
    requires right { right.old ≡ [] }
    ensures { IsShared mask (zip keys.now children.now) left.new right.new }
{
    for (place, child) in children.iter().enumerate() {
        if has_bit(mask, place) {
            right.push(keys[place], *child);
        } else {
            left.push(keys[place], *child);
        }
    }
}
