//! Finding the leaves of pairs, and the node to the left of a walk.
use crate::tree_steps::{finish, pin};
use frame_keys::Frames;
use search_tree::{Crowded, Keeper, Step, Tending, Tree, Walk};
use std::alloc::Allocator;
use std::process::Abort;

/// How many pairs there are.
const PAIRS: u64 = 400;

/// Keeps all pairs but those of one number.
#[derive(Clone, Copy)]
struct DropOne {
    key: u64,
}

impl<I> Keeper<I> for DropOne {
    ghost use Rattle.std.specs.Prelude.{nat_eq, not};

    ghost kept = { λ keeper key item. not (nat_eq key keeper.key) };

    fn keeps(&self, key: u64, item: &I) -> bool {
        key != self.key
    }
}

/// The x coordinate of a pair.
fn x_of(key: u64) -> i32 {
    i32::try_from(key * 37 % 1_009).unwrap_or(0)
}

/// A tree of the pairs 1 to `PAIRS`.
fn filled<A: Allocator + Copy>(rt: &impl Abort, alloc: A) -> Tree<Frames, A> {
    let made = Tree::new(alloc);
    assert!(rt; made.is_ok());
    let mut tree = made.unwrap();
    for key in 1..=PAIRS {
        let mut walk = tree.start_walk(key, pin(rt, x_of(key), 0));
        finish(rt, &mut tree, &mut walk);
    }
    tree
}

/// The slots that are named for a pair.
fn count<A: Allocator>(rt: &impl Abort, tree: &Tree<Frames, A>, key: u64) -> usize {
    match tree.slots_with(key, pin(rt, x_of(key), 0)) {
        Ok(slots) => slots.as_slice().len(),
        Err(Crowded) => panic!(rt; "crowded"),
    }
}

/// Lets a pair go at the one slot that is named for it.
fn let_go<A: Allocator>(rt: &impl Abort, tree: &mut Tree<Frames, A>, key: u64) {
    let named = tree.slots_with(key, pin(rt, x_of(key), 0));
    let Ok(slots) = named else {
        panic!(rt; "crowded")
    };
    assert_eq!(rt; slots.as_slice().len(), 1);
    for slot in slots.as_slice() {
        // A marked leaf's right node gets its entry first.
        let first = tree.tend(*slot, &DropOne { key });
        let cleaned = first == Ok(Tending::Cleaned)
            || tree.tend(*slot, &DropOne { key }) == Ok(Tending::Cleaned);
        assert!(rt; cleaned);
    }
    assert_eq!(rt; count(rt, tree, key), 0);
}

#[test]
fn pairs_are_found(rt: HostRuntime) {
    let mut tree = filled(&rt, rt.alloc());
    for key in 1..=PAIRS {
        assert_eq!(&rt; count(&rt, &tree, key), 1);
    }
    assert_eq!(&rt; count(&rt, &tree, PAIRS + 1), 0);
    for key in 1..=PAIRS {
        if key % 3 == 0 {
            let_go(&rt, &mut tree, key);
        }
    }
    for key in 1..=PAIRS {
        assert_eq!(&rt; count(&rt, &tree, key), if key % 3 == 0 { 0 } else { 1 });
    }
}

/// More leaves than can be named have the pair.
#[test]
fn too_many_leaves(rt: HostRuntime) {
    let made = Tree::<Frames, _>::new(rt.alloc());
    assert!(&rt; made.is_ok());
    let mut tree = made.unwrap();
    for _ in 0..1_000 {
        let mut walk = tree.start_walk(7, pin(&rt, 5, 5));
        finish(&rt, &mut tree, &mut walk);
    }
    assert!(&rt; tree.slots_with(7, pin(&rt, 5, 5)).is_err());
    assert!(&rt; tree.slots_with(8, pin(&rt, 6, 6)).is_ok());
}

/// Walks until a node below the root has split, and returns the walk.
fn split<A: Allocator + Copy>(
    rt: &impl Abort,
    tree: &mut Tree<Frames, A>,
    first: u64,
) -> Walk<plane::Shape> {
    for key in first..first.saturating_add(100) {
        let mut walk = tree.start_walk(key, pin(rt, 5, 5));
        for _ in 0..1_000 {
            let slots = tree.slots();
            let step = tree.advance(&mut walk);
            if step == Ok(Step::Split) && tree.slots() == slots.saturating_add(1) {
                return walk;
            }
            assert!(rt; step.is_ok());
            if walk.placed() {
                break;
            }
        }
    }
    panic!(rt; "no node splits")
}

/// Behind a split the walk is at the right node, and tending the left one links it.
#[test]
fn the_left_node_links(rt: HostRuntime) {
    let made = Tree::new(rt.alloc());
    assert!(&rt; made.is_ok());
    let mut tree = made.unwrap();
    let walk = split(&rt, &mut tree, 1);
    let left = tree.slot_left_of(&walk);
    assert!(&rt; left.is_some() && left != Some(walk.slot()));
    let tended = tree.tend(left.unwrap_or(0), &DropOne { key: 0 });
    assert!(&rt; tended == Ok(Tending::Installed));
    assert!(&rt; tree.slot_left_of(&walk).is_none());
    assert!(&rt;
        tree.slot_left_of(&tree.start_walk(9, pin(&rt, 5, 5)))
            .is_none()
    );
}
