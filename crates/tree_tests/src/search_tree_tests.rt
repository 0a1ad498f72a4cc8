//! The tree over frames: searches beside splits and retirements, walks that are held or restarted,
//! and the ends of counters and slots.
use crate::tree_steps::{finish, pin, see_all, window};
use frame_keys::Frames;
use node_arena::MAX_SLOTS;
use plane::Shape;
use predicate_locks::MAX_RUNNING;
use search_tree::{Keeper, MAX_STEPS, Step, Tending, Tree, TreeFault, Visit, Walk};
use std::alloc::Allocator;
use std::process::Abort;
use std::test::Fail;
use tree_theory::{NODE_SIZE, TOP_LEVEL};
use windows::Window;

/// Keeps only the pair of one number.
#[derive(Clone, Copy)]
pub(crate) struct KeepOne {
    pub(crate) key: u64,
}

impl<I> Keeper<I> for KeepOne {
    ghost use Rattle.std.specs.Prelude.{nat_eq};

    ghost kept = { λ keeper key item. nat_eq key keeper.key };

    fn keeps(&self, key: u64, item: &I) -> bool {
        key == self.key
    }
}

/// At how many slots a round of tending did what.
#[derive(Clone, Copy, PartialEq, Eq, Debug)]
pub(crate) struct Round {
    pub(crate) idle: u32,
    pub(crate) freed: u32,
    pub(crate) installed: u32,
    pub(crate) cleaned: u32,
    pub(crate) retired: u32,
}

/// A window around the x axis, from 0 to 500.
fn band(rt: &impl Abort) -> Shape {
    window(rt, 500, -1, 1)
}

/// Places the pairs `first` to `last`. Pair `n` is the point at `n * apart` on the x axis.
fn fill<A: Allocator + Copy>(
    rt: &impl Abort,
    tree: &mut Tree<Frames, A>,
    first: u64,
    last: u64,
    apart: i32,
) {
    let mut x: i32 = 0;
    for key in 0..=last {
        if first <= key {
            let mut walk = tree.start_walk(key, pin(rt, x, 0));
            finish(rt, tree, &mut walk);
        }
        x = x.saturating_add(apart);
    }
}

/// Whether the search has found exactly the numbers `first` to `last`, each at least once.
fn has_found<A: Allocator>(tree: &Tree<Frames, A>, search: u64, first: u64, last: u64) -> bool {
    let found = tree.found(search);
    for pair in found {
        if pair.0 < first || last < pair.0 {
            return false;
        }
    }
    for key in first..=last {
        if !found.iter().any(|pair| pair.0 == key) {
            return false;
        }
    }
    true
}

/// Tends each slot once.
pub(crate) fn tend_all<A: Allocator>(
    rt: &impl Abort,
    tree: &mut Tree<Frames, A>,
    keeper: &KeepOne,
) -> Round {
    let mut round = Round {
        idle: 0,
        freed: 0,
        installed: 0,
        cleaned: 0,
        retired: 0,
    };
    for slot in 0..tree.slots() {
        let answer = tree.tend(slot, keeper);
        assert!(rt; answer.is_ok(), "a tending is refused");
        match answer.unwrap() {
            Tending::Idle => round.idle = round.idle.saturating_add(1),
            Tending::Freed => round.freed = round.freed.saturating_add(1),
            Tending::Installed => round.installed = round.installed.saturating_add(1),
            Tending::Cleaned => round.cleaned = round.cleaned.saturating_add(1),
            Tending::Retired => round.retired = round.retired.saturating_add(1),
        }
    }
    round
}

/// A tree of the pairs 1 to 40, this far apart.
fn forty<A: Allocator + Copy>(rt: &impl Abort, alloc: A, apart: i32) -> Tree<Frames, A> {
    let made = Tree::new(alloc);
    assert!(rt; made.is_ok());
    let mut tree = made.unwrap();
    fill(rt, &mut tree, 1, 40, apart);
    tree
}

/// The same, with slots that are worn out once their first node is removed.
fn forty_used_once<A: Allocator + Copy>(rt: &impl Abort, alloc: A, apart: i32) -> Tree<Frames, A> {
    let made = Tree::starting_at(alloc, u32::MAX, 0, 1, 1_000);
    assert!(rt; made.is_ok());
    let mut tree = made.unwrap();
    fill(rt, &mut tree, 1, 40, apart);
    tree
}

/// Opens a search for the band and visits once, after which it has more to see.
fn begun<A: Allocator + Copy>(rt: &impl Abort, tree: &mut Tree<Frames, A>) -> u64 {
    let opened = tree.open_search(Window::new(band(rt)));
    assert!(rt; opened.is_ok());
    let search = opened.unwrap();
    assert!(rt; tree.visit(search) == Ok(Visit::More));
    search
}

/// Places the pairs from 41 on until a walk returns `Split`, and drops that walk. Returns the last
/// number that was placed.
pub(crate) fn place_until_split<A: Allocator + Copy>(
    rt: &impl Abort,
    tree: &mut Tree<Frames, A>,
) -> u64 {
    let mut x: i32 = 41;
    for key in 41..=200 {
        let mut walk = tree.start_walk(key, pin(rt, x, 0));
        for _ in 0..100 {
            if walk.placed() {
                break;
            }
            let answer = tree.advance(&mut walk);
            assert!(rt; answer.is_ok());
            if answer.unwrap() == Step::Split {
                return key - 1;
            }
        }
        x = x.saturating_add(1);
    }
    panic!(rt; "no node splits")
}

#[test]
fn split_under_search(rt: HostRuntime) -> Result<(), Fail> {
    let mut tree = forty(&rt, rt.alloc(), 1);
    let search = begun(&rt, &mut tree);
    let last = place_until_split(&rt, &mut tree);
    see_all(&rt, &mut tree, search);
    assert!(rt; has_found(&tree, search, 1, last));
    Ok(())
}

#[test]
fn many_placed_under_search(rt: HostRuntime) -> Result<(), Fail> {
    let mut tree = forty(&rt, rt.alloc(), 1);
    let search = begun(&rt, &mut tree);
    fill(&rt, &mut tree, 41, 120, 1);
    see_all(&rt, &mut tree, search);
    assert!(rt; has_found(&tree, search, 1, 120));
    Ok(())
}

#[test]
fn held_by_ready_search(rt: HostRuntime) -> Result<(), Fail> {
    let mut tree = forty(&rt, rt.alloc(), 1_000);
    let opened = tree.open_search(Window::new(pin(&rt, 0, 0)));
    assert!(rt; opened.is_ok());
    let search = opened.unwrap();
    assert!(rt; tree.visit(search) == Ok(Visit::Ready));
    let mut walk = tree.start_walk(41, pin(&rt, 0, 0));
    let mut answer = tree.advance(&mut walk);
    for _ in 0..100 {
        if answer.is_err() {
            break;
        }
        assert!(rt; !walk.placed());
        answer = tree.advance(&mut walk);
    }
    assert!(rt; answer == Err(TreeFault::Held(search)));
    assert!(rt; tree.advance(&mut walk) == Err(TreeFault::Held(search)));
    tree.close_search(search);
    finish(&rt, &mut tree, &mut walk);
    assert!(rt; tree.advance(&mut walk) == Ok(Step::Placed));
    Ok(())
}

/// Given a tree of the pairs 1 to 40, retires leaves while a search runs, and frees them once it is
/// closed.
fn retire_and_free_leaves<A: Allocator + Copy>(rt: &impl Abort, tree: &mut Tree<Frames, A>) {
    let search = begun(rt, tree);
    fill(rt, tree, 41, 120, 1);
    let keeper = KeepOne { key: 120 };
    let mut retired: u32 = 0;
    let mut settled = false;
    for _ in 0..100 {
        let round = tend_all(rt, tree, &keeper);
        retired = retired.saturating_add(round.retired);
        assert!(rt; round.freed == 0);
        if round.idle == tree.slots() {
            settled = true;
            break;
        }
    }
    assert!(rt; settled && 0 < retired);
    see_all(rt, tree, search);
    assert!(rt; has_found(tree, search, 120, 120));
    tree.close_search(search);
    assert_eq!(rt; tend_all(rt, tree, &keeper).freed, retired);
}

#[test]
fn retire_and_free(rt: HostRuntime) -> Result<(), Fail> {
    retire_and_free_leaves(&rt, &mut forty(&rt, rt.alloc(), 1));
    retire_and_free_leaves(&rt, &mut forty_used_once(&rt, rt.alloc(), 1));
    Ok(())
}

/// Given a tree of the pairs 1 to 40, frees the leaf where a walk is. The walk restarts, and its
/// pair is placed.
fn restart_a_walk<A: Allocator + Copy>(rt: &impl Abort, tree: &mut Tree<Frames, A>) {
    let mut walk = tree.start_walk(41, pin(rt, 41, 0));
    assert!(rt; tree.advance(&mut walk) == Ok(Step::Moved));
    let keeper = KeepOne { key: 0 };
    let slot = walk.slot();
    let mut freed = false;
    for _ in 0..100 {
        if tree.tend(slot, &keeper) == Ok(Tending::Freed) {
            freed = true;
            break;
        }
    }
    assert!(rt; freed);
    assert!(rt; tree.advance(&mut walk) == Ok(Step::Restarted));
    finish(rt, tree, &mut walk);
}

#[test]
fn restarted_where_the_leaf_is_gone(rt: HostRuntime) -> Result<(), Fail> {
    restart_a_walk(&rt, &mut forty(&rt, rt.alloc(), 1));
    restart_a_walk(&rt, &mut forty_used_once(&rt, rt.alloc(), 1));
    Ok(())
}

#[test]
fn worn_out_slots_are_used_once(rt: HostRuntime) -> Result<(), Fail> {
    let mut tree = forty_used_once(&rt, rt.alloc(), 1);
    let keeper = KeepOne { key: 0 };
    let mut freed: Vec<u32> = Vec::new(rt.alloc());
    for _ in 0..4 {
        for _ in 0..100 {
            for slot in 0..tree.slots() {
                if tree.tend(slot, &keeper) == Ok(Tending::Freed) {
                    assert!(rt; !freed.contains(&slot), "slot {slot} is used twice");
                    freed.push(slot)?;
                }
            }
        }
        let used = tree.slots();
        fill(&rt, &mut tree, 1, 40, 1);
        assert!(rt; used < tree.slots());
    }
    assert!(rt; !freed.is_empty());
    Ok(())
}

#[test]
fn walks_make_their_steps_and_no_more(rt: HostRuntime) -> Result<(), Fail> {
    let made = Tree::starting_at(rt.alloc(), 0, 0, 1, 1);
    assert!(rt; made.is_ok());
    let mut tree: Tree<Frames, _> = made.unwrap();
    for key in 1..=16 {
        let mut walk = tree.start_walk(key, pin(&rt, 7, 0));
        assert!(rt; tree.advance(&mut walk) == Ok(Step::Placed));
    }
    let mut walk = tree.start_walk(17, pin(&rt, 17, 0));
    assert!(rt; tree.advance(&mut walk) == Ok(Step::Split));
    assert!(rt; tree.advance(&mut walk) == Err(TreeFault::Overrun));
    assert!(rt; tree.advance(&mut walk) == Err(TreeFault::Overrun));
    assert!(rt; !walk.placed());
    Ok(())
}

/// Advances a walk until its pair is placed or a step is refused, at most 20 times. Returns the
/// last step that it made.
fn last_step<A: Allocator + Copy>(
    tree: &mut Tree<Frames, A>,
    walk: &mut Walk<Shape>,
) -> Option<Step> {
    let mut last = None;
    for _ in 0..20 {
        match tree.advance(walk) {
            Ok(Step::Placed) => return Some(Step::Placed),
            Ok(step) => last = Some(step),
            Err(_) => break,
        }
    }
    last
}

/// At how many slots a round of tending, which keeps no pair, is refused with S6.
fn slots_at_the_counters_end<A: Allocator>(tree: &mut Tree<Frames, A>) -> u32 {
    let mut refused: u32 = 0;
    for slot in 0..tree.slots() {
        if tree.tend(slot, &KeepOne { key: 0 }) == Err(TreeFault::Spent) {
            refused = refused.saturating_add(1);
        }
    }
    refused
}

#[test]
fn no_install_at_the_counters_end(rt: HostRuntime) -> Result<(), Fail> {
    let made = Tree::starting_at(rt.alloc(), 0, u64::MAX, 1, 1_000);
    assert!(rt; made.is_ok());
    let mut tree: Tree<Frames, _> = made.unwrap();
    for key in 1..=64 {
        let mut walk = tree.start_walk(key, pin(&rt, 5, 0));
        let last = last_step(&mut tree, &mut walk);
        if walk.placed() {
            continue;
        }
        // The four are the root, two leaves below it, since it has grown, and the right node of one
        // of them, whose entry is refused.
        assert_eq!(rt; (last, tree.slots()), (Some(Step::Split), 4));
        assert!(rt; tree.advance(&mut walk) == Err(TreeFault::Spent));
        assert!(rt; tree.advance(&mut walk) == Err(TreeFault::Spent));
        // Tending cannot install the entry either. The other leaf loses its pairs, and then cannot
        // be retired.
        assert_eq!(rt; slots_at_the_counters_end(&mut tree), 1);
        assert_eq!(rt; slots_at_the_counters_end(&mut tree), 2);
        return Ok(());
    }
    panic!(rt; "no install is refused");
}

#[test]
fn limits_of_every_tree(rt: HostRuntime) -> Result<(), Fail> {
    assert_eq!(rt; (NODE_SIZE, TOP_LEVEL), (16, 31));
    assert_eq!(rt; (MAX_SLOTS, MAX_RUNNING), (1_048_576, 16));
    assert_eq!(rt; MAX_STEPS, 1_000_000);
    // A fault is displayed as its code.
    let refused = format!(in rt.alloc();
        "{} {} {} {}",
        TreeFault::NoSearch,
        TreeFault::TooMany,
        TreeFault::Held(1),
        TreeFault::Full
    )?;
    assert_eq!(rt; refused.as_str(), "S1 S2 S3 S4");
    let ended = format!(in rt.alloc();
        "{} {} {}",
        TreeFault::TooHigh,
        TreeFault::Spent,
        TreeFault::Overrun
    )?;
    assert_eq!(rt; ended.as_str(), "S5 S6 S7");
    Ok(())
}
