//! Each allocation of a tree's calls refused in turn, and the calls that make none.
use crate::search_tree_tests::{KeepOne, place_until_split, tend_all};
use crate::tree_steps::{pin, see_all, window};
use frame_keys::Frames;
use plane::{Point, Shape};
use refusing::Refusing;
use search_tree::{Step, Tending, Tree, TreeFault, Visit, Walk};
use std::alloc::Allocator;
use std::process::Abort;
use std::test::Fail;
use windows::Window;

/// With so many pairs inner nodes have split.
const MANY: u64 = 250;

/// A window from x 0 to 300, where all pairs are, and between two heights.
fn band(rt: &impl Abort, low: i32, high: i32) -> Shape {
    window(rt, 300, low, high)
}

/// Advances a walk once. If that fails, checks that the fault is S8, that the walk, the pairs and
/// the number of slots are unchanged, and that the step succeeds once no allocation is refused.
fn step<B: Allocator>(
    rt: &impl Abort,
    memory: &Refusing<B>,
    tree: &mut Tree<Frames, &Refusing<B>>,
    walk: &mut Walk<Shape>,
) {
    let (slot, slots, refused) = (walk.slot(), tree.slots(), memory.has_refused());
    let Err(fault) = tree.advance(walk) else {
        assert!(rt;
            memory.has_refused() == refused,
            "a refusal was not answered"
        );
        return;
    };
    assert_eq!(rt; fault.code(), "S8");
    assert!(rt; memory.has_refused() && !walk.placed() && walk.slot() == slot);
    assert_eq!(rt; tree.slots(), slots);
    memory.refuse(0);
    let before = walk.key().saturating_sub(1);
    assert!(rt; finds(rt, tree, before), "contents changed");
    assert!(rt; tree.advance(walk).is_ok());
}

/// Advances a walk with `step` until its pair is placed.
fn finish<B: Allocator>(
    rt: &impl Abort,
    memory: &Refusing<B>,
    tree: &mut Tree<Frames, &Refusing<B>>,
    walk: &mut Walk<Shape>,
) {
    for _ in 0..100 {
        if walk.placed() {
            return;
        }
        step(rt, memory, tree, walk);
    }
    panic!(rt; "a walk makes more than 100 steps");
}

/// Places the pairs `first` to `last`. Pair `n` is the point at `n` on the x axis.
fn fill<B: Allocator>(
    rt: &impl Abort,
    memory: &Refusing<B>,
    tree: &mut Tree<Frames, &Refusing<B>>,
    first: u64,
    last: u64,
) {
    let mut x: i32 = 0;
    for key in 0..=last {
        if first <= key {
            let mut walk = tree.start_walk(key, pin(rt, x, 0));
            finish(rt, memory, tree, &mut walk);
        }
        x = x.saturating_add(1);
    }
}

/// Whether these are the pairs 1 to `last`, each once, in some order.
fn is_whole(found: &[(u64, Shape)], last: u64) -> bool {
    if found.len() as u64 != last {
        return false;
    }
    for key in 1..=last {
        if !found.iter().any(|pair| pair.0 == key) {
            return false;
        }
    }
    true
}

/// Whether a search for everything finds exactly the pairs 1 to `last`, each once.
fn finds<A: Allocator + Copy>(rt: &impl Abort, tree: &mut Tree<Frames, A>, last: u64) -> bool {
    let opened = tree.open_search(Window::new(band(rt, -1, 100)));
    assert!(rt; opened.is_ok());
    let search = opened.unwrap();
    see_all(rt, tree, search);
    let whole = is_whole(tree.found(search), last);
    tree.close_search(search);
    whole
}

/// A tree of the pairs 1 to `last`, made while no allocation is refused.
fn filled<'m, B: Allocator>(
    rt: &impl Abort,
    memory: &'m Refusing<B>,
    last: u64,
) -> Tree<Frames, &'m Refusing<B>> {
    memory.refuse(0);
    let made = Tree::new(memory);
    assert!(rt; made.is_ok());
    let mut tree = made.unwrap();
    fill(rt, memory, &mut tree, 1, last);
    tree
}

/// Opens `count` searches, each for this window, and visits them until they are ready.
fn look<A: Allocator + Copy>(
    rt: &impl Abort,
    tree: &mut Tree<Frames, A>,
    window: Shape,
    count: u32,
) {
    for _ in 0..count {
        let opened = tree.open_search(Window::new(window));
        assert!(rt; opened.is_ok());
        see_all(rt, tree, opened.unwrap());
    }
}

/// Makes a tree by `new` or by `starting_at` with allocation number `at` refused, and returns
/// whether that was asked for. If it was, checks that the call fails with S8.
fn new_refused<B: Allocator>(
    rt: &impl Abort,
    memory: &Refusing<B>,
    at: u64,
    starting: bool,
) -> bool {
    memory.refuse(at);
    let made: Result<Tree<Frames, _>, TreeFault> = if starting {
        Tree::starting_at(memory, 7, 8, 9, 10)
    } else {
        Tree::new(memory)
    };
    if !memory.has_refused() {
        assert!(rt; made.is_ok() && at > 1, "nothing was refused");
        return false;
    }
    let Err(fault) = made else {
        panic!(rt; "a refusal was not answered");
    };
    assert_eq!(rt; fault.code(), "S8");
    true
}

#[test]
fn each_allocation_of_new_refused(rt: HostRuntime) -> Result<(), Fail> {
    let memory = Refusing::new(rt.alloc(), 0);
    for starting in [false, true] {
        for at in 1..20 {
            if !new_refused(&rt, &memory, at, starting) {
                break;
            }
            assert!(rt; at < 19, "each allocation was refused");
            // `new` succeeds once no allocation is refused.
            assert!(rt; finds(&rt, &mut filled(&rt, &memory, 1), 1));
        }
    }
    Ok(())
}

/// Opens a search with allocation number `at` refused, and returns whether that was asked for. If
/// it was, checks that the call fails with S8, leaves the pairs unchanged, and then succeeds.
fn open_refused<B: Allocator>(rt: &impl Abort, memory: &Refusing<B>, at: u64) -> bool {
    let mut tree = filled(rt, memory, 40);
    memory.refuse(at);
    let answer = tree.open_search(Window::new(band(rt, -1, 1)));
    if !memory.has_refused() {
        assert!(rt; answer.is_ok() && at > 1, "nothing was refused");
        return false;
    }
    memory.refuse(0);
    let Err(fault) = answer else {
        panic!(rt; "a refusal was not answered");
    };
    assert_eq!(rt; fault.code(), "S8");
    assert!(rt; finds(rt, &mut tree, 40));
    assert!(rt; tree.open_search(Window::new(band(rt, -1, 1))).is_ok());
    true
}

#[test]
fn each_allocation_of_open_search_refused(rt: HostRuntime) -> Result<(), Fail> {
    let memory = Refusing::new(rt.alloc(), 0);
    for at in 1..20 {
        if !open_refused(&rt, &memory, at) {
            return Ok(());
        }
    }
    panic!(rt; "each allocation was refused");
}

/// Visits once, and returns whether the search is ready. If the visit fails, checks that the fault
/// is S8, that the pairs and the number of those found are unchanged, and that the visit succeeds
/// once no allocation is refused.
fn visit<B: Allocator>(
    rt: &impl Abort,
    memory: &Refusing<B>,
    tree: &mut Tree<Frames, &Refusing<B>>,
    search: u64,
) -> bool {
    let count = tree.found(search).len();
    let refused = memory.has_refused();
    let answer = tree.visit(search);
    let Err(fault) = answer else {
        assert!(rt;
            memory.has_refused() == refused,
            "a refusal was not answered"
        );
        return answer == Ok(Visit::Ready);
    };
    assert_eq!(rt; fault.code(), "S8");
    assert!(rt; memory.has_refused() && tree.found(search).len() == count);
    memory.refuse(0);
    assert!(rt; finds(rt, tree, 40), "contents changed");
    let again = tree.visit(search);
    assert!(rt; again.is_ok());
    again == Ok(Visit::Ready)
}

/// Visits until a search is ready, with allocation number `at` refused, and returns whether that
/// was asked for.
fn visit_refused<B: Allocator>(rt: &impl Abort, memory: &Refusing<B>, at: u64) -> bool {
    let mut tree = filled(rt, memory, 40);
    look(rt, &mut tree, band(rt, -1, 1), 8);
    let opened = tree.open_search(Window::new(band(rt, -1, 1)));
    assert!(rt; opened.is_ok());
    let search = opened.unwrap();
    memory.refuse(at);
    for _ in 0..100 {
        if visit(rt, memory, &mut tree, search) {
            break;
        }
    }
    let refused = memory.has_refused();
    assert!(rt; is_whole(tree.found(search), 40));
    refused
}

#[test]
fn each_allocation_of_visit_refused(rt: HostRuntime) -> Result<(), Fail> {
    let memory = Refusing::new(rt.alloc(), 0);
    for at in 1..100 {
        if !visit_refused(&rt, &memory, at) {
            assert!(rt; at > 2, "nothing was refused");
            return Ok(());
        }
    }
    panic!(rt; "each allocation was refused");
}

/// Places the pairs 2 to 40, by which the root grows and leaves split, with allocation number `at`
/// refused. Returns whether that was asked for.
fn fill_refused<B: Allocator>(rt: &impl Abort, memory: &Refusing<B>, at: u64) -> bool {
    let mut tree = filled(rt, memory, 1);
    memory.refuse(at);
    fill(rt, memory, &mut tree, 2, 40);
    let refused = memory.has_refused();
    memory.refuse(0);
    assert!(rt; finds(rt, &mut tree, 40));
    refused
}

#[test]
fn each_allocation_of_splits_refused(rt: HostRuntime) -> Result<(), Fail> {
    let memory = Refusing::new(rt.alloc(), 0);
    for at in 1..100 {
        if !fill_refused(&rt, &memory, at) {
            assert!(rt; at > 4, "nothing was refused");
            return Ok(());
        }
    }
    panic!(rt; "each allocation was refused");
}

/// Advances a walk one step down with allocation number `at` refused, and returns whether that was
/// asked for. The walk's point is above all pairs. Twelve searches look for what is between; the
/// step attaches them to a leaf that they have not seen, which allocates.
fn descend_refused<B: Allocator>(rt: &impl Abort, memory: &Refusing<B>, at: u64) -> bool {
    let mut tree = filled(rt, memory, 40);
    look(rt, &mut tree, band(rt, 5, 8), 12);
    let slots = tree.slots();
    let mut walk = tree.start_walk(41, pin(rt, 20, 10));
    let root = walk.slot();
    memory.refuse(at);
    step(rt, memory, &mut tree, &mut walk);
    let refused = memory.has_refused();
    memory.refuse(0);
    // The step went down, and split nothing.
    assert!(rt; walk.slot() != root && tree.slots() == slots);
    finish(rt, memory, &mut tree, &mut walk);
    assert!(rt; finds(rt, &mut tree, 41));
    refused
}

#[test]
fn each_allocation_of_descents_refused(rt: HostRuntime) -> Result<(), Fail> {
    let memory = Refusing::new(rt.alloc(), 0);
    for at in 1..20 {
        if !descend_refused(&rt, &memory, at) {
            assert!(rt; at > 1, "nothing was refused");
            return Ok(());
        }
    }
    panic!(rt; "each allocation was refused");
}

/// Which allocation is refused in each step of a kind, how often that happened, and the tree's two
/// searches: `near`, for the pairs 1 to 8, is ready, and `far`, for all pairs, has seen only the
/// root.
#[derive(Clone, Copy, Debug)]
struct Trial {
    at: u64,
    near: u64,
    far: u64,
    /// How many splits were refused, each of which takes one slot.
    splits: u32,
    /// How many growths of the root were refused, each of which takes two slots.
    growths: u32,
}

/// Opens the two searches.
fn begin<A: Allocator + Copy>(rt: &impl Abort, tree: &mut Tree<Frames, A>, at: u64) -> Trial {
    let near = tree.open_search(Window::new(window(rt, 8, -1, 1)));
    let far = tree.open_search(Window::new(band(rt, -1, 1)));
    assert!(rt; near.is_ok() && far.is_ok());
    let (near, far) = (near.unwrap(), far.unwrap());
    see_all(rt, tree, near);
    assert!(rt; tree.visit(far) == Ok(Visit::More));
    Trial {
        at,
        near,
        far,
        splits: 0,
        growths: 0,
    }
}

/// Advances a walk once with the trial's allocation refused. Returns the step, and whether that
/// allocation was asked for. If it was, checks that the walk, the pairs, the number of slots and
/// what the two searches have found are unchanged, and that the step then succeeds.
fn refused_step<B: Allocator>(
    rt: &impl Abort,
    memory: &Refusing<B>,
    tree: &mut Tree<Frames, &Refusing<B>>,
    walk: &mut Walk<Shape>,
    trial: &Trial,
) -> (Step, bool) {
    let (slot, slots) = (walk.slot(), tree.slots());
    memory.refuse(trial.at);
    let mut answer = tree.advance(walk);
    let refused = memory.has_refused();
    memory.refuse(0);
    assert_eq!(rt; answer.is_err(), refused);
    if let Err(fault) = answer {
        assert_eq!(rt; fault.code(), "S8");
        assert!(rt; !walk.placed() && walk.slot() == slot && tree.slots() == slots);
        assert!(rt; finds(rt, tree, walk.key().saturating_sub(1)));
        assert!(rt; is_whole(tree.found(trial.near), 8) && tree.found(trial.far).is_empty());
        answer = tree.advance(walk);
    }
    assert!(rt; answer.is_ok());
    (answer.unwrap(), refused)
}

/// Advances a walk whose last step split a node, by `refused_step`, and counts a refusal. Returns
/// whether this step splits a node too, which is then an inner one: the full parent of the other.
fn part_above<B: Allocator>(
    rt: &impl Abort,
    memory: &Refusing<B>,
    tree: &mut Tree<Frames, &Refusing<B>>,
    walk: &mut Walk<Shape>,
    trial: &mut Trial,
) -> bool {
    let before = tree.slots();
    let (step, refused) = refused_step(rt, memory, tree, walk, trial);
    if refused {
        assert!(rt; step == Step::Split);
        match tree.slots().saturating_sub(before) {
            1 => trial.splits = trial.splits.saturating_add(1),
            2 => trial.growths = trial.growths.saturating_add(1),
            _ => panic!(rt; "a split takes one slot, and a growth two"),
        }
    }
    step == Step::Split
}

/// Advances a walk until its pair is placed, by `part_above` where its last step split a node.
fn place_refused<B: Allocator>(
    rt: &impl Abort,
    memory: &Refusing<B>,
    tree: &mut Tree<Frames, &Refusing<B>>,
    walk: &mut Walk<Shape>,
    trial: &mut Trial,
) {
    let mut parted = false;
    for _ in 0..100 {
        if walk.placed() {
            return;
        }
        parted = if parted {
            part_above(rt, memory, tree, walk, trial)
        } else {
            let answer = tree.advance(walk);
            assert!(rt; answer.is_ok());
            answer == Ok(Step::Split)
        };
    }
    panic!(rt; "a walk makes more than 100 steps");
}

/// Places the pairs 41 to `MANY` with allocation number `at` refused in each step in which an inner
/// node splits or the root, which has leaves below it, grows.
fn rise_refused<B: Allocator>(rt: &impl Abort, memory: &Refusing<B>, at: u64) -> Trial {
    let mut tree = filled(rt, memory, 40);
    let mut trial = begin(rt, &mut tree, at);
    let mut x: i32 = 41;
    for key in 41..=MANY {
        let mut walk = tree.start_walk(key, pin(rt, x, 0));
        place_refused(rt, memory, &mut tree, &mut walk, &mut trial);
        x = x.saturating_add(1);
    }
    see_all(rt, &mut tree, trial.far);
    assert!(rt; is_whole(tree.found(trial.far), MANY));
    trial
}

#[test]
fn each_allocation_of_inner_splits_refused(rt: HostRuntime) -> Result<(), Fail> {
    let memory = Refusing::new(rt.alloc(), 0);
    for at in 1..20 {
        let trial = rise_refused(&rt, &memory, at);
        // A split allocates for the keys and for the children of one node, a growth for those of
        // two.
        assert!(rt; 2 < at || 0 < trial.splits, "no split was refused");
        assert!(rt; 4 < at || 0 < trial.growths, "no growth was refused");
        if trial.splits == 0 && trial.growths == 0 {
            return Ok(());
        }
    }
    panic!(rt; "each allocation was refused");
}

/// Advances a walk one step down with allocation number `at` refused, and returns whether that was
/// asked for. The step attaches twelve searches, for what is above all pairs, to a leaf that was
/// left marked and to its right node.
fn join_marked_refused<B: Allocator>(rt: &impl Abort, memory: &Refusing<B>, at: u64) -> bool {
    let mut tree = filled(rt, memory, 40);
    let last = place_until_split(rt, &mut tree);
    look(rt, &mut tree, band(rt, 5, 8), 12);
    let trial = begin(rt, &mut tree, at);
    let x = i32::try_from(last).unwrap_or(0);
    let mut walk = tree.start_walk(last.saturating_add(1), pin(rt, x, 10));
    let (step, refused) = refused_step(rt, memory, &mut tree, &mut walk, &trial);
    assert!(rt; step == Step::Moved);
    // The leaf was marked: its right node gets its entry only now.
    let tended = tree.tend(walk.slot(), &KeepOne { key: 0 });
    assert!(rt; tended == Ok(Tending::Installed), "the leaf is not marked");
    finish(rt, memory, &mut tree, &mut walk);
    assert!(rt; finds(rt, &mut tree, walk.key()));
    refused
}

#[test]
fn each_allocation_of_joins_refused(rt: HostRuntime) -> Result<(), Fail> {
    let memory = Refusing::new(rt.alloc(), 0);
    for at in 1..20 {
        if !join_marked_refused(&rt, &memory, at) {
            // The right node and the leaf each allocate for the searches that are attached to them.
            assert!(rt; at > 2, "nothing was refused");
            return Ok(());
        }
    }
    panic!(rt; "each allocation was refused");
}

/// Tends all slots ten times with a keeper of nothing, while a search runs that began before.
/// Returns how many leaves are retired, and checks that none is freed.
fn tend_beside<A: Allocator>(rt: &impl Abort, tree: &mut Tree<Frames, A>) -> u32 {
    let keeper = KeepOne { key: 0 };
    let (mut installed, mut cleaned, mut retired) = (0u32, 0u32, 0u32);
    for _ in 0..10 {
        let round = tend_all(rt, tree, &keeper);
        installed = installed.saturating_add(round.installed);
        cleaned = cleaned.saturating_add(round.cleaned);
        retired = retired.saturating_add(round.retired);
        assert_eq!(rt; round.freed, 0);
    }
    assert!(rt; 0 < installed && 0 < cleaned && 0 < retired);
    retired
}

#[test]
fn calls_that_take_no_memory(rt: HostRuntime) -> Result<(), Fail> {
    let memory = Refusing::new(rt.alloc(), 0);
    let mut tree = filled(&rt, &memory, 40);
    let last = place_until_split(&rt, &mut tree);
    let opened = tree.open_search(Window::new(band(&rt, -1, 1)));
    assert!(rt; opened.is_ok());
    let search = opened.unwrap();
    see_all(&rt, &mut tree, search);
    memory.refuse(1);
    assert!(rt; tree.visit(search) == Ok(Visit::Ready));
    let walk = tree.start_walk(last.saturating_add(1), pin(&rt, 0, 0));
    assert!(rt; !walk.placed() && walk.slot() < tree.slots());
    let retired = tend_beside(&rt, &mut tree);
    assert!(rt; is_whole(tree.found(search), last));
    tree.close_search(search);
    assert!(rt; tree.found(search).is_empty());
    let freed = tend_all(&rt, &mut tree, &KeepOne { key: 0 }).freed;
    assert_eq!(rt; freed, retired);
    assert!(rt; !memory.has_refused(), "memory was asked for");
    Ok(())
}
