//! A whole search in one call, beside a search by steps of the same tree.
use crate::search_tree_tests::{KeepOne, place_until_split, tend_all};
use crate::tree_steps::{finish, pin, see_all, window};
use frame_keys::Frames;
use plane::Shape;
use refusing::Refusing;
use search_tree::{Tree, TreeFault, Visit};
use std::alloc::Allocator;
use std::process::Abort;
use windows::Window;

/// Places the pairs `first` to `last`. Pair `n` is the point at `n` on the x axis.
fn fill<A: Allocator + Copy>(rt: &impl Abort, tree: &mut Tree<Frames, A>, first: u64, last: u64) {
    for key in first..=last {
        let x = i32::try_from(key).unwrap_or(0);
        let mut walk = tree.start_walk(key, pin(rt, x, 0));
        finish(rt, tree, &mut walk);
    }
}

/// A tree of the pairs 1 to `last`.
fn filled<A: Allocator + Copy>(rt: &impl Abort, alloc: A, last: u64) -> Tree<Frames, A> {
    let made = Tree::new(alloc);
    assert!(rt; made.is_ok());
    let mut tree = made.unwrap();
    fill(rt, &mut tree, 1, last);
    tree
}

/// Opens a search for everything, visits once, and leaves it open.
fn begin<A: Allocator + Copy>(rt: &impl Abort, tree: &mut Tree<Frames, A>) -> u64 {
    let opened = tree.open_search(Window::new(window(rt, 500, -1, 1)));
    assert!(rt; opened.is_ok());
    let search = opened.unwrap();
    assert!(rt; tree.visit(search) == Ok(Visit::More));
    search
}

/// Whether these are the numbers of just these pairs, each once.
fn are_alike(ids: &[u64], found: &[(u64, Shape)]) -> bool {
    ids.len() == found.len()
        && found.iter().all(|pair| ids.contains(&pair.0))
        && ids.iter().all(|id| found.iter().any(|pair| pair.0 == *id))
}

/// Searches from x 0 to `right`, at once and by steps, with the same answer: how many it has.
fn count<A: Allocator + Copy>(rt: &impl Abort, tree: &mut Tree<Frames, A>, right: i32) -> usize {
    let query = Window::new(window(rt, right, -1, 1));
    let asked = tree.ids_matching(&query);
    assert!(rt; asked.is_ok());
    let ids = asked.unwrap();
    let opened = tree.open_search(query);
    assert!(rt; opened.is_ok());
    let search = opened.unwrap();
    see_all(rt, tree, search);
    assert!(rt; are_alike(&ids, tree.found(search)));
    tree.close_search(search);
    ids.len()
}

/// A node has split and its right node has no entry, while a search by steps is open; then many
/// more have.
#[test]
fn while_nodes_split(rt: HostRuntime) {
    let mut tree = filled(&rt, rt.alloc(), 40);
    let search = begin(&rt, &mut tree);
    let last = place_until_split(&rt, &mut tree);
    assert_eq!(&rt; count(&rt, &mut tree, 500) as u64, last);
    fill(&rt, &mut tree, last + 1, 300);
    assert_eq!(&rt; count(&rt, &mut tree, 500), 300);
    assert_eq!(&rt; count(&rt, &mut tree, 100), 100);
    assert_eq!(&rt; count(&rt, &mut tree, 10), 10);
    see_all(&rt, &mut tree, search);
    assert_eq!(&rt; tree.found(search).len(), 300);
}

/// Pairs are let go, and leaves are retired, while a search by steps is open; they are freed once
/// it is closed.
#[test]
fn while_leaves_are_retired(rt: HostRuntime) {
    let mut tree = filled(&rt, rt.alloc(), 120);
    let search = begin(&rt, &mut tree);
    let keeper = KeepOne { key: 120 };
    let mut retired: u32 = 0;
    for _ in 0..20 {
        let round = tend_all(&rt, &mut tree, &keeper);
        retired = retired.saturating_add(round.retired);
        assert_eq!(&rt; count(&rt, &mut tree, 500), 1);
    }
    assert!(&rt; 0 < retired);
    tree.close_search(search);
    assert_eq!(&rt; tend_all(&rt, &mut tree, &keeper).freed, retired);
    assert_eq!(&rt; count(&rt, &mut tree, 500), 1);
}

/// A tree of which a search may see one node.
#[test]
fn more_nodes_than_steps(rt: HostRuntime) {
    let made = Tree::<Frames, _>::starting_at(rt.alloc(), 0, 0, 1, 1);
    assert!(&rt; made.is_ok());
    let mut tree = made.unwrap();
    let query = Window::new(window(&rt, 500, -1, 1));
    fill(&rt, &mut tree, 1, 16);
    assert!(&rt; tree.ids_matching(&query).is_ok_and(|ids| ids.len() == 16));
    let mut walk = tree.start_walk(17, pin(&rt, 17, 0));
    assert!(&rt; tree.advance(&mut walk).is_ok());
    assert!(&rt;
        tree.ids_matching(&query)
            .is_err_and(|fault| fault == TreeFault::Overrun)
    );
}

/// Each allocation of a whole search is refused in turn, which is answered S8; what is found
/// afterwards is the same.
#[test]
fn each_allocation_refused(rt: HostRuntime) {
    let memory = Refusing::new(rt.alloc(), 0);
    let tree = filled(&rt, &memory, 100);
    let query = Window::new(window(&rt, 500, -1, 1));
    for at in 1..=100 {
        memory.refuse(at);
        let asked = tree.ids_matching(&query);
        if !memory.has_refused() {
            assert!(&rt; 2 < at && asked.is_ok_and(|ids| ids.len() == 100));
            return;
        }
        assert!(&rt; asked.is_err_and(|fault| fault.code() == "S8"));
    }
    panic!(&rt; "a search takes memory more than 100 times");
}
