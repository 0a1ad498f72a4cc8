//! Segments in the tree whose frames all meet the query's frame: a search finds those alone that
//! meet the query itself.
use crate::tree_steps::{finish, see_all};
use frame_keys::Frames;
use plane::{LIMIT, Point, Shape};
use search_tree::Tree;
use std::alloc::Allocator;
use std::process::Abort;
use std::test::Fail;
use windows::Window;

/// How many pairs each tree has.
const PAIRS: u64 = 40;

/// The segment between two points.
fn segment(rt: &impl Abort, from: (i32, i32), to: (i32, i32)) -> Shape {
    let made = Shape::segment(
        Point {
            x: from.0,
            y: from.1,
        },
        Point { x: to.0, y: to.1 },
    );
    assert!(rt; made.is_ok());
    made.unwrap()
}

/// A tree of this shape under each even number, and of the other one under each odd number.
fn alternating<A: Allocator + Copy>(
    rt: &impl Abort,
    alloc: A,
    even: Shape,
    odd: Shape,
) -> Tree<Frames, A> {
    let made = Tree::new(alloc);
    assert!(rt; made.is_ok());
    let mut tree = made.unwrap();
    for key in 0..PAIRS {
        let shape = if key % 2 == 0 { even } else { odd };
        let mut walk = tree.start_walk(key, shape);
        finish(rt, &mut tree, &mut walk);
    }
    tree
}

/// Whether a search finds the pairs with even numbers, each once, and no other.
fn finds_the_even<A: Allocator + Copy>(
    rt: &impl Abort,
    tree: &mut Tree<Frames, A>,
    query: Shape,
) -> bool {
    let opened = tree.open_search(Window::new(query));
    assert!(rt; opened.is_ok());
    let search = opened.unwrap();
    see_all(rt, tree, search);
    let found = tree.found(search);
    let evens = found.iter().filter(|pair| pair.0 % 2 == 0).count();
    evens == found.len() && evens == 20
}

#[test]
fn crossing_segments(rt: HostRuntime) -> Result<(), Fail> {
    let crossing = segment(&rt, (0, 0), (3, 1));
    let below = segment(&rt, (0, 0), (1, 0));
    let query = segment(&rt, (0, 1), (3, 0));
    let mut tree = alternating(&rt, rt.alloc(), crossing, below);
    assert!(rt; finds_the_even(&rt, &mut tree, query));
    Ok(())
}

#[test]
fn long_parallel_segments(rt: HostRuntime) -> Result<(), Fail> {
    let query = segment(&rt, (-LIMIT, -LIMIT), (LIMIT, LIMIT - 1));
    let above = segment(&rt, (-LIMIT, -LIMIT + 1), (LIMIT, LIMIT));
    let mut tree = alternating(&rt, rt.alloc(), query, above);
    assert!(rt; finds_the_even(&rt, &mut tree, query));
    Ok(())
}
