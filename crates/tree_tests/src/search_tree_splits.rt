//! How well nodes are split: how many of them a search visits.
use crate::tree_steps::{Dice, finish, see_all};
use frame_keys::Frames;
use plane::{Point, Shape};
use search_tree::Tree;
use std::alloc::{Allocator, Global};
use std::process::Abort;
use std::test::Fail;
use windows::Window;

/// The least x and the least y of the square.
const LOW: i32 = -10_000_000;

/// The side of the square.
const WIDTH: u32 = 20_000_000;

/// The side of a window. It is a tenth of the square's: about one point in a hundred is in a
/// window.
const SIDE: i32 = 2_000_000;

/// A window is inside the square if its lower left corner is less than this above `LOW` in x and y.
const ROOM: u32 = 18_000_001;

const POINTS: u64 = 1_000;

const WINDOWS: u32 = 100;

/// A random coordinate, less than `room` above `LOW`.
fn coordinate(dice: &mut Dice, room: u32) -> i32 {
    LOW.saturating_add(i32::try_from(dice.below(room)).unwrap_or(0))
}

/// A random point, less than `room` above `LOW` in x and y.
fn place(dice: &mut Dice, room: u32) -> Point {
    let x = coordinate(dice, room);
    let y = coordinate(dice, room);
    Point { x, y }
}

/// Places `POINTS` random points of the square.
fn spread<A: Allocator + Copy>(rt: &impl Abort, dice: &mut Dice, tree: &mut Tree<Frames, A>) {
    for key in 0..POINTS {
        let point = Shape::point(place(dice, WIDTH));
        assert!(rt; point.is_ok());
        let mut walk = tree.start_walk(key, point.unwrap());
        finish(rt, tree, &mut walk);
    }
}

/// Searches by a random window in the square, and returns how many nodes it visits and how many
/// points it finds.
fn search<A: Allocator + Copy>(
    rt: &impl Abort,
    dice: &mut Dice,
    tree: &mut Tree<Frames, A>,
) -> (u32, usize) {
    let low = place(dice, ROOM);
    let (right, top) = (low.x.saturating_add(SIDE), low.y.saturating_add(SIDE));
    let window = Shape::polygon(&[
        low,
        Point { x: right, y: low.y },
        Point { x: right, y: top },
        Point { x: low.x, y: top },
        low,
    ]);
    assert!(rt; window.is_ok());
    let opened = tree.open_search(Window::new(window.unwrap()));
    assert!(rt; opened.is_ok());
    let search = opened.unwrap();
    let visited = see_all(rt, tree, search);
    let found = tree.found(search).len();
    tree.close_search(search);
    (visited, found)
}

#[test]
fn few_nodes_are_visited(rt: HostRuntime) -> Result<(), Fail> {
    let made = Tree::new(rt.alloc());
    assert!(rt; made.is_ok());
    let mut tree: Tree<Frames, Global> = made.unwrap();
    let mut dice = Dice { state: 7 };
    spread(&rt, &mut dice, &mut tree);
    let mut visited: u32 = 0;
    let mut found: usize = 0;
    for _ in 0..WINDOWS {
        let (more, many) = search(&rt, &mut dice, &mut tree);
        visited = visited.saturating_add(more);
        found = found.saturating_add(many);
    }
    // On average about ten points a window, and at most six nodes.
    assert!(rt; 900 <= found && found <= 1_100, "{found} are found");
    assert!(rt; visited <= 600, "{visited} nodes are visited");
    Ok(())
}
