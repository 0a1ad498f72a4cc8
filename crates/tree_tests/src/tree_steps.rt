//! Helpers of several test files.
use frame_keys::Frames;
use plane::{Point, Shape};
use search_tree::{Tree, Visit, Walk};
use std::alloc::Allocator;
use std::process::Abort;

/// The shape of a point.
pub(crate) fn pin(rt: &impl Abort, x: i32, y: i32) -> Shape {
    let made = Shape::point(Point { x, y });
    assert!(rt; made.is_ok());
    made.unwrap()
}

/// The rectangle from x 0 to `right` and from y `low` to `high`.
pub(crate) fn window(rt: &impl Abort, right: i32, low: i32, high: i32) -> Shape {
    let made = Shape::polygon(&[
        Point { x: 0, y: low },
        Point { x: right, y: low },
        Point { x: right, y: high },
        Point { x: 0, y: high },
        Point { x: 0, y: low },
    ]);
    assert!(rt; made.is_ok());
    made.unwrap()
}

/// Advances a walk until its pair is placed.
pub(crate) fn finish<A: Allocator + Copy>(
    rt: &impl Abort,
    tree: &mut Tree<Frames, A>,
    walk: &mut Walk<Shape>,
) {
    for _ in 0..100 {
        if walk.placed() {
            return;
        }
        assert!(rt; tree.advance(walk).is_ok(), "a walk is refused");
    }
    panic!(rt; "a walk makes more than 100 steps");
}

/// Visits until the search is ready, and returns the number of visits.
pub(crate) fn see_all<A: Allocator + Copy>(
    rt: &impl Abort,
    tree: &mut Tree<Frames, A>,
    search: u64,
) -> u32 {
    for visit in 1..=100_000 {
        let answer = tree.visit(search);
        assert!(rt; answer.is_ok(), "a visit is refused");
        if answer == Ok(Visit::Ready) {
            return visit;
        }
    }
    panic!(rt; "a search makes more than 100,000 steps");
}

/// Pseudo-random numbers, from a linear congruence.
#[derive(Drop)]
pub(crate) struct Dice {
    pub(crate) state: u64,
}

impl Dice {
    /// The next number, below 2 ^ 31.
    pub(crate) fn draw(&mut self) -> u64 {
        self.state = self
            .state
            .wrapping_mul(6_364_136_223_846_793_005)
            .wrapping_add(1_442_695_040_888_963_407);
        self.state >> 33
    }

    /// A number below `sides`, or 0 if that is 0.
    pub(crate) fn below(&mut self, sides: u32) -> u32 {
        let number = self.draw().checked_rem(u64::from(sides)).unwrap_or(0);
        u32::try_from(number).unwrap_or(0)
    }
}
