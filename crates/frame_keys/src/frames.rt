//! Frames as the keys of a search tree of shapes.

ghost use Rattle.std.specs.Prelude.{◌≡◌, ◌↔◌, ◌-◌, ◌≤◌, ◌<◌, ℕ, Some, IsTrue, IsBitSet, length, count_ones, slice_get};
ghost use Rattle.plane.specs.Extents.{Extent, IsFrame, joined, whole_extent};
ghost use Rattle.frame_keys.specs.Keys.{frames};
ghost use Rattle.frame_keys.specs.Measures.{area, margin};
ghost use Rattle.frame_keys.specs.Splits.{PicksRight};
ghost use Rattle.tree_theory.specs.declared.TheConstants.{NODE_SIZE};

use crate::masks::meeting_mask;
use crate::measure::{area, margin};
use crate::split::right_part;
use plane::{Frame, Shape, covers, frame_of, frames_meet, hull};
use tree_theory::KeyClass;
use windows::Window;

/// The class whose keys are frames, whose items are shapes, and whose queries are windows: a search
/// finds the shapes that meet its window.
pub struct Frames;

impl KeyClass for Frames {
    type Key = Frame;

    type Query = Window;

    type Item = Shape;

    ghost use Rattle.frame_keys.specs.Laws.{frames_whole_covers, frames_laws};

    ghost is_key = { IsFrame };

    ghost class = { frames };

    ghost whole_key = { whole_extent };

    ghost growth = { λ key other. area (joined key other) - area key };

    ghost second_growth = { λ key other. margin (joined key other) - margin key };

    ghost picks = { PicksRight };

    fn fact_known_key(key: Frame) {
        let _left = key.x0();
    }

    fn key_of(item: Shape) -> Frame {
        frame_of(&item)
    }

    fn covers(outer: Frame, inner: Frame) -> bool {
        Self::fact_known_key(inner);
        covers(outer, inner)
    }

    fn union(one: Frame, other: Frame) -> Frame {
        hull(one, other)
    }

    fn whole() -> Frame {
        Frame::whole()
    }

    fn consistent(key: Frame, query: Window) -> bool {
        frames_meet(key, query.frame())
    }

    fn matching_mask(keys: &[Frame], query: &Window) -> u16 {
        meeting_mask(keys, query.frame())
    }

    fn matches(item: Shape, query: Window) -> bool {
        query.meets(&item)
    }

    fn matches_in_place(item: &Shape, query: &Window) -> bool {
        query.meets(item)
    }

    /// The growth of the area.
    fn penalty(key: Frame, other: Frame) -> u64 {
        Self::fact_known_key(key);
        area(hull(key, other)) - area(key)
    }

    /// The growth of the margin. It breaks ties for flat frames: one that grows along its own line
    /// gains no area, and would tie with one that covers the item.
    fn second_penalty(key: Frame, other: Frame) -> u64 {
        Self::fact_known_key(key);
        margin(hull(key, other)) - margin(key)
    }

    fn pick_split(keys: &[Frame]) -> u16 {
        right_part(keys)
    }

    ghost whole_covers = { frames_whole_covers };

    ghost laws = { frames_laws };
}
