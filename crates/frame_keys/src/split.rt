//! How the keys of a full node are shared out to two.
//!
//! Along each axis the keys are ordered by their middles, and that order is cut after each key in
//! turn, where both parts get enough keys. The best cut is the one whose parts overlap least, and
//! of those the one whose parts have the least margins. The part with the larger margin stays left.

ghost use Rattle.std.specs.Prelude.{◌≡◌, ◌↔◌, ◌≤◌, ◌<◌, ℕ, Some, IsTrue, IsBitSet, length, count_ones, slice_get, slice_index};
ghost use Rattle.plane.specs.Extents.{Extent};
ghost use Rattle.frame_keys.specs.Splits.{AreBehind, IsEven, IsLeastOf, IsCut, PicksRight, middle, is_behind, is_better};
ghost use Rattle.tree_theory.specs.declared.TheConstants.{NODE_SIZE};

use crate::measure::{margin, overlap};
use plane::{Frame, hull};
use tree_theory::{has_bit, with_bit};

/// The fewest keys of a part.
const FEWEST: u32 = 6;

/// The most keys of a part.
const MOST: u32 = 10;

/// The later half of the keys.
const LATER_HALF: u16 = 0xFF00;

/// Which way the keys are ordered.
#[derive(Clone, Copy)]
pub enum Axis {
    Across,
    Up,
}

/// Two parts of a node's keys: which keys go right, how much the parts' frames overlap, and the sum
/// of their margins.
#[derive(Clone, Copy)]
struct Cut {
    right: u16,
    overlap: u64,
    margins: u64,
}

impl Cut {
    /// Whether this cut's parts overlap less, or as much with smaller margins.
    fn is_better(&self, other: &Cut) -> bool
        ensures { result
            ≡ is_better self.now.overlap self.now.margins other.now.overlap other.now.margins }
    {
        self.overlap < other.overlap
            || (self.overlap == other.overlap && self.margins < other.margins)
    }
}

/// Which of a full node's keys go to the right part: bit i for key i.
pub fn right_part(keys: &[Frame]) -> u16
    requires { length keys.now ≡ NODE_SIZE }
    ensures picked { PicksRight keys.now result }
    ensures least { 4 ≤ count_ones result }
    ensures most { count_ones result ≤ 12 }
{
    let worst = Cut {
        right: LATER_HALF,
        overlap: u64::MAX,
        margins: u64::MAX,
    };
    let across = best_cut(keys, Axis::Across, worst);
    best_cut(keys, Axis::Up, across).right
}

/// The best cut along an axis, or `first` where none is better.
fn best_cut(keys: &[Frame], axis: Axis, first: Cut) -> Cut
    requires size { length keys.now ≡ NODE_SIZE }
    requires picked { PicksRight keys.now first.right }
    ensures { PicksRight keys.now result.right }
{
    let mut best = first;
    for place in 0..keys.len() {
        let right = behind(keys, axis, place);
        if is_even(right) {
            let cut = cut_at(keys, right);
            if cut.is_better(&best) {
                best = cut;
            }
        }
    }
    best
}

/// Whether both parts get enough keys.
fn is_even(right: u16) -> bool
    ensures { IsTrue result ↔ IsEven right }
{
    let count = right.count_ones();
    FEWEST <= count && count <= MOST
}

/// The cut with these keys in the one part, and the others in the other.
fn cut_at(keys: &[Frame], part: u16) -> Cut
    requires size { length keys.now ≡ NODE_SIZE }
    requires even { IsEven part }
    ensures even { IsEven result.right }
    ensures cut { IsCut keys.now part result.right result.overlap result.margins }
{
    let rest = hull_of(keys, !part);
    let taken = hull_of(keys, part);
    Cut {
        right: if margin(taken) > margin(rest) {
            !part
        } else {
            part
        },
        overlap: overlap(rest, taken),
        margins: margin(rest) + margin(taken),
    }
}

/// The least frame that holds the keys of the mask.
fn hull_of(keys: &[Frame], mask: u16) -> Frame
    requires size { length keys.now ≡ NODE_SIZE }
    requires some { 0 < mask }
    ensures { IsLeastOf result keys.now mask }
{
    let mut frame = keys[mask.trailing_zeros() as usize];
    for (i, key) in keys.iter().enumerate() {
        if has_bit(mask, i) {
            frame = hull(frame, *key);
        }
    }
    frame
}

/// Which keys come after this one in the order of their middles along an axis. Keys with the same
/// middle are in the order of their indices.
fn behind(keys: &[Frame], axis: Axis, place: usize) -> u16
    requires size { length keys.now ≡ NODE_SIZE }
    requires place { place < NODE_SIZE }
    ensures { AreBehind keys.now axis place result }
{
    let at = middle(keys[place], axis);
    let mut mask = 0;
    for (i, key) in keys.iter().enumerate() {
        if is_behind(middle(*key, axis), i, at, place) {
            mask = with_bit(mask, i);
        }
    }
    mask
}

/// Twice the middle of a frame along an axis.
fn middle(frame: Frame, axis: Axis) -> i32
    ensures { result ≡ middle axis frame }
{
    // Fact for the checker: `x0` states that every end is in range, so the sums fit.
    let _left = frame.x0();
    match axis {
        Axis::Across => frame.x0() + frame.x1(),
        Axis::Up => frame.y0() + frame.y1(),
    }
}

/// Whether a key with this middle and index comes after one with that middle and index.
fn is_behind(middle: i32, place: usize, other: i32, at: usize) -> bool
    ensures { result ≡ is_behind middle place other at }
{
    other < middle || (middle == other && at < place)
}
