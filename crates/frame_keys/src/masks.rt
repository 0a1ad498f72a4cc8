//! Which frames of a node meet another one, computed without a branch: which of them do is as good
//! as chance, so a processor would guess every second branch wrong.

ghost use Rattle.std.specs.Prelude.{◌≡◌, ◌≢◌, ◌↔◌, ◌≤◌, ◌<◌, ℕ, Some, false, IsTrue, IsBitSet, length, slice_get};
ghost use Rattle.plane.specs.Extents.{Extent, Overlap};
ghost use Rattle.plane.specs.Coordinates.{IsCoordinate};
ghost use Rattle.plane.specs.Rows.{FramesMeet};
ghost use Rattle.tree_theory.specs.declared.TheConstants.{NODE_SIZE};

use plane::Frame;

/// Which of these frames meet the other one: bit i for frame i.
pub fn meeting_mask(frames: &[Frame], other: Frame) -> u16
    requires { length frames.now ≤ NODE_SIZE }
    ensures each { (i : ℕ) (frame : Extent) → slice_get frames.now i ≡ Some frame
        → (IsBitSet result i ↔ FramesMeet frame other) }
    ensures no_other { (i : ℕ) → IsBitSet result i → i < length frames.now }
{
    let mut mask = 0;
    for (i, frame) in frames.iter().enumerate() {
        mask = with_bit_if(mask, i, do_meet(*frame, other));
    }
    mask
}

/// Whether some fraction point lies in both frames. All four comparisons are made.
fn do_meet(one: Frame, other: Frame) -> bool
    ensures { IsTrue result ↔ FramesMeet one other }
{
    overlap(one.x0(), one.x1(), other.x0(), other.x1())
        & overlap(one.y0(), one.y1(), other.y0(), other.y1())
}

/// Whether two intervals, each with its ends in order, have a common number. Both comparisons are
/// made.
fn overlap(low: i32, high: i32, other_low: i32, other_high: i32) -> bool
    requires low { IsCoordinate low }
    requires high { IsCoordinate high }
    requires other_low { IsCoordinate other_low }
    requires other_high { IsCoordinate other_high }
    ensures { IsTrue result ↔ Overlap low high other_low other_high }
{
    (low <= other_high) & (other_low <= high)
}

/// The mask with this bit set too if `wanted`, else the mask as it is.
fn with_bit_if(mask: u16, place: usize, wanted: bool) -> u16
    requires { place < NODE_SIZE }
    ensures set { IsTrue wanted → IsBitSet result place }
    ensures others { (i : ℕ) → i ≢ place → (IsBitSet result i ↔ IsBitSet mask i) }
    ensures unwanted { wanted ≡ false → result ≡ mask }
{
    mask | u16::from(wanted) << place
}
