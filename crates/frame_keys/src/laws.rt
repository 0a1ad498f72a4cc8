//! Laws of the definitions. The function does nothing; its contract states the law.

ghost use Rattle.std.specs.Prelude.{◌↔◌};
ghost use Rattle.plane.specs.Extents.{Extent, IsFrame};
ghost use Rattle.plane.specs.Rows.{Covers};
ghost use Rattle.frame_keys.specs.Keys.{Encloses};

/// A frame's ends are in order, so an extent encloses it by its ends exactly if each point of the
/// frame lies in the extent.
pub fn frames_cover_by_ends()
    ensures { (outer inner : Extent) → IsFrame inner → (Encloses outer inner ↔ Covers outer inner) }
{}
