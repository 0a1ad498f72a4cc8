//! Masks with a bit for each key of a node.

ghost use Rattle.std.specs.Prelude.{◌≢◌, ◌↔◌, ◌<◌, ℕ, IsBitSet, IsTrue};
ghost use Rattle.tree_theory.specs.declared.TheConstants.{NODE_SIZE};

/// The mask with this bit set too.
pub fn with_bit(mask: u16, place: usize) -> u16
    requires { place < NODE_SIZE }
    ensures set { IsBitSet result place }
    ensures others { (i : ℕ) → i ≢ place → (IsBitSet result i ↔ IsBitSet mask i) }
{
    mask | 1 << place
}

/// Whether this bit is set.
pub fn has_bit(mask: u16, place: usize) -> bool
    requires { place < NODE_SIZE }
    ensures { IsTrue result ↔ IsBitSet mask place }
{
    mask & 1 << place != 0
}
