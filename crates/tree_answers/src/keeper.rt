//! Which pairs a tree keeps.

ghost use Rattle.std.specs.Prelude.{◌≡◌, ℕ, Bool};

/// Says which pairs stay in a tree when it is tended.
pub trait Keeper<I> {
    /// Whether it keeps the pair of this number and this item.
    ghost kept: { Self → ℕ → I → Bool };

    /// Whether the pair of this number and this item stays in the tree.
    fn keeps(&self, key: u64, item: &I) -> bool
        ensures { result ≡ kept self.now key item.now };
}
