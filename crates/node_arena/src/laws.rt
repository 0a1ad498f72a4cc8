//! The laws of the map that an arena is.

ghost use Rattle.std.specs.Prelude.{◌≡◌, ◌≢◌, ◌⊎◌, IsSome, Some};
ghost use Rattle.node_arena.specs.declared.handle.Handle.{Handle};
ghost use Rattle.node_arena.specs.Slots.{Slots, value_at, with_value};

/// The laws of the map that an arena is, for callers' proofs. The function does nothing; its
/// contract states the laws.
pub fn map_laws<T>()
    // Two handles are the same, or differ.
    ensures handle_cases { (one other : Handle) → (one ≡ other) ⊎ (one ≢ other) }

    // What is read after a write through `get_mut`.
    ensures value_with_here { (s : Slots T) (handle : Handle) (value : T)
        → IsSome (value_at s handle) → value_at (with_value s handle value) handle ≡ Some value }
    ensures value_with_other { (s : Slots T) (handle other : Handle) (value : T)
        → IsSome (value_at s handle) → other ≢ handle
        → value_at (with_value s handle value) other ≡ value_at s other }

    // Two handles of one slot that have values are the same.
    ensures one_value_a_slot { (s : Slots T) (one other : Handle) → IsSome (value_at s one)
        → IsSome (value_at s other) → other.slot ≡ one.slot → other ≡ one }
{}
