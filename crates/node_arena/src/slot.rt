//! What one slot of an arena holds.

ghost use Rattle.std.specs.Prelude.{◌≡◌, IsSome, IsTrue, Some, option_copied};
ghost use Rattle.node_arena.specs.Slots.{held_under};
ghost use Rattle.std.specs.Borrow.{Lends, sem};
ghost use Rattle.node_arena.specs.Slot.{seen, value_of, rewritten, is_free};

use std::mem;

/// What a slot holds. `generation` is that of the slot's handle, or, in a free slot, that of the
/// next handle that the slot gives out.
#[derive(Drop)]
pub(crate) enum Slot<T> {
    Live { generation: u32, value: T },
    /// Free slots are chained: each names the next.
    Free { generation: u32, next: Option<u32> },
    /// The value of the last generation was removed. The slot is never used again.
    WornOut,
}

impl<T> Slot<T> {
    ghost use Rattle.node_arena.specs.contracts.slot.Slot.{the_row};

    /// The value, where the slot holds it under this generation.
    pub(crate) fn get(&self, generation: u32) -> Option<&T>
        ensures { option_copied result ≡ held_under (seen self.now) generation }
    {
        match self {
            Slot::Live {
                generation: held,
                value,
            } if *held == generation => Some(value),
            _ => None,
        }
    }

    /// The value that the slot holds, for writing.
    pub(crate) fn value_mut(&mut self) -> &mut T
        requires { IsSome (value_of self.old) }
        ensures* lends { sem 𝓛
            (Lends (the_row T.row) T.row self.entry result (rewritten self.entry.now)) }
        ensures value { value_of self.old ≡ Some result.now }
    {
        match self {
            Slot::Live { value, .. } => value,
            Slot::Free { .. } | Slot::WornOut => unreachable!(),
        }
    }

    /// Puts a value into a free slot, and returns its generation and the next free slot.
    pub(crate) fn fill(&mut self, value: T) -> (u32, Option<u32>)
        requires { IsTrue (is_free self.old) }
        ensures was { self.old ≡ Slot.Free result.0 result.1 }
        ensures filled { self.new ≡ Slot.Live result.0 value }
    {
        let (generation, next) = match self {
            Slot::Free { generation, next } => (*generation, *next),
            Slot::Live { .. } | Slot::WornOut => unreachable!(),
        };
        match mem::replace(self, Slot::Live { generation, value }) {
            Slot::Free { .. } => (generation, next),
            Slot::Live { .. } | Slot::WornOut => unreachable!(),
        }
    }

    /// Replaces the slot by `left`, and returns its value.
    pub(crate) fn take(&mut self, left: Slot<T>) -> T
        requires { IsSome (value_of self.old) }
        ensures value { value_of self.old ≡ Some result }
        ensures left { self.new ≡ left }
    {
        match mem::replace(self, left) {
            Slot::Live { value, .. } => value,
            Slot::Free { .. } | Slot::WornOut => unreachable!(),
        }
    }
}
