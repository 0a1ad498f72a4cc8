//! What keeps the records of a trail for longer than the program runs.
#![tactic(auto)]

ghost use Rattle.std.specs.Prelude.{◌≡◌, ℕ, ◌+◌, length, OnOk};

use audit_trail::Trail;
use std::alloc::Allocator;

/// What keeps the records of a trail for longer than the program runs.
pub trait Keeper<A: Allocator> {
    /// Why records are not kept.
    type Fault: Drop;

    // the number of the record that is kept next
    ghost next: { Self → ℕ };

    /// Keeps the records of a trail that it does not have yet, and returns when they last.
    fn keep(&mut self, trail: &Trail<A>) -> Result<(), Self::Fault>
        ensures { OnOk result (next self.new ≡ trail.now.first + length trail.now.records) };
}
