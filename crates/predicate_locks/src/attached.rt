//! The searches that are attached to a node.

ghost use Rattle.std.specs.Prelude.{◌≡◌, ◌↔◌, ℕ, ◌+◌, ◌≤◌, ◌<◌, [], ◌∷◌, ◌++◌, length, filter, Contains, IsTrue, IsOk, IfOk, IfErr, OnOk, OnErr};
ghost use Rattle.predicate_locks.specs.Numbers.{HasRoomFor, is_in, with_number, with_numbers, IsUnion};
ghost use Rattle.predicate_locks.specs.Searches.{does_run};
ghost use Rattle.memory.specs.NoMemory.{out_of_memory};

use crate::MAX_ROOM;
use crate::fault::LockFault;
use crate::running::Running;
use memory::{GrowVec, copied};
use std::alloc::Allocator;
use std::marker::Model;

/// The searches that are attached to a node: a set of numbers.
///
/// It may still list a search that no longer runs, until `prune` removes it. No other search ever
/// gets that number.
#[derive(Drop)]
pub struct Attached<A: Allocator> {
    numbers: Vec<u64, A>,
}

impl<A: Allocator> Model for Attached<A> {
    ghost use Rattle.std.specs.Prelude.{vec_capacity};
    ghost use Rattle.predicate_locks.specs.Numbers.{Numbers};

    ghost Value = { Numbers };

    ghost view = { λ a. record { numbers = a.numbers.items; places = vec_capacity a.numbers } };
}

impl<A: Allocator> Attached<A> {
    /// Whether this number is attached.
    pub fn holds(&self, number: u64) -> bool
        ensures value { result ≡ is_in number self.now.numbers }
        ensures contains { IsTrue result ↔ Contains self.now.numbers number }
    {
        self.numbers.as_slice().contains(&number)
    }

    /// How many numbers are attached, including those that no longer run.
    pub fn len(&self) -> usize
        ensures { result ≡ length self.now.numbers }
    {
        self.numbers.len()
    }

    /// Whether no number is attached.
    pub fn is_empty(&self) -> bool
        ensures { IsTrue result ↔ (self.now.numbers ≡ []) }
    {
        self.numbers.is_empty()
    }
}

impl<A: Allocator + Copy> Attached<A> {
    /// No numbers. It takes no memory until it makes room or the first number is attached.
    pub fn new(alloc: A) -> Self
        ensures { result.numbers ≡ [] }
    {
        Attached {
            numbers: Vec::new(alloc),
        }
    }

    /// Makes room for `more` numbers, which can then be attached without memory. L3 where the
    /// allocation is refused: nothing changes.
    pub fn make_room(&mut self, more: usize) -> Result<(), LockFault>
        requires { more ≤ MAX_ROOM }
        ensures ok { OnOk result (HasRoomFor self.new more) }
        ensures numbers { self.new.numbers ≡ self.old.numbers }
        ensures places { self.old.places ≤ self.new.places }
        ensures memory_only_where_room_was_missing { IfErr result
            (λ fault. (fault ≡ LockFault.Memory out_of_memory)
            × (self.old.places < length self.old.numbers + more)) }
        ensures err { OnErr result (self.new ≡ self.old) }
    {
        self.numbers.make_room(more)?;
        Ok(())
    }

    /// Attaches a number. It takes memory only where there is no room. L3 where the allocation is
    /// refused: nothing changes.
    pub fn attach(&mut self, number: u64) -> Result<(), LockFault>
        ensures ok { OnOk result (self.new.numbers ≡ with_number number self.old.numbers) }
        ensures union { OnOk result (IsUnion self.old.numbers (number ∷ []) self.new.numbers) }
        ensures certain { HasRoomFor self.old 1 → IsOk result }
        ensures places { self.old.places ≤ self.new.places }
        ensures memory { IfErr result (λ fault. fault ≡ LockFault.Memory out_of_memory) }
        ensures err { OnErr result (self.new ≡ self.old) }
    {
        if self.holds(number) {
            return Ok(());
        }
        self.numbers.make_room(1)?;
        self.numbers.push_reserved(number);
        Ok(())
    }

    /// Attaches each of these numbers. It takes memory only where there is not room for so many. L3
    /// where the allocation is refused: nothing changes.
    pub fn attach_all(&mut self, more: &[u64]) -> Result<(), LockFault>
        requires { length more.now ≤ MAX_ROOM }
        ensures ok { OnOk result (self.new.numbers ≡ with_numbers more.now self.old.numbers) }
        ensures union { OnOk result (IsUnion self.old.numbers more.now self.new.numbers) }
        ensures certain { HasRoomFor self.old (length more.now) → IsOk result }
        ensures places { self.old.places ≤ self.new.places }
        ensures memory { IfErr result (λ fault. fault ≡ LockFault.Memory out_of_memory) }
        ensures err { OnErr result (self.new ≡ self.old) }
    {
        self.make_room(more.len())?;
        self.put_all(more);
        Ok(())
    }

    /// A copy of the numbers. L3 where an allocation is refused.
    pub fn copy(&self) -> Result<Self, LockFault>
        ensures ok { IfOk result (λ made. made.numbers ≡ self.now.numbers) }
        ensures memory { IfErr result (λ fault. fault ≡ LockFault.Memory out_of_memory) }
    {
        let numbers = copied(*self.numbers.allocator(), self.numbers.as_slice())?;
        Ok(Attached { numbers })
    }

    /// Removes the numbers that do not run.
    pub fn prune<Q: Copy, B: Allocator>(&mut self, running: &Running<Q, B>)
        ensures numbers { self.new.numbers ≡ filter (does_run running.now) self.old.numbers }
        ensures places { self.new.places ≡ self.old.places }
    {
        self.numbers.retain(|number| running.runs(*number));
    }

    /// Adds a number that is not attached, and for which there is room.
    fn put(&mut self, number: u64)
        requires { HasRoomFor self.old 1 }
        ensures numbers { self.new.numbers ≡ self.old.numbers ++ number ∷ [] }
        ensures places { self.new.places ≡ self.old.places }
    {
        self.numbers.push_reserved(number);
    }

    /// Attaches these numbers, for which there is room.
    fn put_all(&mut self, more: &[u64])
        requires { HasRoomFor self.old (length more.now) }
        ensures numbers { self.new.numbers ≡ with_numbers more.now self.old.numbers }
        ensures places { self.new.places ≡ self.old.places }
    {
        for number in more {
            if !self.holds(*number) {
                self.put(*number);
            }
        }
    }
}
