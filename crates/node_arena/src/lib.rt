//! Values under handles that are never given twice.
#![tactic(auto)]

ghost use Rattle.std.specs.Prelude.{◌≡◌, ◌↔◌, ℕ, ◌+◌, ◌<◌, ◌≤◌, ◌==◌, IsTrue, IsSome, IsOk, OnOk, OnErr, OnSome, IfOk, IfErr, IfNone, None, Some, option_copied, if◌then◌else◌};
ghost use Rattle.std.specs.Option.{option_copied_mut};
ghost use Rattle.std.specs.Borrow.{sem};
ghost use Rattle.node_arena.specs.Slots.{last_generation, slot_at, next_generation, value_at, IsUsed, value_count, IsSize, slot_count, taken_count, HasRoomFor, SameButRoom, empty_from, with_slot, with_value, IsEmpty, IsGiven, CountsGiven, IsChangedAt, SameCounts};
ghost use Rattle.memory.specs.NoMemory.{out_of_memory};

use chunks::Chunked;
use memory::make_chunk;
use slot::Slot;
use std::alloc::Allocator;
use std::marker::Model;

mod fault;
mod handle;
mod laws;
mod slot;
mod threads;

pub use fault::ArenaFault;
pub use handle::Handle;
pub use laws::map_laws;
pub use threads::crosses_threads;

/// How many slots an arena has at most.
pub const MAX_SLOTS: u32 = 1_048_576;

/// How many values `reserve` makes room for at most: a chunk of slots.
pub const MOST_RESERVED: u32 = 256;

/// A map from handles to values. `insert` picks the handle, and gives no handle twice in the life
/// of the arena.
///
/// A slot's handles differ in their generation. It begins at 0 (or where `starting_at` says) and
/// rises by 1 each time the slot's value is removed. After its last generation, 4,294,967,295, the
/// slot is worn out: it is never used again.
///
/// The slots lie in chunks of 256, which are allocated as they are needed and freed with the arena.
/// A value is not moved as long as it is in the arena.
#[derive(Drop)]
pub struct Arena<T, A: Allocator> {
    slots: Chunked<Slot<T>, A>,
    /// The generation at which each slot begins.
    first: u32,
    /// How many slots hold a value.
    live: u32,
    /// How many slots are free, and the first of their chain.
    free: u32,
    next_free: Option<u32>,
}

impl<T, A: Allocator> Model for Arena<T, A> {
    ghost use Rattle.std.specs.Prelude.{map, min};
    ghost use Rattle.node_arena.specs.Slots.{Slots, slots_code};
    ghost use Rattle.node_arena.specs.declared.TheConstants.{MAX_SLOTS};

    ghost Value = { Slots T };

    ghost coded = { slots_code T.code };

    ghost use Rattle.node_arena.specs.Slot.{seen, IsSound};

    ghost view = { λ a. record {
      first = a.first;
      slots = map seen a.slots.items;
      places = min a.slots.places MAX_SLOTS;
    } };

    ghost invariant = { λ a. IsSound a.first a.slots.items a.live a.free a.next_free };
}

impl<T, A: Allocator> Arena<T, A> {
    ghost use Rattle.node_arena.specs.Lends.{lends_get, lends_value};

    /// An empty arena. It takes no memory until the first `insert` or `reserve`.
    pub fn new(alloc: A) -> Self
        ensures value { SameButRoom (empty_from 0) result }
        ensures empty { IsEmpty result }
    {
        Self::starting_at(alloc, 0)
    }

    /// As `new`, but each slot begins at `generation` in place of 0.
    pub fn starting_at(alloc: A, generation: u32) -> Self
        ensures value { SameButRoom (empty_from generation) result }
        ensures empty { IsEmpty result }
    {
        Arena {
            slots: Chunked::new(alloc),
            first: generation,
            live: 0,
            free: 0,
            next_free: None,
        }
    }

    /// How many values there are.
    pub fn len(&self) -> usize
        ensures value { result ≡ value_count self.now }
        ensures size { IsSize self.now (value_count self.now) }
    {
        self.live as usize
    }

    /// Whether there is no value.
    pub fn is_empty(&self) -> bool
        ensures { IsTrue result ↔ (value_count self.now ≡ 0) }
    {
        self.live == 0
    }

    /// How many slots were given out at least once, including worn-out ones. The slot of every
    /// handle that was given out is below this number.
    pub fn slots(&self) -> u32
        ensures value { result ≡ slot_count self.now }
        ensures used { (handle : Handle) → IsSome (value_at self.now handle)
            → IsUsed self.now handle }
        ensures below { (handle : Handle) → IsUsed self.now handle → handle.slot < result }
        ensures given_out { (slot : ℕ) → slot < result
            → IsUsed self.now (record { slot = slot; generation = self.now.first }) }
        ensures taken { taken_count self.now ≤ result }
        ensures limit { result ≤ MAX_SLOTS }
    {
        self.slots.len() as u32
    }

    /// Whether `insert` takes `more` values before it fails with A1.
    pub fn has_room(&self, more: u32) -> bool
        ensures { IsTrue result ↔ (taken_count self.now + more ≤ MAX_SLOTS) }
    {
        let taken = self.slots.len() - self.free as usize;
        taken + more as usize <= MAX_SLOTS as usize
    }

    /// The value under `handle`, if there is one.
    pub fn get(&self, handle: Handle) -> Option<&T>
        ensures value { option_copied result ≡ value_at self.now handle }
        ensures used { OnSome result (IsUsed self.now handle) }
    {
        self.slots.get(handle.slot as usize)?.get(handle.generation)
    }

    /// The handle in this slot that has a value, if there is one.
    pub fn at_slot(&self, slot: u32) -> Option<Handle>
        ensures { (handle : Handle) → (result ≡ Some handle)
            ↔ ((handle.slot ≡ slot) × IsSome (value_at self.now handle)) }
    {
        match self.slots.get(slot as usize) {
            Some(Slot::Live { generation, .. }) => Some(Handle {
                slot,
                generation: *generation,
            }),
            _ => None,
        }
    }

    /// The value under `handle` for writing, if there is one.
    pub fn get_mut(&mut self, handle: Handle) -> Option<&mut T>
        ensures* writes_back { sem 𝓛 (lends_get T.row A.row A.Allocator self.entry handle result) }
        ensures value { option_copied_mut result ≡ value_at self.old handle }

        // Whatever the caller leaves behind the reference, that pair changes and nothing else.
        ensures changes { OnSome result
            ((value : T) → IsChangedAt self.old (with_value self.old handle value) handle
            (Some value)) }
        ensures counts { OnSome result
            ((value : T) → SameCounts self.old (with_value self.old handle value)) }
    {
        if self.contains(handle) {
            Some(self.value_mut(handle))
        } else {
            None
        }
    }

    /// Makes room for `more` values, so that the next `more` calls of `insert` take no memory and
    /// cannot fail.
    ///
    /// A1 where fewer than `more` values fit below `MAX_SLOTS`, A2 where an allocation for a chunk
    /// of slots is refused. On an error nothing changes.
    pub fn reserve(&mut self, more: u32) -> Result<(), ArenaFault>
        requires { more ≤ MOST_RESERVED }
        ensures ok { OnOk result (HasRoomFor self.new more) }
        ensures rest_kept { SameButRoom self.old self.new }
        ensures places { self.old.places ≤ self.new.places }
        ensures full { (result ≡ Err ArenaFault.Full) ↔ (MAX_SLOTS < taken_count self.old + more) }
        ensures memory_only_where_room_was_missing { result ≡ Err (ArenaFault.Memory out_of_memory)
            → self.old.places < taken_count self.old + more }
        ensures err { OnErr result (self.new ≡ self.old) }
    {
        if !self.has_room(more) {
            return Err(ArenaFault::Full);
        }
        let taken = self.slots.len() - self.free as usize;
        if taken + more as usize > self.slots.places() {
            make_chunk(&mut self.slots)?;
        }
        Ok(())
    }

    /// Puts `value` under a new handle. It takes memory only where no slot is free and no chunk has
    /// a place, and none where `reserve` made room.
    ///
    /// A1 where `MAX_SLOTS` slots hold a value or are worn out, A2 where no slot is free and an
    /// allocation for a chunk of slots is refused. On an error the value is returned, and nothing
    /// changes.
    pub fn insert(&mut self, value: T) -> Result<Handle, (T, ArenaFault)>
        ensures ok { IfOk result (λ handle. IsGiven self.old self.new handle value) }
        ensures counts { IfOk result (CountsGiven self.old self.new) }

        // A free slot comes before one that was never given out.
        ensures reuses { taken_count self.old < slot_count self.old
            → IfOk result (λ handle. handle.slot < slot_count self.old) }
        ensures full { (result ≡ Err (value, ArenaFault.Full))
            ↔ (taken_count self.old ≡ MAX_SLOTS) }
        ensures memory_only_where_none_is_free { result ≡ Err
            (value, ArenaFault.Memory out_of_memory)
            → taken_count self.old ≡ slot_count self.old }
        ensures value_returned { IfErr result (λ refused. refused.0 ≡ value) }
        ensures err { OnErr result (self.new ≡ self.old) }

        // Where there is room, `insert` cannot fail and takes no memory.
        ensures certain { HasRoomFor self.old 1 → IsOk result }
        ensures room_kept { HasRoomFor self.old 1 → self.new.places ≡ self.old.places }
        ensures places { self.old.places ≤ self.new.places }
    {
        if self.free > 0 {
            return Ok(self.fill(value));
        }
        if self.slots.len() == MAX_SLOTS as usize {
            return Err((value, ArenaFault::Full));
        }
        if self.slots.len() == self.slots.places() {
            if let Err(no_memory) = make_chunk(&mut self.slots) {
                return Err((value, ArenaFault::Memory(no_memory)));
            }
        }
        let handle = Handle {
            slot: self.slots.len() as u32,
            generation: self.first,
        };
        self.live += 1;
        self.slots.push_reserved(Slot::Live {
            generation: self.first,
            value,
        });
        Ok(handle)
    }

    /// Removes the value under `handle` and returns it, if there is one. The handle stays used, and
    /// reads nothing from then on.
    pub fn remove(&mut self, handle: Handle) -> Option<T>
        ensures value { result ≡ value_at self.old handle }
        ensures changes { IsChangedAt self.old self.new handle None }
        ensures values { OnSome result (value_count self.new + 1 ≡ value_count self.old) }

        // The slot is then free, or worn out if that was its last generation.
        ensures taken { OnSome result
            (taken_count self.new + (if handle.generation == last_generation then 0 else 1)
            ≡ taken_count self.old) }
        ensures slots { slot_count self.new ≡ slot_count self.old }
        ensures places { self.new.places ≡ self.old.places }
        ensures none { IfNone result (self.new ≡ self.old) }
    {
        if !self.contains(handle) {
            return None;
        }
        Some(match handle.generation.checked_add(1) {
            Some(generation) => self.free_slot(handle, generation),
            None => self.wear_out(handle),
        })
    }

    /// Whether a value is kept under the handle.
    fn contains(&self, handle: Handle) -> bool
        ensures { IsTrue result ↔ IsSome (value_at self.now handle) }
    {
        self.get(handle).is_some()
    }

    /// The value under the handle, for writing.
    fn value_mut(&mut self, handle: Handle) -> &mut T
        requires { IsSome (value_at self.old handle) }
        ensures* writes_back { sem 𝓛
            (lends_value T.row A.row A.Allocator self.entry handle result) }
        ensures value { value_at self.old handle ≡ Some result.now }
    {
        self.slots.at_mut(handle.slot as usize).value_mut()
    }

    /// Puts `value` into the first of the free slots.
    fn fill(&mut self, value: T) -> Handle
        requires { taken_count self.old < slot_count self.old }
        ensures was_free { slot_at self.old result.slot ≡ (result.generation, None) }
        ensures begun { self.old.first ≤ result.generation }
        ensures within { result.slot < slot_count self.old }
        ensures filled { self.new ≡ with_value self.old result value }
    {
        let Some(slot) = self.next_free else {
            unreachable!();
        };
        let (generation, next) = self.slots.at_mut(slot as usize).fill(value);
        self.live += 1;
        self.free -= 1;
        self.next_free = next;
        Handle { slot, generation }
    }

    /// Removes a value whose slot has a next generation.
    fn free_slot(&mut self, handle: Handle, generation: u32) -> T
        requires present { IsSome (value_at self.old handle) }
        requires next { generation ≡ handle.generation + 1 }
        ensures value { value_at self.old handle ≡ Some result }
        ensures freed { self.new ≡ with_slot self.old handle None }
    {
        let freed = Slot::Free {
            generation,
            next: self.next_free,
        };
        self.live -= 1;
        self.free += 1;
        self.next_free = Some(handle.slot);
        self.slots.at_mut(handle.slot as usize).take(freed)
    }

    /// Removes the value of a slot's last generation.
    fn wear_out(&mut self, handle: Handle) -> T
        requires present { IsSome (value_at self.old handle) }
        requires last { handle.generation ≡ last_generation }
        ensures value { value_at self.old handle ≡ Some result }
        ensures worn_out { self.new ≡ with_slot self.old handle None }
    {
        self.live -= 1;
        self.slots.at_mut(handle.slot as usize).take(Slot::WornOut)
    }
}
