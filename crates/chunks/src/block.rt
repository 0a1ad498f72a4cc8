//! A block: places, with the right to free them.

ghost use Rattle.std.specs.Prelude.{◌≡◌, ◌<◌, ◌≤◌, length, Some, None, IsSome, IfOk, replicate, slice_index_or};
ghost use Rattle.std.specs.Borrow.{sem};
ghost use Rattle.chunks.specs.Blocks.{with_item, IsFull, IsFreeFrom};

use crate::lease::{self, Lease};
use crate::places::Places;
use std::alloc::{AllocError, Allocator};
use std::marker::Model;

/// Places, with the right to free them. It is not `Drop`: `free` and `release` are its ends.
pub(crate) struct Block<S, A: Allocator> {
    row: Places<S>,
    lease: Lease<S, A>,
}

impl<S, A: Allocator> Model for Block<S, A> {
    ghost use Rattle.std.specs.Prelude.{◌≡◌, length};
    ghost use Rattle.chunks.specs.Blocks.{Held, held_code};

    ghost Value = { Held S A };

    ghost coded = { held_code S.code A.code };

    ghost view = { λ block. record { heap = block.lease.heap; items = block.row.items } };

    ghost invariant = { λ block. (block.lease.at ≡ block.row.at)
        × (block.lease.count ≡ length block.row.items) };
}

impl<S, A: Allocator> Block<S, A> {
    ghost use Rattle.chunks.specs.Lends.{lends_place};

    /// A block of `count` empty places. An error where the allocator refuses it, or where no block
    /// can have that many bytes.
    pub(crate) fn reserve(alloc: &A, count: usize) -> Result<Self, AllocError>
        ensures { IfOk result (λ block. (block.heap ≡ alloc.now)
            × (block.items ≡ replicate count None)) }
    {
        if !std_alloc::room::may_hold::<S>(count) {
            return Err(AllocError);
        }
        let (row, lease) = lease::reserve(alloc, count)?;
        Ok(Block { row, lease })
    }

    /// The value in a place.
    pub(crate) fn get(&self, place: usize) -> &S
        requires within { place < length self.now.items }
        requires filled { IsSome (slice_index_or self.now.items place None) }
        ensures { slice_index_or self.now.items place None ≡ Some result.now }
    {
        self.row.get(place)
    }

    /// The value in a place, for writing.
    pub(crate) fn get_mut(&mut self, place: usize) -> &mut S
        requires within { place < length self.old.items }
        requires filled { IsSome (slice_index_or self.old.items place None) }
        ensures* writes_back { sem 𝓛
            (lends_place S.row A.row A.Allocator self.entry place result) }
        ensures value { slice_index_or self.old.items place None ≡ Some result.now }
    {
        self.row.get_mut(place)
    }

    /// Puts a value into an empty place.
    pub(crate) fn put(&mut self, place: usize, value: S)
        requires within { place < length self.old.items }
        requires empty { slice_index_or self.old.items place None ≡ None }
        ensures { self.new ≡ with_item self.old place (Some value) }
    {
        self.row.put(place, value);
    }

    /// Takes the value out of a place.
    pub(crate) fn take(&mut self, place: usize) -> S
        requires within { place < length self.old.items }
        requires filled { IsSome (slice_index_or self.old.items place None) }
        ensures value { slice_index_or self.old.items place None ≡ Some result }
        ensures taken { self.new ≡ with_item self.old place None }
    {
        self.row.take(place)
    }

    /// Frees the block, all of whose places are empty.
    pub(crate) fn release(self, alloc: &A, count: usize)
        requires heap { self.heap ≡ alloc.now }
        requires size { length self.items ≡ count }
        requires empty { IsFreeFrom self.items 0 }
    {
        let Block { row, lease } = self;
        lease::release(alloc, row, lease, count);
    }
}

impl<S: Drop, A: Allocator> Block<S, A> {
    /// Drops the values of the first `filled` places, and frees the block.
    pub(crate) fn free(mut self, alloc: &A, filled: usize, count: usize)
        requires heap { self.heap ≡ alloc.now }
        requires size { (length self.items ≡ count) × (filled ≤ count) }
        requires full { IsFull self.items filled }
        requires empty { IsFreeFrom self.items filled }
    {
        for place in 0..filled {
            drop(self.take(place));
        }
        self.release(alloc, count);
    }
}
