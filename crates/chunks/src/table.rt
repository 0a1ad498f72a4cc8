//! The chunks of a list, and the table of where they lie.

ghost use Rattle.std.specs.Prelude.{◌≡◌, ℕ, ◌+◌, ◌-◌, ◌*◌, ◌<◌, ◌≤◌, ◌++◌, ◌∷◌, [], min, length, Some, None, IsSome, IfOk, OnOk, OnErr, replicate, slice_get, slice_index_or};
ghost use Rattle.std.specs.Borrow.{sem};
ghost use Rattle.chunks.specs.Blocks.{IsFull, IsFreeFrom, SameItems};

use crate::block::Block;
use std::alloc::{AllocError, Allocator};
use std::marker::Model;
use std::mem;

/// How many places a chunk has.
pub const CHUNK_PLACES: usize = 256;

/// How many chunks the first table has places for.
const FIRST_ROOM: usize = 16;

/// How many chunks the largest table has places for.
const MOST_CHUNKS: usize = 4_096;

/// The chunks, and the table of where they lie. Only the table moves when it grows: the chunks, and
/// so the elements, stay. It is not `Drop`: `free` is its end.
pub(crate) struct Table<S, A: Allocator> {
    chunks: Block<Block<S, A>, A>,
    /// How many places the table has: 16, 32, .. 4,096.
    room: usize,
    /// How many chunks there are.
    count: usize,
    /// How many elements there are.
    len: usize,
}

impl<S, A: Allocator> Model for Table<S, A> {
    ghost use Rattle.std.specs.Prelude.{◌*◌};
    ghost use Rattle.chunks.specs.Tables.{Listed, listed_code, first_values, value_at, IsTable};

    ghost Value = { Listed S A };

    ghost coded = { listed_code S.code A.code };

    ghost view = { λ t. record {
      heap = t.chunks.heap;
      items = first_values (value_at t.chunks.items) t.len;
      places = t.count * 256;
      room = t.room;
    } };

    ghost invariant = { λ t. IsTable t.chunks t.room t.count t.len };
}

/// Moves the first `count` values of a block into one with `wider` places. On an error nothing
/// changes.
fn widen<S, A: Allocator>(
    block: &mut Block<S, A>,
    alloc: &A,
    room: usize,
    wider: usize,
    count: usize,
) -> Result<(), AllocError>
    requires heap { block.old.heap ≡ alloc.now }
    requires sizes { (length block.old.items ≡ room) × (count ≤ room) × (room ≤ wider) }
    requires full { IsFull block.old.items count }
    requires free { IsFreeFrom block.old.items count }
    ensures ok { OnOk result ((block.new.heap ≡ block.old.heap) × (length block.new.items ≡ wider)
        × SameItems block.old.items block.new.items) }
    ensures err { OnErr result (block.new ≡ block.old) }
{
    let mut wide = Block::reserve(alloc, wider)?;
    for place in 0..count {
        wide.put(place, block.take(place));
    }
    mem::replace(block, wide).release(alloc, room);
    Ok(())
}

/// How many places of chunk `chunk` hold one of `len` elements.
fn filled_of(len: usize, chunk: usize) -> usize
    requires { chunk < 4096 }
    ensures { result ≡ min (len - chunk * 256) 256 }
{
    len.saturating_sub(chunk * CHUNK_PLACES).min(CHUNK_PLACES)
}

impl<S, A: Allocator> Table<S, A> {
    ghost use Rattle.chunks.specs.Lends.{lends_element};

    /// A table with no chunks.
    pub(crate) fn new(alloc: &A) -> Result<Self, AllocError>
        ensures { IfOk result (λ table. (table.heap ≡ alloc.now) × (table.items ≡ [])
            × (table.places ≡ 0)) }
    {
        Ok(Table {
            chunks: Block::reserve(alloc, FIRST_ROOM)?,
            room: FIRST_ROOM,
            count: 0,
            len: 0,
        })
    }

    /// How many elements there are.
    pub(crate) fn len(&self) -> usize
        ensures value { result ≡ length self.now.items }
        ensures places { result ≤ self.now.places }
        ensures limit { result ≤ 1048576 }
    {
        self.len
    }

    /// For how many elements there are places.
    pub(crate) fn places(&self) -> usize
        ensures value { result ≡ self.now.places }
        ensures limit { result ≤ 1048576 }
    {
        self.count * CHUNK_PLACES
    }

    /// An element.
    pub(crate) fn get(&self, i: usize) -> &S
        requires { i < length self.now.items }
        ensures { slice_get self.now.items i ≡ Some result.now }
    {
        self.chunks.get(i / CHUNK_PLACES).get(i % CHUNK_PLACES)
    }

    /// An element, for writing.
    pub(crate) fn at_mut(&mut self, i: usize) -> &mut S
        requires { i < length self.old.items }
        ensures* writes_back { sem 𝓛 (lends_element S.row A.row A.Allocator self.entry i result) }
        ensures value { slice_get self.old.items i ≡ Some result.now }
    {
        self.chunks
            .get_mut(i / CHUNK_PLACES)
            .get_mut(i % CHUNK_PLACES)
    }

    /// Appends an element, for which there is a place.
    pub(crate) fn push(&mut self, value: S)
        requires { length self.old.items < self.old.places }
        ensures items { self.new.items ≡ self.old.items ++ value ∷ [] }
        ensures rest { (self.new.heap ≡ self.old.heap) × (self.new.places ≡ self.old.places) }
    {
        self.chunks
            .get_mut(self.len / CHUNK_PLACES)
            .put(self.len % CHUNK_PLACES, value);
        self.len += 1;
    }

    /// Makes places for 256 more elements. On an error the places are as before.
    pub(crate) fn add_chunk(&mut self, alloc: &A) -> Result<(), AllocError>
        requires heap { self.old.heap ≡ alloc.now }
        requires limit { self.old.places < 1048576 }
        ensures ok { OnOk result (self.new.places ≡ self.old.places + 256) }
        ensures rest { (self.new.heap ≡ self.old.heap) × (self.new.items ≡ self.old.items) }
        ensures err { OnErr result (self.new.places ≡ self.old.places) }
    {
        self.make_room(alloc)?;
        let chunk = Block::reserve(alloc, CHUNK_PLACES)?;
        self.put_chunk(chunk);
        Ok(())
    }

    /// Makes room in the table for one more chunk. On an error nothing changes.
    fn make_room(&mut self, alloc: &A) -> Result<(), AllocError>
        requires heap { self.old.heap ≡ alloc.now }
        requires limit { self.old.places < 1048576 }
        ensures ok { OnOk result (self.new.places < self.new.room * 256) }
        ensures rest { (self.new.heap ≡ self.old.heap) × (self.new.items ≡ self.old.items)
            × (self.new.places ≡ self.old.places) }
    {
        if self.count < self.room {
            return Ok(());
        }
        let wider = (self.room * 2).min(MOST_CHUNKS);
        widen(&mut self.chunks, alloc, self.room, wider, self.count)?;
        self.room = wider;
        Ok(())
    }

    /// Puts an empty chunk into the table, which has room for it.
    fn put_chunk(&mut self, chunk: Block<S, A>)
        requires room { self.old.places < self.old.room * 256 }
        requires empty { (chunk.heap ≡ self.old.heap) × (chunk.items ≡ replicate 256 None) }
        ensures places { self.new.places ≡ self.old.places + 256 }
        ensures rest { (self.new.heap ≡ self.old.heap) × (self.new.items ≡ self.old.items) }
    {
        self.chunks.put(self.count, chunk);
        self.count += 1;
    }
}

impl<S: Drop, A: Allocator> Table<S, A> {
    /// Drops the elements, and frees the chunks and the table.
    pub(crate) fn free(self, alloc: &A)
        requires { self.heap ≡ alloc.now }
    {
        let Table {
            mut chunks,
            room,
            count,
            len,
        } = self;
        for k in 0..count {
            chunks.take(k).free(alloc, filled_of(len, k), CHUNK_PLACES);
        }
        chunks.release(alloc, room);
    }
}
