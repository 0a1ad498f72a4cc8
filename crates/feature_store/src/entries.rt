//! The entries of a store: for each id the place of its feature, by rising id.

ghost use Rattle.std.specs.Prelude.{◌≡◌, ◌+◌, ◌≤◌, ◌<◌, ◌++◌, [], ℕ, All, length, slice_get, IfSome, IfNone, IsOk, OnOk};
ghost use Rattle.feature_store.specs.Blocks.{HasGap, HasPlace, IsInserted, IsRemoved, ids_in, places_in};
ghost use Rattle.feature_store.specs.Places.{AreRising, IsAt};
ghost use Rattle.feature_store.specs.Tables.{IsRenumbered, rows_at};

use crate::blocks;
use crate::blocks::{Block, Entry, HALF};
use crate::rows::Row;
use crate::tables::{FEATURE_LIMIT, LIST_LIMIT};
use features::Feature;
use memory::{GrowVec, NoMemory};
use std::alloc::Allocator;
use std::marker::Model;

/// Entries by rising id, in blocks of at most 512. An insertion moves the greater ids of one block,
/// and once in about 256 insertions the blocks behind that one too. A contract sees the list of all
/// entries, and how many more certainly fit without growth.
#[derive(Debug, Drop)]
pub(crate) struct Entries<A: Allocator> {
    blocks: Vec<Block, A>,
    /// About where each block ends, beside one another: what is looked at first. Nothing rests on it.
    ends: Vec<u64, A>,
}

impl<A: Allocator> Model for Entries<A> {
    ghost use Rattle.std.specs.Prelude.{vec_capacity};
    ghost use Rattle.feature_store.specs.Blocks.{AreFilled, Listing, entries_of, room_in};

    ghost Value = { Listing };

    ghost view = { λ e. record {
      items = entries_of e.blocks.items;
      room = room_in e.blocks.items (vec_capacity e.blocks);
    } };

    ghost invariant = { λ e. AreFilled e.blocks.items };
}

impl<A: Allocator + Copy> Entries<A> {
    /// No entries. Allocates nothing.
    pub(crate) fn new(alloc: A) -> Self
        ensures { result.items ≡ [] }
    {
        Entries {
            blocks: Vec::new(alloc),
            ends: Vec::new(alloc),
        }
    }
}

impl<A: Allocator> Entries<A> {
    /// The place of an id.
    pub(crate) fn place_of(&self, id: u64) -> Option<u32>
        requires { AreRising (ids_in self.now.items) }
        ensures found { IfSome result (λ place. HasPlace id place self.now.items) }
        ensures missing { IfNone result (HasGap id self.now.items) }
    {
        blocks::place_of(&self.blocks, id)
    }

    /// The place of an id, looked for near where one was found before.
    pub(crate) fn place_near(&self, near: &mut usize, id: u64) -> Option<u32>
        requires { AreRising (ids_in self.now.items) }
        ensures found { IfSome result (λ place. HasPlace id place self.now.items) }
        ensures missing { IfNone result (HasGap id self.now.items) }
    {
        blocks::place_near(&self.blocks, &self.ends, near, id)
    }

    /// The place at an index. It walks over the blocks.
    pub(crate) fn place_at(&self, at: usize) -> Option<u32>
        ensures { result ≡ slice_get (places_in self.now.items) at }
    {
        blocks::place_at(&self.blocks, at)
    }

    /// Appends copies of the features at the places, in the order of the ids.
    pub(crate) fn copy_rows<B: Allocator>(
        &self,
        rows: &mut Vec<Feature, B>,
        features: &[Row<A>],
    ) -> Result<(), NoMemory>
        requires { All (λ place. place < length features.now) (places_in self.now.items) }
        ensures { OnOk result
            (rows.new.items ≡ rows.old.items
            ++ rows_at (places_in self.now.items) features.now) }
    {
        blocks::copy_blocks(rows, &self.blocks, features)
    }

    /// Makes room for this many more entries; there are at most `count`. None needs no memory.
    pub(crate) fn make_room(&mut self, count: usize, additional: usize) -> Result<(), NoMemory>
        requires count { length self.old.items ≤ count }
        requires count_few { count ≤ FEATURE_LIMIT }
        requires few { additional ≤ LIST_LIMIT }
        ensures items { self.new.items ≡ self.old.items }
        ensures ok { OnOk result (additional ≤ self.new.room) }
        ensures certain { additional ≡ 0 → IsOk result }
    {
        if additional == 0 {
            return Ok(());
        }
        let blocks = additional.min((count + additional) / HALF + 1) + 1;
        blocks::room_for_ends(&mut self.ends, blocks)?;
        self.blocks.make_room(blocks)
    }

    /// Inserts an entry, whose id is new.
    pub(crate) fn insert(&mut self, entry: Entry)
        requires rising { AreRising (ids_in self.old.items) }
        requires absent { (i : ℕ) → IsAt entry.id (ids_in self.old.items) i → ⊥ }
        requires room { 1 ≤ self.old.room }
        ensures inserted { IsInserted entry self.old.items self.new.items }
        ensures room { self.old.room ≤ self.new.room + 1 }
    {
        let before = self.blocks.len();
        blocks::insert(&mut self.blocks, entry);
        if self.blocks.len() != before {
            blocks::note_ends(&mut self.ends, &self.blocks);
        }
    }

    /// Removes the entry of an id, and returns its place.
    pub(crate) fn remove(&mut self, id: u64) -> Option<u32>
        requires { AreRising (ids_in self.old.items) }
        ensures removed { IfSome result
            (λ place. IsRemoved id place self.old.items self.new.items) }
        ensures missing { IfNone result (HasGap id self.old.items) }
        ensures room { self.old.room ≤ self.new.room }
    {
        let before = self.blocks.len();
        let place = blocks::remove(&mut self.blocks, id);
        if self.blocks.len() != before {
            blocks::note_ends(&mut self.ends, &self.blocks);
        }
        place
    }

    /// Changes the place of an id to `to`, if it is `from`.
    pub(crate) fn renumber(&mut self, id: u64, from: u32, to: u32)
        requires { AreRising (ids_in self.old.items) }
        ensures ids { ids_in self.new.items ≡ ids_in self.old.items }
        ensures places { IsRenumbered (ids_in self.old.items) id from to
            (places_in self.old.items) (places_in self.new.items) }
        ensures room { self.old.room ≤ self.new.room }
    {
        blocks::renumber(&mut self.blocks, id, from, to);
    }
}
