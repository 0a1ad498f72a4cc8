//! The blocks of a store's entries: looking for an id, and changing them.

ghost use Rattle.std.specs.Prelude.{◌≡◌, ◌+◌, ◌-◌, ◌<◌, ◌≤◌, ◌++◌, [], ℕ, All, length, drop, nat_lt, slice_get, vec_len, vec_capacity, IfSome, IfNone, IfOk, IfErr, IsOk, OnOk, IsTrue, IsFalse};
ghost use Rattle.feature_store.specs.Blocks.{AreFilled, AreFilledBut, HasGap, HasPlace, IsInserted, IsPresent, IsRemoved, IsWithin, block_at, entries_of, entry_at, fill_in, flat_index, halved, ids_in, joined, last_of, places_in, room_in, spare_in, with_entry, with_place, without_entry};
ghost use Rattle.feature_store.specs.Places.{AreRising, IsAt, IsGapFor};
ghost use Rattle.feature_store.specs.Tables.{IsRenumbered, rows_at};

use crate::rows::Row;
use crate::tables::{FEATURE_LIMIT, LIST_LIMIT};
use arrayvec::ArrayVec;
use features::Feature;
use memory::{GrowVec, NoMemory};
use std::alloc::Allocator;
use std::marker::Model;

/// The most entries of a block.
const BLOCK_LIMIT: usize = 512;

/// How far from where it would be, if ids rose evenly, an entry is looked for first.
const ENTRIES_NEAR: usize = 16;

/// The same for the block of an entry.
const BLOCKS_NEAR: usize = 2;

/// How many entries each half of a split block has, and the most of two blocks that are joined.
pub(crate) const HALF: usize = 256;

/// An id, and the place of its feature.
#[derive(Clone, Copy, Debug, Default)]
pub(crate) struct Entry {
    pub(crate) id: u64,
    pub(crate) place: u32,
}

pub(crate) type Block = ArrayVec<Entry, BLOCK_LIMIT>;

/// Where an entry is, or would be inserted.
#[derive(Clone, Copy)]
struct Position {
    block: usize,
    index: usize,
}

/// Between which two an index is looked for.
#[derive(Clone, Copy)]
struct Bounds {
    low: usize,
    high: usize,
}

/// Where one of `count` numbers would be that rise evenly from `first` to `last`.
fn even_place(first: u64, last: u64, count: usize, number: u64) -> usize
    ensures { result ≤ count }
{
    if number <= first || last <= first {
        return 0;
    }
    let above = number - first;
    let span = last - first;
    let place = match above.checked_mul(count as u64) {
        Some(product) => product / span,
        None => above / (span / count.max(1) as u64).max(1),
    };
    (place as usize).min(count)
}

/// Whether `index_in` finds this index.
fn is_index_in(entries: &[Entry], at: usize, id: u64) -> bool
    requires { at ≤ length entries.now }
    ensures before { IsTrue result → 0 < at → (entry_at entries.now (at - 1)).id < id }
    ensures behind { IsTrue result → at < length entries.now → id ≤ (entry_at entries.now at).id }
{
    if at > 0 && entries[at - 1].id >= id {
        return false;
    }
    at == entries.len() || id <= entries[at].id
}

/// Bounds of the index that `index_in` finds: near where it would be if the ids rose evenly, or else
/// those of all entries.
fn bounds_in(entries: &[Entry], id: u64) -> Bounds
    ensures ordered { result.low ≤ result.high }
    ensures within { result.high ≤ length entries.now }
    ensures before { 0 < result.low → (entry_at entries.now (result.low - 1)).id < id }
    ensures behind { result.high < length entries.now
        → id ≤ (entry_at entries.now result.high).id }
{
    let count = entries.len();
    if count <= ENTRIES_NEAR {
        return Bounds {
            low: 0,
            high: count,
        };
    }
    let place = even_place(entries[0].id, entries[count - 1].id, count, id);
    if is_index_in(entries, place, id) {
        return Bounds {
            low: place,
            high: place,
        };
    }
    let mut bounds = Bounds {
        low: 0,
        high: count,
    };
    if place > ENTRIES_NEAR && entries[place - ENTRIES_NEAR - 1].id < id {
        bounds.low = place - ENTRIES_NEAR;
    }
    if place + ENTRIES_NEAR < count && id <= entries[place + ENTRIES_NEAR].id {
        bounds.high = place + ENTRIES_NEAR;
    }
    bounds
}

/// The index of the first entry whose id is not less.
fn index_in(entries: &[Entry], id: u64) -> usize
    ensures within { result ≤ length entries.now }
    ensures before { 0 < result → (entry_at entries.now (result - 1)).id < id }
    ensures behind { result < length entries.now → id ≤ (entry_at entries.now result).id }
{
    let Bounds { low, high } = bounds_in(entries, id);
    let mut low = low;
    let mut high = high;
    while low < high {
        let middle = low + (high - low) / 2;
        if entries[middle].id < id {
            low = middle + 1;
        } else {
            high = middle;
        }
    }
    low
}

/// The last id of a block.
fn end_of(block: &Block) -> u64
    requires { 0 < length block.now.items }
    ensures { result ≡ (last_of block.now.items).id }
{
    let entries = block.as_slice();
    entries[entries.len() - 1].id
}

/// Whether the last id of a block is less.
fn ends_below(block: &Block, id: u64) -> bool
    requires { 0 < length block.now.items }
    ensures { result ≡ nat_lt (last_of block.now.items).id id }
{
    end_of(block) < id
}

/// Bounds of the block that `block_for` finds: near where it would be if the ids rose evenly, or else
/// those of all blocks.
fn bounds_for(blocks: &[Block], id: u64) -> Bounds
    requires some { 0 < length blocks.now }
    requires filled { AreFilled blocks.now }
    ensures ordered { result.low ≤ result.high }
    ensures within { result.high < length blocks.now }
    ensures before { 0 < result.low
        → (last_of (block_at blocks.now (result.low - 1))).id < id }
    ensures behind { result.high + 1 < length blocks.now
        → id ≤ (last_of (block_at blocks.now result.high)).id }
{
    let last = blocks.len() - 1;
    let mut bounds = Bounds { low: 0, high: last };
    if last <= BLOCKS_NEAR {
        return bounds;
    }
    let place = even_place(end_of(&blocks[0]), end_of(&blocks[last - 1]), last - 1, id);
    if is_block_for(blocks, place, id) {
        return Bounds {
            low: place,
            high: place,
        };
    }
    if place > BLOCKS_NEAR && ends_below(&blocks[place - BLOCKS_NEAR - 1], id) {
        bounds.low = place - BLOCKS_NEAR;
    }
    if place + BLOCKS_NEAR < last && !ends_below(&blocks[place + BLOCKS_NEAR], id) {
        bounds.high = place + BLOCKS_NEAR;
    }
    bounds
}

/// The index of the first block that does not end below an id, or of the last one.
fn block_for(blocks: &[Block], id: u64) -> usize
    requires some { 0 < length blocks.now }
    requires filled { AreFilled blocks.now }
    ensures within { result < length blocks.now }
    ensures before { 0 < result → (last_of (block_at blocks.now (result - 1))).id < id }
    ensures behind { result + 1 < length blocks.now
        → id ≤ (last_of (block_at blocks.now result)).id }
{
    let Bounds { low, high } = bounds_for(blocks, id);
    let mut low = low;
    let mut high = high;
    while low < high {
        let middle = low + (high - low) / 2;
        if ends_below(&blocks[middle], id) {
            low = middle + 1;
        } else {
            high = middle;
        }
    }
    low
}

/// Whether `block_for` finds the block at this index.
fn is_block_for(blocks: &[Block], at: usize, id: u64) -> bool
    requires { AreFilled blocks.now }
    ensures within { IsTrue result → at < length blocks.now }
    ensures before { IsTrue result → 0 < at → (last_of (block_at blocks.now (at - 1))).id < id }
    ensures behind { IsTrue result → at + 1 < length blocks.now
        → id ≤ (last_of (block_at blocks.now at)).id }
{
    if at >= blocks.len() {
        return false;
    }
    if at > 0 && !ends_below(&blocks[at - 1], id) {
        return false;
    }
    at + 1 == blocks.len() || !ends_below(&blocks[at], id)
}

/// The block of an id, by about where the blocks end; there may be fewer.
fn block_by_ends(ends: &[u64], id: u64) -> usize {
    let mut low = 0;
    let mut high = ends.len();
    while low < high {
        let middle = low + (high - low) / 2;
        if ends[middle] < id {
            low = middle + 1;
        } else {
            high = middle;
        }
    }
    low
}

/// The block that `block_for` finds, which may be the one at `near`, or the one that `ends` tell.
fn block_near(blocks: &[Block], ends: &[u64], near: usize, id: u64) -> usize
    requires some { 0 < length blocks.now }
    requires filled { AreFilled blocks.now }
    ensures within { result < length blocks.now }
    ensures before { 0 < result → (last_of (block_at blocks.now (result - 1))).id < id }
    ensures behind { result + 1 < length blocks.now
        → id ≤ (last_of (block_at blocks.now result)).id }
{
    if is_block_for(blocks, near, id) {
        return near;
    }
    let told = block_by_ends(ends, id);
    if is_block_for(blocks, told, id) {
        return told;
    }
    block_for(blocks, id)
}

/// Makes room for the ends of some more blocks, but not of more than a list can add.
pub(crate) fn room_for_ends<A: Allocator>(
    ends: &mut Vec<u64, A>,
    blocks: usize,
) -> Result<(), NoMemory> {
    ends.make_room(blocks.min(LIST_LIMIT + 1))
}

/// Notes where the blocks end, as far as there is room.
pub(crate) fn note_ends<A: Allocator>(ends: &mut Vec<u64, A>, blocks: &[Block]) {
    ends.clear();
    for block in blocks {
        if ends.len() == ends.capacity() {
            return;
        }
        if let Some(entry) = block.as_slice().last() {
            ends.push_reserved(entry.id);
        }
    }
}

/// The position of an id, or where it would be inserted, in the block that `block_for` finds.
fn find_in(blocks: &[Block], block: usize, id: u64) -> Result<Position, Position>
    requires filled { AreFilled blocks.now }
    requires rising { AreRising (ids_in (entries_of blocks.now)) }
    requires within { block < length blocks.now }
    requires before { 0 < block → (last_of (block_at blocks.now (block - 1))).id < id }
    requires behind { block + 1 < length blocks.now
        → id ≤ (last_of (block_at blocks.now block)).id }
    ensures found { IfOk result
        (λ position. IsAt id (ids_in (entries_of blocks.now)) (flat_index blocks.now position)) }
    ensures present { IfOk result (λ position. IsPresent position blocks.now) }
    ensures missing { IfErr result
        (λ position. IsGapFor id (ids_in (entries_of blocks.now))
        (flat_index blocks.now position)) }
    ensures within { IfErr result (λ position. IsWithin position blocks.now) }
{
    let entries = blocks[block].as_slice();
    let index = index_in(entries, id);
    let position = Position { block, index };
    if index == entries.len() {
        return Err(position);
    }
    if entries[index].id == id {
        return Ok(position);
    }
    Err(position)
}

/// The position of an id, or where it would be inserted.
fn find(blocks: &[Block], id: u64) -> Result<Position, Position>
    requires some { 0 < length blocks.now }
    requires filled { AreFilled blocks.now }
    requires rising { AreRising (ids_in (entries_of blocks.now)) }
    ensures found { IfOk result
        (λ position. IsAt id (ids_in (entries_of blocks.now)) (flat_index blocks.now position)) }
    ensures present { IfOk result (λ position. IsPresent position blocks.now) }
    ensures missing { IfErr result
        (λ position. IsGapFor id (ids_in (entries_of blocks.now))
        (flat_index blocks.now position)) }
    ensures within { IfErr result (λ position. IsWithin position blocks.now) }
{
    find_in(blocks, block_for(blocks, id), id)
}

/// Inserts an entry into a block that is not full.
fn insert_at<A: Allocator>(blocks: &mut Vec<Block, A>, position: Position, entry: Entry)
    requires within { IsWithin position blocks.old.items }
    requires space { length (block_at blocks.old.items position.block) < BLOCK_LIMIT }
    ensures items { blocks.new.items ≡ with_entry blocks.old.items position entry }
    ensures capacity { vec_capacity blocks.new ≡ vec_capacity blocks.old }
{
    blocks[position.block].insert(position.index, entry);
}

/// Removes an entry, and returns its place.
fn remove_at<A: Allocator>(blocks: &mut Vec<Block, A>, position: Position) -> u32
    requires { IsPresent position blocks.old.items }
    ensures place { result
        ≡ (entry_at (block_at blocks.old.items position.block) position.index).place }
    ensures items { blocks.new.items ≡ without_entry blocks.old.items position }
    ensures capacity { vec_capacity blocks.new ≡ vec_capacity blocks.old }
{
    blocks[position.block].remove(position.index).place
}

/// Gives an entry another place.
fn set_place<A: Allocator>(blocks: &mut Vec<Block, A>, position: Position, place: u32)
    requires { IsPresent position blocks.old.items }
    ensures items { blocks.new.items ≡ with_place blocks.old.items position place }
    ensures capacity { vec_capacity blocks.new ≡ vec_capacity blocks.old }
{
    blocks[position.block].as_mut_slice()[position.index].place = place;
}

/// A copy of the entries above the half of a block.
fn upper_half(block: &Block) -> Block
    ensures { result.items ≡ drop HALF block.now.items }
{
    let mut upper = ArrayVec::new();
    if HALF < block.len() {
        let (_, above) = block.as_slice().split_at(HALF);
        upper.try_extend_from_slice(above).unwrap();
    }
    upper
}

/// Splits a block into its lower half and the rest.
fn split<A: Allocator>(blocks: &mut Vec<Block, A>, at: usize)
    requires within { at < length blocks.old.items }
    requires room { vec_len blocks.old < vec_capacity blocks.old }
    ensures items { blocks.new.items ≡ halved blocks.old.items at }
    ensures capacity { vec_capacity blocks.new ≡ vec_capacity blocks.old }
{
    let upper = upper_half(&blocks[at]);
    blocks[at].truncate(HALF);
    blocks.insert(at + 1, upper).unwrap();
}

/// Joins a block and the next one, which fit into one.
fn join<A: Allocator>(blocks: &mut Vec<Block, A>, at: usize)
    requires within { at + 1 < length blocks.old.items }
    requires space { length (block_at blocks.old.items at)
        + length (block_at blocks.old.items (at + 1)) ≤ BLOCK_LIMIT }
    ensures items { blocks.new.items ≡ joined blocks.old.items at }
    ensures capacity { vec_capacity blocks.new ≡ vec_capacity blocks.old }
{
    let next = blocks.remove(at + 1);
    blocks[at].try_extend_from_slice(next.as_slice()).unwrap();
}

/// The position of an id, if it has an entry.
fn position_of(blocks: &[Block], id: u64) -> Option<Position>
    requires filled { AreFilled blocks.now }
    requires rising { AreRising (ids_in (entries_of blocks.now)) }
    ensures found { IfSome result
        (λ position. IsAt id (ids_in (entries_of blocks.now)) (flat_index blocks.now position)) }
    ensures present { IfSome result (λ position. IsPresent position blocks.now) }
    ensures missing { IfNone result (HasGap id (entries_of blocks.now)) }
{
    if blocks.is_empty() {
        return None;
    }
    match find(blocks, id) {
        Ok(position) => Some(position),
        Err(_) => None,
    }
}

/// The place at a position.
fn place_in(blocks: &[Block], position: Position) -> u32
    requires { IsPresent position blocks.now }
    ensures { result ≡ (entry_at (block_at blocks.now position.block) position.index).place }
{
    blocks[position.block].as_slice()[position.index].place
}

/// The place of an id.
pub(crate) fn place_of(blocks: &[Block], id: u64) -> Option<u32>
    requires filled { AreFilled blocks.now }
    requires rising { AreRising (ids_in (entries_of blocks.now)) }
    ensures found { IfSome result (λ place. HasPlace id place (entries_of blocks.now)) }
    ensures missing { IfNone result (HasGap id (entries_of blocks.now)) }
{
    match position_of(blocks, id) {
        Some(position) => Some(place_in(blocks, position)),
        None => None,
    }
}

/// The place of an id. It is looked for first in the block at `near`, which is then the one in which
/// it is, or would be; then in the one that `ends` tell.
pub(crate) fn place_near(blocks: &[Block], ends: &[u64], near: &mut usize, id: u64) -> Option<u32>
    requires filled { AreFilled blocks.now }
    requires rising { AreRising (ids_in (entries_of blocks.now)) }
    ensures found { IfSome result (λ place. HasPlace id place (entries_of blocks.now)) }
    ensures missing { IfNone result (HasGap id (entries_of blocks.now)) }
{
    if blocks.is_empty() {
        return None;
    }
    let block = block_near(blocks, ends, *near, id);
    *near = block;
    match find_in(blocks, block, id) {
        Ok(position) => Some(place_in(blocks, position)),
        Err(_) => None,
    }
}

/// Makes an empty block if there is none.
fn begin<A: Allocator>(blocks: &mut Vec<Block, A>)
    requires filled { AreFilled blocks.old.items }
    requires room { 1 ≤ room_in blocks.old.items (vec_capacity blocks.old) }
    ensures some { 0 < length blocks.new.items }
    ensures items { entries_of blocks.new.items ≡ entries_of blocks.old.items }
    ensures filled { AreFilled blocks.new.items }
    ensures room { room_in blocks.old.items (vec_capacity blocks.old)
        ≤ room_in blocks.new.items (vec_capacity blocks.new) }
{
    if blocks.is_empty() {
        blocks.push_reserved(ArrayVec::new());
    }
}

/// Whether a block is full.
fn is_full(blocks: &[Block], at: usize) -> bool
    requires { at < length blocks.now }
    ensures full { IsTrue result → length (block_at blocks.now at) ≡ BLOCK_LIMIT }
    ensures space { IsFalse result → length (block_at blocks.now at) < BLOCK_LIMIT }
{
    blocks[at].is_full()
}

/// Splits the full block of a position. Returns the position as it is then.
fn split_for<A: Allocator>(blocks: &mut Vec<Block, A>, position: Position) -> Position
    requires within { IsWithin position blocks.old.items }
    requires filled { AreFilled blocks.old.items }
    requires full { length (block_at blocks.old.items position.block) ≡ BLOCK_LIMIT }
    requires room { 1 ≤ room_in blocks.old.items (vec_capacity blocks.old) }
    ensures within { IsWithin result blocks.new.items }
    ensures space { length (block_at blocks.new.items result.block) < BLOCK_LIMIT }
    ensures items { entries_of blocks.new.items ≡ entries_of blocks.old.items }
    ensures index { flat_index blocks.new.items result ≡ flat_index blocks.old.items position }
    ensures filled { AreFilled blocks.new.items }
    ensures spare { spare_in blocks.old.items (vec_capacity blocks.old)
        ≤ spare_in blocks.new.items (vec_capacity blocks.new) + 1 }
    ensures fill { fill_in blocks.old.items (vec_capacity blocks.old)
        ≤ fill_in blocks.new.items (vec_capacity blocks.new) }
{
    split(blocks, position.block);
    if position.index <= HALF {
        return position;
    }
    Position {
        block: position.block + 1,
        index: position.index - HALF,
    }
}

/// Splits the block of a position if it is full. Returns the position as it is then.
fn make_way<A: Allocator>(blocks: &mut Vec<Block, A>, position: Position) -> Position
    requires within { IsWithin position blocks.old.items }
    requires filled { AreFilled blocks.old.items }
    requires room { 1 ≤ room_in blocks.old.items (vec_capacity blocks.old) }
    ensures within { IsWithin result blocks.new.items }
    ensures space { length (block_at blocks.new.items result.block) < BLOCK_LIMIT }
    ensures items { entries_of blocks.new.items ≡ entries_of blocks.old.items }
    ensures index { flat_index blocks.new.items result ≡ flat_index blocks.old.items position }
    ensures filled { AreFilled blocks.new.items }
    ensures spare { spare_in blocks.old.items (vec_capacity blocks.old)
        ≤ spare_in blocks.new.items (vec_capacity blocks.new) + 1 }
    ensures fill { fill_in blocks.old.items (vec_capacity blocks.old)
        ≤ fill_in blocks.new.items (vec_capacity blocks.new) }
{
    if is_full(blocks, position.block) {
        return split_for(blocks, position);
    }
    position
}

/// Inserts an entry, whose id is new.
pub(crate) fn insert<A: Allocator>(blocks: &mut Vec<Block, A>, entry: Entry)
    requires filled { AreFilled blocks.old.items }
    requires rising { AreRising (ids_in (entries_of blocks.old.items)) }
    requires absent { (i : ℕ) → IsAt entry.id (ids_in (entries_of blocks.old.items)) i → ⊥ }
    requires room { 1 ≤ room_in blocks.old.items (vec_capacity blocks.old) }
    ensures inserted { IsInserted entry (entries_of blocks.old.items)
        (entries_of blocks.new.items) }
    ensures filled { AreFilled blocks.new.items }
    ensures room { room_in blocks.old.items (vec_capacity blocks.old)
        ≤ room_in blocks.new.items (vec_capacity blocks.new) + 1 }
{
    begin(blocks);
    match find(blocks, entry.id) {
        Ok(_) => unreachable!(),
        Err(gap) => {
            let position = make_way(blocks, gap);
            insert_at(blocks, position, entry);
        }
    }
}

/// Whether a block and the next one fit into half of one.
fn can_join(blocks: &[Block], at: usize) -> bool
    ensures next { IsTrue result → at + 1 < length blocks.now }
    ensures small { IsTrue result
        → length (block_at blocks.now at) + length (block_at blocks.now (at + 1)) ≤ HALF }
{
    if blocks.len() <= at || blocks.len() - at < 2 {
        return false;
    }
    blocks[at].len() + blocks[at + 1].len() <= HALF
}

/// Joins a block and the next one if they fit into half of one.
fn join_small<A: Allocator>(blocks: &mut Vec<Block, A>, at: usize)
    requires { AreFilled blocks.old.items }
    ensures items { entries_of blocks.new.items ≡ entries_of blocks.old.items }
    ensures filled { AreFilled blocks.new.items }
    ensures room { room_in blocks.old.items (vec_capacity blocks.old)
        ≤ room_in blocks.new.items (vec_capacity blocks.new) }
{
    if can_join(blocks, at) {
        join(blocks, at);
    }
}

/// Whether a block is empty.
fn is_vacant(blocks: &[Block], at: usize) -> bool
    requires { at < length blocks.now }
    ensures none { IsTrue result → length (block_at blocks.now at) ≡ 0 }
    ensures some { IsFalse result → 0 < length (block_at blocks.now at) }
{
    blocks[at].is_empty()
}

/// Takes a block out if it is empty, and joins it with a neighbour if both are small.
fn tidy<A: Allocator>(blocks: &mut Vec<Block, A>, at: usize)
    requires within { at < length blocks.old.items }
    requires filled { AreFilledBut at blocks.old.items }
    ensures items { entries_of blocks.new.items ≡ entries_of blocks.old.items }
    ensures filled { AreFilled blocks.new.items }
    ensures room { room_in blocks.old.items (vec_capacity blocks.old)
        ≤ room_in blocks.new.items (vec_capacity blocks.new) }
{
    if is_vacant(blocks, at) {
        blocks.remove(at);
        return;
    }
    join_small(blocks, at);
    if 0 < at {
        join_small(blocks, at - 1);
    }
}

/// Removes the entry of an id, and returns its place.
pub(crate) fn remove<A: Allocator>(blocks: &mut Vec<Block, A>, id: u64) -> Option<u32>
    requires filled { AreFilled blocks.old.items }
    requires rising { AreRising (ids_in (entries_of blocks.old.items)) }
    ensures removed { IfSome result (λ place. IsRemoved id place
        (entries_of blocks.old.items) (entries_of blocks.new.items)) }
    ensures missing { IfNone result (HasGap id (entries_of blocks.old.items)) }
    ensures filled { AreFilled blocks.new.items }
    ensures room { room_in blocks.old.items (vec_capacity blocks.old)
        ≤ room_in blocks.new.items (vec_capacity blocks.new) }
{
    match position_of(blocks, id) {
        Some(position) => {
            let place = remove_at(blocks, position);
            tidy(blocks, position.block);
            Some(place)
        }
        None => None,
    }
}

/// Changes the place of an id to `to`, if it is `from`.
pub(crate) fn renumber<A: Allocator>(blocks: &mut Vec<Block, A>, id: u64, from: u32, to: u32)
    requires filled { AreFilled blocks.old.items }
    requires rising { AreRising (ids_in (entries_of blocks.old.items)) }
    ensures ids { ids_in (entries_of blocks.new.items) ≡ ids_in (entries_of blocks.old.items) }
    ensures places { IsRenumbered (ids_in (entries_of blocks.old.items)) id from to
        (places_in (entries_of blocks.old.items)) (places_in (entries_of blocks.new.items)) }
    ensures filled { AreFilled blocks.new.items }
    ensures room { room_in blocks.old.items (vec_capacity blocks.old)
        ≤ room_in blocks.new.items (vec_capacity blocks.new) }
{
    if let Some(position) = position_of(blocks, id) {
        if place_in(blocks, position) == from {
            set_place(blocks, position, to);
        }
    }
}

/// The place at an index of the list of all entries.
pub(crate) fn place_at(blocks: &[Block], at: usize) -> Option<u32>
    ensures { result ≡ slice_get (places_in (entries_of blocks.now)) at }
{
    let mut left = at;
    for block in blocks {
        if left < block.len() {
            return Some(block.as_slice()[left].place);
        }
        left -= block.len();
    }
    None
}

/// Appends copies of the features at the places of these entries.
fn copy_block<A: Allocator, B: Allocator>(
    rows: &mut Vec<Feature, B>,
    entries: &[Entry],
    features: &[Row<A>],
)
    requires in_range { All (λ place. place < length features.now) (places_in entries.now) }
    requires room { vec_len rows.old + length entries.now ≤ vec_capacity rows.old }
    ensures rows { rows.new.items ≡ rows.old.items
        ++ rows_at (places_in entries.now) features.now }
    ensures len { vec_len rows.new ≡ vec_len rows.old + length entries.now }
    ensures capacity { vec_capacity rows.new ≡ vec_capacity rows.old }
{
    for entry in entries {
        rows.push_reserved(features[entry.place as usize].feature());
    }
}

/// Appends copies of the features at the places of all entries.
pub(crate) fn copy_blocks<A: Allocator, B: Allocator>(
    rows: &mut Vec<Feature, B>,
    blocks: &[Block],
    features: &[Row<A>],
) -> Result<(), NoMemory>
    requires in_range { All (λ place. place < length features.now)
        (places_in (entries_of blocks.now)) }
    ensures { OnOk result
        (rows.new.items ≡ rows.old.items
        ++ rows_at (places_in (entries_of blocks.now)) features.now) }
{
    for block in blocks {
        let entries = block.as_slice();
        rows.make_room(entries.len())?;
        copy_block(rows, entries, features);
    }
    Ok(())
}
