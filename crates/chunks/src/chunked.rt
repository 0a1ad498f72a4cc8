//! The list.

ghost use Rattle.std.specs.Prelude.{◌≡◌, ◌+◌, ◌<◌, ◌≤◌, ◌++◌, ◌∷◌, [], length, Some, IsSome, OnOk, OnErr, IfOk, slice_get};
ghost use Rattle.std.specs.Borrow.{sem, Lends};
ghost use Rattle.std.specs.Slice.{IsItemAt};
ghost use Rattle.chunks.specs.Chunks.{seen, IsHome};
ghost use Rattle.std.specs.contracts.option.Option.{the_row};

use crate::table::Table;
use std::alloc::{AllocError, Allocator};
use std::marker::Model;
use std::mem;

/// How many elements a list has at most.
pub const MOST_ELEMENTS: usize = 1_048_576;

/// A list whose elements never move: they lie in chunks of 256 places, and a growth adds a chunk.
/// It takes no memory until the first `make_places`.
pub struct Chunked<S, A: Allocator> {
    table: Option<Table<S, A>>,
    alloc: A,
}

impl<S, A: Allocator> Model for Chunked<S, A> {
    ghost use Rattle.chunks.specs.Chunks.{Chunks, chunks_code, seen, IsHome};

    ghost Value = { Chunks S };

    ghost coded = { chunks_code S.code };

    ghost view = { λ list. seen list.table };

    ghost invariant = { λ list. IsHome list.table list.alloc };
}

/// The value of an option, for writing.
fn inside<T>(option: &mut Option<T>) -> &mut T
    requires { IsSome option.old }
    ensures* writes_back { sem 𝓛 (Lends (the_row T.row) T.row option.entry result Some) }
    ensures value { option.old ≡ Some result.now }
{
    match option {
        Some(value) => value,
        None => unreachable!(),
    }
}

/// Makes a table where there is none.
fn make_table<S, A: Allocator>(table: &mut Option<Table<S, A>>, alloc: &A) -> Result<(), AllocError>
    requires { IsHome table.old alloc.now }
    ensures ok { OnOk result (IsSome table.new) }
    ensures same { IsHome table.new alloc.now × (seen table.new ≡ seen table.old) }
{
    if table.is_none() {
        match mem::replace(table, Some(Table::new(alloc)?)) {
            None => {}
            Some(_) => unreachable!(),
        }
    }
    Ok(())
}

impl<S, A: Allocator> Chunked<S, A> {
    ghost use Rattle.chunks.specs.Lends.{lends_item};

    /// An empty list.
    pub fn new(alloc: A) -> Self
        ensures { (result.items ≡ []) × (result.places ≡ 0) }
    {
        Chunked { table: None, alloc }
    }

    /// How many elements there are.
    pub fn len(&self) -> usize
        ensures value { result ≡ length self.now.items }
        ensures places { result ≤ self.now.places }
        ensures limit { result ≤ 1048576 }
    {
        match &self.table {
            Some(table) => table.len(),
            None => 0,
        }
    }

    /// For how many elements there are places.
    pub fn places(&self) -> usize
        ensures value { result ≡ self.now.places }
        ensures limit { result ≤ 1048576 }
    {
        match &self.table {
            Some(table) => table.places(),
            None => 0,
        }
    }

    /// An element, if there is one at `i`.
    pub fn get(&self, i: usize) -> Option<&S>
        ensures { IsItemAt self.now.items i result }
    {
        match &self.table {
            Some(table) if i < table.len() => Some(table.get(i)),
            _ => None,
        }
    }

    /// An element, for writing.
    pub fn at_mut(&mut self, i: usize) -> &mut S
        requires { i < length self.old.items }
        ensures* writes_back { sem 𝓛 (lends_item S.row A.row A.Allocator self.entry i result) }
        ensures value { slice_get self.old.items i ≡ Some result.now }
    {
        inside(&mut self.table).at_mut(i)
    }

    /// Appends an element, for which there is a place.
    pub fn push_reserved(&mut self, value: S)
        requires { length self.old.items < self.old.places }
        ensures items { self.new.items ≡ self.old.items ++ value ∷ [] }
        ensures places { self.new.places ≡ self.old.places }
    {
        inside(&mut self.table).push(value);
    }

    /// Makes places for 256 more elements. On an error nothing changes.
    ///
    /// An error where the allocator refuses a chunk or a larger table, or where no block can be as
    /// large as a chunk.
    pub fn make_places(&mut self) -> Result<(), AllocError>
        requires { self.old.places < MOST_ELEMENTS }
        ensures ok { OnOk result (self.new.places ≡ self.old.places + 256) }
        ensures items { self.new.items ≡ self.old.items }
        ensures err { OnErr result (self.new ≡ self.old) }
    {
        make_table(&mut self.table, &self.alloc)?;
        inside(&mut self.table).add_chunk(&self.alloc)
    }
}

impl<S: Drop, A: Allocator> Drop for Chunked<S, A> {
    fn drop(self) {
        let Chunked { table, alloc } = self;
        if let Some(table) = table {
            table.free(&alloc);
        }
    }
}
