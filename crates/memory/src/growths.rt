//! Growths of vectors, strings and lists in chunks.

ghost use Rattle.std.specs.Prelude.{◌≡◌, ◌+◌, ◌*◌, ◌<◌, ◌≤◌, ◌++◌, ◌∷◌, [], length, is_ok, vec_len, vec_capacity, string_bytes, string_len, string_capacity, if◌then◌else◌, IfErr, OnOk, OnErr, IsOk};
ghost use prog.Memory.{size};
ghost use denote.Param.{layout};
ghost use Rattle.chunks.specs.declared.chunked.TheConstants.{MOST_ELEMENTS};

use crate::no_memory::{NoMemory, NotStored};
use chunks::Chunked;
use std::alloc::Allocator;

/// The most bytes that `make_room` and `vec_with_room` may ask for, so that no caller provokes a
/// refusal by asking for more than any memory holds.
pub const MOST_BYTES: usize = 67_108_864;

/// The most elements that `make_slots` and `vec_with_slots` may ask for; the size of these
/// depends on a type parameter.
pub const MOST_SLOTS: usize = 4_096;

/// Growths of a `Vec`.
pub trait GrowVec<T> {
    /// Appends a value. If out of memory, the value is dropped.
    fn try_push(&mut self, value: T) -> Result<(), NoMemory>
    where
        T: Drop;

    /// Appends a value. If out of memory, the error holds it.
    fn store(&mut self, value: T) -> Result<(), NotStored<T>>;

    /// Makes room for this many more values.
    fn make_room(&mut self, additional: usize) -> Result<(), NoMemory>
        requires { additional * size (layout T.row) ≤ MOST_BYTES };

    /// Makes room for one more value, of a type whose size depends on a type parameter.
    fn make_slot(&mut self) -> Result<(), NoMemory>;

    /// Makes room for this many more values, of a type whose size depends on a type parameter.
    fn make_slots(&mut self, additional: usize) -> Result<(), NoMemory>
        requires { additional ≤ MOST_SLOTS };
}

impl<T, A: Allocator> GrowVec<T> for Vec<T, A> {
    fn try_push(&mut self, value: T) -> Result<(), NoMemory>
    where
        T: Drop,
        ensures items { self.new.items
            ≡ (if is_ok result then self.old.items ++ value ∷ [] else self.old.items) }
        ensures len { vec_len self.new
            ≡ (if is_ok result then vec_len self.old + 1 else vec_len self.old) }
        ensures capacity { vec_capacity self.old ≤ vec_capacity self.new }
        ensures full { OnErr result (vec_capacity self.old ≤ vec_len self.old) }
    {
        match self.push(value) {
            Ok(()) => Ok(()),
            Err(_) => Err(NoMemory::seen()),
        }
    }

    fn store(&mut self, value: T) -> Result<(), NotStored<T>>
        ensures items { self.new.items
            ≡ (if is_ok result then self.old.items ++ value ∷ [] else self.old.items) }
        ensures len { vec_len self.new
            ≡ (if is_ok result then vec_len self.old + 1 else vec_len self.old) }
        ensures value_returned { IfErr result (λ failed. failed.value ≡ value) }
        ensures capacity { vec_capacity self.old ≤ vec_capacity self.new }
        ensures full { OnErr result (vec_capacity self.old ≤ vec_len self.old) }
    {
        match self.push(value) {
            Ok(()) => Ok(()),
            Err(failed) => Err(NotStored {
                value: failed.value,
                cause: NoMemory::seen(),
            }),
        }
    }

    fn make_room(&mut self, additional: usize) -> Result<(), NoMemory>
        requires { additional * size (layout T.row) ≤ MOST_BYTES }
        ensures items { self.new.items ≡ self.old.items }
        ensures len { vec_len self.new ≡ vec_len self.old }
        ensures ok { OnOk result (vec_len self.new + additional ≤ vec_capacity self.new) }
        ensures capacity { vec_capacity self.old ≤ vec_capacity self.new }
        ensures full { OnErr result (vec_capacity self.old < vec_len self.old + additional) }
        ensures err { OnErr result (vec_capacity self.new ≡ vec_capacity self.old) }
    {
        match self.reserve(additional) {
            Ok(()) => Ok(()),
            Err(_) => Err(NoMemory::seen()),
        }
    }

    fn make_slot(&mut self) -> Result<(), NoMemory>
        ensures items { self.new.items ≡ self.old.items }
        ensures len { vec_len self.new ≡ vec_len self.old }
        ensures ok { OnOk result (vec_len self.new + 1 ≤ vec_capacity self.new) }
        ensures capacity { vec_capacity self.old ≤ vec_capacity self.new }
        ensures full { OnErr result (vec_capacity self.old < vec_len self.old + 1) }
        ensures err { OnErr result (vec_capacity self.new ≡ vec_capacity self.old) }
    {
        match self.reserve(1) {
            Ok(()) => Ok(()),
            Err(_) => Err(NoMemory::seen()),
        }
    }

    fn make_slots(&mut self, additional: usize) -> Result<(), NoMemory>
        requires { additional ≤ MOST_SLOTS }
        ensures items { self.new.items ≡ self.old.items }
        ensures len { vec_len self.new ≡ vec_len self.old }
        ensures ok { OnOk result (vec_len self.new + additional ≤ vec_capacity self.new) }
        ensures capacity { vec_capacity self.old ≤ vec_capacity self.new }
        ensures full { OnErr result (vec_capacity self.old < vec_len self.old + additional) }
        ensures err { OnErr result (vec_capacity self.new ≡ vec_capacity self.old) }
    {
        match self.reserve(additional) {
            Ok(()) => Ok(()),
            Err(_) => Err(NoMemory::seen()),
        }
    }
}

/// Appends copies of all these values, or of none if out of memory.
pub fn try_extend<T: Copy, A: Allocator>(list: &mut Vec<T, A>, values: &[T]) -> Result<(), NoMemory>
    ensures items { list.new.items
        ≡ (if is_ok result then list.old.items ++ values.now else list.old.items) }
    ensures len { vec_len list.new
        ≡ (if is_ok result then vec_len list.old + length values.now else vec_len list.old) }
    ensures capacity { vec_capacity list.old ≤ vec_capacity list.new }
    ensures full { OnErr result (vec_capacity list.old < vec_len list.old + length values.now) }
{
    match list.extend_from_slice(values) {
        Ok(()) => Ok(()),
        Err(_) => Err(NoMemory::seen()),
    }
}

/// Makes places for 256 more elements of a list in chunks. No element moves.
pub fn make_chunk<S, A: Allocator>(list: &mut Chunked<S, A>) -> Result<(), NoMemory>
    requires { list.old.places < MOST_ELEMENTS }
    ensures items { list.new.items ≡ list.old.items }
    ensures ok { OnOk result (list.new.places ≡ list.old.places + 256) }
    ensures err { OnErr result (list.new ≡ list.old) }
{
    match list.make_places() {
        Ok(()) => Ok(()),
        Err(_) => Err(NoMemory::seen()),
    }
}

/// Growths of a `String`.
pub trait GrowText {
    /// Appends a text.
    fn try_push_str(&mut self, text: &str) -> Result<(), NoMemory>;

    /// Appends a character.
    fn try_push_char(&mut self, character: char) -> Result<(), NoMemory>;
}

impl<A: Allocator> GrowText for String<A> {
    ghost use Rattle.std.specs.Char.{encode_utf8};

    fn try_push_str(&mut self, text: &str) -> Result<(), NoMemory>
        ensures bytes { string_bytes self.new
            ≡ (if is_ok result then string_bytes self.old ++ text.now else string_bytes self.old) }
        ensures full { OnErr result
            (string_capacity self.old < string_len self.old + length text.now) }
    {
        match self.push_str(text) {
            Ok(()) => Ok(()),
            Err(_) => Err(NoMemory::seen()),
        }
    }

    fn try_push_char(&mut self, character: char) -> Result<(), NoMemory>
        ensures bytes { string_bytes self.new
            ≡ (if is_ok result then string_bytes self.old
            ++ encode_utf8 character else string_bytes self.old) }
        ensures full { OnErr result
            (string_capacity self.old < string_len self.old + length (encode_utf8 character)) }
    {
        match self.push(character) {
            Ok(()) => Ok(()),
            Err(_) => Err(NoMemory::seen()),
        }
    }
}
