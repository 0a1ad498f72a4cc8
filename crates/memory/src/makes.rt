//! New collections, boxes and shared values.

ghost use Rattle.std.specs.Prelude.{◌≡◌, ◌*◌, ◌≤◌, [], length, vec_len, vec_capacity, string_bytes, IfOk, IfErr, IsOk};
ghost use Rattle.std.specs.Arc.{arc_value};
ghost use prog.Memory.{size};
ghost use denote.Param.{layout};

use crate::growths::{MOST_BYTES, MOST_SLOTS};
use crate::no_memory::{NoMemory, NotStored};
use std::alloc::Allocator;
use std::sync::Arc;

/// An empty `Vec` with this much room. No room needs no memory.
pub fn vec_with_room<T, A: Allocator>(alloc: A, room: usize) -> Result<Vec<T, A>, NoMemory>
    requires { room * size (layout T.row) ≤ MOST_BYTES }
    ensures items { IfOk result (λ made. made.items ≡ []) }
    ensures len { IfOk result (λ made. vec_len made ≡ 0) }
    ensures capacity { IfOk result (λ made. room ≤ vec_capacity made) }
    ensures certain { room ≡ 0 → IsOk result }
{
    match Vec::with_capacity(alloc, room) {
        Ok(made) => Ok(made),
        Err(_) => Err(NoMemory::seen()),
    }
}

/// An empty `Vec` with this much room, for elements whose size depends on a type parameter. No room
/// needs no memory.
pub fn vec_with_slots<T, A: Allocator>(alloc: A, room: usize) -> Result<Vec<T, A>, NoMemory>
    requires { room ≤ MOST_SLOTS }
    ensures items { IfOk result (λ made. made.items ≡ []) }
    ensures len { IfOk result (λ made. vec_len made ≡ 0) }
    ensures capacity { IfOk result (λ made. room ≤ vec_capacity made) }
    ensures certain { room ≡ 0 → IsOk result }
{
    match Vec::with_capacity(alloc, room) {
        Ok(made) => Ok(made),
        Err(_) => Err(NoMemory::seen()),
    }
}

/// A copy of these values.
pub fn copied<T: Copy, A: Allocator>(alloc: A, values: &[T]) -> Result<Vec<T, A>, NoMemory>
    ensures items { IfOk result (λ made. made.items ≡ values.now) }
    ensures len { IfOk result (λ made. vec_len made ≡ length values.now) }
{
    match Vec::from_slice(alloc, values) {
        Ok(made) => Ok(made),
        Err(_) => Err(NoMemory::seen()),
    }
}

/// A copy of this text.
pub fn text<A: Allocator>(alloc: A, text: &str) -> Result<String<A>, NoMemory>
    ensures { IfOk result (λ made. string_bytes made ≡ text.now) }
{
    match String::from_str(alloc, text) {
        Ok(made) => Ok(made),
        Err(_) => Err(NoMemory::seen()),
    }
}

/// The value in a box. If out of memory, the error holds it.
pub fn boxed<T, A: Allocator>(alloc: A, value: T) -> Result<Box<T, A>, NotStored<T>>
    ensures ok { IfOk result (λ made. made.value ≡ value) }
    ensures value_returned { IfErr result (λ failed. failed.value ≡ value) }
{
    match Box::new(alloc, value) {
        Ok(made) => Ok(made),
        Err(failed) => Err(NotStored {
            value: failed.value,
            cause: NoMemory::seen(),
        }),
    }
}

/// The value in an `Arc`. If out of memory, the error holds it.
pub fn shared<T, A: Allocator>(alloc: A, value: T) -> Result<Arc<T, A>, NotStored<T>>
    ensures ok { IfOk result (λ made. arc_value made ≡ value) }
    ensures value_returned { IfErr result (λ failed. failed.value ≡ value) }
{
    match Arc::new(alloc, value) {
        Ok(made) => Ok(made),
        Err(failed) => Err(NotStored {
            value: failed.value,
            cause: NoMemory::seen(),
        }),
    }
}

/// One more owner of the value of an `Arc`. Refused only if no more owners can be counted.
pub fn another<T, A: Allocator>(held: &Arc<T, A>) -> Result<Arc<T, A>, NoMemory>
    ensures { IfOk result (λ made. arc_value made ≡ arc_value held.now) }
{
    match Arc::try_clone(held) {
        Ok(made) => Ok(made),
        Err(_) => Err(NoMemory::seen()),
    }
}
