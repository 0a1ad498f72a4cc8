//! An arena may cross threads as a vector may.

use crate::Arena;
use std::alloc::Allocator;

/// Accepts a type that may be sent to another thread, and shared with it.
fn crosses<X: Send + Sync>() {}

/// An arena may be sent and shared where its values and its allocator may. The function does
/// nothing: that it is proved shows it.
pub fn crosses_threads<T: Send + Sync, A: Allocator + Send + Sync>() {
    crosses::<Arena<T, A>>();
}
