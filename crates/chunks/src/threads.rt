//! A list in chunks may cross threads as a vector may.

use crate::chunked::Chunked;
use std::alloc::Allocator;

/// Accepts a type that may be sent to another thread, and shared with it.
fn crosses<X: Send + Sync>() {}

/// A list in chunks may be sent and shared where its elements and its allocator may. The function
/// does nothing: that it is proved shows it.
pub fn crosses_threads<S: Send + Sync, A: Allocator + Send + Sync>() {
    crosses::<Chunked<S, A>>();
}
