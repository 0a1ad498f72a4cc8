//! An allocator for tests, which refuses one allocation of the caller's choice and passes all other
//! calls on.
#![tactic(auto)]

use std::alloc::{AllocError, Allocator};
use std::cell::Cell;

/// Passes each call on to `inner`, but refuses one allocation. The last call of `new` or `refuse`
/// gives the number of that allocation, counted from there.
///
/// It is not `Copy`: a test makes one, and passes `&Refusing` to what it tests. Growing a block
/// counts as one allocation.
pub struct Refusing<B: Allocator> {
    inner: B,
    /// The number of the allocation to be refused, counted down at each one; 0 refuses none.
    left: Cell<u64>,
}

impl<B: Allocator> Refusing<B> {
    /// An allocator over `inner` that refuses its allocation number `at`, counted from 1; with 0 it
    /// refuses none.
    pub fn new(inner: B, at: u64) -> Self {
        Self {
            inner,
            left: Cell::new(at),
        }
    }

    /// From now on, refuses the allocation number `at`, counted from 1; with 0 it refuses none.
    pub fn refuse(&self, at: u64) {
        self.left.set(at);
    }

    /// Whether the allocation that is to be refused has been asked for. If its number is 0 this is
    /// true, though no allocation is refused.
    pub fn has_refused(&self) -> bool {
        self.left.get() == 0
    }
}

impl<B: Allocator> Drop for Refusing<B> {
    fn drop(self) {
        let Self { inner: _, left: _ } = self;
    }
}

/// Whether the allocation that is asked for now is the one to be refused. Counts down, and stays at
/// 0.
fn refuses(left: &Cell<u64>) -> bool {
    let now = left.get();
    left.set(now.saturating_sub(1));
    now == 1
}

unsafe impl<B: Allocator> Allocator for Refusing<B> {
    ghost dealloc_token = { λ heap ty ptr. B.dealloc_token heap.inner ty ptr };

    fn allocate(&self, size: usize, align: usize) -> Result<*mut u8, AllocError> {
        if refuses(&self.left) {
            return Err(AllocError);
        }
        self.inner.allocate(size, align)
    }

    unsafe fn deallocate(&self, ptr: *mut u8, size: usize, align: usize) {
        self.inner.deallocate(ptr, size, align);
    }
}
