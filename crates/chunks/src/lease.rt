//! Blocks of places from an allocator, and their way back.

ghost use Rattle.std.specs.Prelude.{◌≡◌, ℕ, None, IfOk, replicate};
ghost use denote.RawPtr.{Ptr, coded_ptr};
ghost use Rattle.chunks.specs.Owned.{may_free, FitsBlock};

use crate::places::Places;
use std::alloc::{AllocError, Allocator};
use std::marker::{Model, PhantomData};
use std::mem::{align_of, size_of};

/// The right to free the block of a `Places`. It holds no handle of the allocator, so one handle
/// serves any number of blocks. It is not `Drop`, so that no block is forgotten.
pub(crate) struct Lease<S, A: Allocator> {
    by: PhantomData<(S, A)>,
    /// The allocator's handle that gave the block.
    pub(crate) ghost heap: { A },
    pub(crate) ghost at: { Ptr } by { coded_ptr },
    pub(crate) ghost count: { ℕ },
}

impl<S, A: Allocator> Model for Lease<S, A> {
    ghost also_owns = { λ lease.
        may_free (A.dealloc_token lease.heap) S.row lease.at lease.count };
}

/// A block of `count` empty places.
pub(crate) fn reserve<S, A: Allocator>(
    alloc: &A,
    count: usize,
) -> Result<(Places<S>, Lease<S, A>), AllocError>
    requires { FitsBlock S.row count }
    ensures { IfOk result (λ made. (made.0.items ≡ replicate count None)
        × (made.1.at ≡ made.0.at) × (made.1.count ≡ count) × (made.1.heap ≡ alloc.now)) }
{
    match alloc.allocate(count * size_of::<S>(), align_of::<S>()) {
        Ok(block) => {
            let at = block as *mut S;
            let by = PhantomData;
            Ok((Places { at }, Lease { by }))
        }
        Err(refused) => Err(refused),
    }
}

/// Frees a block, all of whose places are empty.
pub(crate) fn release<S, A: Allocator>(alloc: &A, row: Places<S>, lease: Lease<S, A>, count: usize)
    requires heap { lease.heap ≡ alloc.now }
    requires tied { (lease.at ≡ row.at) × (lease.count ≡ count) }
    requires empty { row.items ≡ replicate count None }
{
    let Places { at } = row;
    let Lease { by: _ } = lease;
    unsafe {
        alloc.deallocate(at as *mut u8, count * size_of::<S>(), align_of::<S>());
    }
}

unsafe impl<S, A: Allocator + Send> Send for Lease<S, A> {}

unsafe impl<S, A: Allocator + Send> Sync for Lease<S, A> {}
