//! An allocator that refuses one allocation. The tests alone use it; its two methods are the one
//! place here that is `unsafe`.

use std::alloc::{AllocError, Allocator};
use std::cell::Cell;

/// Another allocator, which refuses one allocation, as if there were no memory left then.
pub(crate) struct Refusing<B: Allocator> {
    inner: B,
    /// How many allocations there are up to the refused one; 0 if none is to be refused, or it
    /// was.
    left: Cell<u64>,
}

impl<B: Allocator> Refusing<B> {
    /// Refuses none.
    pub(crate) fn none(inner: B) -> Refusing<B> {
        Refusing {
            inner,
            left: Cell::new(0),
        }
    }

    /// Refuses the nth allocation from now on, counted from 1; at 0 none.
    pub(crate) fn refuse(&self, nth: u64) {
        self.left.set(nth);
    }

    /// Whether the allocation that was to be refused was refused.
    pub(crate) fn has_refused(&self) -> bool {
        self.left.get() == 0
    }
}

impl<B: Allocator> Drop for Refusing<B> {
    fn drop(self) {
        let Self { inner: _, left: _ } = self;
    }
}

/// Counts an allocation; whether it is the one to refuse.
fn refuses(left: &Cell<u64>) -> bool {
    let count = left.get();
    left.set(count.saturating_sub(1));
    count == 1
}

unsafe impl<B: Allocator> Allocator for Refusing<B> {
    ghost dealloc_token = { λ heap ty ptr. B.dealloc_token heap.inner ty ptr };

    fn allocate(&self, size: usize, align: usize) -> Result<*mut u8, AllocError> {
        if refuses(&self.left) {
            return Err(AllocError);
        }
        self.inner.allocate(size, align)
    }

    unsafe fn deallocate(&self, ptr: *mut u8, size: usize, align: usize) {
        self.inner.deallocate(ptr, size, align);
    }
}
