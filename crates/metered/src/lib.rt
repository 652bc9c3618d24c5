//! An allocator for tests, which refuses requests for memory where the test wants it.
//!
//! A collection is given a reference to it. Each request that is granted uses up one grant, and without a grant a request
//! is refused, so a test can refuse the first, the second, the third request of a call in turn, or count them:
//!
//!     let heap = Metered::new(rt.alloc());
//!     let mut numbers = Vec::new(&heap);
//!     heap.arm(0);
//!     numbers.push(1)             // refused
//!     heap.arm(1);
//!     numbers.push(1)             // granted, and heap.left() is 0 from here on
//!
//! A growth and a shrinkage count as one request each. What is given back costs nothing.
#![tactic(auto)]

use std::alloc::{AllocError, Allocator};
use std::cell::Cell;

/// Passes each request on to `inner` as long as there is a grant left.
pub struct Metered<B: Allocator> {
    inner: B,
    grants: Cell<u64>,
}

impl<B: Allocator> Metered<B> {
    /// The allocator over `inner`. At first it grants everything.
    pub fn new(inner: B) -> Metered<B> {
        Metered {
            inner,
            grants: Cell::new(u64::MAX),
        }
    }

    /// Grants `count` more requests, whatever was left before, and refuses every later one.
    pub fn arm(&self, count: u64) {
        self.grants.set(count);
    }

    /// How many requests would still be granted.
    pub fn left(&self) -> u64 {
        self.grants.get()
    }
}

impl<B: Allocator> Drop for Metered<B> {
    fn drop(self) {
        let Self {
            inner: _,
            grants: _,
        } = self;
    }
}

// Whether no grant is left; otherwise it takes one.
fn refuses(grants: &Cell<u64>) -> bool {
    match grants.get() {
        0 => true,
        left => {
            grants.set(left - 1);
            false
        }
    }
}

unsafe impl<B: Allocator> Allocator for Metered<B> {
    ghost dealloc_token = { λ heap ty ptr. B.dealloc_token heap.inner ty ptr };

    fn allocate(&self, size: usize, align: usize) -> Result<*mut u8, AllocError> {
        if refuses(&self.grants) {
            return Err(AllocError);
        }
        self.inner.allocate(size, align)
    }

    unsafe fn deallocate(&self, ptr: *mut u8, size: usize, align: usize) {
        self.inner.deallocate(ptr, size, align);
    }
}
