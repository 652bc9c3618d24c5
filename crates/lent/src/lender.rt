//! The parent of an arena.

ghost use Rattle.std.specs.Prelude.{◌≡◌, ◌^◌, ◌<◌, ◌≤◌, IfSome};
ghost use base.Fml.{ftrue};

use crate::memory::Memory;
use std::alloc::{AllocError, Allocator};
use std::cell::Cell;

// The alignment of the memory. Each type is aligned to a divisor of it.
const ALIGN: usize = 16;

/// Gives the whole of a host's memory as one block, to the first who asks for no more than that, and then nothing. A request for
/// more is refused, and after it the memory is gone too.
#[derive(Drop)]
pub struct Lender {
    memory: Cell<Option<Memory>>,
}

impl Lender {
    /// A lender of this memory.
    pub fn new(memory: Memory) -> Lender {
        Lender {
            memory: Cell::new(Some(memory)),
        }
    }

    // The memory, where it was not taken and is enough for a block of this size and alignment.
    fn take(&self, size: usize, align: usize) -> Option<Memory>
        ensures { IfSome result (λ m. (size ≤ m.size) × (align ≤ 16)) }
    {
        let (have, memory) = self.memory.replace(None)?.with_size();
        if size <= have && align <= ALIGN {
            Some(memory)
        } else {
            None
        }
    }
}

unsafe impl Allocator for Lender {
    ghost dealloc_token = { λ _ _ _. ftrue };

    fn allocate(&self, size: usize, align: usize) -> Result<*mut u8, AllocError> {
        match self.take(size, align) {
            Some(Memory { ptr, size: _ }) => Ok(ptr),
            None => Err(AllocError),
        }
    }

    unsafe fn deallocate(&self, _ptr: *mut u8, _size: usize, _align: usize) {}
}
