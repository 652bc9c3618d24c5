//! An arena over memory of a host.

use crate::lender::Lender;
use crate::memory::Memory;
use bumpalo::Bump;
use std::alloc::AllocError;

// What an arena keeps of its block for itself.
const KEPT: usize = 64;

/// An arena in this memory: a multiple of 4,096 bytes, so that all of it is one chunk. The one error is that there is no room for
/// an arena, as in fewer bytes than that.
pub fn arena_over(memory: Memory) -> Result<Bump<Lender>, AllocError> {
    let (size, memory) = memory.with_size();
    Bump::try_with_capacity(Lender::new(memory), size.saturating_sub(KEPT))
}
