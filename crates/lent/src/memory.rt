//! Memory of a host.

ghost use Rattle.std.specs.Prelude.{◌≡◌};
ghost use Rattle.linked_list_allocator.specs.Region.{IsRegionSize};
ghost use Rattle.linked_list_allocator.specs.Ownership.{bytes_at};

use std::marker::Model;

/// `size` bytes of a host at `ptr`, which are aligned to 16, lie in no other memory of the program, and are used by nobody else from
/// now on. The size is a multiple of 16, at least 32, and below 2^63. They are never given back.
///
/// What is said here is what the host owes, and nothing looks whether it holds.
#[repr(C)]
#[derive(Drop)]
pub struct Memory {
    pub(crate) ptr: *mut u8,
    pub(crate) size: usize,
    ghost fits: { IsRegionSize size },
}

impl Model for Memory {
    ghost also_owns = { λ m. bytes_at m.ptr m.size };
}

impl Memory {
    /// How many bytes it has, and the memory again.
    pub(crate) fn with_size(self) -> (usize, Memory)
        ensures { (result.0 ≡ self.size) × (result.1 ≡ self) }
    {
        let Memory { ptr, size } = self;
        (size, Memory { ptr, size })
    }
}
