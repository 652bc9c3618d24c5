//! Frames, as they are sent.
#![tactic(auto, using(oct_ops::proofs::Growing::growing))]

ghost use Rattle.std.specs.Prelude.{◌≡◌, ◌+◌, ◌<◌, ◌≤◌, ◌∷◌, ◌++◌, [], length, OnOk};
ghost use Rattle.oct_delta.specs.Clocks.{entries_bytes};
ghost use Rattle.oct_delta.specs.Text.{u32};
ghost use Rattle.oct_ops.specs.Growth.{Extends};
ghost use Rattle.oct_sync.specs.Frames.{frame_bytes, end_frame};

use oct_delta::{put_bytes, put_entries, put_u32};
use std::alloc::{AllocError, Allocator};

/// The greatest length of a frame, which counts its tag and its payload.
pub(crate) const MAX_FRAME: usize = 1_048_576;

/// The tag of a frame whose payload is a clock.
pub(crate) const CLOCK: u8 = 1;

/// The tag of a frame whose payload is a delta.
pub(crate) const DELTA: u8 = 2;

/// The tag of a frame that ends a side's operations.
pub(crate) const END: u8 = 3;

/// Appends the length and the tag of a frame whose payload has so many bytes.
pub(crate) fn put_head<A: Allocator>(
    out: &mut Vec<u8, A>,
    tag: u8,
    size: usize,
) -> Result<(), AllocError>
    requires { size < MAX_FRAME }
    ensures ok { OnOk result (out.new.items ≡ out.old.items ++ (u32 (1 + size) ++ tag ∷ [])) }
    ensures kept { Extends out.old.items out.new.items }
{
    put_u32(out, 1 + size as u32)?;
    put_bytes(out, &[tag])
}

/// Appends a clock frame of these authors with their numbers.
pub(crate) fn put_clock_frame<A: Allocator>(
    out: &mut Vec<u8, A>,
    entries: &[(u32, u32)],
) -> Result<(), AllocError>
    requires { length entries.now ≤ 65536 }
    ensures ok { OnOk result (out.new.items ≡ out.old.items ++ frame_bytes CLOCK (entries_bytes entries.now)) }
    ensures kept { Extends out.old.items out.new.items }
{
    put_head(out, CLOCK, 4 + 8 * entries.len())?;
    put_entries(out, entries)?;
    Ok(())
}

/// Appends an end frame.
pub(crate) fn put_end_frame<A: Allocator>(out: &mut Vec<u8, A>) -> Result<(), AllocError>
    ensures ok { OnOk result (out.new.items ≡ out.old.items ++ end_frame) }
    ensures kept { Extends out.old.items out.new.items }
{
    put_head(out, END, 0)
}
