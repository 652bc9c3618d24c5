//! Frames, as they are sent. After a refusal the output is as it was.
#![tactic(auto, using(oct_ops::proofs::Growing::cutting))]

ghost use Rattle.std.specs.Prelude.{◌≡◌, ◌+◌, ◌<◌, ◌≤◌, ◌∷◌, ◌++◌, [], take, length, OnOk, OnErr};
ghost use Rattle.std.specs.List.{flat_map};
ghost use Rattle.oct_delta.specs.Clocks.{entries_bytes};
ghost use Rattle.oct_delta.specs.Delta.{encoded};
ghost use Rattle.oct_delta.specs.Text.{op_bytes, u32};
ghost use Rattle.oct_join.specs.Clock.{entries};
ghost use Rattle.oct_ops.specs.Growth.{Extends};
ghost use Rattle.oct_ops.specs.Operations.{IsRising};
ghost use Rattle.oct_sync.specs.Frames.{clock_tag, delta_tag, end_frame, frame_bytes, max_frame};
ghost use Rattle.oct_sync.specs.Packs.{may_follow};
ghost use Rattle.oct_sync.specs.Session.{max_authors};

use oct_delta::{EncodeError, encode, op_size, put_bytes, put_entries, put_u32};
use oct_join::Clock;
use oct_ops::{Op, OpList};
use std::alloc::{AllocError, Allocator};

/// The most authors of a clock that is sent.
const MAX_AUTHORS: usize = 65_536;

/// The tags of frames whose payload is a clock, and a delta.
const CLOCK: u8 = 1;

const DELTA: u8 = 2;

/// How many bytes of a delta stand before its operations.
const DELTA_HEAD: usize = 8;

/// How many bytes of operations a delta may have in one frame.
const PACK_ROOM: usize = 1_048_576 - 1 - DELTA_HEAD;

/// The frame that ends a side's operations.
const END: [u8; 5] = [0, 0, 0, 1, 3];

// Takes back what was appended to the first bytes, where the appending was refused.
fn keep_or_cut<A: Allocator>(
    out: &mut Vec<u8, A>,
    length: usize,
    added: Result<(), AllocError>,
) -> Result<(), AllocError>
    ensures same { result ≡ added }
    ensures ok { OnOk added (out.new.items ≡ out.old.items) }
    ensures err { OnErr added (out.new.items ≡ take length out.old.items) }
{
    if added.is_err() {
        out.truncate(length);
    }
    added
}

// Appends the length and the tag of a frame whose payload has so many bytes.
fn put_head<A: Allocator>(out: &mut Vec<u8, A>, tag: u8, size: usize) -> Result<(), AllocError>
    requires { size < max_frame }
    ensures ok { OnOk result (out.new.items ≡ out.old.items ++ (u32 (1 + size) ++ tag ∷ [])) }
    ensures kept { Extends out.old.items out.new.items }
{
    put_u32(out, 1 + size as u32)?;
    put_bytes(out, &[tag])
}

// Appends a clock frame of these authors with their numbers.
fn put_entries_frame<A: Allocator>(
    out: &mut Vec<u8, A>,
    entries: &[(u32, u32)],
) -> Result<(), AllocError>
    requires { length entries.now ≤ max_authors }
    ensures ok { OnOk result (out.new.items ≡ out.old.items ++ frame_bytes clock_tag (entries_bytes entries.now)) }
    ensures kept { Extends out.old.items out.new.items }
{
    put_head(out, CLOCK, 4 + 8 * entries.len())?;
    put_entries(out, entries)?;
    Ok(())
}

// Appends the frame of a clock, cut to its first authors.
fn put_cut_clock<A: Allocator>(out: &mut Vec<u8, A>, clock: &Clock<A>) -> Result<(), AllocError>
    ensures ok { OnOk result (out.new.items ≡ out.old.items ++ frame_bytes clock_tag (entries_bytes (take max_authors (entries clock.now)))) }
    ensures kept { Extends out.old.items out.new.items }
{
    let entries = clock.entries();
    put_entries_frame(out, &entries[..entries.len().min(MAX_AUTHORS)])?;
    Ok(())
}

/// Appends the frame of a clock, cut to its first authors.
pub(crate) fn put_clock_frame<A: Allocator>(
    out: &mut Vec<u8, A>,
    clock: &Clock<A>,
) -> Result<(), AllocError>
    ensures ok { OnOk result (out.new.items ≡ out.old.items ++ frame_bytes clock_tag (entries_bytes (take max_authors (entries clock.now)))) }
    ensures err { OnErr result (out.new.items ≡ out.old.items) }
{
    let length = out.len();
    let added = put_cut_clock(out, clock);
    keep_or_cut(out, length, added)
}

/// Whether the operation may follow those of a frame, whose texts have so many bytes: it fits, and keeps the old limits exactly
/// where they do.
pub(crate) fn may_follow<A: Allocator>(pack: &[Op<A>], size: usize, op: &Op<A>) -> bool
    requires is { size ≡ length (flat_map op_bytes pack.now) }
    requires fits { size ≤ PACK_ROOM }
    ensures { result ≡ may_follow pack.now op.now }
{
    match pack {
        [] => true,
        [first, ..] => {
            op.keeps_old_limits() == first.keeps_old_limits() && op_size(op) <= PACK_ROOM - size
        }
    }
}

// Appends the head of a frame of so many bytes of operations, and the operations.
fn put_delta<A: Allocator>(
    out: &mut Vec<u8, A>,
    list: &OpList<A>,
    size: usize,
) -> Result<(), AllocError>
    requires is { size ≡ length (flat_map op_bytes list.now) }
    requires fits { size ≤ PACK_ROOM }
    ensures ok { OnOk result (out.new.items ≡ out.old.items ++ frame_bytes delta_tag (encoded list.now)) }
    ensures kept { Extends out.old.items out.new.items }
{
    put_head(out, DELTA, DELTA_HEAD + size)?;
    match encode(list, out) {
        Ok(()) => Ok(()),
        Err(EncodeError::OutOfMemory) => Err(AllocError),
        Err(EncodeError::TooMany) => unreachable!(),
    }
}

/// Appends a frame of these operations, whose texts have so many bytes.
pub(crate) fn put_pack<A: Allocator>(
    out: &mut Vec<u8, A>,
    pack: Vec<Op<A>, A>,
    size: usize,
) -> Result<(), AllocError>
    requires rises { IsRising pack.items }
    requires is { size ≡ length (flat_map op_bytes pack.items) }
    requires fits { size ≤ PACK_ROOM }
    ensures ok { OnOk result (out.new.items ≡ out.old.items ++ frame_bytes delta_tag (encoded pack.items)) }
    ensures err { OnErr result (out.new.items ≡ out.old.items) }
{
    let length = out.len();
    let added = put_delta(out, &OpList::of_rising(pack), size);
    keep_or_cut(out, length, added)
}

/// Appends the frame that ends a side's operations.
pub(crate) fn put_end<A: Allocator>(out: &mut Vec<u8, A>) -> Result<(), AllocError>
    ensures ok { OnOk result (out.new.items ≡ out.old.items ++ end_frame) }
    ensures err { OnErr result (out.new.items ≡ out.old.items) }
{
    let length = out.len();
    let added = put_bytes(out, &END);
    keep_or_cut(out, length, added)
}
