//! Operations in frames.
#![tactic(auto, using(oct_ops::proofs::Growing::growing))]

ghost use Rattle.std.specs.Prelude.{◌≡◌, ◌+◌, ◌<◌, ◌≤◌, ◌∷◌, ◌++◌, [], length, IfOk, OnOk};
ghost use Rattle.std.specs.List.{flat_map};
ghost use Rattle.oct_delta.specs.Delta.{encoded};
ghost use Rattle.oct_delta.specs.Text.{op_bytes};
ghost use Rattle.oct_ops.specs.Growth.{Extends};
ghost use Rattle.oct_ops.specs.Operations.{IsRising};
ghost use Rattle.oct_sync.specs.Frames.{frame_bytes, delta_frames};
ghost use Rattle.oct_sync.specs.Packs.{pack_frame, may_follow, IsPack};

use crate::frame::{DELTA, MAX_FRAME, put_head};
use oct_delta::{EncodeError, encode, op_size};
use oct_ops::{Op, OpList};
use std::alloc::{AllocError, Allocator};

/// How many bytes of a frame's payload stand before the operations of a delta.
const DELTA_HEAD: usize = 8;

/// How many bytes of operations a delta may have in one frame.
const PACK_ROOM: usize = MAX_FRAME - 1 - DELTA_HEAD;

// Whether the operation may follow those of a frame: it fits, and keeps the old limits exactly where they do.
fn may_follow<A: Allocator>(pack: &[Op<A>], size: usize, op: &Op<A>) -> bool
    requires is { size ≡ length (flat_map op_bytes pack.now) }
    requires fits { size ≤ PACK_ROOM }
    ensures { result ≡ may_follow pack.now op.now }
{
    match pack {
        [] => true,
        [first, ..] => {
            op.keeps_old_limits() == first.keeps_old_limits() && op_size(op) <= PACK_ROOM - size
        }
    }
}

// Appends a frame of these operations, whose texts have so many bytes, or none where there are none.
fn put_pack<A: Allocator>(
    out: &mut Vec<u8, A>,
    pack: Vec<Op<A>, A>,
    size: usize,
) -> Result<(), AllocError>
    requires rises { IsRising pack.items }
    requires is { size ≡ length (flat_map op_bytes pack.items) }
    requires fits { size ≤ PACK_ROOM }
    ensures ok { OnOk result (out.new.items ≡ out.old.items ++ pack_frame pack.items) }
    ensures kept { Extends out.old.items out.new.items }
{
    if pack.is_empty() {
        return Ok(());
    }
    put_head(out, DELTA, DELTA_HEAD + size)?;
    match encode(&OpList::of_rising(pack), out) {
        Ok(()) => Ok(()),
        Err(EncodeError::OutOfMemory) => Err(AllocError),
        Err(EncodeError::TooMany) => unreachable!(),
    }
}

/// Appends the operations of the list in delta frames.
pub(crate) fn put_delta_frames<A: Allocator + Copy>(
    alloc: A,
    list: OpList<A>,
    out: &mut Vec<u8, A>,
) -> Result<(), AllocError>
    ensures ok { OnOk result (out.new.items ≡ out.old.items ++ delta_frames list) }
    ensures kept { Extends out.old.items out.new.items }
{
    let mut pack = Vec::new(alloc);
    let mut size = 0;
    for op in list.into_vec() {
        if !may_follow(&pack, size, &op) {
            put_pack(out, pack, size)?;
            pack = Vec::new(alloc);
            size = 0;
        }
        size += op_size(&op);
        pack.push(op)?;
    }
    put_pack(out, pack, size)?;
    Ok(())
}
