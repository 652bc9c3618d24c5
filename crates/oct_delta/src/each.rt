//! The delta of the operations that a set gives one by one, without a list of them.
#![tactic(auto, using(oct_ops::proofs::Growing::growing))]

ghost use Rattle.std.specs.Prelude.{◌≡◌, ◌↔◌, ◌≤◌, ◌<◌, ◌^◌, ◌++◌, length, OnOk, OnErr, IsErrOf};
ghost use Rattle.std.specs.List.{flat_map, list_all};
ghost use Rattle.oct_ops.specs.Limits.{keeps_old_limits};
ghost use Rattle.oct_delta.specs.Text.{op_bytes};
ghost use Rattle.oct_delta.specs.Delta.{format_of, encoded, head_bytes};
ghost use Rattle.oct_delta.specs.Formats.{format};
ghost use Rattle.oct_ops.specs.Growth.{Extends};

use crate::error::EncodeError;
use crate::format::Edition;
use crate::output::{Put, put_bytes, put_u32};
use oct_join::Ops;
use oct_ops::Op;
use std::alloc::{AllocError, Allocator};

// Appends operations.
fn put_ops<A: Allocator>(out: &mut Vec<u8, A>, ops: Ops<'_, A>) -> Result<(), AllocError>
    ensures ok { OnOk result (out.new.items ≡ out.old.items ++ flat_map op_bytes ops.entry) }
    ensures kept { Extends out.old.items out.new.items }
{
    for op in ops {
        op.put(out)?;
    }
    Ok(())
}

// Whether each operation keeps the limits of the first edition.
fn each_keeps_old_limits<A: Allocator>(ops: Ops<'_, A>) -> bool
    ensures { result ≡ list_all keeps_old_limits ops.entry }
{
    for op in ops {
        if !op.keeps_old_limits() {
            return false;
        }
    }
    true
}

// The edition of the text: the first where it can spell all operations.
fn edition_of_each<A: Allocator>(ops: Ops<'_, A>) -> Edition
    ensures { format result ≡ format_of ops.entry }
{
    if each_keeps_old_limits(ops) {
        Edition::First
    } else {
        Edition::Second
    }
}

/// Appends what the one text of the operations that are left of an iterator over a set has in front of them: the tag, and
/// how many there are. After a refusal what was there before is at the front.
pub fn put_head<A: Allocator>(out: &mut Vec<u8, A>, ops: Ops<'_, A>) -> Result<(), AllocError>
    requires { length ops < 2 ^ 32 }
    ensures ok { OnOk result (out.new.items ≡ out.old.items ++ head_bytes ops.entry) }
    ensures kept { Extends out.old.items out.new.items }
{
    let count = ops.len() as u32;
    put_bytes(out, &edition_of_each(ops).tag())?;
    put_u32(out, count)
}

/// Appends the text of one operation. After a refusal what was there before is at the front.
pub fn put_op<A: Allocator, B: Allocator>(
    out: &mut Vec<u8, B>,
    op: &Op<A>,
) -> Result<(), AllocError>
    ensures ok { OnOk result (out.new.items ≡ out.old.items ++ op_bytes op.now) }
    ensures kept { Extends out.old.items out.new.items }
{
    op.put(out)
}

// Appends a tag, a count and the operations.
fn put_set<A: Allocator>(out: &mut Vec<u8, A>, ops: Ops<'_, A>) -> Result<(), AllocError>
    requires { length ops < 2 ^ 32 }
    ensures ok { OnOk result (out.new.items ≡ out.old.items ++ encoded ops.entry) }
    ensures kept { Extends out.old.items out.new.items }
{
    let all = ops.clone()?;
    put_head(out, all)?;
    put_ops(out, ops)
}

/// Appends the one text of the operations that are left of an iterator over a set, as `encode` does for a list. No
/// operation is copied. After a refusal `out` is as it was. The answer is `TooMany` exactly where their number is no
/// `u32`.
#[tactic(auto, using(oct_ops::proofs::Growing::cutting))]
pub fn encode_each<A: Allocator>(ops: Ops<'_, A>, out: &mut Vec<u8, A>) -> Result<(), EncodeError>
    ensures ok { OnOk result (out.new.items ≡ out.old.items ++ encoded ops.entry) }
    ensures too_many { IsErrOf result EncodeError.TooMany ↔ (2 ^ 32 ≤ length ops.entry) }
    ensures err { OnErr result (out.new.items ≡ out.old.items) }
{
    if ops.len() > u32::MAX as usize {
        return Err(EncodeError::TooMany);
    }
    let length = out.len();
    if put_set(out, ops).is_err() {
        out.truncate(length);
        return Err(EncodeError::OutOfMemory);
    }
    Ok(())
}
