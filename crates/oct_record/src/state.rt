//! An author and a set of operations as bytes.
#![tactic(auto, using(oct_ops::proofs::Growing::growing))]

ghost use Rattle.std.specs.Prelude.{◌≡◌, ◌≢◌, ◌≤◌, ◌<◌, ◌^◌, ◌++◌, ℕ, false, length, IfSome, IsNone, IfOk, IfErr, OnOk};
ghost use Rattle.oct_ops.specs.Operations.{set_of, IsRising};
ghost use Rattle.oct_delta.specs.Delta.{IsDeltaText};
ghost use Rattle.oct_delta.specs.State.{state_tag, IsState};
ghost use Rattle.oct_delta.specs.Text.{Bytes};
ghost use Rattle.oct_ops.specs.Growth.{Extends};
ghost use Rattle.oct_record.specs.States.{has_tag, state_text, IsAuthored, IsHeaded, RefusesList, RefusesState};

use crate::error::LoadError;
use byteorder::{BigEndian, ByteOrder};
use oct_delta::{DeltaFault, EncodeError, TextOps, encode_each, put_bytes, put_u32, read_ops};
use oct_join::Ops;
use std::alloc::Allocator;

/// Appends the text of an author and the operations of its set. After a refusal what was there before is at the front.
pub(crate) fn put_state<A: Allocator>(
    out: &mut Vec<u8, A>,
    author: u32,
    ops: Ops<'_, A>,
) -> Result<(), EncodeError>
    ensures ok { OnOk result (out.new.items ≡ out.old.items ++ state_text author ops.entry) }
    ensures kept { Extends out.old.items out.new.items }
{
    put_bytes(out, b"OGS1")?;
    put_u32(out, author)?;
    encode_each(ops, out)
}

/// The author of a state's text, which is at least 1, and its operations, in order. The answer is `Version` exactly where the
/// first four bytes are not `OGS1` or are missing, and `Refused` exactly for any other bytes that are no text of a state. Takes
/// no memory.
pub fn parse_state(bytes: &[u8]) -> Result<(u32, TextOps<'_>), LoadError>
    ensures ok { IfOk result (λ x. IsState bytes.now x.0 (set_of x.1)) }
    ensures author { IfOk result (λ x. 1 ≤ x.0) }
    ensures few { IfOk result (λ x. length x.1 < 2 ^ 32) }
    ensures rising { IfOk result (λ x. IsRising x.1) }
    ensures err { IfErr result (RefusesState bytes.now) }
    ensures memory { IfErr result (λ e. e ≢ LoadError.OutOfMemory) }
{
    let (author, delta) = split_state(bytes)?;
    let ops = read_list(delta)?;
    Ok((author, ops))
}

// The author of a state's text, and what follows it.
fn split_state(bytes: &[u8]) -> Result<(u32, &[u8]), LoadError>
    ensures ok { IfOk result (λ x. IsHeaded bytes.now x.0 x.1.now) }
    ensures err { IfErr result (RefusesState bytes.now) }
    ensures memory { IfErr result (λ e. e ≢ LoadError.OutOfMemory) }
{
    let Some(state) = split_tag(bytes) else {
        return Err(LoadError::Version);
    };
    split_author(state).ok_or(LoadError::Refused)
}

// What follows the tag.
fn split_tag(bytes: &[u8]) -> Option<&[u8]>
    ensures some { IfSome result (λ rest. bytes.now ≡ state_tag ++ rest.now) }
    ensures none { IsNone result → has_tag bytes.now ≡ false }
{
    match bytes {
        [b'O', b'G', b'S', b'1', rest @ ..] => Some(rest),
        _ => None,
    }
}

// The author, which is at least 1, and what follows it.
fn split_author(bytes: &[u8]) -> Option<(u32, &[u8])>
    ensures some { IfSome result (λ x. IsAuthored bytes.now x.0 x.1.now) }
    ensures none { IsNone result → (author : ℕ) (rest : Bytes) → ¬ IsAuthored bytes.now author rest }
{
    if bytes.len() < 4 {
        return None;
    }
    let (front, rest) = bytes.split_at(4);
    let author = BigEndian::read_u32(front);
    if author == 0 {
        return None;
    }
    Some((author, rest))
}

// The operations of a state's text.
fn read_list(bytes: &[u8]) -> Result<TextOps<'_>, LoadError>
    ensures ok { IfOk result (λ ops. IsDeltaText bytes.now ops) }
    ensures err { IfErr result (RefusesList bytes.now) }
    ensures memory { IfErr result (λ e. e ≢ LoadError.OutOfMemory) }
{
    match read_ops(bytes) {
        Ok(ops) => Ok(ops),
        Err(DeltaFault::Version | DeltaFault::Refused) => Err(LoadError::Refused),
    }
}
