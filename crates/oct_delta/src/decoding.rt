//! Deltas from bytes.

ghost use Rattle.std.specs.Prelude.{◌≡◌, ◌↔◌, List, Some, None, IfOk, IsErrOf, IsSome};
ghost use Rattle.oct_ops.specs.Body.{Operation};
ghost use Rattle.oct_delta.specs.Delta.{IsDeltaText};
ghost use Rattle.oct_delta.specs.Decoding.{format_at, read_delta};

use crate::error::{DeltaError, DeltaFault};
use crate::text_ops::{made, read_ops};
use oct_ops::OpList;
use std::alloc::Allocator;

/// The operations that the bytes spell, in either format. The bytes are checked as a whole before anything grows.
/// The answer is `Version` exactly where the first four bytes are no tag, and `Refused` for any other bytes that are
/// no delta.
pub fn decode<A: Allocator + Copy>(alloc: A, bytes: &[u8]) -> Result<OpList<A>, DeltaError>
    ensures ok { IfOk result (λ ops. IsDeltaText bytes.now ops) }
    ensures read { IfOk result (λ ops. read_delta bytes.now ≡ Some ops) }
    ensures version { IsErrOf result DeltaError.Version ↔ (format_at bytes.now ≡ None) }
    // The first four bytes are a tag, and the bytes are the text of no list.
    ensures refused { IsErrOf result DeltaError.Refused ↔ (IsSome (format_at bytes.now) × ((ops : List Operation) → ¬ IsDeltaText bytes.now ops)) }
    ensures unread { IsErrOf result DeltaError.Refused → read_delta bytes.now ≡ None }
    // Nothing grows before the bytes were found to be a delta.
    ensures memory { IsErrOf result DeltaError.OutOfMemory → (ops : List Operation) × IsDeltaText bytes.now ops }
    ensures failed { ¬ IsErrOf result DeltaError.Failed }
{
    let left = match read_ops(bytes) {
        Ok(left) => left,
        Err(DeltaFault::Version) => return Err(DeltaError::Version),
        Err(DeltaFault::Refused) => return Err(DeltaError::Refused),
    };
    let Ok(ops) = made(alloc, left) else {
        return Err(DeltaError::OutOfMemory);
    };
    Ok(OpList::of_rising(ops))
}
