//! The next nim-values of a game.

ghost use Rattle.std.specs.Prelude.{◌≡◌, ◌≤◌, true, Some, None, IfOk, IfErr, OnOk};
ghost use Rattle.std.specs.Option.{unwrap_or};
ghost use Rattle.oct_verify.specs.Filing.{blocks_in};
ghost use Rattle.oct_verify.specs.Known.{known, is_true};
ghost use Rattle.oct_period.specs.Computing.{compute_fault, next_block};

use oct_code::LIMIT;
use oct_ops::{Block, MAX_ITEMS};
use oct_verify::Ledger;
use std::alloc::Allocator;

/// Why no values were computed.
#[derive(Clone, Copy, Debug, PartialEq, Eq)]
pub enum ComputeError {
    /// None are asked for.
    Zero,
    /// More than 1,024 are asked for.
    TooMany,
    /// The values of all heaps up to the limit are known.
    AtLimit,
    /// A request for memory was refused.
    OutOfMemory,
}

/// The block of the next nim-values of a game: from the known length on, `count` of them or as many as the limit leaves. It is
/// true. The first refusal is `Zero`, exactly where `count` is 0; then `TooMany`, exactly where it is over 1,024; then `AtLimit`,
/// exactly where the known length is `LIMIT`.
pub fn next_block<A: Allocator + Copy>(
    ledger: &Ledger<A>,
    count: u32,
) -> Result<Block<A>, ComputeError>
    ensures ok { IfOk result (λ block. block ≡ next_block ledger.now.code (blocks_in ledger.now.blocks) count) }
    ensures right { IfOk result (λ block. is_true block ≡ true) }
    ensures accepted { OnOk result (compute_fault (known (blocks_in ledger.now.blocks)) count ≡ None) }
    ensures error { IfErr result (λ error. error ≡ unwrap_or (compute_fault (known (blocks_in ledger.now.blocks)) count) ComputeError.OutOfMemory) }
{
    if count == 0 {
        return Err(ComputeError::Zero);
    }
    if count as usize > MAX_ITEMS {
        return Err(ComputeError::TooMany);
    }
    let start = ledger.known();
    let left = LIMIT as u32 - start;
    if left == 0 {
        return Err(ComputeError::AtLimit);
    }
    let Ok(values) = ledger.next_values(count.min(left)) else {
        return Err(ComputeError::OutOfMemory);
    };
    match Block::new(ledger.code(), start, values) {
        Ok(block) => Ok(block),
        Err(_) => unreachable!(),
    }
}
