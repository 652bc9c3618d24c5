//! Claimed values of a game.

ghost use Rattle.std.specs.Prelude.{◌≡◌, ◌+◌, length, IfOk, IfErr, OnOk};
ghost use Rattle.oct_ops.specs.Faults.{block_fault};
ghost use Rattle.oct_ops.specs.Operation.{claimed};
ghost use Rattle.oct_ops.specs.Valid.{IsBlock};

use crate::error::BlockError;
use crate::items::Items;
use crate::limits::MAX_ITEMS;
use oct_code::{Code, LIMIT};
use std::alloc::{AllocError, Allocator};
use std::marker::Model;

/// Claimed nim-values of a game, of the heaps from `start` on. They may be wrong.
#[derive(Drop)]
#[derive_where(PartialEq, Eq, PartialOrd, Ord)]
pub struct Block<A: Allocator> {
    code: Code,
    start: u32,
    values: Items<u32, A>,
}

impl<A: Allocator> Model for Block<A> {
    ghost use Rattle.oct_ops.specs.Operation.{Block as BlockValue, claimed};
    ghost use Rattle.oct_ops.specs.Valid.{IsBlock};

    ghost Value = { BlockValue };

    ghost view = { λ b. claimed b.code b.start b.values };

    ghost invariant = { λ b. IsBlock (claimed b.code b.start b.values) };

    ghost inverse = { λ b. record { code = b.code; start = b.start; values = b.values } };
}

impl<A: Allocator> Block<A> {
    /// The claim of these values from the heap `start` on. A refusal names the first fault, in the order of `BlockError`,
    /// and hands the values back.
    pub fn new(
        code: Code,
        start: u32,
        values: Vec<u32, A>,
    ) -> Result<Block<A>, (BlockError, Vec<u32, A>)>
        ensures ok { IfOk result (λ block. block ≡ claimed code start values.items) }
        ensures accepted { OnOk result (block_fault (claimed code start values.items) ≡ None) }
        ensures fault { IfErr result (λ refused. block_fault (claimed code start values.items) ≡ Some refused.0) }
        ensures back { IfErr result (λ refused. refused.1 ≡ values) }
    {
        if values.is_empty() {
            return Err((BlockError::Empty, values));
        }
        if values.len() > MAX_ITEMS {
            return Err((BlockError::TooMany, values));
        }
        if start as usize + values.len() > LIMIT {
            return Err((BlockError::PastLimit, values));
        }
        prove!(code.len() <= 16);
        Ok(Block {
            code,
            start,
            values: Items::new(values),
        })
    }

    /// The game.
    pub fn code(&self) -> Code
        ensures value { result ≡ self.now.code }
        ensures valid { IsBlock self.now }
    {
        self.code
    }

    /// The heap size of the first value.
    pub fn start(&self) -> u32
        ensures value { result ≡ self.now.start }
        ensures valid { IsBlock self.now }
    {
        self.start
    }

    /// One past the heap size of the last value, at most `LIMIT`.
    pub fn end(&self) -> u32
        ensures value { result ≡ self.now.start + length self.now.values }
        ensures valid { IsBlock self.now }
    {
        let count = self.values.as_slice().len() as u32;
        count + self.start
    }

    /// The claimed values, 1 to `MAX_ITEMS` of them: that of the heap `start`, of the heap `start + 1`, and so on.
    pub fn values(&self) -> &[u32]
        ensures value { result.now ≡ self.now.values }
        ensures valid { IsBlock self.now }
    {
        self.values.as_slice()
    }

    /// A block that is equal to this one, in memory of `alloc`.
    pub fn copy(&self, alloc: A) -> Result<Block<A>, AllocError>
        ensures { IfOk result (λ copy. copy ≡ self.now) }
    {
        Ok(Block {
            code: self.code,
            start: self.start,
            values: self.values.copy(alloc)?,
        })
    }
}
