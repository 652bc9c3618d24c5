//! One game, as a catalogue and views show it.

ghost use Rattle.std.specs.Prelude.{◌≤◌, length};
ghost use Rattle.oct_code.specs.declared.limits.TheConstants.{LIMIT};

use crate::statuses::{BlockRow, PeriodRow};
use oct_code::Code;
use oct_ops::Period;
use std::alloc::Allocator;

/// A game with its known nim-values, its blocks and its period claims, both in the order of the operations.
#[derive(Drop)]
pub struct GameSheet<'a, A: Allocator + Copy> {
    /// The code of the game.
    pub code: Code,
    /// The known nim-values, that of heap 0 first: at least one, at most `LIMIT`.
    pub values: &'a [u32],
    /// The blocks.
    pub blocks: Vec<BlockRow, A>,
    /// The period claims.
    pub periods: Vec<PeriodRow, A>,
    /// The first claim, in the order of the operations, that is proved.
    pub proved: Option<Period>,
    ghost few: { length values.now ≤ LIMIT },
}
