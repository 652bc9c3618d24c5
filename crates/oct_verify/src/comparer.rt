//! The nim-values of a game, and the one comparison of a block with them, which is counted.

ghost use Rattle.std.specs.Prelude.{◌≡◌, ◌+◌, ◌<◌, ◌≤◌, ◌^◌, max};
ghost use Rattle.oct_verify.specs.Known.{end, verdict};

use crate::status::Status;
use oct_code::Code;
use oct_mex::{Values, first_difference};
use oct_ops::Block;
use std::alloc::Allocator;

/// The nim-values of a game, and how many blocks were compared with them.
#[derive(Drop)]
pub(crate) struct Comparer<A: Allocator + Copy> {
    pub(crate) values: Values<A>,
    pub(crate) checks: u64,
}

impl<A: Allocator + Copy> Comparer<A> {
    /// No value, and nothing compared. Takes no memory.
    pub(crate) fn new(alloc: A, code: Code) -> Comparer<A>
        ensures values { result.values ≡ record { code = code; len = 0; room = 0 } }
        ensures checks { result.checks ≡ 0 }
    {
        Comparer {
            values: Values::new(alloc, code),
            checks: 0,
        }
    }

    /// Compares a block of the game with the nim-values, for which there is room.
    pub(crate) fn compare(&mut self, block: &Block<A>) -> Status
        requires game { block.now.code ≡ self.old.values.code }
        requires room { end block.now ≤ self.old.values.room }
        requires count { self.old.checks + 1 < 2 ^ 64 }
        ensures status { result ≡ verdict block.now }
        ensures count { self.new.checks ≡ self.old.checks + 1 }
        ensures code { self.new.values.code ≡ self.old.values.code }
        ensures len { self.new.values.len ≡ max self.old.values.len (end block.now) }
        ensures room { self.new.values.room ≡ self.old.values.room }
    {
        self.checks += 1;
        let start = block.start();
        let end = block.end() as usize;
        self.values.extend_within(end);
        let truth = &self.values.as_slice()[start as usize..end];
        let claimed = block.values();
        match first_difference(claimed, truth) {
            None => Status::Proved,
            Some(index) => Status::Refuted {
                at: start + index as u32,
                claimed: claimed[index],
                truth: truth[index],
            },
        }
    }
}
