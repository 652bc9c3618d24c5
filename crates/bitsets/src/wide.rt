//! Sets of numbers below 64.

ghost use Rattle.std.specs.Prelude.{◌≡◌, ℕ, ◌^◌, ◌<◌, ◌≤◌, ◌↔◌, bit_or, bit_xor};
ghost use Rattle.std.proofs.Common.{arith};
ghost use Rattle.bitsets.specs.Sets.{Has};

use crate::word::Word;

// In the word at k are the numbers whose bit k is not set.
const LOW: [u64; 6] = [
    0x5555_5555_5555_5555,
    0x3333_3333_3333_3333,
    0x0f0f_0f0f_0f0f_0f0f,
    0x00ff_00ff_00ff_00ff,
    0x0000_ffff_0000_ffff,
    0x0000_0000_ffff_ffff,
];

impl Word for u64 {
    ghost number = { λ word. word };

    ghost digits = { 6 };

    #[inline]
    fn digits() -> usize {
        6
    }

    #[inline]
    fn width() -> usize {
        64
    }

    #[inline]
    fn empty() -> u64 {
        0
    }

    #[inline]
    fn one(value: usize) -> u64 {
        1 << value
    }

    #[inline]
    fn least(self) -> usize {
        self.trailing_ones() as usize
    }

    #[inline]
    fn united(self, other: u64) -> u64 {
        self | other
    }

    #[inline]
    fn turned(self, bit: usize) -> u64 {
        let low = LOW[bit];
        let step = 1_u32 << bit;
        ((self & low) << step) | ((self >> step) & low)
    }

    ghost few = { Prim.omega arith };
}
