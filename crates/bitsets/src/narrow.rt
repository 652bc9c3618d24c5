//! Sets of numbers below 32.

ghost use Rattle.std.specs.Prelude.{◌≡◌, ℕ, ◌^◌, ◌<◌, ◌≤◌, ◌↔◌, bit_or, bit_xor};
ghost use Rattle.std.proofs.Common.{arith};
ghost use Rattle.bitsets.specs.Sets.{Has};

use crate::word::Word;

// In the word at k are the numbers whose bit k is not set.
const LOW: [u32; 5] = [
    0x5555_5555,
    0x3333_3333,
    0x0f0f_0f0f,
    0x00ff_00ff,
    0x0000_ffff,
];

impl Word for u32 {
    ghost number = { λ word. word };

    ghost digits = { 5 };

    #[inline]
    fn digits() -> usize {
        5
    }

    #[inline]
    fn width() -> usize {
        32
    }

    #[inline]
    fn empty() -> u32 {
        0
    }

    #[inline]
    fn one(value: usize) -> u32 {
        1 << value
    }

    #[inline]
    fn least(self) -> usize {
        self.trailing_ones() as usize
    }

    #[inline]
    fn united(self, other: u32) -> u32 {
        self | other
    }

    #[inline]
    fn turned(self, bit: usize) -> u32 {
        let low = LOW[bit];
        let step = 1_u32 << bit;
        ((self & low) << step) | ((self >> step) & low)
    }

    ghost few = { Prim.omega arith };
}
