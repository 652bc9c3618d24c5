//! Sets of which each number is xored with another one, bit by bit.

ghost use Rattle.std.specs.Prelude.{◌≡◌, ℕ, ◌^◌, ◌<◌, ◌↔◌, length, map, slice_index, bit_xor};
ghost use Rattle.bitsets.specs.Sets.{Has};

use crate::word::Word;

/// Turns the bits of a number in each number of each set: each number is xored with it. With 0 the sets stay.
#[inline(always)]
pub fn turn_by<W: Word>(sets: &mut [W], number: usize)
    requires { number < 2 ^ W.digits }
    ensures len { length sets.new ≡ length sets.old }
    ensures turned { (i v : ℕ) → i < length sets.old → v < 2 ^ W.digits → Has (slice_index (map W.number sets.new) i) v ↔ Has (slice_index (map W.number sets.old) i) (bit_xor v number) }
{
    // Most steps are made in the frame of the one before them.
    if number == 0 {
        return;
    }
    // The highest bit comes first: by it halves of a word change places, which compilers do word by word, and the others they
    // turn in many words at once.
    for bit in (0..W::digits()).rev() {
        if number >> bit & 1 == 1 {
            turn_all(sets, bit);
        }
    }
}

// Turns one bit of each number of each set.
#[inline(always)]
fn turn_all<W: Word>(sets: &mut [W], bit: usize)
    requires { bit < W.digits }
    ensures len { length sets.new ≡ length sets.old }
    ensures turned { (i v : ℕ) → i < length sets.old → v < 2 ^ W.digits → Has (slice_index (map W.number sets.new) i) v ↔ Has (slice_index (map W.number sets.old) i) (bit_xor v (2 ^ bit)) }
{
    for at in 0..sets.len() {
        sets[at] = sets[at].turned(bit);
    }
}
