//! What holds a set.

ghost use Rattle.std.specs.Prelude.{◌≡◌, ℕ, ◌^◌, ◌<◌, ◌≤◌, ◌↔◌, bit_or, bit_xor};
ghost use Rattle.bitsets.specs.Sets.{Has};

/// A word whose bits are a set of small numbers: those of 5 bits, which are below 32, or those of 6 bits, which are below 64. Of
/// words of half the bits twice as many fit an instruction, and they take half the memory. What is done with the bits of a word
/// stands here, once for each width; what is done with the sets of a block is the same for each.
pub trait Word: Copy {
    /// The number whose bits tell what is in the set.
    ghost number: { Self → ℕ };

    /// So many bits has a number that can be in a set.
    ghost digits: { ℕ };

    /// So many bits has a number that can be in a set.
    fn digits() -> usize
        ensures { result ≡ digits };

    /// So many numbers can be in a set: those that are less.
    fn width() -> usize
        ensures { result ≡ 2 ^ digits };

    /// The set of no number.
    fn empty() -> Self
        ensures { number result ≡ 0 };

    /// The set of one number.
    fn one(value: usize) -> Self
        requires { value < 2 ^ digits }
        ensures { (v : ℕ) → Has (number result) v ↔ (v ≡ value) };

    /// The least number that is not in the set, or the width.
    fn least(self) -> usize
        ensures within { result ≤ 2 ^ digits }
        ensures below { (v : ℕ) → v < result → Has (number self) v }
        ensures none { result < 2 ^ digits → Has (number self) result → ⊥ };

    /// The set of the numbers of both.
    fn united(self, other: Self) -> Self
        ensures { number result ≡ bit_or (number self) (number other) };

    /// The set of the same numbers, with one bit of each turned.
    fn turned(self, bit: usize) -> Self
        requires { bit < digits }
        ensures { (v : ℕ) → v < 2 ^ digits → Has (number result) v ↔ Has (number self) (bit_xor v (2 ^ bit)) };

    /// A set has few numbers.
    ghost few: { digits ≤ 6 };
}
