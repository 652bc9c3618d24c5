//! Numbers of some width, as the numbers of 64 bits that stand for them.

ghost use Rattle.std.specs.Prelude.{◌≡◌, ℕ, ◌^◌, ◌<◌, ◌≤◌, MatchOption};

/// A number of at most 64 bits.
pub(crate) trait Word: Copy {
    /// The number.
    ghost number: { Self → ℕ };

    /// The least number that does not fit.
    ghost bound: { ℕ };

    /// The number, in 64 bits.
    fn number(self) -> u64
        ensures value { result ≡ number self }
        ensures fits { number self < bound };

    /// What stands for a number, if it fits.
    fn from_number(value: u64) -> Option<Self>
        ensures { MatchOption result (bound ≤ value) (λ word. (number word ≡ value) × (value < bound)) };
}

impl Word for u8 {
    ghost number = { λ x. x };

    ghost bound = { 2 ^ 8 };

    fn number(self) -> u64 {
        u64::from(self)
    }

    fn from_number(value: u64) -> Option<u8> {
        u8::try_from(value).ok()
    }
}

impl Word for u16 {
    ghost number = { λ x. x };

    ghost bound = { 2 ^ 16 };

    fn number(self) -> u64 {
        u64::from(self)
    }

    fn from_number(value: u64) -> Option<u16> {
        u16::try_from(value).ok()
    }
}

impl Word for u32 {
    ghost number = { λ x. x };

    ghost bound = { 2 ^ 32 };

    fn number(self) -> u64 {
        u64::from(self)
    }

    fn from_number(value: u64) -> Option<u32> {
        u32::try_from(value).ok()
    }
}

impl Word for usize {
    ghost number = { λ x. x };

    ghost bound = { 2 ^ 64 };

    fn number(self) -> u64 {
        self as u64
    }

    fn from_number(value: u64) -> Option<usize> {
        usize::try_from(value).ok()
    }
}
