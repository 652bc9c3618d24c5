//! Why a text was not read or not written.

ghost use Rattle.std.specs.Prelude.{◌≡◌};

use std::alloc::AllocError;

/// What is wrong with bytes that are no delta.
#[derive(Clone, Copy, PartialEq, Eq)]
pub enum DeltaFault {
    /// The first four bytes are no tag of a delta, or are missing.
    Version,
    /// The bytes begin with a tag, and are no text of a list.
    Refused,
}

/// Why no list of operations was read.
#[derive(Clone, Copy, PartialEq, Eq)]
pub enum DeltaError {
    /// The first four bytes are no tag of a delta, or are missing.
    Version,
    /// The bytes begin with a tag, and are no text of a list.
    Refused,
    /// A request for memory was refused.
    OutOfMemory,
    /// The reader had refused before. `decode` never answers it.
    Failed,
}

impl From<AllocError> for DeltaError {
    ghost use Rattle.oct_delta.specs.declared.error.DeltaError.TheVariants as errors;

    ghost from_gives = { λ _ e. e ≡ errors.OutOfMemory };

    fn from(_e: AllocError) -> DeltaError {
        DeltaError::OutOfMemory
    }
}

/// Why a list was not written.
#[derive(Clone, Copy, PartialEq, Eq)]
pub enum EncodeError {
    /// There are more operations than a delta can count, which are 4,294,967,295.
    TooMany,
    /// A request for memory was refused.
    OutOfMemory,
}

impl From<AllocError> for EncodeError {
    ghost use Rattle.oct_delta.specs.declared.error.EncodeError.TheVariants as errors;

    ghost from_gives = { λ _ e. e ≡ errors.OutOfMemory };

    fn from(_e: AllocError) -> EncodeError {
        EncodeError::OutOfMemory
    }
}

/// Why bytes are no clock.
#[derive(Clone, Copy, PartialEq, Eq)]
pub enum ClockError {
    /// The bytes are no text of a clock.
    Refused,
    /// A request for memory was refused.
    OutOfMemory,
}

impl From<AllocError> for ClockError {
    ghost use Rattle.oct_delta.specs.declared.error.ClockError.TheVariants as errors;

    ghost from_gives = { λ _ e. e ≡ errors.OutOfMemory };

    fn from(_e: AllocError) -> ClockError {
        ClockError::OutOfMemory
    }
}
