//! Why a text was not read.

ghost use Rattle.std.specs.Prelude.{◌≡◌};

use std::alloc::AllocError;

/// Why bytes are no place.
#[derive(Clone, Copy, Debug, PartialEq, Eq, Drop)]
pub enum ReadError {
    /// The first four bytes are not `OGW1`, or are missing.
    Version,
    /// The bytes begin with `OGW1`, and are the text of no place from which a search can go on.
    Refused,
    /// A request for memory was refused.
    OutOfMemory,
}

impl From<AllocError> for ReadError {
    ghost use Rattle.oct_saved.specs.declared.error.ReadError.TheVariants as errors;

    ghost from_gives = { λ _ e. e ≡ errors.OutOfMemory };

    fn from(_e: AllocError) -> ReadError {
        ReadError::OutOfMemory
    }
}
