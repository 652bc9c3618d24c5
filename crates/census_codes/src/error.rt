//! Why a text is no list of codes.

use oct_code::CodeError;
use std::alloc::AllocError;

/// Why a text is no list of codes.
#[derive(Clone, Copy, Debug, PartialEq, Eq, Drop)]
pub enum CodesError {
    /// A word is no code: the line of the first such word, counted from 1, and why it is none.
    NoCode { line: usize, cause: CodeError },
    /// A request for memory was refused.
    OutOfMemory,
}

impl From<AllocError> for CodesError {
    ghost use Rattle.std.specs.Prelude.{◌≡◌};
    ghost use Rattle.census_codes.specs.declared.error.CodesError.TheVariants as errors;

    ghost from_gives = { λ _ e. e ≡ errors.OutOfMemory };

    fn from(_: AllocError) -> CodesError {
        CodesError::OutOfMemory
    }
}
