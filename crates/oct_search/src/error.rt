//! Why a search ends before its count.

ghost use Rattle.std.specs.Prelude.{◌≡◌};
ghost use Rattle.oct_search.specs.declared.error.SearchError.TheVariants.{OutOfMemory};

use std::alloc::AllocError;

/// Why no further nim-value is computed.
#[derive(Clone, Copy, Debug, PartialEq, Eq, Drop)]
pub enum SearchError {
    /// Memory is refused.
    OutOfMemory,
    /// The next nim-value is above 65,535.
    PastValue,
}

impl From<AllocError> for SearchError {
    ghost from_gives = { λ _ e. e ≡ OutOfMemory };

    fn from(_e: AllocError) -> SearchError {
        SearchError::OutOfMemory
    }
}
