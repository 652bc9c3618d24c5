//! Why a session ended early.

ghost use Rattle.std.specs.Prelude.{◌≡◌};

use std::alloc::AllocError;
use written::Unwritten;

/// Why a session ended early. Of the faults that one frame shows, the first of `Frame`, `Order`, `Clock` and `Delta` is
/// answered.
#[derive(Clone, Copy, Debug, PartialEq, Eq, Drop)]
pub enum SyncError {
    /// The frame's length is 0 or over 1,048,576, its tag is none of 1 to 3, or it is an end with a payload.
    Frame,
    /// A frame with this tag is not due, or a byte comes after the session is done.
    Order,
    /// The payload of a clock frame is no clock text.
    Clock,
    /// The payload of a delta frame is no delta text.
    Delta,
    /// A growth of memory was refused.
    OutOfMemory,
    /// The session had refused something before.
    Failed,
    /// The input ended before the session was done.
    Cut,
    /// A read failed.
    Read,
    /// A write or a flush failed, or a write took no byte.
    Write,
    /// More reads would be needed than a session may make.
    Turns,
}

impl From<AllocError> for SyncError {
    ghost use Rattle.oct_sync.specs.declared.error.SyncError.TheVariants as errors;

    ghost from_gives = { λ _ e. e ≡ errors.OutOfMemory };

    fn from(_e: AllocError) -> SyncError {
        SyncError::OutOfMemory
    }
}

impl From<Unwritten> for SyncError {
    ghost use Rattle.oct_sync.specs.declared.error.SyncError.TheVariants as errors;

    ghost from_gives = { λ _ e. e ≡ errors.Write };

    fn from(_e: Unwritten) -> SyncError {
        SyncError::Write
    }
}
