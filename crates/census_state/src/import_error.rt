//! Why a JSON value is no block.

use oct_ops::BlockError;

/// Why a JSON value is no block. Where there are several faults, the first case in the order here is answered.
#[derive(Clone, Copy, Debug, PartialEq, Eq)]
pub enum ImportError {
    /// It is no object with exactly the keys `code`, `start` and `values`.
    Shape,
    /// `code` is no text, or not the text of a code.
    Code,
    /// `start` is no whole number of 0 to 4,294,967,295.
    Start,
    /// `values` is no array of such numbers.
    Values,
    /// There is no value.
    Empty,
    /// There are more than `MAX_ITEMS` values.
    TooMany,
    /// The last value's place is not below `LIMIT`.
    PastLimit,
    /// A request for memory was refused.
    OutOfMemory,
}

impl From<BlockError> for ImportError {
    ghost use Rattle.std.specs.Prelude.{◌≡◌};
    ghost use Rattle.census_state.specs.Refusals.{import_error};

    ghost from_gives = { λ fault e. e ≡ import_error fault };

    fn from(fault: BlockError) -> ImportError {
        match fault {
            BlockError::Empty => ImportError::Empty,
            BlockError::TooMany => ImportError::TooMany,
            BlockError::PastLimit => ImportError::PastLimit,
        }
    }
}
