//! Why values are no part of an operation. Where there are several faults, the first case in the order here is answered.

/// Why numbers are no dot.
#[derive(Clone, Copy, PartialEq, Eq)]
pub enum DotError {
    /// The author or the number is 0.
    Zero,
}

/// Why values are no block.
#[derive(Clone, Copy, PartialEq, Eq)]
pub enum BlockError {
    /// There is no value.
    Empty,
    /// There are more than `MAX_ITEMS` values.
    TooMany,
    /// The last value's place is not below `LIMIT`.
    PastLimit,
}

/// Why numbers are no period claim.
#[derive(Clone, Copy, Debug, PartialEq, Eq)]
pub enum PeriodError {
    /// The start or the period is 0.
    Zero,
    /// The start or the period is above `LIMIT`.
    PastLimit,
}

/// Why texts are no note, or that there was no memory for it.
#[derive(Clone, Copy, Debug, PartialEq, Eq)]
pub enum NoteError {
    /// The name has no byte or more than `MAX_NAME`, or one outside `a-z`, `0-9` and `-`.
    Name,
    /// The text has more than `MAX_TEXT` bytes, or one outside those from the space to the tilde.
    Text,
    /// A request for memory was refused.
    OutOfMemory,
}

/// Why dots are no removal.
#[derive(Clone, Copy, PartialEq, Eq)]
pub enum RemovalError {
    /// There is no dot.
    Empty,
    /// There are more than `MAX_ITEMS` dots.
    TooMany,
    /// Some dot is not below the next.
    NotRising,
}

/// Why operations are no `OpList`.
#[derive(Clone, Copy, PartialEq, Eq)]
pub enum ListError {
    /// Some operation is not below the next.
    NotRising,
}
