//! Why a call was refused.

/// Why there is no such record.
#[derive(Clone, Copy, PartialEq, Eq)]
pub enum AuthorError {
    /// The author is 0.
    Zero,
}

/// Why a record does not go on under an author.
#[derive(Clone, Copy, Debug, PartialEq, Eq)]
pub enum RenumberError {
    /// The author is 0.
    Zero,
    /// The record holds operations by the author.
    Held,
}

/// Why operations were not all taken in.
#[derive(Clone, Copy, Debug, PartialEq, Eq)]
pub enum TakeError {
    /// The first four bytes are no tag of a delta, or are missing. Nothing changes.
    Version,
    /// The bytes begin with a tag, and are no text of a list. Nothing changes.
    Refused,
    /// A request for memory was refused.
    OutOfMemory {
        /// How many operations, from the first on, are in. No other was added.
        done: u32,
    },
}

/// Why no operation was issued.
#[derive(Clone, Copy, Debug, PartialEq, Eq)]
pub enum IssueError {
    /// The author's greatest number is 4,294,967,295.
    LastNumber,
    /// A request for memory was refused.
    OutOfMemory,
}

/// Why there is no removal of the notes of a name.
#[derive(Clone, Copy, Debug, PartialEq, Eq)]
pub enum RemovalError {
    /// No live note has the name.
    NoNote,
    /// The live notes of the name have more than 1,024 dots.
    TooMany,
    /// A request for memory was refused.
    OutOfMemory,
}

/// Why bytes were not loaded.
#[derive(Clone, Copy, Debug, PartialEq, Eq)]
pub enum LoadError {
    /// The first four bytes are not `OGS1`, or are missing.
    Version,
    /// The bytes begin with `OGS1`, and are no text of a state.
    Refused,
    /// A request for memory was refused.
    OutOfMemory,
}
