//! How far a session is.

/// Whether a session wants more bytes.
#[derive(Clone, Copy, PartialEq, Eq)]
pub enum Progress {
    /// More bytes are to come.
    More,
    /// All was received and is in `out`. Each further byte is refused.
    Done,
}
