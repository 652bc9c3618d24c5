//! How a line is written.

/// How a line is written.
#[derive(Clone, Copy, Debug, PartialEq, Eq, Drop)]
pub enum Form {
    /// In words and numbers.
    Lines,
    /// As an object of JSON.
    Json,
}
