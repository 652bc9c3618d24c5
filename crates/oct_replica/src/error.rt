//! Why a call was refused.

/// Why a position was given no nim-value.
#[derive(Clone, Copy, Debug, PartialEq, Eq)]
pub enum QueryError {
    /// The nim-value of the heap at the place `index`, counted from 0, is not known, and those of the heaps before it are.
    Unknown { index: usize },
}
