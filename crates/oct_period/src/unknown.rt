//! Where the nim-value of a position is not known.

/// The first heap of a position whose nim-value is not known.
#[derive(Clone, Copy, PartialEq, Eq)]
pub struct Unknown {
    /// The place of the heap in the position, counted from 0.
    pub index: usize,
}
