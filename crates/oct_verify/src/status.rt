//! What is known of a block.

/// What the known values say of a block.
#[derive(Clone, Copy, PartialEq, Eq)]
pub enum Status {
    /// Each of its values is the heap's nim-value.
    Proved,
    /// The least heap at which the block is wrong, with the value that it claims there and the nim-value.
    Refuted { at: u32, claimed: u32, truth: u32 },
    /// The block starts beyond the known length.
    Pending,
}
