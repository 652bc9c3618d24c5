//! The numbers that stand for the kinds of operations in texts. The kinds are ordered by them.

/// A block.
pub const BLOCK: u8 = 1;

/// A period claim.
pub const PERIOD: u8 = 2;

/// A note.
pub const NOTE: u8 = 3;

/// A removal.
pub const REMOVAL: u8 = 4;
