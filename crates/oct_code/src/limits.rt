//! How large codes and games may be.

/// The most digits after the point.
pub const MAX_DIGITS: usize = 16;

/// The places of a game are 0 to `LIMIT - 1`.
pub const LIMIT: usize = 65_536;

/// The limit of the first edition of the formats, whose texts are still read and written.
pub const OLD_LIMIT: usize = 4_096;
