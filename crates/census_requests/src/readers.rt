//! Who reads what the program writes.

use census_failure::Audience;

/// Who reads both streams.
#[derive(Clone, Copy)]
pub struct Readers {
    /// Those of standard error, and whether standard output is a terminal.
    pub audience: Audience,
    /// Whether the environment asks for no colours.
    pub is_plain: bool,
    /// How wide the environment says a terminal is.
    pub columns: Option<usize>,
}
