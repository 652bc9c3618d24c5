//! How many values are shown.

/// How many of a game's known values a report shows.
#[derive(Clone, Copy)]
pub enum Shown {
    /// Where a period is proved, those up to the end of its second run; else all where they are at most 1,100, or the
    /// first 1,000 and the last 100.
    Brief,
    /// All.
    All,
}
