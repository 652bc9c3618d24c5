//! What is told of a game.

/// What is told of a game.
#[derive(Clone, Copy, Debug, PartialEq, Eq, Drop)]
pub enum Told {
    /// One line: how many heaps are known, the first claim that is proved, and how many blocks and claims are proved, refuted
    /// and pending.
    Counts,
    /// A line for each refuted block, with the first wrong heap, the claimed and the true value, and for each refuted claim, with
    /// the first heap whose nim-value does not come again, and both nim-values.
    Refutations,
}
