//! What is known of a period claim.

/// What is known of a period claim by the known nim-values of its game.
#[derive(Clone, Copy, PartialEq, Eq)]
pub enum PeriodStatus {
    /// So many nim-values are known that the claim holds for every heap from its start on.
    Proved,
    /// The nim-value of the heap `at` does not come again one period later, and `at` is the least such heap.
    Refuted { at: u32 },
    /// No known nim-value speaks against the claim, and the nim-values of the heaps below `needs` would decide it.
    Pending { needs: u32 },
}
