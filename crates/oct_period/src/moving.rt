//! A move in a position.

/// A move in a position: beans are removed from one of its heaps, and at most two heaps are left of it.
#[derive(Clone, Copy, Debug, PartialEq, Eq)]
pub struct Move {
    /// The place of the heap in the position, counted from 0.
    pub index: usize,
    /// How many beans are removed from the heap.
    pub removed: u64,
    /// The two heaps that are left of it, the smaller one first; 0 stands for none.
    pub left: (u64, u64),
}
