//! The next nim-values of a game in which no large heap is rare, by sets of the values of their options.
//!
//! Where no heap above some size is rare under a mask, the options that leave a small heap mostly settle the next nim-value
//! (`oct_mex::settled_value`). Each of them is one of a few steps: so many beans less, and the value of the small heap
//! that is left besides. So the set of the values of these options is a union: for each step the value that far before,
//! turned by the value of the small heap. With values as words in which one bit is set, the unions of 64 heaps at a time
//! are those of slices of such words.
//!
//!     let mut sets = Sets::new(alloc, &code, &small, &rare_heaps, &last, count, bound)?;
//!     let value = sets.settle(mask, &last);                    // the value of the heap `count`, or none
//!     sets.push(&last);                                        // on to the next heap
//!
//! - A `Plan` has the steps, far ones, low ones and near ones. Which small heaps it goes by, besides the rare ones, is chosen from
//!   a sample: this changes no value, but how many heaps are settled.
//! - Two small heaps of one value, at one distance for a plan, are twins: a step over both is one over the union of two words.
//! - `SetsOf` has the words of the last heaps, those for twins, and the unions by far steps for a block of 64 heaps. Those by low
//!   steps are added to a group of 8 heaps at a time, once the heaps before it are known. `settle` adds those by near steps, and
//!   gives the least number that is not in the set where a value like it is common.
//! - `Sets` are those in words of 32 bits, where all values are below 32, or of 64 bits.
#![tactic(auto)]

mod pairs;
mod plan;
mod sets;
mod sets_of;
mod settled;
mod sorted;
mod steps;
#[cfg(test)]
mod tests;
mod witnesses;

pub use plan::{BLOCK, Plan};
pub use sets::{SMALL, Sets};
pub use sets_of::SetsOf;
pub use sorted::SmallHeap;
pub use steps::Steps;
