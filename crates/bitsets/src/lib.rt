//! Sets of numbers below 32 or 64, in the bits of words.
//!
//! A number is in a set if the bit at its place is 1. A block is a slice of sets, and what is done with one is done with all sets
//! of it at once, many to an instruction:
//!
//!     u64::one(5)                                         // the set of 5 alone
//!     u64::one(0).united(u64::one(2)).least()             // 1, the least number that is not in the set
//!     turn_by(&mut block, 6);                             // each number in each set xored with 6
//!     unite_steps(&mut block, &sets, place, &[3], &[6]);  // adds the numbers of the set 3 places before each one, xored with 6
//!
//! In the searches for periods the set at a place is that of the nim-value of a heap alone, and a step goes from a heap to an
//! option: over one more heap, of the step's value, where it leaves two. What one block is given so are the values of options of
//! as many heaps.
//!
//! - A `Word` is one set: of numbers below 32 in 32 bits (`narrow`), and below 64 in 64 bits (`wide`). What is done with many sets
//!   is the same for each width, with clauses over the numbers of the words.
//! - `turn_by` xors the numbers of the sets of a block (`turning`).
//! - `unite_steps` adds to the sets of a block what steps make of sets before them (`steps`).
#![tactic(auto)]

mod narrow;
mod steps;
#[cfg(test)]
mod tests;
mod turning;
mod wide;
mod word;

pub use steps::unite_steps;
pub use turning::turn_by;
pub use word::Word;
