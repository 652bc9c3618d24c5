//! The nim-values of heaps in octal games (Sprague and Grundy; Winning Ways, chapter 4).
//!
//! A move takes beans from one heap and may leave up to two heaps; the code says which. The nim-value of a heap is the
//! mex, the least natural number that is not among the nim-values of its options, and an option of two heaps has the
//! exclusive or of theirs. `Values` computes them heap after heap:
//!
//!     let mut values = Values::new(alloc, kayles);      // 0.77
//!     values.extend_to(8)?;
//!     values.as_slice()                                 // 0 1 2 3 1 4 3 2
//!
//! - `Values` is a code and the list of its first nim-values. Room is made ahead, and within it nothing can fail.
//! - In most games few heaps are rare under a mask, and the options with such a heap settle the mex: `rare`. The best
//!   mask is found by a transform of the counts of the values: `mask`.
//! - Where they don't settle it, other pairs are marked, and the few values that are still not marked are sought in
//!   those that are left, both many pairs at a time: `next`, `marks`, `pairs`.
//! - Where several moves leave the same total of two heaps, what is found of its pairs is kept for all: `totals`.
//! - A `Cell` holds a nim-value in 8, 16 or 32 bits, and a `Row` the values of a game in cells. What is done with many
//!   pairs at a time is in `cell`, once for each width; all other functions over cells are the same for each, with
//!   clauses over the numbers in the cells.
//! - Where no large heap is rare, the next value is settled by those of the small heaps and of the last ones: `settled`.
//! - A game takes over the values of another one, of `Leaders`, as long as they are its own, where both codes allow two
//!   heaps to be left by the same digits: `following`.
//! - Once they show a period that holds for ever, the further values are copied.
//! - `find_period` looks for the least period that first nim-values show, and for the least heap from which on they do.
//! - `first_difference` compares two lists of claimed and true values.
//! - `laws` says what holds of the moves and the nim-values of all heaps: the periodicity theorem above all.
#![tactic(auto)]

mod cell;
mod difference;
mod following;
pub mod laws;
mod leaders;
mod marks;
mod mask;
mod narrow;
mod next;
mod pairs;
mod period;
mod rare;
mod row;
mod settled;
mod totals;
mod values;

pub use cell::{Cell, LANES};
pub use difference::first_difference;
pub use leaders::Leaders;
pub use mask::{Mask, NO_MASK};
pub use oct_code::OutOfMemory;
pub use period::{SeenPeriod, expected_by, expected_period, find_period, find_shown};
pub use rare::Rare;
pub use row::Row;
pub use settled::settled_value;
pub use values::Values;
