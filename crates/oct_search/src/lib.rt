//! The search for the period of an octal game, as far as memory goes.
//!
//! The nim-values of many octal games repeat from some heap on, and a finite look can prove it: where they repeat with a
//! period from a heap on, up to twice that heap, twice the period and the number of digits together, they do so for ever
//! (Guy and Smith 1956; Winning Ways, chapter 4). Many periods begin far beyond the 65,536 heaps that `oct_mex` has for a game.
//! A `Search` computes up to 2^32 values and finds the least period that they prove:
//!
//!     let mut search = Search::new(alloc, code);        // 0.16
//!     search.search(1_000_000, &mut progress)?          // period 149,459 from heap 105,351
//!     search.value_by(seen, 10_000_000_000)             // the nim-value of a heap of 10^10 beans
//!
//! The values are in cells of 8 bits until one exceeds 255, and then of 16 (`cells`), in memory that grows by a
//! sixteenth: a list of some 400 million values takes as many bytes. How the next one is found, by a mask that parts
//! the heaps and by a table of marks, is that of `oct_mex`, whose functions are the same for each width. Where all values
//! are below 64 and no large heap is rare, sets of the values of near options tell most of the next ones sooner (`by_sets`,
//! over `oct_sets`), and marks the others (`finder`).
//!
//! A period is looked for at lengths that grow by a quarter, mostly at two heaps for each. Often one run of it proves that
//! the values go on with it long before they show it (`certificate`). Then the values that it takes are copied. Which period
//! that can be is told by the places of a seldom value (`seldom`).
//!
//! What nim-values, periods and what proves them are is defined in `oct_mex`.
#![tactic(auto)]

mod by_sets;
mod cells;
mod certificate;
mod error;
mod finder;
mod search;
mod seldom;
#[cfg(test)]
mod tests;

pub use error::SearchError;
pub use oct_mex::SeenPeriod;
pub use oct_progress::{Nobody, Progress};
pub use search::{MOST, Search};
