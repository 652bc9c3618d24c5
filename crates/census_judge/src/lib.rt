//! What became of what is said: of the blocks and claims that are new to a state, of all of a state, and of a b-file.
//!
//! - `judge` says what became of the blocks and claims that are new to a state, and `tally` how many are proved, refuted and
//!   pending.
//! - `decided` says what became of those that were pending before and are decided now, and `count_decided` how many of
//!   these are an author's own and how many others'.
//! - `outcome` says how many of all those of a state are proved, refuted and pending.
//! - `check` compares a b-file with computed values, and `find_shift` says whether its values are right but stand at other heaps.
#![tactic(auto)]

mod checking;
mod decisions;
mod outcomes;
mod shifts;
mod verdicts;

pub use checking::{Checked, check};
pub use decisions::{Decisions, count_decided, decided};
pub use outcomes::outcome;
pub use shifts::{Shift, find_shift};
pub use verdicts::{JudgedClaim, Verdict, judge, tally};
