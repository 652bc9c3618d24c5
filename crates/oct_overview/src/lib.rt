//! What is told of games, a line for each, or a line for each block and claim that is refuted.
//!
//!     let listing = Listing::Games(Form::Lines);
//!     write_overview(&said, &codes, &[Condition::Unclaimed], listing, &mut Unwatched, &mut text)?;
//!
//! The lines have words and numbers, or each is an object of JSON; `specs/Overview` spells both. Of the games those are told of
//! for which each `Condition` holds, as `specs/Line` says. `specs/Tables` spells the same as a table for a spreadsheet or a paper.
//! The `LeastPeriod` of a game is the period that its known nim-values prove, claimed or not; `with_least` has pages show it.
#![tactic(auto)]

mod line;
mod listing;
mod overview;
mod said;
mod tables;

pub use line::{LeastPeriod, claimed_in, with_least};
pub use listing::{Condition, Listing};
pub use overview::write_overview;
