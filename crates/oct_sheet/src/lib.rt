//! A sheet: what there is to show of what was said.
//!
//! `specs/Sheet` says it of a set of operations, by the definitions that the catalogue cites: the games with their known
//! nim-values, blocks and claims, the notes, the forks, and the authors with their names. Whatever shows a census is
//! written from it.
//!
//! - `Names` has the names of authors by live notes; an author with its name is `Called`. The notes themselves are listed by
//!   `naming_notes`, and `names_by_author` is a table of the names, in which `name_in` looks one up.
//! - `Remarks` has what views read of the live notes beside the names of authors: what is withdrawn, and the long periods that
//!   somebody says of a game.
//! - `told_codes` has the codes of the games that views tell of: those that have a block or a claim, and those of which somebody
//!   noted a long period.
//! - A `Summary` is what a table of games says of each: how much is known, the period that is proved, and by `GameTally` how
//!   many blocks and claims are proved, refuted, withdrawn and pending.
//! - `by_period` lists the games with a proved period, by period.
#![tactic(auto)]

mod games;
mod name_table;
mod names;
mod periodic;
mod remarks;
mod summary;

pub use games::told_codes;
pub use name_table::{name_in, names_by_author};
pub use names::{Called, Names, naming_among, naming_notes, with_names};
pub use periodic::{Periodic, by_period};
pub use remarks::Remarks;
pub use summary::{GameTally, Summary, Tally};
