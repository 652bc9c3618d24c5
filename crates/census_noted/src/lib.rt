//! Long periods: notes that name periods which no period claim proves, since they take more than 65,536 values.
//!
//! The note of a game has the name `period-` and the game's code with a hyphen in place of the point, and says what
//! `census search` prints of the period:
//!
//!     period-0-16    0.16 period 149459 from 105351
//!
//! How such a note is spelled and read, `oct_said` says.
//!
//! - `note_period` issues the note of a period, if no live note says the same.
//! - `period_notes` gives the live notes of such names, and `recheck` searches the game of one again, and tells how far it is.
//! - `recheck_into` does so too, and adds the period to those that are proved where it is so.
//! - `laws` says that what a search says is so holds for every heap, and is the least period of its game.
#![tactic(auto)]

pub mod laws;
mod noting;
mod rechecking;

pub use noting::{note_period, period_notes};
pub use rechecking::{Rechecked, recheck, recheck_into};
