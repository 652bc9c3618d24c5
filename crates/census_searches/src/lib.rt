//! The commands that compute values of games anew: searches, and what is asked of a position.
//!
//! Each command stands in one file: its row, from which its help is made, what its words ask for, and what it does with that. Its
//! function `command` reads the words and does it.
//!
//! - `search` looks for the period of each game, and `recheck` for those again that notes say.
//! - `check` compares a b-file with the values of a game.
//! - `value` and `winning_move` ask of a position, which `position` answers: by a search where the state does not tell.
//! - `watched` does each beside a line that says how far it is, or beside advice.
//!
//! Searches themselves are below `census_core`, and those that are saved in `census_progress`.
#![tactic(auto)]

pub mod check;
mod position;
pub mod recheck;
pub mod search;
pub mod value;
mod watched;
pub mod winning_move;
