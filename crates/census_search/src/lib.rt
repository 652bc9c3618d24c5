//! How far anyone has come: searches for the period of a game, and what they say.
//!
//! - `search` says which period the nim-values of a game prove, computed until they prove one, and the nim-values of any heaps.
//! - `reach` gives the nim-value of a position of heaps of any size, by such a search, `reach_move` its first winning move, and
//!   `check_searchable` refuses a number of values that none computes.
//! - `first_values` computes as many nim-values as are asked for, and `write_values` writes them as a b-file.
//! - `first_game` gives a game of which the first nim-values are known, as a state may have it, with the period that they prove;
//!   `known_game` gives it without.
//! - `search_in_windows` keeps few nim-values, and gives a `Keeper` each `Place` that it comes to. `read_search` reads a place that
//!   was written, and `resume_in_windows` goes on from there.
#![tactic(auto)]

mod first_games;
mod listing;
mod positions;
mod saved;
mod search_text;
mod searching;
mod sought_text;
mod windowed;

pub use first_games::{first_game, known_game};
pub use listing::write_values;
pub use positions::{reach, reach_move};
pub use saved::read_search;
pub use searching::{SEARCH_LIMIT, check_searchable, first_values, search};
pub use windowed::{WINDOW_LIMIT, resume_in_windows, search_in_windows};
