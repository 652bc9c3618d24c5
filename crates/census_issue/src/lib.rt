//! What is issued: operations of one's own, under the next numbers of the state's author.
//!
//! - `import`, `claim` and `compute` issue blocks: of a JSON file, of a b-file, of computed nim-values. `period` issues a period
//!   claim, `note` a note, and `unnote` the removal of notes. `import_block` reads the block of a JSON value.
//! - `find` says which periods the known nim-values of games prove.
//! - `give_turns` gives each of several games its turn: so many of its nim-values become known, and an `Aim` says what is done
//!   then. A `TurnKeeper` is handed what is done after each game; `NoKeeper` keeps nothing.
//! - `laws` says that the blocks of a turn are always enough.
#![tactic(auto)]

mod claiming;
mod extending;
mod finding;
mod found_object;
mod issuing;
mod json_block;
pub mod laws;
mod opened;
mod surveying;
mod texts;
mod turn_keeper;

pub use claiming::claim;
pub use extending::check_count;
pub use finding::find;
pub use issuing::{compute, import, note, period, unnote};
pub use json_block::import_block;
pub use surveying::{Aim, give_turns};
pub use turn_keeper::{NoKeeper, TurnKeeper};
