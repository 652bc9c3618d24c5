//! What is said and kept while a command goes on, and what became of what it said.
//!
//! Some commands take hours or weeks. A terminal shows how far they are, and they keep in a file what they have done, so that
//! a stop costs little of it.
//!
//! - `ProgressLine` is the line on a terminal, which says also how fast a search goes on and how long it may take.
//! - `TurnSaver` saves the state while `extend` and `survey` give games their turns.
//! - `search_saved` does a `WindowSearch` that is saved in a file, and goes on from there.
//! - `say_what_became` says whether the blocks and claims that are new in a `Changed` state are proved, refuted or pending, and
//!   which of those that were pending are decided now, where that is wanted (`is_told`); `say_of_records` says so of what two
//!   records hold.
#![tactic(auto)]

mod count;
mod line_text;
mod pause;
mod progress_line;
mod saved_search;
mod turn_saver;
mod verdict_line;

pub use progress_line::ProgressLine;
pub use saved_search::{WindowSearch, search_saved};
pub use turn_saver::TurnSaver;
pub use verdict_line::{Changed, is_told, say_of_records, say_what_became};
