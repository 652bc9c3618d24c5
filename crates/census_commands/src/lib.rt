//! All commands of the program, and what does one of them.
//!
//! Each stands in one file: its row, from which its help is made, what its words ask for, and what it does with that; its function
//! `command` reads the words and does it. Those of a kind are a crate, and these crates stand side by side: `census_own_state` has
//! the commands of a state of one's own, `census_by_files` those of files of operations, `census_searches` those that compute values
//! anew, `census_published` those that show what a state says, and `census_sessions` the sessions. `completion` and `manual`, which
//! are made from all rows, and `explain` stand here.
//!
//! - `commands` lists them: `Call` is one that is called by its name, for its `Readers`, and its `run` does it. `chapters` are the rows
//!   of all commands, as the help has them, and `is_unwatched` says which of them nobody watches.
//!
//! What words say is `census_arguments`. What many commands have in common, a request to a state, is `census_requests`, and what
//! they make of the bytes of their files `census_core`; what takes long is `census_progress`, and what is made from the rows
//! `census_words`.
#![tactic(auto)]

mod commands;
mod completion;
mod explain;
mod manual;

pub use census_requests::Readers;
pub use commands::{Call, chapters, is_unwatched};
