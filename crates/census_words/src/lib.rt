//! The words of the program's command line, and what is printed of them.
//!
//! Each command has one row in one table: its name, the words and options that it takes, and what is said of it. All else is
//! made from the rows that are handed in, so that a command is added by a row and is then parsed, helped, listed in the manual
//! and completed by shells:
//!
//! - `CommandRow` is such a row, and `Chapter` some rows under a title; `words` has the words and options that rows share.
//! - `command` makes the command line that `clap` parses, and `first_screen` the first screen of the help.
//! - `manual_page` makes the page of the manual; its list of faults, each an `Entry`, is handed in too.
//! - `append_completions` makes what a `Shell` completes words by.
//!
//! Nothing here knows of games, states or faults: what the words ask for is left to whoever reads them.
#![tactic(auto)]

mod command_line;
mod completion;
mod entry;
mod help;
mod manual;
mod manual_texts;
mod table;
pub mod words;

pub use command_line::command;
pub use completion::{Shell, append_completions};
pub use entry::Entry;
pub use help::{first_screen, words_text};
pub use manual::manual_page;
pub use table::{Chapter, CommandRow};
