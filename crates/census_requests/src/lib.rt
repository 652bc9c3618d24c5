//! Requests to a state file, as most commands are: one that changes it, one that asks it, and what it shows.
//!
//! A command says by its words which request it is (`changing`, `asking`, `viewing`), and what it says is done here: files are read
//! and locked, `census_core` does the request over their bytes, and what comes of it is written and printed.
//!
//! - `change` changes a state, while no other command does, and says what became of what is new; `undone` leaves out the games
//!   that are done.
//! - `ask` leaves the state as it is, and may write a file beside it; `unknown` says of a heap that is not known what tells more.
//! - `viewing` shows what a state says, as it is made.
//! - `watched` does each of these beside a line that says how far it is, or beside advice.
//! - `noting` issues notes of periods that no period claim proves, and `rechecking` gives those that are there, and searches again
//!   for the periods that they say.
//! - `printing` has what several commands print, `System` is what all of it asks of the machine, and `Readers` are who reads what
//!   is written.
#![tactic(auto)]

pub mod ask;
pub mod change;
mod noting;
mod printing;
mod readers;
mod rechecking;
mod system;
mod undone;
mod unknown;
pub mod viewing;
pub mod watched;

pub use noting::{check_state, note_found};
pub use printing::{print_file, print_unless, tell_done};
pub use readers::Readers;
pub use rechecking::{notes_of, recheck_long};
pub use system::System;
pub use unknown::one_code;
