//! What was wrong with the words, files and addresses of a command.
//!
//! The crates below say that there is a fault, and which. Whoever explains it to a person wants more: which digit of a code is
//! none, which line of a b-file, where a delta is damaged, or that a file is another than it was taken for. That is found here,
//! from the same words and bytes, after the fault, so that nothing is spent on it where all is right. What is found is said by
//! a `Failure`.
//!
//! - `diagnosis` looks at all of a request, each file a `Given`: `of_request`, and `of_games`.
//! - `mistaken` looks at files that are no state, delta or saved search, and says of which `kind` they are instead (`of_state`,
//!   `of_delta`, `of_either`, `of_saved`); `damage` finds where a delta is damaged, and `bfile_lines` which line of a b-file is
//!   none (`of_bfile`).
//! - `codes` and `notes` look at words (`of_code`), and `net_failures` says why two replicas do not meet.
#![tactic(auto)]

mod bfile_lines;
mod codes;
mod damage;
mod diagnosis;
mod given;
mod kind;
mod mistaken;
mod net_failures;
mod notes;

pub use bfile_lines::of_bfile;
pub use codes::of_code;
pub use diagnosis::{of_games, of_request};
pub use given::Given;
pub use mistaken::{of_delta, of_either, of_saved, of_state};
pub use net_failures::{unbound, unbound_at, unconnected, unconnected_at, unmet, unserved};
