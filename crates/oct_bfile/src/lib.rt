//! b-files: texts that list the values of a sequence, a line to each, as the On-Line Encyclopedia of Integer Sequences has
//! them.
//!
//!     write_bfile(game.ledger().known_values(), &mut text)?;
//!     let file = read_bfile(alloc, &text)?;
//!
//! - `write_bfile` writes values as a b-file, and `read_bfile` reads a b-file, so that its values can be claimed.
//! - `next_line` and `next_word` take the lines of a text, and the words of a line, one by one.
//! - `laws` says that a written b-file reads back.
#![tactic(auto)]

mod bfile;
mod bfile_error;
mod bfile_line;
pub mod laws;
mod splitting;

pub use bfile::{Bfile, read_bfile, write_bfile};
pub use bfile_error::BfileError;
pub use splitting::{next_line, next_word};
