//! A log: what was said, by whom, an operation a line, whether it is true or not.
//!
//!     write_log(&said, &wanted)?            // 2.1 (Anna Berg) block 0.77 at 1 count 199
//!
//! A line has the dot of the operation, the name of its author where it has one, and what it says. No nim-value is computed.
//!
//! - `write_log` gives the lines of the operations that are `Wanted`.
//! - `write_diff` gives those by which two sets differ, each behind the sign of the set that has it, and which numbers were used
//!   twice; `write_diff_of` gives those of some games.
//! - `write_status` gives what a record holds in a few lines: whose it is, and how many operations there are, by whom.
//! - `append_said` appends what an operation says.
//! - `laws` says that two sets differ by no line exactly where they are the same.
#![tactic(auto)]

mod counts;
mod diff;
pub mod laws;
mod log;
mod said;
mod status;
mod twice;
mod wanted;

pub use diff::{write_diff, write_diff_of};
pub use log::write_log;
pub use said::append_said;
pub use status::write_status;
pub use wanted::Wanted;
