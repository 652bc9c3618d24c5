//! The commands over files of operations: what states and deltas hold, and how they are handed on.
//!
//! Each command stands in one file: its row, from which its help is made, what its words ask for, and what it does with that,
//! where it is no request to a state. Its function `command` reads the words and does it.
//!
//! - `fold`, `read` and `log` show what files hold together, `left` what they lack, `diff` what one has and another has not, and
//!   `digest` names it.
//! - `delta` writes the operations of a state as a file, `merge` takes such a file in, and `union` makes one of several.
//! - `watched` does what is no request beside a line that says how far it is.
//!
//! What they make of the bytes of files is `census_fold`.
#![tactic(auto)]

pub mod delta;
pub mod diff;
pub mod digest;
pub mod fold;
pub mod left;
pub mod log;
pub mod merge;
pub mod read;
pub mod union;
mod watched;
