//! Codes of octal games (Guy and Smith 1956; Winning Ways, chapter 4), and the limits of a census.
//!
//! A code `d0.d1d2..dk` gives the rules of a taking-and-breaking game on heaps of beans: the digit `d_r` says how
//! many nonempty heaps may be left where `r` beans are removed from one heap. Kayles is `0.77`:
//!
//!     let kayles = Code::parse(b"0.77")?;
//!     kayles.allows(2, 1)     // two beans may be removed so that one heap is left
//!
//! - `Code` is the code itself, read from text or made from digits, and compared by head, then `k`, then digits.
//! - `CodeError` and `DigitsError` say why a text, or digits, are no code.
//! - `LIMIT`, `OLD_LIMIT` and `MAX_DIGITS` are the limits that every crate reads by name.
#![tactic(auto)]

mod code;
mod digits;
mod error;
pub mod laws;
mod limits;
mod text;

pub use code::Code;
pub use error::{CodeError, DigitsError};
pub use limits::{LIMIT, MAX_DIGITS, OLD_LIMIT};

/// The refusal of a call that can want nothing but memory: std's own error, under the name that it has as a case of other
/// errors.
pub use std::alloc::AllocError as OutOfMemory;
