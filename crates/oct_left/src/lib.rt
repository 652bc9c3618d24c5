//! Which games lack blocks: those of which what was said does not have each of the first heaps in a block, whoever said
//! it, and be it true or not. The empty heap needs none: all know its value. No nim-value is computed.
//!
//! - `is_covered` says of one game whether each of its first heaps lies in a block.
//! - `left` gives those of a list of games of which that is not so.
#![tactic(auto)]

mod covered;
mod lacking;
mod span;

pub use covered::is_covered;
pub use lacking::left;
