//! Verification of claimed nim-values, in whichever order the blocks come.
//!
//! A `Ledger` keeps the blocks of one game, each under its dot. A block is compared with the nim-values as soon as the
//! places before it are known: a true block makes its own places known, so that blocks that waited for them are compared
//! in turn. What the ledger says is that of its set of blocks alone, whatever their order:
//!
//!     let mut ledger = Ledger::new(alloc, kayles);
//!     ledger.add(far, at_7)?;        // waits: known 1
//!     ledger.add(near, at_1_to_6)?;  // settles both: known 8
//!     ledger.status(&far, &at_7)        // Proved
//!
//! - `Ledger` is a code and a finite set of pairs of a dot and a block. A block may be shared with who has its operation.
//! - Its values may be taken over from other games where they are the same: `oct_mex` has `Leaders`.
//! - `Status` says whether a block is proved, refuted at its least wrong place, or pending.
//! - `laws` says what holds of all sets of blocks.
#![tactic(auto)]

mod comparer;
mod entry;
pub mod laws;
mod ledger;
mod shelf;
mod status;

pub use ledger::Ledger;
pub use oct_code::OutOfMemory;
pub use status::Status;
