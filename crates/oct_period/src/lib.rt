//! Period claims of a game, and the values of heaps and positions that follow from what is known.
//!
//! A claim says that from the heap `start` on the nim-values of a game repeat with a period. Where the nim-values of all
//! heaps below `2 * start + 2 * period + k` are known and agree with the claim, it holds for every heap, however large
//! (Guy and Smith, 1956), so the value of a heap of 10^9 beans may be read off the first period.
//!
//!     let mut game = Game::new(alloc, code);      // 0.3: one bean may be removed
//!     game.add_block(first, values)?;          // 0 1 0 1 0 1 0 at 0
//!     game.add_period(second, repeats)?;       // from 1 by 2: proved
//!     game.heap_value(1_000_000_001)              // Some(1)
//!     game.outcome(&[1, 1_000_000_001])           // NextLoses
//!     game.winning_move(&[1_000_000_001])         // Some: of heap 0 remove 1 bean
//!
//! - `Game` is a ledger and the period claims of its game, and answers for both.
//! - `Leaders` are games whose values another one may take over, as long as they are its own.
//! - `PeriodClaim` is a claim under its dot, and `PeriodStatus` what is known of a claim: proved, refuted at the least heap
//!   that breaks it, or pending.
//! - `period_status`, `heap_value`, `position_value` and `outcome` answer for a ledger and a list of claims. No answer takes
//!   memory.
//! - `next_block` computes the block of the next nim-values of a ledger.
//! - `find_period` looks for the claim of the least period that a ledger proves, which need not have been made.
//! - `Move` is a move in a position; `Game::winning_move` looks for the first one after which the next player loses.
//! - `outcome_of` says who wins a position of a nim-value that is known already.
//! - `Unknown` names the first heap of a position whose nim-value is not known, and `Outcome` says who wins a position in
//!   normal play, where that is known.
//! - `laws` says what holds of all blocks and claims of a game.
#![tactic(auto)]

mod breaks;
mod claim;
mod computing;
mod far;
mod found;
mod game;
pub mod laws;
mod move_search;
mod moving;
mod status;
mod unknown;
mod values;
mod winner;
mod winning;

pub use breaks::period_status;
pub use claim::PeriodClaim;
pub use computing::{ComputeError, next_block};
pub use found::find_period;
pub use game::Game;
pub use moving::Move;
pub use oct_code::OutOfMemory;
pub use oct_mex::Leaders;
pub use status::PeriodStatus;
pub use unknown::Unknown;
pub use values::{heap_value, position_value};
pub use winner::Outcome;
pub use winning::{outcome, outcome_of};
