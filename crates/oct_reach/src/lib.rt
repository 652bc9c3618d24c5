//! What a search of a game gives of heaps of any size: nim-values, and a winning move.
//!
//! Where a search has found a period, each heap has the nim-value of one in the first period, however long that is and however
//! many beans the heap has; where it has found none, the heaps that were computed have theirs.
//!
//!     let mut game = Search::new(alloc, code);                    // 0.16
//!     let found = game.search(1_000_000)?;                        // period 149,459 from heap 105,351
//!     winning_move(&game, found, &[10_000_000_000])               // a move after which the other player loses
//!
//! - `heap_value` and `position_value` give nim-values; `position_value` names the first heap that has none.
//! - `winning_move` names the first move after which the next player loses, in the order of `oct_period::Game::winning_move`.
//!   Moves, their order and who wins are defined in `oct_period`.
#![tactic(auto)]

mod move_search;
mod values;

pub use move_search::winning_move;
pub use oct_period::{Move, Unknown};
pub use values::{heap_value, position_value};
