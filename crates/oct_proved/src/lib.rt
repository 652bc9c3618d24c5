//! Periods that are proved by searches of this program, for whoever shows them.
//!
//! A state cannot hold a claim of a period that starts or is above 65,536, and a note alone says it. Where a search finds that
//! period, it is the least one of the game, and it holds for every heap:
//!
//!     proved.add(code, seen)?;              // 0.16: period 149459 from 105351
//!     proved.of(code)                       // what is proved of a game, if it is among these
//!
//! - A `ProvedPeriod` is a game with its least period.
//! - `ProvedPeriods` are those of several games, in the order in which they came. None is among them that is not proved: it is an
//!   invariant of the type.
#![tactic(auto)]

mod periods;

pub use periods::{ProvedPeriod, ProvedPeriods};
