//! Contents that grow by taking in one another, as state-based replicated data (Shapiro, Preguica, Baquero and
//! Zawirski, 2011), and the clocks by which replicas say what they hold.
//!
//! Two replicas that worked apart are brought together by a least upper bound of what they hold, so that it matters
//! neither in which order contents are joined nor how often:
//!
//!     let mut clock = Clock::new(alloc);
//!     clock.raise(1, 1)?;               // all of author 1's operations up to 1 are known
//!     gather(&mut clock, &others)?;     // of others that know {1 at 3} and {2 at 1}
//!     clock.entries()                   // [(1, 3), (2, 1)]
//!
//! - `Join` is what a content has to offer: an order on contents, and a `join` that leaves the least upper bound.
//! - `gather` leaves the bound of many contents, whatever they are.
//! - `Clock` is the first such content: for each author a number, of which the greater one stays.
//! - `OpSet` is the second: a finite set of operations, which grows by union. `Ops` gives them in their order, and
//!   `SharedOps` what refers to them.
#![tactic(auto)]

mod clock;
mod join;
mod op_set;
mod ops;
mod shared;
mod shared_ops;

pub use clock::Clock;
pub use join::{Join, gather};
pub use oct_code::OutOfMemory;
pub use op_set::OpSet;
pub use ops::Ops;
pub use shared_ops::SharedOps;
