//! Finite sets of operations, as a replica holds them.
//!
//! A set keeps all that its replica has seen: where two contents came with one dot, both stay. What it shows of its
//! authors is read off the set alone, whatever the order was in which the operations came:
//!
//!     let mut store = Store::new(alloc);
//!     store.insert(first)?;                 // note 5.1: true, since it is new
//!     store.insert(third)?;                 // note 5.3
//!     store.authors()?                      // author 5, through 1, last 3: its second operation is missing
//!     store.beyond(&store.clock()?)?        // note 5.3 alone, which the clock {5 at 1} does not cover
//!
//! - `Store` is the set, which grows by `insert` and, as a `Join`, by union.
//! - `Author` and `Fork` are the rows of what it shows of its authors and of dots with several contents.
//! - `laws` says what these numbers are.
#![tactic(auto)]

mod author;
mod fork;
pub mod laws;
mod store;

pub use author::Author;
pub use fork::Fork;
pub use oct_code::OutOfMemory;
pub use store::Store;
