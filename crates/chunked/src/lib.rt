//! Lists in short chunks, for what is kept in order while it grows.
//!
//! One item more moves at most the items of its chunk, and a list that grows at its end fills its chunks. A list in order is
//! searched by halves, first among its chunks and then in one, and the end is tried before: what comes in order costs two
//! comparisons.
//!
//!     let mut numbers = Chunks::new(alloc);
//!     let place = numbers.search(&At(7));         // where 7 is, or where it would go
//!     let place = numbers.room_at(place)?;        // memory is asked for here alone
//!     numbers.insert(place, 7);
//!     numbers.iter()                              // all, in their order
//!
//! - `Chunks` is a list, and `Place` a place in it, which an item has or may take.
//! - `Test` is a test that the items in front pass, `Probe` a comparison with what is searched, and `Change` what is done to
//!   an item where it lies.
//! - `Iter` gives the items in their order.
#![tactic(auto)]

mod chunks;
mod iter;
mod search;

pub use chunks::{Chunks, Place};
pub use iter::Iter;
pub use search::{Change, Probe, Test};
