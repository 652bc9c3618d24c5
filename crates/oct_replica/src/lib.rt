//! Replicas of a census: a record of what was said, and the games that follow from it, together in memory and up to date.
//!
//!     let mut replica = Replica::new(alloc, 7)?;
//!     replica.take(bytes)?;                 // takes in a delta, and says how many operations were new
//!     replica.issue(body)                   // the dot of the author's next operation
//!     replica.compute(kayles, 12)?          // a block of the next 12 nim-values of a game, to be issued
//!     replica.removal(b"kayles")?           // the removal of the notes of a name, to be issued
//!     replica.join(&other)?;                // the union
//!     replica.value(kayles, &[5, 6])        // the exclusive or of the heaps' nim-values
//!     replica.winning_move(kayles, &[5, 6]) // a move after which the next player loses
//!     replica.find_period(kayles)           // the least period that the known values prove
//!     replica.catalogue(&mut out)?;         // all that is known, as text
//!     replica.save(&mut out)?;              // `OGS1`, the author, and the delta of all operations
//!     Replica::load(alloc, &out)?           // the replica again
//!
//! Beside the record a replica keeps each game up to date, so `take` costs only what the new operations cost, and `game`,
//! `known`, `value`, `outcome`, `winning_move`, `find_period` and `claims_period` take no memory. Record and games agree at the end
//! of every call, also of a refused one. Whoever asks nothing of the games holds the record alone (`oct_record`), and whoever
//! asks of one at a time builds it from the record (`oct_pages::game_of`).
//!
//! Replicas act apart, and what they send may be lost, repeated, reordered or cut; they stop and begin again from what
//! they last saved. `specs/World` says what may happen in a world of such replicas, event by event, and what then holds
//! after any events: each operation was issued by the author that it names, no dot has two contents, and replicas with
//! equal clocks and no gaps hold the same set. `laws` states this of every number of replicas and every list of events,
//! and that replicas which took the same operations print the same bytes.
#![tactic(auto)]

mod error;
mod games;
pub mod laws;
mod peer;
mod replica;

pub use error::QueryError;
pub use oct_code::OutOfMemory;
pub use oct_period::{ComputeError, next_block};
pub use oct_record::{AuthorError, IssueError, LoadError, RemovalError, TakeError};
pub use replica::Replica;
