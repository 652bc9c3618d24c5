//! What a server answers, a frame at a time, so that no more of it stands in memory than one frame.
//!
//! `oct_sync::Session` hands all that a server answers to its caller at once. Whoever serves many that read slowly, or not at all,
//! sends the same bytes by these:
//!
//!     let snapshot = Rc::new(alloc, Snapshot::of(alloc, &said)?)?;     // shared by all whom the same is said
//!     snapshot.put_clock(&mut out)?;                                   // the clock frame
//!     let mut missing = Missing::new(alloc, snapshot, clock);                 // for one whose clock is this
//!     missing.put_next(&mut out)?                                      // the next frame, a delta's or the end's
//!     missing.is_over()                                                // after the end
//!
//! - `Snapshot` is what a record holds at one moment: references to its operations, and its clock.
//! - `Missing` is what is left to be sent to a client with this clock. It has a place in a snapshot.
//!
//! `specs/Left` says what is left at a place; that all of it is what a server answers is a clause of `Missing::new`.
#![tactic(auto)]

mod frames;
mod missing;
mod shared;
mod snapshot;

pub use missing::Missing;
pub use oct_code::OutOfMemory;
pub use snapshot::Snapshot;
