//! Sessions: how two replicas bring each other up to date over a stream of bytes.
//!
//! The client says by its clock what it holds. The server answers with its own clock and with what the client lacks, and
//! then the client sends what the server lacks:
//!
//!     client                          server
//!     clock                     ->
//!                               <-    clock, deltas, end
//!     deltas, end               ->
//!                               <-    end
//!
//! Clocks do not show where a number was used for two things. A client that sends all says by its clock that it has nothing,
//! and sends back all that it holds then: so both sides come to one set there too.
//!
//! A giver speaks as a client does, and takes nothing in: what comes to it is read and dropped. So the server comes to what
//! either held, and the giver stays as it was.
//!
//! Each frame is a length of four bytes, which counts what follows it, a tag of one byte and a payload. Bytes may come
//! in pieces of any size: what a side holds and sends follows from the bytes alone, and not from how they were cut.
//!
//! - `Session` is one side, which is fed the other side's bytes and appends what it sends to a vector.
//! - `Peer` is whoever a side speaks for: it keeps a set of operations, as a `Record` does.
//! - `drive` runs a session to its end over a reader and a writer; `converse` does so too, and leaves its last answer to the
//!   caller.
//! - `SyncError` says why a session ended early, and `laws` what holds of all sessions: bytes may be cut anywhere, and two
//!   sides that answer each other both end with all that either held, or the server alone where the client gives.
//!
//! `specs/Frames` says what frames are and how operations are packed into them, `specs/Session` what each side does,
//! `specs/Driven` what was read and written where a session was driven, and `specs/Exchange` what two sides come to.
#![tactic(auto)]

mod deltas;
mod driver;
mod error;
mod frame;
mod heads;
pub mod laws;
mod peer;
mod progress;
mod receiving;
mod role;
mod sending;
mod session;
mod state;

pub use driver::{MAX_READS, converse, drive};
pub use error::SyncError;
pub use oct_code::OutOfMemory;
pub use peer::Peer;
pub use progress::Progress;
pub use role::Role;
pub use session::Session;
