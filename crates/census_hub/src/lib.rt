//! A hub: many sessions of a state at once, in one thread.
//!
//! What is said in a session is `oct_sync`, and what a hub answers a clock `oct_answer`. Where it meets its peers, and how its
//! state is read and saved, is `census_endpoint`; one session alone is `census_net`.
//!
//! - `hub` serves connections within its `Limits`. `Entrance` is where it waits for its peers.
//! - Each session is a `Guest`, which goes on whenever its connection is ready.
//! - `kept` is the one record for which all of them speak, which is sent a frame at a time; what one brings is joined with it
//!   where it is saved. A `Tally` of it, and the `shares` there, say by whom what is new is; `session_line` is the line of a
//!   session that was done.
#![tactic(auto)]

mod entrance;
mod guest;
mod kept;
mod peers;
mod session_line;
mod shares;
mod tally;

pub use peers::{Limits, hub};
