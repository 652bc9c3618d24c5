//! Sessions of a state with others, over the network.
//!
//! Two replicas that meet exchange what is new, and each saves the union of what its file holds then and of what the session
//! brought. What is said in a session is `oct_sync`; here it goes over a connection, as `census_transport` has it, with an end
//! to every wait. Where a state meets its peers, and how it is read and saved, is `census_endpoint`, whose `Endpoint`,
//! `Allowance` and `Loaded` are passed on; many sessions at once are `census_hub`.
//!
//! - `serve` has one session with whoever connects, and `sync` one with whoever serves. `serve_over` and `sync_over` do the
//!   same over two streams that are lent.
//! - `session` is what they have in common, over the two directions of a session: its `Agreement` is whether both sides hold the
//!   same then. `refused` is what is said where the other side takes no more.
#![tactic(auto)]

mod network;
mod over;
mod refused;
mod session;

pub use census_endpoint::{Allowance, Endpoint, Loaded, Location, Patience};
pub use network::{serve, sync};
pub use over::{serve_over, sync_over};
pub use session::Agreement;
