//! A state, where it meets its peers: what one session and the many of a hub have in common.
//!
//! - `Endpoint` is a state and the `Location` at which it meets its peers, an address or a socket of this machine; `Patience` is
//!   how long it waits for them, and `Allowance` how much it takes of one. At a location one listens (`bound`), takes who comes
//!   (`accepted`) and in the end goes away (`leave`), or connects (`connected`).
//! - `record_file` reads the record of a state file (`Loaded`), and saves it joined with what the file holds by then. Its parts
//!   serve whoever keeps a record for longer: a `Standing` tells whether the file was changed since it was read, and `Saved` is
//!   what stands in it after a session.
//! - `salvage` is what becomes of a session that ended early: what came is saved where its peer ended it, and where even that
//!   failed, it is said.
#![tactic(auto)]

mod allowance;
mod endpoint;
mod record_file;
mod salvage;

pub use allowance::Allowance;
pub use census_transport::Patience;
pub use endpoint::{Endpoint, Location, accepted, bound, connected, leave};
pub use record_file::{Loaded, Saved, Standing, record_of, save_grown, save_held};
pub use salvage::{is_of_peer, unsaved};
