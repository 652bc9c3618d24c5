//! What a session goes over: connections and streams, and what the machine says of them. Nothing here knows what is said in it.
//!
//! Each wait over a connection has an end, and no more is taken than one peer may send:
//!
//! - A `Listener` gives a `Stream` for each peer, over the network or on this machine. A `Connection` is one direction of such a
//!   stream, which fails where it would wait longer than the `Patience` with the peer allows.
//! - A `Door` and its `Visitor`s are the same for a hub, which waits for none of them: they are reported when they are ready.
//!   A `PeerAddress` says where a visitor is.
//! - `LentInput` and `LentOutput` are the standard streams of the program as the two directions of a session.
//! - A `Way` remembers what the system said where it failed, and a `Source`, from which a session is read, also the first bytes of
//!   what came last (`Last`), as many as a frame has before its payload (`HEAD`). From a `Bounded` one no more comes than
//!   it may bring.
//! - `has_room` says whether an output, as that of the program (`OUTPUT`), takes a line without waiting, and a `Moment` is the time
//!   of a line.
#![tactic(auto)]

mod bounded;
mod connection;
mod moment;
mod room;
mod sockets;
mod visitors;
mod ways;

pub use bounded::Bounded;
pub use connection::{Connection, Patience};
pub use moment::Moment;
pub use room::{OUTPUT, has_room};
pub use sockets::{Listener, PeerAddress, Stream};
pub use visitors::{Door, Visitor};
pub use ways::{HEAD, Last, LentInput, LentOutput, Source, Way};
