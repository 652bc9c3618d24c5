//! Where a hub waits for its peers.

use census_diagnosis::unserved;
use census_endpoint::{Location, bound};
use census_failure::Failure;
use census_transport::{Door, Listener};
use mio::{Events, Poll, Token};
use std::io;
use std::net::{Net, TcpListener, TcpStream};
use std::rt::Files;

/// The listener among the sources of events. The others are the guests, by their keys.
pub(crate) const LISTENER: Token = Token(usize::MAX);

/// The door of a hub, and what reports who waits before it, and which connections are ready.
#[derive(Drop)]
pub(crate) struct Entrance {
    /// Where connections are taken.
    pub(crate) door: Door,
    /// With what the door and the connections are registered.
    pub(crate) poll: Poll,
    /// What was reported last.
    pub(crate) events: Events,
}

impl Entrance {
    /// Listens at the location without waiting, and has each connection reported under the token of the listener; so many events
    /// are reported at once. The fault is `Net`, and `OutOfMemory`.
    pub(crate) fn open<R>(rt: &R, location: Location<'_>, most: usize) -> Result<Entrance, Failure>
    where
        R: Files + AllocGlobal + Net<Stream = TcpStream, Listener = TcpListener>,
    {
        let listener = bound(rt, location)?;
        match polled(rt, listener) {
            Ok((door, poll)) => Ok(Entrance {
                door,
                poll,
                events: Events::with_capacity(rt.alloc(), most)?,
            }),
            Err(error) => Err(unserved(rt.alloc(), location.name(), error)),
        }
    }
}

// Has the listener's connections reported, and waits for none.
fn polled<R>(rt: &R, listener: Listener) -> io::Result<(Door, Poll)>
where
    R: Net<Stream = TcpStream, Listener = TcpListener>,
{
    let mut door = Door::of(listener)?;
    let poll = Poll::new(rt)?;
    door.register(poll.registry(), LISTENER)?;
    Ok((door, poll))
}
