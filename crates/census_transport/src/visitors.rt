//! Who comes to a hub: connections that are taken, read and written without waiting.

ghost use Rattle.std.specs.Prelude.{◌≤◌, length, IfOk};

use crate::sockets::{Listener, PeerAddress};
use mio::net::{TcpListener, TcpStream, UnixListener, UnixStream};
use mio::{Interest, Registry, Token};
use std::io::{self, Read, Write};
use std::net::SocketAddr;

/// Where a hub waits for its peers.
#[derive(Drop)]
pub enum Door {
    /// At an address.
    Network(TcpListener),
    /// At a path.
    Local(UnixListener),
}

/// A connection of a hub.
#[derive(Drop)]
pub enum Visitor {
    /// Over the network.
    Network(TcpStream),
    /// On this machine.
    Local(UnixStream),
}

impl Door {
    /// The listener, which waits for nobody. The error is that of the system.
    pub fn of(listener: Listener) -> io::Result<Door> {
        match listener {
            Listener::Network(listener) => {
                listener.set_nonblocking(true)?;
                Ok(Door::Network(TcpListener::from_std(listener)))
            }
            Listener::Local(listener) => {
                listener.set_nonblocking(true)?;
                Ok(Door::Local(UnixListener::from_std(listener)))
            }
        }
    }

    /// Has the registry report connections under the token. The error is that of the system.
    pub fn register(&mut self, registry: &Registry, token: Token) -> io::Result<()> {
        match self {
            Door::Network(listener) => registry.register(listener, token, Interest::READABLE),
            Door::Local(listener) => registry.register(listener, token, Interest::READABLE),
        }
    }

    /// The next connection, and whose it is. The error is that of the system, `WouldBlock` where none waits.
    pub fn accept(&self) -> io::Result<(Visitor, PeerAddress)> {
        match self {
            Door::Network(listener) => {
                let (stream, peer) = listener.accept()?;
                Ok((Visitor::Network(stream), PeerAddress::Network(peer)))
            }
            Door::Local(listener) => Ok((Visitor::Local(listener.accept()?.0), PeerAddress::Local)),
        }
    }

    /// Its address, where it has one. The error is that of the system.
    pub fn address(&self) -> io::Result<Option<SocketAddr>> {
        match self {
            Door::Network(listener) => Ok(Some(listener.local_addr()?)),
            Door::Local(_) => Ok(None),
        }
    }
}

impl Visitor {
    /// Has the registry report under the token when the connection is ready. The error is that of the system.
    pub fn register(&mut self, registry: &Registry, token: Token) -> io::Result<()> {
        let both = Interest::READABLE | Interest::WRITABLE;
        match self {
            Visitor::Network(stream) => registry.register(stream, token, both),
            Visitor::Local(stream) => registry.register(stream, token, both),
        }
    }

    /// Reads some of what came, and says how many bytes. The error is that of the system, `WouldBlock` where nothing came.
    pub fn read_some(&mut self, buf: &mut [u8]) -> io::Result<usize>
        ensures { IfOk result (λ count. count ≤ length buf.new) }
    {
        match self {
            Visitor::Network(stream) => stream.read(buf),
            Visitor::Local(stream) => stream.read(buf),
        }
    }

    /// Writes some of the bytes, and says how many. The error is that of the system, `WouldBlock` where it takes none.
    pub fn write_some(&mut self, buf: &[u8]) -> io::Result<usize>
        ensures { IfOk result (λ count. count ≤ length buf.now) }
    {
        match self {
            Visitor::Network(stream) => stream.write(buf),
            Visitor::Local(stream) => stream.write(buf),
        }
    }
}
