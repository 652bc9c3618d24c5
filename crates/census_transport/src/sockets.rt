//! What a session goes over: a connection of the network, or one of a socket of this machine.

ghost use Rattle.std.specs.Prelude.{◌≤◌, length, IfOk};

use std::fmt::{self, Display, Formatter};
use std::io::{self, Read, Write};
use std::net::{SocketAddr, TcpListener, TcpStream};
use std::os::unix::net::{UnixListener, UnixStream};
use std::time::Duration;

/// Where peers are waited for.
#[derive(Drop)]
pub enum Listener {
    /// At an address.
    Network(TcpListener),
    /// At a path.
    Local(UnixListener),
}

/// A connection to a peer.
#[derive(Drop)]
pub enum Stream {
    /// Over the network.
    Network(TcpStream),
    /// On this machine.
    Local(UnixStream),
}

impl Listener {
    /// The next connection. The error is that of the system.
    pub fn accept(&self) -> io::Result<Stream> {
        match self {
            Listener::Network(listener) => Ok(Stream::Network(listener.accept()?.0)),
            Listener::Local(listener) => Ok(Stream::Local(listener.accept()?.0)),
        }
    }
}

impl Stream {
    /// From now on a read that waits longer fails.
    pub(crate) fn limit_reads(&self, wait: Duration) -> io::Result<()> {
        match self {
            Stream::Network(stream) => stream.set_read_timeout(Some(wait)),
            Stream::Local(stream) => stream.set_read_timeout(Some(wait)),
        }
    }

    /// From now on a write that waits longer fails.
    pub(crate) fn limit_writes(&self, wait: Duration) -> io::Result<()> {
        match self {
            Stream::Network(stream) => stream.set_write_timeout(Some(wait)),
            Stream::Local(stream) => stream.set_write_timeout(Some(wait)),
        }
    }

    /// Reads some of what came, and says how many bytes.
    pub(crate) fn read_some(&self, buf: &mut [u8]) -> io::Result<usize>
        ensures { IfOk result (λ count. count ≤ length buf.new) }
    {
        match self {
            Stream::Network(stream) => {
                let mut stream = stream;
                stream.read(buf)
            }
            Stream::Local(stream) => {
                let mut stream = stream;
                stream.read(buf)
            }
        }
    }

    /// Writes some of the bytes, and says how many.
    pub(crate) fn write_some(&self, buf: &[u8]) -> io::Result<usize>
        ensures { IfOk result (λ count. count ≤ length buf.now) }
    {
        match self {
            Stream::Network(stream) => {
                let mut stream = stream;
                stream.write(buf)
            }
            Stream::Local(stream) => {
                let mut stream = stream;
                stream.write(buf)
            }
        }
    }
}

/// Where a peer of a hub is: at an address, or on this machine.
#[derive(Clone, Copy)]
pub enum PeerAddress {
    /// At an address.
    Network(SocketAddr),
    /// Over a socket of this machine.
    Local,
}

impl Display for PeerAddress {
    fn fmt<W: fmt::Write>(&self, f: &mut Formatter<W>) -> fmt::Result {
        match self {
            PeerAddress::Network(address) => write!(f, "{address}"),
            PeerAddress::Local => f.write_str("local"),
        }
    }
}
