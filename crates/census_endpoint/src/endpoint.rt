//! Where a state meets its peers.

use crate::allowance::Allowance;
use census_diagnosis::{unbound, unbound_at, unconnected, unconnected_at, unmet, unserved};
use census_failure::{Failure, Reason};
use census_transport::{Listener, Patience, Stream};
use std::fs::{self, Permissions};
use std::io::{self, ErrorKind};
use std::net::{Net, TcpListener, TcpStream, ToSocketAddrs};
use std::os::unix::fs::{FileTypeExt, PermissionsExt};
use std::os::unix::net::{UnixListener, UnixStream};
use std::rt::Files;
use std::thread;
use std::time::{Clock, Duration};

// How many attempts in a row to take a peer may fail before `serve` ends.
const ATTEMPTS: u32 = 100;

// How many connections may wait to be taken, at least.
const WAITING: u32 = 10_000;

// How often it is tried again to connect where nobody listens, and after how many milliseconds each time.
const TRIES: u32 = 20;

const PAUSE: u64 = 100;

/// Where peers are met.
#[derive(Clone, Copy)]
pub enum Location<'a> {
    /// An address of the network, with its port.
    Address(&'a str),
    /// The path of a socket of this machine, and who may connect to it where it is made: the permissions of its file.
    Socket { path: &'a str, mode: u32 },
}

impl<'a> Location<'a> {
    /// What it is called.
    pub fn name(self) -> &'a str {
        match self {
            Location::Address(address) => address,
            Location::Socket { path, .. } => path,
        }
    }
}

/// A state, the location at which it meets its peers, how long it waits for them there, and how much it takes of each.
#[derive(Clone, Copy)]
pub struct Endpoint<'a> {
    /// The path of the state file.
    pub state: &'a str,
    /// The location.
    pub location: Location<'a>,
    /// How long a peer is waited for.
    pub patience: Patience,
    /// How much one peer may bring.
    pub allowance: Allowance,
}

/// Listens at the location. The fault is `Net`.
pub fn bound<R>(rt: &R, location: Location<'_>) -> Result<Listener, Failure>
where
    R: Files + AllocGlobal + Net<Stream = TcpStream, Listener = TcpListener>,
{
    match location {
        Location::Address(address) => match TcpListener::bind(rt, address) {
            Ok(listener) => Ok(Listener::Network(listener)),
            Err(error) => Err(unbound(rt.alloc(), address, error)),
        },
        Location::Socket { path, mode } => match bound_at(rt, path, mode) {
            Ok(listener) => Ok(Listener::Local(listener)),
            Err(error) => Err(unbound_at(rt.alloc(), path, error)),
        },
    }
}

// Makes a socket at the path, with these permissions. Whoever comes before it has them is sent away.
fn bound_at<R>(rt: &R, path: &str, mode: u32) -> io::Result<UnixListener>
where
    R: Files + AllocGlobal + Net<Stream = TcpStream, Listener = TcpListener>,
{
    let listener = placed(rt, path)?;
    fs::set_permissions(rt, path, Permissions::from_mode(mode))?;
    turn_away(&listener)?;
    Ok(listener)
}

// Makes a socket at the path, in place of one at which nobody listens any more.
fn placed<R>(rt: &R, path: &str) -> io::Result<UnixListener>
where
    R: Files + AllocGlobal + Net<Stream = TcpStream, Listener = TcpListener>,
{
    match UnixListener::bind(rt, path) {
        Err(error) if error.kind() == ErrorKind::AddrInUse && is_left(rt, path) => {
            fs::remove_file(rt, path)?;
            UnixListener::bind(rt, path)
        }
        done => done,
    }
}

// Sends away whoever waits to be taken.
fn turn_away(listener: &UnixListener) -> io::Result<()> {
    listener.set_nonblocking(true)?;
    for _ in 0..WAITING {
        if listener.accept().is_err() {
            break;
        }
    }
    listener.set_nonblocking(false)
}

// Whether a socket stands at the path at which nobody listens. A hub that listens there takes no notice of that.
fn is_left<R>(rt: &R, path: &str) -> bool
where
    R: Files + Net<Stream = TcpStream, Listener = TcpListener>,
{
    match fs::symlink_metadata(rt, path) {
        Ok(there) if there.file_type().is_socket() => match UnixStream::connect(rt, path) {
            Ok(_) => false,
            Err(error) => error.kind() == ErrorKind::ConnectionRefused,
        },
        _ => false,
    }
}

/// Takes the socket away again that was made at the location, where it is one.
pub fn leave<R: Files>(rt: &R, location: Location<'_>) {
    if let Location::Socket { path, .. } = location {
        let _ = fs::remove_file(rt, path);
    }
}

/// Connects to what is at the location, or to the first of an address's places that answers within the peer's patience. Where
/// nobody listens, it is tried again for two seconds, since a server may be just starting. The fault is `Net`.
pub fn connected<R>(rt: &R, location: Location<'_>, patience: Patience) -> Result<Stream, Failure>
where
    R: AllocGlobal + Net<Stream = TcpStream, Listener = TcpListener> + Clock,
{
    for _ in 0..TRIES {
        let tried = met(rt, location, patience);
        if !is_absent(location, &tried) {
            return tried;
        }
        thread::sleep(rt, Duration::from_millis(PAUSE));
    }
    met(rt, location, patience)
}

// Whether nobody listens at the location, as the attempt to connect has shown.
fn is_absent(location: Location<'_>, tried: &Result<Stream, Failure>) -> bool {
    match tried {
        Ok(_) => false,
        Err(failure) => match &failure.reason {
            Reason::System(error) => is_absence(location, error.kind()),
            _ => false,
        },
    }
}

// Whether the system says by this that nobody listens at the location.
fn is_absence(location: Location<'_>, kind: ErrorKind) -> bool {
    match kind {
        ErrorKind::ConnectionRefused => true,
        ErrorKind::NotFound => matches!(location, Location::Socket { .. }),
        _ => false,
    }
}

// Connects once.
fn met<R>(rt: &R, location: Location<'_>, patience: Patience) -> Result<Stream, Failure>
where
    R: AllocGlobal + Net<Stream = TcpStream, Listener = TcpListener>,
{
    match location {
        Location::Address(address) => match dialled(rt, address, patience) {
            Ok(stream) => Ok(Stream::Network(stream)),
            Err(failure) => Err(failure),
        },
        Location::Socket { path, .. } => match UnixStream::connect(rt, path) {
            Ok(stream) => Ok(Stream::Local(stream)),
            Err(error) => Err(unconnected_at(rt.alloc(), path, error)),
        },
    }
}

// Connects to the first of the address's places that answers within the peer's patience.
fn dialled<R>(rt: &R, address: &str, patience: Patience) -> Result<TcpStream, Failure>
where
    R: AllocGlobal + Net<Stream = TcpStream, Listener = TcpListener>,
{
    let places = match address.to_socket_addrs(rt) {
        Ok(places) => places,
        Err(error) => return Err(unmet(rt.alloc(), address, error)),
    };
    let mut last = io::Error::from(ErrorKind::AddrNotAvailable);
    for place in places {
        match TcpStream::connect_timeout(rt, &place, patience.silence) {
            Ok(stream) => return Ok(stream),
            Err(error) => last = error,
        }
    }
    Err(unconnected(rt.alloc(), address, last))
}

/// The next connection. The fault is `Net`.
pub fn accepted<R: AllocGlobal>(
    rt: &R,
    listener: &Listener,
    location: Location<'_>,
) -> Result<Stream, Failure> {
    let mut last = io::Error::from(ErrorKind::Interrupted);
    for _ in 0..ATTEMPTS {
        match listener.accept() {
            Ok(stream) => return Ok(stream),
            Err(error) => last = error,
        }
    }
    Err(unserved(rt.alloc(), location.name(), last))
}
