//! Sessions over TCP, or a socket of this machine.

use crate::session::{Agreement, Streams};
use census_endpoint::{Endpoint, Loaded, accepted, bound, connected, leave};
use census_failure::{Advice, Failure};
use census_state::Fault;
use census_transport::{Bounded, Connection, Listener, Stream};
use oct_sync::Role;
use std::fs::File;
use std::io::Write;
use std::net::{Net, TcpListener, TcpStream};
use std::rt::Files;
use std::time::Clock;

/// Waits for one connection to the location, without end, and serves its session. Its last frame, by which the other side is
/// done, is sent once the state is saved. The state is saved also where the session ended early. The fault is that of the
/// state, as it is read first; then `Net`; then that of the session, `Sync` or `TooLong` where the other side sends more than it
/// may, or else `Authors`, where it brings too many, or that of the state, as it is saved; then that of the last frame.
pub fn serve<R, E>(
    rt: &R,
    endpoint: Endpoint<'_>,
    advice: &mut Advice<'_, E>,
) -> Result<(), Failure>
where
    R: Files<File = File> + AllocGlobal + Net<Stream = TcpStream, Listener = TcpListener> + Clock,
    E: Write,
{
    let (mut loaded, _) = Loaded::read(rt, endpoint.state)?;
    let listener = bound(rt, endpoint.location)?;
    serve_next(rt, endpoint, &listener, &mut loaded, advice)
}

// Takes one connection of the listener, takes the socket away where it is one, and serves the session.
fn serve_next<R, E>(
    rt: &R,
    endpoint: Endpoint<'_>,
    listener: &Listener,
    loaded: &mut Loaded,
    advice: &mut Advice<'_, E>,
) -> Result<(), Failure>
where
    R: Files<File = File> + AllocGlobal + Net<Stream = TcpStream, Listener = TcpListener> + Clock,
    E: Write,
{
    let taken = accepted(rt, listener, endpoint.location);
    leave(rt, endpoint.location);
    let stream = taken?;
    both_ways(rt, endpoint, &stream)?.answer(rt, endpoint.state, loaded, advice)
}

/// Connects to the location, and has one session with what serves there, as this kind of client, over what the state said,
/// which takes what the session brings. The state is saved once the session is done, and also where it ended early. The outcome
/// is what the server says behind its last frame, if it says so. The fault is `Net`; then that of the session, `Sync` or
/// `TooLong` where the other side sends more than it may, or else `Authors`, where it brings too many, or that of the state, as
/// it is saved.
pub fn sync<R, E>(
    rt: &R,
    endpoint: Endpoint<'_>,
    role: Role,
    loaded: &mut Loaded,
    advice: &mut Advice<'_, E>,
) -> Result<Agreement, Failure>
where
    R: Files<File = File> + AllocGlobal + Net<Stream = TcpStream, Listener = TcpListener> + Clock,
    E: Write,
{
    let stream = connected(rt, endpoint.location, endpoint.patience)?;
    both_ways(rt, endpoint, &stream)?.ask(rt, endpoint.state, role, loaded, advice)
}

// The two directions of a connection, whose session begins now. The fault is `Net`.
fn both_ways<'a, R: AllocGlobal + Clock>(
    rt: &'a R,
    endpoint: Endpoint<'a>,
    stream: &'a Stream,
) -> Result<Streams<'a, Connection<'a, R>, Connection<'a, R>>, Failure> {
    let input = one_way(rt, endpoint, stream)?;
    Ok(Streams {
        name: endpoint.location.name(),
        input: Bounded::new(input, endpoint.allowance.most),
        output: one_way(rt, endpoint, stream)?,
        allowance: endpoint.allowance,
    })
}

// One direction of a connection. The fault is `Net`.
fn one_way<'a, R: AllocGlobal + Clock>(
    rt: &'a R,
    endpoint: Endpoint<'a>,
    stream: &'a Stream,
) -> Result<Connection<'a, R>, Failure> {
    match Connection::new(rt, stream, endpoint.patience) {
        Ok(connection) => Ok(connection),
        Err(_) => Err(Failure::of(rt.alloc(), Fault::Net, endpoint.location.name())),
    }
}
