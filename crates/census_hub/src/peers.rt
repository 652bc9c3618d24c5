//! A hub: many sessions at once, in one thread.

use crate::entrance::{Entrance, LISTENER};
use crate::guest::{Bounds, Guest, sooner};
use crate::kept::{Kept, Settled};
use crate::session_line::{append_text, line_of};
use census_diagnosis::unserved;
use census_endpoint::{Endpoint, is_of_peer, leave, unsaved};
use census_failure::{Failure, escaped, explanation, foreign_text};
use census_state::Fault;
use census_transport::{Moment, OUTPUT, PeerAddress, Visitor, has_room};
use mio::Token;
use oct_ops::Dot;
use oct_record::Record;
use slab::Slab;
use std::alloc::Global;
use std::fs::File;
use std::io::{self, ErrorKind, Write};
use std::net::{Net, TcpListener, TcpStream};
use std::rt::Files;
use std::time::{Clock, Duration, Instant};
use written::write_out;

/// The most bytes of one read.
const MAX_READ: usize = 65_536;

/// For how many milliseconds no connection is taken after one could not be.
const PAUSE: u64 = 100;

/// After how many seconds a silent peer gives way to one for which there is no room.
const SILENCE: u64 = 10;

/// How many peers a hub takes.
#[derive(Clone, Copy)]
pub struct Limits {
    /// After how many connections it ends.
    pub peers: u64,
    /// How many sessions it has at once, at least one.
    pub sessions: usize,
}

/// A hub that runs. All its sessions speak for the one record that is kept.
#[derive(Drop)]
struct Host<'a, R> {
    rt: &'a R,
    endpoint: Endpoint<'a>,
    limits: Limits,
    kept: Kept,
    entrance: Entrance,
    guests: Slab<Guest>,
    /// What is read from a connection.
    buffer: Vec<u8>,
    /// How many connections are still to be taken.
    left: u64,
    /// Whether a connection may wait to be taken.
    is_called: bool,
    /// Until when none is taken.
    pause: Option<Instant>,
    /// How many lines were dropped since the last one that was printed.
    dropped: u64,
}

/// Serves so many connections to the location, and says where it listens and how each session ended. Many sessions go
/// on at once, each whenever its connection is ready; further connections wait, but the peer that was silent longest, for
/// ten seconds or more, gives way to one. What ends a session early does not end the hub. What the state says is kept in
/// memory: its file is read again where another stands in its place, and written before the last frame of a session that
/// brought something; what could not be saved is dropped with the session. Lines for which the output has no room are
/// dropped, and counted. The fault is that of the state, as it is read first; then `Net`; and `Write` where it can't be said
/// where the hub listens.
pub fn hub<R, O, E>(
    rt: &R,
    endpoint: Endpoint<'_>,
    limits: Limits,
    output: &mut O,
    errors: &mut E,
) -> Result<(), Failure>
where
    R: Files<File = File> + AllocGlobal + Net<Stream = TcpStream, Listener = TcpListener> + Clock,
    O: Write,
    E: Write,
{
    let mut host = Host::open(rt, endpoint, limits)?;
    let ended = host.serve(output, errors);
    leave(rt, endpoint.location);
    ended
}

impl<'a, R> Host<'a, R>
where
    R: Files<File = File> + AllocGlobal + Net<Stream = TcpStream, Listener = TcpListener> + Clock,
{
    // Reads the state, and then listens at the address.
    fn open(rt: &'a R, endpoint: Endpoint<'a>, limits: Limits) -> Result<Host<'a, R>, Failure> {
        let kept = Kept::read(rt, endpoint.state)?;
        let entrance = Entrance::open(rt, endpoint.location, limits.sessions)?;
        Ok(Host {
            rt,
            endpoint,
            limits,
            kept,
            entrance,
            guests: Slab::with_capacity(rt.alloc(), limits.sessions)?,
            buffer: zeros(rt.alloc(), MAX_READ)?,
            left: limits.peers,
            is_called: true,
            pause: None,
            dropped: 0,
        })
    }

    // Says where it listens, and serves all its peers.
    fn serve<O: Write, E: Write>(&mut self, output: &mut O, errors: &mut E) -> Result<(), Failure> {
        self.say_where(output)?;
        for _ in 0..u64::MAX {
            if self.is_over() {
                break;
            }
            self.turn(output, errors)?;
        }
        Ok(())
    }

    // Says where it listens.
    fn say_where<O: Write>(&self, output: &mut O) -> Result<(), Failure> {
        let alloc = self.rt.alloc();
        let line = match self.entrance.door.address() {
            Ok(Some(address)) => format!(in alloc; "listening on {address}\n")?,
            Ok(None) => {
                let path = escaped(alloc, self.endpoint.location.name())?;
                format!(in alloc; "listening on {path}\n")?
            }
            Err(error) => return Err(self.unserved(error)),
        };
        Ok(write_out(output, line.as_bytes())?)
    }

    // Whether all connections were served.
    fn is_over(&self) -> bool {
        self.left == 0 && self.guests.is_empty()
    }

    // Takes the connections that wait, waits until one is ready or a peer was silent too long, and lets each session
    // go on by a step.
    fn turn<O: Write, E: Write>(&mut self, output: &mut O, errors: &mut E) -> Result<(), Failure> {
        let now = self.now()?;
        self.take_connections(now, errors);
        self.wait(now)?;
        let now = self.now()?;
        for key in 0..self.limits.sessions {
            self.go_on(key, now, output, errors);
        }
        Ok(())
    }

    // The time. The fault is `Net`.
    fn now(&self) -> Result<Instant, Failure> {
        match Instant::now(self.rt) {
            Ok(now) => Ok(now),
            Err(error) => Err(self.unserved(error)),
        }
    }

    // The failure to go on at the address.
    fn unserved(&self, error: io::Error) -> Failure {
        unserved(self.rt.alloc(), self.endpoint.location.name(), error)
    }

    // Whether a connection may wait for which there is room, or a guest that gives way.
    fn has_call(&self, now: Instant) -> bool {
        self.may_wait() && (!self.is_full() || self.idlest(now).is_some())
    }

    // Whether a connection may wait that is to be served.
    fn may_wait(&self) -> bool {
        self.is_called && self.left > 0
    }

    // Whether there are as many sessions as there may be.
    fn is_full(&self) -> bool {
        self.guests.len() >= self.limits.sessions
    }

    // The guest that was silent longest, where that is long enough to give way.
    fn idlest(&self, now: Instant) -> Option<usize> {
        let mut found = None;
        let mut last = now.checked_sub(Duration::from_secs(SILENCE))?;
        for (key, guest) in self.guests.iter() {
            if guest.heard() <= last {
                last = guest.heard();
                found = Some(key);
            }
        }
        found
    }

    // Has the guest that was silent longest give way, where there is no room.
    fn make_room<E: Write>(&mut self, now: Instant, errors: &mut E) {
        if self.is_full() {
            if let Some(key) = self.idlest(now) {
                if let Some(guest) = self.guests.try_remove(key) {
                    let failure = guest.silent();
                    self.give_up(guest, failure, errors);
                }
            }
        }
    }

    // Takes the connections that wait, as far as there is room. After one that could not be taken there is a pause.
    fn take_connections<E: Write>(&mut self, now: Instant, errors: &mut E) {
        if self.pause.is_some_and(|pause| pause > now) {
            return;
        }
        self.pause = None;
        for _ in 0..self.limits.sessions {
            if self.pause.is_some() || !self.has_call(now) {
                return;
            }
            match self.entrance.door.accept() {
                Ok((stream, peer)) => self.take_in(stream, peer, now, errors),
                Err(error) => self.wait_after(error.kind(), now),
            }
        }
    }

    // Makes room for a peer that connected, and begins its session, or says why it has none.
    fn take_in<E: Write>(
        &mut self,
        stream: Visitor,
        peer: PeerAddress,
        now: Instant,
        errors: &mut E,
    ) {
        self.left = self.left.saturating_sub(1);
        self.make_room(now, errors);
        if let Err(failure) = self.seat(stream, peer, now) {
            say_failure(self.rt, errors, peer, failure);
        }
    }

    // After a connection that could not be taken: until one is reported none waits, or there is a pause. It is tried again at once
    // where a signal interrupted it.
    fn wait_after(&mut self, kind: ErrorKind, now: Instant) {
        match kind {
            ErrorKind::WouldBlock => self.is_called = false,
            ErrorKind::Interrupted => {}
            _ => self.pause = now.checked_add(Duration::from_millis(PAUSE)),
        }
    }

    // Begins the session of a connection. The fault is `Net`, and `OutOfMemory`.
    fn seat(&mut self, stream: Visitor, peer: PeerAddress, now: Instant) -> Result<(), Failure> {
        let mut guest = self.guest(stream, peer, now);
        self.register(&mut guest)?;
        match self.guests.insert(guest) {
            Ok(_) => Ok(()),
            Err(_) => Err(Failure::from(Fault::OutOfMemory)),
        }
    }

    // A peer whose session begins now.
    fn guest(&self, stream: Visitor, peer: PeerAddress, now: Instant) -> Guest {
        let bounds = Bounds {
            patience: self.endpoint.patience,
            allowance: self.endpoint.allowance,
        };
        let alloc = self.rt.alloc();
        Guest::new(alloc, stream, peer, bounds, self.kept.empty(alloc), now)
    }

    // Has the connection of the guest that is seated next reported when it is ready. The fault is `Net`.
    fn register(&self, guest: &mut Guest) -> Result<(), Failure> {
        let token = Token(self.guests.vacant_key());
        match guest.register(self.entrance.poll.registry(), token) {
            Ok(()) => Ok(()),
            Err(error) => Err(self.unserved(error)),
        }
    }

    // Waits until something is ready, or a time has come. The fault is `Net`.
    fn wait(&mut self, now: Instant) -> Result<(), Failure> {
        let timeout = self.timeout(now);
        if let Err(error) = self.entrance.poll.poll(&mut self.entrance.events, timeout) {
            return Err(self.unserved(error));
        }
        for event in &self.entrance.events {
            if event.token() == LISTENER {
                self.is_called = true;
            } else if let Some(guest) = self.guests.get_mut(event.token().0) {
                guest.wake();
            }
        }
        Ok(())
    }

    // How long nothing can happen but what the system reports; without end where there is none.
    fn timeout(&self, now: Instant) -> Option<Duration> {
        let mut first = None;
        if self.has_call(now) {
            match self.pause {
                None => return Some(Duration::ZERO),
                pause => first = pause,
            }
        }
        for (_, guest) in self.guests.iter() {
            if guest.is_ready() {
                return Some(Duration::ZERO);
            }
            first = sooner(first, guest.deadline());
            if self.may_wait() {
                first = sooner(first, way_given(guest.heard()));
            }
        }
        first.map(|first| first.saturating_duration_since(now))
    }

    // Lets the session of this key go on, where there is one, and says how it ended, where it did.
    fn go_on<O: Write, E: Write>(
        &mut self,
        key: usize,
        now: Instant,
        output: &mut O,
        errors: &mut E,
    ) {
        match self.step(key, now) {
            Ok(false) => {}
            Ok(true) => self.see_off(key, output, errors),
            Err(failure) => self.turn_out(key, failure, errors),
        }
    }

    // Lets the session of this key go on, where there is one, and says whether it is over. The fault is that of the session.
    fn step(&mut self, key: usize, now: Instant) -> Result<bool, Failure> {
        let Some(guest) = self.guests.get_mut(key) else {
            return Ok(false);
        };
        let state = self.endpoint.state;
        guest.step(self.rt, state, &mut self.kept, &mut self.buffer, now)?;
        Ok(guest.is_over())
    }

    // Says how the session of this key ended, which is done, and closes its connection.
    fn see_off<O: Write, E: Write>(&mut self, key: usize, output: &mut O, errors: &mut E) {
        if let Some(guest) = self.guests.try_remove(key) {
            self.say(&guest, output, errors);
        }
    }

    // Gives the peer of this key up, whose session this fault ended. One that only looked whether a hub listens counts for none.
    fn turn_out<E: Write>(&mut self, key: usize, failure: Failure, errors: &mut E) {
        if let Some(guest) = self.guests.try_remove(key) {
            if guest.is_caller() {
                self.left = self.left.saturating_add(1);
            } else {
                self.give_up(guest, failure, errors);
            }
        }
    }

    // Says how a session ended that was done.
    fn say<O: Write, E: Write>(&mut self, guest: &Guest, output: &mut O, errors: &mut E) {
        if let Some(settled) = guest.settled() {
            self.dropped = match self.say_settled(guest.peer, settled, output) {
                Ok(()) => 0,
                Err(_) => self.dropped.saturating_add(1),
            };
            warn_of_number(self.rt.alloc(), errors, settled.foreign());
        }
    }

    // Prints the line of a session that was done. The fault is that of `line_of`, or of `print`.
    fn say_settled<O: Write>(
        &mut self,
        peer: PeerAddress,
        settled: &Settled,
        output: &mut O,
    ) -> Result<(), Failure> {
        let moment = Moment::now(self.rt);
        let line = line_of(self.rt.alloc(), moment, peer, settled, &mut self.kept)?;
        self.print(&line, output)
    }

    // Prints a line, and before it how many were dropped, where any were. The fault is `Write`, also where the output has no
    // room, as a pipe that nobody reads.
    fn print<O: Write>(&self, line: &[u8], output: &mut O) -> Result<(), Failure> {
        if !has_room(self.rt, OUTPUT) {
            return Err(Failure::from(Fault::Write));
        }
        let alloc = self.rt.alloc();
        let mut lines = Vec::new(alloc);
        if self.dropped > 0 {
            let text = format!(in alloc;
                "{} lines dropped {}\n",
                Moment::now(self.rt),
                self.dropped
            );
            append_text(&mut lines, text)?;
        }
        lines.extend_from_slice(line)?;
        Ok(write_out(output, &lines)?)
    }

    // Closes the connection of a session that a fault ended, and says which. What came before is saved, but not after
    // want of memory, or where the saving was what failed.
    fn give_up<E: Write>(&mut self, guest: Guest, failure: Failure, errors: &mut E) {
        let peer = guest.peer;
        let is_to_save = guest.settled().is_none() && is_of_peer(&failure);
        let brought = guest.into_brought();
        let failure = if is_to_save && !brought.is_empty() {
            self.salvaged(&brought, failure, errors)
        } else {
            failure
        };
        say_failure(self.rt, errors, peer, failure);
    }

    // Saves what came before a session ended by this failure, and gives the failure.
    fn salvaged<E: Write>(
        &mut self,
        brought: &Record<Global>,
        failure: Failure,
        errors: &mut E,
    ) -> Failure {
        let authors = self.endpoint.allowance.authors;
        let state = self.endpoint.state;
        match self.kept.settle(self.rt, state, brought, authors) {
            Ok(settled) => {
                warn_of_number(self.rt.alloc(), errors, settled.foreign());
                failure
            }
            Err(why) => unsaved(self.rt.alloc(), failure, &why),
        }
    }
}

// When a guest gives way that was last heard then.
fn way_given(heard: Instant) -> Option<Instant> {
    heard.checked_add(Duration::from_secs(SILENCE))
}

// Says why a session ended early, and what that means.
fn say_failure<R, E>(rt: &R, errors: &mut E, peer: PeerAddress, failure: Failure)
where
    R: AllocGlobal + Clock,
    E: Write,
{
    let fault = failure.fault;
    let _ = writeln!(errors, "census: {} peer {peer} {fault}", Moment::now(rt));
    if let Ok(text) = explanation(rt.alloc(), &failure) {
        let _ = write_out(errors, text.as_bytes());
    }
}

// Warns that the state's own number is used twice, where an operation came by it that the state never held.
fn warn_of_number<E: Write>(alloc: Global, errors: &mut E, foreign: Option<Dot>) {
    if let Some(dot) = foreign {
        if let Ok(text) = foreign_text(alloc, dot) {
            let _ = writeln!(errors, "warning: {text}");
        }
    }
}

// A buffer of this length.
fn zeros(alloc: Global, len: usize) -> Result<Vec<u8>, Failure> {
    Ok(vec![in alloc; 0u8; len]?)
}
