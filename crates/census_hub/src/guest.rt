//! One session of a hub, which goes on when its connection is ready.

use crate::kept::{Kept, Settled};
use census_endpoint::Allowance;
use census_failure::Failure;
use census_fold::{Refusal, closing_frame, refusal_frame};
use census_state::Fault;
use census_transport::{HEAD, Patience, PeerAddress, Visitor};
use mio::{Registry, Token};
use oct_answer::Missing;
use oct_delta::decode_clock;
use oct_join::Clock;
use oct_record::Record;
use oct_sync::{Progress, Session, SyncError};
use std::alloc::Global;
use std::fs::File;
use std::io::{self, ErrorKind};
use std::mem;
use std::rt::Files;
use std::time::Instant;

/// How much a hub takes of one peer.
#[derive(Clone, Copy)]
pub(crate) struct Bounds {
    /// How long its session may last, and be silent.
    pub(crate) patience: Patience,
    /// How much it may bring.
    pub(crate) allowance: Allowance,
}

/// A peer of a hub, and how far its session is.
#[derive(Drop)]
pub(crate) struct Guest {
    /// Who it is.
    pub(crate) peer: PeerAddress,
    stream: Visitor,
    bounds: Bounds,
    session: Session<Global>,
    /// What came. It is not in the state before it is saved.
    brought: Record<Global>,
    /// The revision of the state as the session answered the peer's clock; none before that.
    answered: Option<u64>,
    /// What came of the frame of the peer's clock; nothing once it was answered.
    greeting: Vec<u8>,
    /// What is still to be sent of the answer to it, behind what is owed.
    missing: Option<Missing<Global>>,
    /// What is to be sent next, and how much of it was.
    owed: Vec<u8>,
    sent: usize,
    /// How much of it ends the session; what stands behind that the peer need not read. None where there is nothing behind it.
    done: Option<usize>,
    /// How many bytes came.
    came: u64,
    /// What stands in the state after the session; none before all came, and what came was saved.
    settled: Option<Settled>,
    /// Whether the next read or write may go without waiting.
    is_ready: bool,
    /// When it last took or sent something.
    heard: Instant,
    /// When its session ends at the latest.
    end: Option<Instant>,
}

impl Guest {
    /// A peer that connected now, and the empty record for what it brings.
    pub(crate) fn new(
        alloc: Global,
        stream: Visitor,
        peer: PeerAddress,
        bounds: Bounds,
        brought: Record<Global>,
        now: Instant,
    ) -> Guest {
        let end = match bounds.patience.session {
            Some(session) => now.checked_add(session),
            None => None,
        };
        Guest {
            peer,
            stream,
            bounds,
            session: Session::server(alloc),
            brought,
            answered: None,
            greeting: Vec::new(alloc),
            missing: None,
            owed: Vec::new(alloc),
            sent: 0,
            done: None,
            came: 0,
            settled: None,
            is_ready: true,
            heard: now,
            end,
        }
    }

    /// Has the registry report under the token when the connection is ready.
    pub(crate) fn register(&mut self, registry: &Registry, token: Token) -> io::Result<()> {
        self.stream.register(registry, token)
    }

    /// The connection was reported.
    pub(crate) fn wake(&mut self) {
        self.is_ready = true;
    }

    /// Whether the session can go on without waiting.
    pub(crate) fn is_ready(&self) -> bool {
        self.is_ready
    }

    /// When the peer is given up, if nothing comes before; never where there is none.
    pub(crate) fn deadline(&self) -> Option<Instant> {
        sooner(
            self.heard.checked_add(self.bounds.patience.silence),
            self.end,
        )
    }

    /// The failure of a peer that was silent too long.
    pub(crate) fn silent(&self) -> Failure {
        self.given_up(false)
    }

    /// Whether it came over a socket of this machine, and said nothing: as one who sees whether a hub listens there.
    pub(crate) fn is_caller(&self) -> bool {
        matches!(self.peer, PeerAddress::Local) && self.came == 0
    }

    /// When it last took or sent something.
    pub(crate) fn heard(&self) -> Instant {
        self.heard
    }

    /// Closes the connection, and gives what came.
    pub(crate) fn into_brought(self) -> Record<Global> {
        self.brought
    }

    /// Whether the session is done, and all of it was sent.
    pub(crate) fn is_over(&self) -> bool {
        self.settled.is_some() && self.owed.is_empty()
    }

    /// What stands in the state after the session, where it is done.
    pub(crate) fn settled(&self) -> Option<&Settled> {
        self.settled.as_ref()
    }

    /// Sends some of what is owed, or takes some of what came where nothing is, and waits for neither. After a fault
    /// the session is over, and nothing more is sent. The fault is `Sync`; `TooLong` where the peer sends more than it
    /// may; that of the state, as it is read again or saved; and `OutOfMemory`.
    pub(crate) fn step<R>(
        &mut self,
        rt: &R,
        state: &str,
        kept: &mut Kept,
        buffer: &mut [u8],
        now: Instant,
    ) -> Result<(), Failure>
    where
        R: Files<File = File> + AllocGlobal,
    {
        if self.is_ready {
            self.owe_next()?;
            if self.owed.is_empty() {
                self.receive(rt, state, kept, buffer, now)?;
            } else {
                self.send(rt.alloc(), now)?;
            }
        }
        self.check_deadline(now)
    }

    // Sends some of what is owed.
    fn send(&mut self, alloc: Global, now: Instant) -> Result<(), Failure> {
        let rest = self.owed.get(self.sent..).unwrap_or(&[]);
        match self.stream.write_some(rest) {
            Ok(count) if count > 0 => {
                self.hear(now);
                self.sent = self.sent.saturating_add(count);
                if self.sent >= self.owed.len() {
                    self.owe_nothing(alloc);
                }
                Ok(())
            }
            _ if self.is_told() => {
                self.owe_nothing(alloc);
                Ok(())
            }
            Ok(_) => Err(Failure::from(Fault::Sync(SyncError::Write))),
            Err(e) => self.wait_after(&e, SyncError::Write),
        }
    }

    // Whether the last frame was sent, so that the session is done without what stands behind it.
    fn is_told(&self) -> bool {
        self.done.is_some_and(|done| self.sent >= done)
    }

    // Owes the next frame of the answer to the peer's clock, where all is sent that was owed.
    fn owe_next(&mut self) -> Result<(), Failure> {
        let Some(missing) = &mut self.missing else {
            return Ok(());
        };
        if self.owed.is_empty() {
            missing.put_next(&mut self.owed)?;
            if missing.is_over() {
                self.missing = None;
            }
        }
        Ok(())
    }

    // All is sent that is owed.
    fn owe_nothing(&mut self, alloc: Global) {
        self.owed = Vec::new(alloc);
        self.sent = 0;
    }

    // Takes some of what came, at most what the session wants.
    fn receive<R>(
        &mut self,
        rt: &R,
        state: &str,
        kept: &mut Kept,
        buffer: &mut [u8],
        now: Instant,
    ) -> Result<(), Failure>
    where
        R: Files<File = File> + AllocGlobal,
    {
        let most = self.session.wanted().min(buffer.len());
        match self.stream.read_some(&mut buffer[..most]) {
            Ok(0) => Err(Failure::from(Fault::Sync(SyncError::Cut))),
            Ok(count) => {
                self.hear(now);
                self.take(rt, state, kept, &buffer[..count], now)
            }
            Err(e) => self.wait_after(&e, SyncError::Read),
        }
    }

    // Feeds the session what came, of one frame at most: the peer's clock over the state as its file says now, and what
    // follows over what this session brought. Where the session is done, its last frame is owed once all that came is saved.
    // A peer that brings too much is told so.
    fn take<R>(
        &mut self,
        rt: &R,
        state: &str,
        kept: &mut Kept,
        piece: &[u8],
        now: Instant,
    ) -> Result<(), Failure>
    where
        R: Files<File = File> + AllocGlobal,
    {
        self.came = self.came.saturating_add(piece.len() as u64);
        if self.came > self.bounds.allowance.most {
            self.refuse(rt.alloc(), Refusal::Most);
            return Err(self.bounds.allowance.exceeded(rt.alloc()));
        }
        if self.answered.is_none() {
            return self.greet(rt, state, kept, piece);
        }
        if let Progress::Done = self.session.feed(&mut self.brought, piece, &mut self.owed)? {
            return self.settle(rt, state, kept, now);
        }
        Ok(())
    }

    // Has what came saved, and sends the last frame: the peer then goes on while the digest is computed that stands behind it.
    fn settle<R>(
        &mut self,
        rt: &R,
        state: &str,
        kept: &mut Kept,
        now: Instant,
    ) -> Result<(), Failure>
    where
        R: Files<File = File> + AllocGlobal,
    {
        let most = self.bounds.allowance.authors;
        match kept.settle(rt, state, &self.brought, most) {
            Ok(settled) => {
                let before = settled.before;
                self.settled = Some(settled);
                self.send(rt.alloc(), now)?;
                self.close(rt.alloc(), kept, before);
                if self.owed.is_empty() {
                    return Ok(());
                }
                self.send(rt.alloc(), now)
            }
            Err(failure) => {
                if let Fault::Authors { .. } = failure.fault {
                    self.refuse(rt.alloc(), Refusal::Authors(most));
                }
                Err(failure)
            }
        }
    }

    // Feeds the session bytes of the peer's clock, over what it brought, which is nothing as yet. So its own answer is that of one
    // who holds nothing, and is not sent: what the state has is sent in its place, a frame at a time, and before any delta is taken.
    fn greet<R>(
        &mut self,
        rt: &R,
        state: &str,
        kept: &mut Kept,
        piece: &[u8],
    ) -> Result<(), Failure>
    where
        R: Files<File = File> + AllocGlobal,
    {
        kept.renew(rt, state)?;
        self.greeting.extend_from_slice(piece)?;
        let mut unsent = Vec::new(rt.alloc());
        self.session.feed(&mut self.brought, piece, &mut unsent)?;
        if unsent.is_empty() {
            return Ok(());
        }
        self.answer(rt.alloc(), kept)
    }

    // Owes the peer the clock of the state, and behind it the frames of all that the peer's clock does not cover.
    fn answer(&mut self, alloc: Global, kept: &mut Kept) -> Result<(), Failure> {
        let clock = self.peer_clock(alloc)?;
        let snapshot = kept.snapshot(alloc)?;
        snapshot.put_clock(&mut self.owed)?;
        self.missing = Some(Missing::new(alloc, snapshot, clock));
        self.answered = Some(kept.revision());
        Ok(())
    }

    // The peer's clock, of whose frame the session has taken all.
    fn peer_clock(&mut self, alloc: Global) -> Result<Clock<Global>, Failure> {
        let frame = mem::replace(&mut self.greeting, Vec::new(alloc));
        match decode_clock(alloc, frame.get(HEAD..).unwrap_or(&[])) {
            Ok(clock) => Ok(clock),
            Err(_) => Err(Failure::from(Fault::OutOfMemory)),
        }
    }

    // Owes the peer the digest of what it should hold now, behind the last frame. It can't be said where the state changed
    // between the answer to the peer's clock and what this session brought to it.
    fn close(&mut self, alloc: Global, kept: &mut Kept, before: u64) {
        if self.answered != Some(before) {
            return;
        }
        if let Ok(digest) = kept.digest(alloc) {
            if let Ok(frame) = closing_frame(alloc, digest) {
                self.done = Some(self.owed.len());
                let _ = self.owed.extend_from_slice(&frame);
            }
        }
    }

    // Says to the peer, if it takes that at once, why its session ends.
    fn refuse(&mut self, alloc: Global, why: Refusal) {
        if let Ok(frame) = refusal_frame(alloc, why) {
            let _ = self.stream.write_some(&frame);
        }
    }

    // After a call that was not done: it is made again at once where a signal interrupted it, and where the connection
    // was not ready, once that is reported. Any other error ends the session by the fault.
    fn wait_after(&mut self, error: &io::Error, fault: SyncError) -> Result<(), Failure> {
        match error.kind() {
            ErrorKind::Interrupted => Ok(()),
            ErrorKind::WouldBlock => {
                self.is_ready = false;
                Ok(())
            }
            _ => Err(Failure::from(Fault::Sync(fault)).because(*error)),
        }
    }

    // The peer took or sent something.
    fn hear(&mut self, now: Instant) {
        self.heard = now;
    }

    // Refuses a peer that is waited for no longer, as a failed read, or a failed write where something is owed.
    fn check_deadline(&self, now: Instant) -> Result<(), Failure> {
        match self.deadline() {
            Some(deadline) if deadline <= now => Err(self.given_up(self.is_overdue(now))),
            _ => Ok(()),
        }
    }

    // The failure of a peer that is waited for no longer, since its session is overdue or it was silent too long.
    fn given_up(&self, is_overdue: bool) -> Failure {
        let failure = Failure::from(Fault::Sync(self.awaited()));
        if is_overdue {
            return failure.because(io::Error::from(ErrorKind::TimedOut));
        }
        failure.because(io::Error::from(ErrorKind::WouldBlock))
    }

    // The fault of a peer that is silent: of a read, or of a write where something is owed.
    fn awaited(&self) -> SyncError {
        if self.owed.is_empty() && self.missing.is_none() {
            SyncError::Read
        } else {
            SyncError::Write
        }
    }

    // Whether the session has lasted as long as it may.
    fn is_overdue(&self, now: Instant) -> bool {
        match self.end {
            Some(end) => end <= now,
            None => false,
        }
    }
}

/// The sooner of two times, of which there may be none.
pub(crate) fn sooner(one: Option<Instant>, other: Option<Instant>) -> Option<Instant> {
    match (one, other) {
        (Some(one), Some(other)) => Some(one.min(other)),
        (Some(one), None) => Some(one),
        (None, other) => other,
    }
}
