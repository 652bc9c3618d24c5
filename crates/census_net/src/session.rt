//! One session over two streams: the frames, what is saved after them, and what a server says behind them.

use crate::refused::{refused_text, remedy_text};
use census_endpoint::{Allowance, Loaded, is_of_peer, unsaved};
use census_failure::{Advice, Failure};
use census_fold::{
    CLOSING_LENGTH, REFUSAL_LENGTH, Refusal, author_count, check_authors, closing_digits,
    closing_frame, is_apart, new_forks, read_refusal, record_digest, refusal_frame,
};
use census_state::Fault;
use census_transport::{Bounded, HEAD, Source, Way};
use oct_record::Record;
use oct_store::Fork;
use oct_sync::{Role, SyncError, converse, drive};
use std::alloc::Global;
use std::fs::File;
use std::io::{Read, Write};
use std::rt::Files;
use written::write_out;

/// How the two sides stand after a session that is done.
#[derive(Clone, Copy, PartialEq, Eq)]
pub enum Agreement {
    /// The other side holds the same operations, or does not say what it holds.
    Together,
    /// The other side holds other operations: a number was used twice.
    Apart,
}

/// The two directions of a session, and how much may come.
#[derive(Drop)]
pub(crate) struct Streams<'a, I, O> {
    /// What the other side is called where the session fails.
    pub(crate) name: &'a str,
    pub(crate) input: Bounded<I>,
    pub(crate) output: O,
    pub(crate) allowance: Allowance,
}

/// What a record had before a session.
#[derive(Drop)]
struct Before {
    /// How many authors.
    authors: usize,
    /// The dots that were used twice; none where nobody wants to know.
    forks: Vec<Fork>,
}

impl<I: Source, O: Write + Way> Streams<'_, I, O> {
    /// Answers a client, and saves what is held then; after that the client is told, by the last frame. Where the state can't be
    /// saved, it is not told. Behind the last frame stands the digest of what the client should then hold. The fault is that of
    /// the session, or else `Authors`, where it brought too many, or that of the state, as it is saved; then that of the last
    /// frame. A client that brings too much is told so.
    pub(crate) fn answer<R, E>(
        &mut self,
        rt: &R,
        state: &str,
        loaded: &mut Loaded,
        advice: &mut Advice<'_, E>,
    ) -> Result<(), Failure>
    where
        R: Files<File = File> + AllocGlobal,
        E: Write,
    {
        let alloc = rt.alloc();
        let before = Before::of(loaded.said(), advice)?;
        let said = loaded.said_mut();
        match converse(alloc, Role::Server, said, &mut self.input, &mut self.output) {
            Ok(last) => self.conclude(rt, state, loaded, &before, &last, advice),
            Err(cause) => {
                if self.input.is_exceeded() {
                    self.refuse(alloc, Refusal::Most);
                }
                let failure = self.failure(alloc, cause);
                Err(self.salvaged(rt, state, loaded, before.authors, failure, advice))
            }
        }
    }

    // Saves what is held, and then tells the client, by the last frame, and by what stands behind it.
    fn conclude<R, E>(
        &mut self,
        rt: &R,
        state: &str,
        loaded: &Loaded,
        before: &Before,
        last: &[u8],
        advice: &mut Advice<'_, E>,
    ) -> Result<(), Failure>
    where
        R: Files<File = File> + AllocGlobal,
        E: Write,
    {
        if let Err(failure) = self.keep(rt, state, loaded, before.authors, advice) {
            if let Fault::Authors { .. } = failure.fault {
                self.refuse(rt.alloc(), Refusal::Authors(self.allowance.authors));
            }
            return Err(failure);
        }
        warn_of_forks(&before.forks, loaded.said(), advice);
        self.tell(loaded.said(), last)
    }

    // Sends the last frame, and behind it what the client should hold then, whose digest takes a while: the client goes on
    // meanwhile.
    fn tell(&mut self, said: &Record<Global>, last: &[u8]) -> Result<(), Failure> {
        let alloc = said.allocator();
        if write_out(&mut self.output, last).is_err() {
            return Err(self.failure(alloc, SyncError::Write));
        }
        // The session is done, whether the client reads this or not.
        let _ = write_out(&mut self.output, &closing_of(alloc, said));
        Ok(())
    }

    /// Has the session as this kind of client, over what the state said, which takes what the session brings; saves it, also
    /// where the session ended early; and compares it with what the server says that it should be. The fault is that of the
    /// session, or else `Authors`, where it brought too many, or that of the state, as it is saved.
    pub(crate) fn ask<R, E>(
        &mut self,
        rt: &R,
        state: &str,
        role: Role,
        loaded: &mut Loaded,
        advice: &mut Advice<'_, E>,
    ) -> Result<Agreement, Failure>
    where
        R: Files<File = File> + AllocGlobal,
        E: Write,
    {
        let alloc = rt.alloc();
        let before = author_count(loaded.said())?;
        let said = loaded.said_mut();
        match drive(alloc, role, said, &mut self.input, &mut self.output) {
            Ok(()) => {
                // While the server computes what it says behind its last frame.
                let own = digits_of(alloc, role, loaded.said());
                let closing = read_behind(alloc, &mut self.input, CLOSING_LENGTH);
                self.keep(rt, state, loaded, before, advice)?;
                Ok(agreement_of(own.as_deref(), &closing))
            }
            Err(cause) => {
                let failure = self.explained(alloc, cause);
                Err(self.salvaged(rt, state, loaded, before, failure, advice))
            }
        }
    }

    // Saves what is held after a session that ended by this failure, where that came of the other side, and gives the failure.
    fn salvaged<R, E>(
        &self,
        rt: &R,
        state: &str,
        loaded: &Loaded,
        before: usize,
        failure: Failure,
        advice: &mut Advice<'_, E>,
    ) -> Failure
    where
        R: Files<File = File> + AllocGlobal,
        E: Write,
    {
        if is_of_peer(&failure) {
            if let Err(why) = self.keep(rt, state, loaded, before, advice) {
                return unsaved(rt.alloc(), failure, &why);
            }
        }
        failure
    }

    // Saves what is held, and warns where the state's own number is used twice. There were so many authors before: the first fault
    // is `Authors`, where there are too many now.
    fn keep<R, E>(
        &self,
        rt: &R,
        state: &str,
        loaded: &Loaded,
        before: usize,
        advice: &mut Advice<'_, E>,
    ) -> Result<(), Failure>
    where
        R: Files<File = File> + AllocGlobal,
        E: Write,
    {
        check_authors(loaded.said(), before, self.allowance.authors)?;
        let saved = loaded.save(rt, state)?;
        advice.warn_of_number(rt.alloc(), saved.foreign);
        Ok(())
    }

    // Says to the client why its session ends, if it still listens.
    fn refuse(&mut self, alloc: Global, why: Refusal) {
        if let Ok(frame) = refusal_frame(alloc, why) {
            let _ = write_out(&mut self.output, &frame);
        }
    }

    // The failure of the session of a client, also by what the server says of it.
    fn explained(&mut self, alloc: Global, cause: SyncError) -> Failure {
        let failure = self.failure(alloc, cause);
        match self.refusal(alloc, cause) {
            Some(why) => failure
                .found(refused_text(alloc, why))
                .advise(remedy_text(alloc, why)),
            None => failure,
        }
    }

    // Why the server says that it ended the session, if it does. That may have come in the place of the frame that was due.
    fn refusal(&mut self, alloc: Global, cause: SyncError) -> Option<Refusal> {
        let mut frame = match cause {
            SyncError::Frame => self.input.last().bytes().to_vec(alloc).ok()?,
            SyncError::Write => read_behind(alloc, &mut self.input, HEAD),
            _ => return None,
        };
        let rest = read_behind(alloc, &mut self.input, left_of(&frame));
        frame.extend_from_slice(&rest).ok()?;
        read_refusal(&frame)
    }

    // The failure of the session, and what the system said.
    fn failure(&self, alloc: Global, cause: SyncError) -> Failure {
        let error = match cause {
            SyncError::OutOfMemory => return Failure::from(Fault::OutOfMemory),
            SyncError::Read if self.input.is_exceeded() => return self.allowance.exceeded(alloc),
            SyncError::Read => self.input.error(),
            SyncError::Write => self.output.error(),
            _ => None,
        };
        let failure = Failure::of(alloc, Fault::from(cause), self.name);
        match error {
            Some(error) => failure.because(error),
            None => failure,
        }
    }
}

impl Before {
    // What a record has before its session.
    fn of<E: Write>(said: &Record<Global>, advice: &Advice<'_, E>) -> Result<Before, Failure> {
        Ok(Before {
            authors: author_count(said)?,
            forks: forks_of(said, advice),
        })
    }
}

// The dots that are used twice, where they are wanted.
fn forks_of<E: Write>(said: &Record<Global>, advice: &Advice<'_, E>) -> Vec<Fork> {
    let alloc = said.allocator();
    if advice.is_wanted() {
        said.store().forks().unwrap_or(Vec::new(alloc))
    } else {
        Vec::new(alloc)
    }
}

// Warns of the dots that are used twice since, where that is wanted.
fn warn_of_forks<E: Write>(old: &[Fork], said: &Record<Global>, advice: &mut Advice<'_, E>) {
    let alloc = said.allocator();
    if advice.is_wanted() {
        if let Ok(now) = said.store().forks() {
            if let Ok(forks) = new_forks(alloc, old, &now) {
                advice.warn_of_forks(alloc, said.author(), &forks);
            }
        }
    }
}

// The digits of the digest of what is held; none where what came was not taken in, and where there is no memory for them.
fn digits_of(alloc: Global, role: Role, said: &Record<Global>) -> Option<Vec<u8>> {
    match role {
        Role::Giver => None,
        _ => record_digest(alloc, said).ok(),
    }
}

// What the server says of what is held, by its digest; nothing where either is not known.
fn agreement_of(own: Option<&[u8]>, closing: &[u8]) -> Agreement {
    match (own, closing_digits(closing)) {
        (Some(own), Some(digits)) if is_apart(own, digits) => Agreement::Apart,
        _ => Agreement::Together,
    }
}

// The closing frame of what is held; empty where there is no memory for it.
fn closing_of(alloc: Global, said: &Record<Global>) -> Vec<u8> {
    match record_digest(alloc, said) {
        Ok(digits) => closing_frame(alloc, &digits).unwrap_or(Vec::new(alloc)),
        Err(_) => Vec::new(alloc),
    }
}

// How many bytes stand behind the head of a frame, if it is as short as a refusal.
fn left_of(head: &[u8]) -> usize {
    match head {
        [0, 0, 0, length, _] => usize::from(*length)
            .saturating_sub(1)
            .min(REFUSAL_LENGTH - HEAD),
        _ => 0,
    }
}

// What stands behind the last frame, up to so many bytes.
fn read_behind<S: Source>(alloc: Global, input: &mut S, most: usize) -> Vec<u8> {
    let mut all = Vec::new(alloc);
    for _ in 0..most {
        let mut buffer = [0; CLOSING_LENGTH];
        let room = most.saturating_sub(all.len()).min(CLOSING_LENGTH);
        if room == 0 || !input.has_more() {
            break;
        }
        match input.read(&mut buffer[..room]) {
            Ok(count) if count > 0 && all.extend_from_slice(&buffer[..count.min(room)]).is_ok() =>
                {}
            _ => break,
        }
    }
    all
}
