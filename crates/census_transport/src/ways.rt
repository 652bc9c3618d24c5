//! The two directions of a session, and what the system said where one failed.

use crate::room::has_come;
use std::io::{self, Read, Write};
use std::net::Net;
use std::os::fd::RawFd;
use std::time::Duration;

/// For how many seconds it is waited for what a server may say behind its last frame, which it computes then: as long as this side
/// takes for the same, and this.
const BEHIND: u64 = 5;

/// How many bytes a frame has before its payload.
pub const HEAD: usize = 5;

/// The standard input of the program.
const INPUT: RawFd = 0;

/// How long it is waited for what a server may say behind its last frame.
pub(crate) fn behind() -> Duration {
    Duration::from_secs(BEHIND)
}

/// One direction of a session.
pub trait Way {
    /// The last error of the system, where there was one.
    fn error(&self) -> Option<io::Error>;
}

/// A direction from which a session is read.
pub trait Source: Read + Way {
    /// Whether something has come, or the other side has ended, or does so within `behind()`. No later read waits longer.
    fn has_more(&mut self) -> bool;

    /// The first bytes of what was read last.
    fn last(&self) -> Last;
}

/// The first bytes of what was read last, as many as a frame has before its payload.
#[derive(Clone, Copy)]
pub struct Last {
    bytes: [u8; HEAD],
    length: usize,
}

impl Last {
    /// Nothing was read.
    pub(crate) fn none() -> Last {
        Last {
            bytes: [0; HEAD],
            length: 0,
        }
    }

    /// These bytes were read.
    pub(crate) fn of(piece: &[u8]) -> Last {
        let mut last = Last::none();
        for (byte, read) in last.bytes.iter_mut().zip(piece) {
            *byte = *read;
        }
        last.length = piece.len().min(HEAD);
        last
    }

    /// What they are.
    pub fn bytes(&self) -> &[u8] {
        &self.bytes[..self.length.min(HEAD)]
    }
}

/// Standard input, which is lent.
#[derive(Drop)]
pub struct LentInput<'a, R, I> {
    rt: &'a R,
    stream: &'a mut I,
    error: Option<io::Error>,
    last: Last,
}

impl<'a, R, I> LentInput<'a, R, I> {
    /// The input, of which nothing has failed.
    pub fn new(rt: &'a R, stream: &'a mut I) -> LentInput<'a, R, I> {
        LentInput {
            rt,
            stream,
            error: None,
            last: Last::none(),
        }
    }
}

impl<R, I: Read> Read for LentInput<'_, R, I> {
    fn read(&mut self, buf: &mut [u8]) -> io::Result<usize> {
        let done = self.stream.read(buf);
        match &done {
            Ok(count) => self.last = Last::of(&buf[..(*count).min(buf.len())]),
            Err(error) => self.error = Some(*error),
        }
        done
    }
}

impl<R, I> Way for LentInput<'_, R, I> {
    fn error(&self) -> Option<io::Error> {
        self.error
    }
}

impl<R: AllocGlobal + Net, I: Read> Source for LentInput<'_, R, I> {
    fn has_more(&mut self) -> bool {
        has_come(self.rt, INPUT, behind())
    }

    fn last(&self) -> Last {
        self.last
    }
}

/// Standard output, which is lent.
#[derive(Drop)]
pub struct LentOutput<'a, O> {
    stream: &'a mut O,
    error: Option<io::Error>,
}

impl<'a, O> LentOutput<'a, O> {
    /// The output, of which nothing has failed.
    pub fn new(stream: &'a mut O) -> LentOutput<'a, O> {
        LentOutput {
            stream,
            error: None,
        }
    }
}

impl<O: Write> Write for LentOutput<'_, O> {
    fn write(&mut self, buf: &[u8]) -> io::Result<usize> {
        let done = self.stream.write(buf);
        if let Err(error) = &done {
            self.error = Some(*error);
        }
        done
    }

    fn flush(&mut self) -> io::Result<()> {
        self.stream.flush()
    }
}

impl<O> Way for LentOutput<'_, O> {
    fn error(&self) -> Option<io::Error> {
        self.error
    }
}
