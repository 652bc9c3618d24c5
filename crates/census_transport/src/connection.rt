//! A connection to a peer that is waited for so long and no longer.

use crate::sockets::Stream;
use crate::ways::{Last, Source, Way, behind};
use std::io::{self, ErrorKind, Read, Write};
use std::time::{Clock, Duration, Instant};

/// How many signals in a row may interrupt a call of the system before it counts as failed.
const SIGNALS: u32 = 1_000;

/// How long a peer is waited for.
#[derive(Clone, Copy)]
pub struct Patience {
    /// How long it may be silent, at least a second.
    pub silence: Duration,
    /// How long its whole session may last; without end where there is none.
    pub session: Option<Duration>,
}

/// One direction of a connection. A read or write that has to wait longer than the peer's patience fails, and so does
/// each one after the end of the session.
#[derive(Drop)]
pub struct Connection<'a, R> {
    clock: &'a R,
    stream: &'a Stream,
    silence: Duration,
    end: Option<Instant>,
    /// The last error of the system.
    error: Option<io::Error>,
    /// The first bytes of what was read last.
    last: Last,
}

impl<'a, R: Clock> Connection<'a, R> {
    /// The connection, whose session begins now. The error is that of the clock.
    pub fn new(
        clock: &'a R,
        stream: &'a Stream,
        patience: Patience,
    ) -> io::Result<Connection<'a, R>> {
        let end = match patience.session {
            Some(session) => Instant::now(clock)?.checked_add(session),
            None => None,
        };
        Ok(Connection {
            clock,
            stream,
            silence: patience.silence,
            end,
            error: None,
            last: Last::none(),
        })
    }

    // How long the next call may wait. The error is `TimedOut` where the session is over.
    fn wait(&self) -> io::Result<Duration> {
        let Some(end) = self.end else {
            return Ok(self.silence);
        };
        let left = end.saturating_duration_since(Instant::now(self.clock)?);
        if left.is_zero() {
            return Err(io::Error::from(ErrorKind::TimedOut));
        }
        Ok(left.min(self.silence))
    }
}

impl<R: Clock> Read for Connection<'_, R> {
    fn read(&mut self, buf: &mut [u8]) -> io::Result<usize> {
        for _ in 0..SIGNALS {
            self.stream.limit_reads(self.wait()?)?;
            match self.stream.read_some(buf) {
                Err(e) if e.kind() == ErrorKind::Interrupted => {}
                Err(e) => {
                    self.error = Some(e);
                    return Err(e);
                }
                Ok(count) => {
                    self.last = Last::of(&buf[..count.min(buf.len())]);
                    return Ok(count);
                }
            }
        }
        Err(io::Error::from(ErrorKind::Interrupted))
    }
}

impl<R> Way for Connection<'_, R> {
    fn error(&self) -> Option<io::Error> {
        self.error
    }
}

impl<R: Clock> Source for Connection<'_, R> {
    fn has_more(&mut self) -> bool {
        self.silence = self.silence.min(behind());
        true
    }

    fn last(&self) -> Last {
        self.last
    }
}

impl<R: Clock> Write for Connection<'_, R> {
    fn write(&mut self, buf: &[u8]) -> io::Result<usize> {
        for _ in 0..SIGNALS {
            self.stream.limit_writes(self.wait()?)?;
            match self.stream.write_some(buf) {
                Err(e) if e.kind() == ErrorKind::Interrupted => {}
                Err(e) => {
                    self.error = Some(e);
                    return Err(e);
                }
                done => return done,
            }
        }
        Err(io::Error::from(ErrorKind::Interrupted))
    }

    // All that is written goes out at once.
    fn flush(&mut self) -> io::Result<()> {
        Ok(())
    }
}
