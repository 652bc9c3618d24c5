//! Whether an output can take a line, and whether an input has something, without waiting for who holds its other end.

use mio::unix::SourceFd;
use mio::{Events, Interest, Poll, Token};
use std::io;
use std::net::Net;
use std::os::fd::RawFd;
use std::time::Duration;

/// The standard output of the program.
pub const OUTPUT: RawFd = 1;

/// Whether there is room for a line. A file has it always, and so has what the system can't look at; a pipe, where it takes
/// as many bytes as the system writes at once.
pub fn has_room<R: AllocGlobal + Net>(rt: &R, output: RawFd) -> bool {
    is_ready(rt, output, Interest::WRITABLE, Duration::ZERO).unwrap_or(true)
}

/// Whether something has come, or the input has ended, or does so within that time. A file has always something, and so has what
/// the system can't look at.
pub(crate) fn has_come<R: AllocGlobal + Net>(rt: &R, input: RawFd, wait: Duration) -> bool {
    is_ready(rt, input, Interest::READABLE, wait).unwrap_or(true)
}

// Whether it is ready for that by then, where the system can look.
fn is_ready<R: AllocGlobal + Net>(
    rt: &R,
    stream: RawFd,
    interest: Interest,
    wait: Duration,
) -> io::Result<bool> {
    let mut poll = Poll::new(rt)?;
    poll.registry()
        .register(&mut SourceFd(&stream), Token(0), interest)?;
    let Ok(mut events) = Events::with_capacity(rt.alloc(), 1) else {
        return Ok(true);
    };
    poll.poll(&mut events, Some(wait))?;
    Ok(!events.is_empty())
}
