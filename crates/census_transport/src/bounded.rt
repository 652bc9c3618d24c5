//! A direction of which no more is taken than one peer may send.

use crate::ways::{Last, Source, Way};
use std::io::{self, ErrorKind, Read};

/// A direction from which at most so many bytes are taken. The read with which more come fails, and so does each one after it.
#[derive(Drop)]
pub struct Bounded<S> {
    source: S,
    /// How many bytes may still come; none where more came.
    left: Option<u64>,
}

impl<S> Bounded<S> {
    /// The direction, from which nothing came yet.
    pub fn new(source: S, most: u64) -> Bounded<S> {
        Bounded {
            source,
            left: Some(most),
        }
    }

    /// Whether more came.
    pub fn is_exceeded(&self) -> bool {
        self.left.is_none()
    }
}

impl<S: Read> Read for Bounded<S> {
    fn read(&mut self, buf: &mut [u8]) -> io::Result<usize> {
        let Some(left) = self.left else {
            return Err(io::Error::from(ErrorKind::FileTooLarge));
        };
        let count = self.source.read(buf)?;
        self.left = left.checked_sub(count as u64);
        if self.is_exceeded() {
            return Err(io::Error::from(ErrorKind::FileTooLarge));
        }
        Ok(count)
    }
}

impl<S: Way> Way for Bounded<S> {
    fn error(&self) -> Option<io::Error> {
        self.source.error()
    }
}

impl<S: Source> Source for Bounded<S> {
    fn has_more(&mut self) -> bool {
        self.source.has_more()
    }

    fn last(&self) -> Last {
        self.source.last()
    }
}
