//! The streams that the program was started with.

use census_failure::{Failure, INPUT_NAME};
use census_state::{INPUT_LIMIT, read_whole};
use std::alloc::Global;
use std::io::{self, Read, Write};

/// Whether the word for a file stands for standard input, or for standard output.
pub fn is_standard(path: &str) -> bool {
    path == "-"
}

/// All the bytes of standard input. The fault is `Read`, `TooLong` where it has more than `INPUT_LIMIT` bytes, and
/// `OutOfMemory`.
pub fn read_standard<I: Read>(alloc: Global, input: &mut I) -> Result<Vec<u8>, Failure> {
    match read_whole(alloc, input, INPUT_LIMIT) {
        Ok(bytes) => Ok(bytes),
        Err(fault) => Err(Failure::of(alloc, fault, INPUT_NAME)),
    }
}

/// A stream, and the last error that the system gave of it.
#[derive(Drop)]
pub struct Noted<'a, S> {
    stream: &'a mut S,
    error: Option<io::Error>,
}

impl<'a, S> Noted<'a, S> {
    /// The stream, of which no error is known yet.
    pub fn new(stream: &'a mut S) -> Noted<'a, S> {
        Noted {
            stream,
            error: None,
        }
    }

    /// The last error, where there was one.
    pub fn error(&self) -> Option<io::Error> {
        self.error
    }
}

impl<S: Read> Read for Noted<'_, S> {
    fn read(&mut self, buf: &mut [u8]) -> io::Result<usize> {
        match self.stream.read(buf) {
            Err(error) => {
                self.error = Some(error);
                Err(error)
            }
            done => done,
        }
    }
}

impl<S: Write> Write for Noted<'_, S> {
    fn write(&mut self, buf: &[u8]) -> io::Result<usize> {
        match self.stream.write(buf) {
            Err(error) => {
                self.error = Some(error);
                Err(error)
            }
            done => done,
        }
    }

    fn flush(&mut self) -> io::Result<()> {
        self.stream.flush()
    }
}
