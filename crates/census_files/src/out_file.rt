//! The file of a delta that a command writes.

use crate::files::{check_length, is_same_file, no_file, read_file, standing};
use crate::state_file::StateFile;
use crate::streams::is_standard;
use census_failure::{Advice, Failure, shown};
use census_state::Fault;
use oct_delta::read_ops;
use std::alloc::{AllocError, Global};
use std::fs::{self, File};
use std::io::{self, Write};
use std::os::unix::fs::FileTypeExt;
use std::rt::Files;
use std::time::Clock;

/// Where a delta is written.
#[derive(Clone, Copy)]
pub struct Out<'a> {
    /// Its path on the command line.
    pub path: &'a str,
    /// Whether it takes the place of whatever stands there.
    pub is_forced: bool,
}

/// What an output may take the place of, beside a file without bytes.
#[derive(Clone, Copy)]
pub enum Replaced<'a> {
    /// Any delta.
    Delta,
    /// One of these files.
    OneOf(&'a [&'a str]),
}

impl Out<'_> {
    /// Whether a pipe or a device stands there, as `/dev/stdout`, into which bytes are written.
    pub fn is_stream<R: Files>(&self, rt: &R) -> bool {
        match fs::metadata(rt, self.path) {
            Ok(there) => there.file_type().is_fifo() || there.file_type().is_char_device(),
            Err(_) => false,
        }
    }

    /// Writes a delta, whole, as a state is written, or into the stream that stands there. The fault is `TooLong`; then
    /// `Occupied`, where something stands there that is no delta; then those of `StateFile::replace`.
    pub fn write_delta<R, E>(
        &self,
        rt: &R,
        bytes: &[u8],
        advice: &mut Advice<'_, E>,
    ) -> Result<(), Failure>
    where
        R: Files<File = File> + AllocGlobal + Clock,
        E: Write,
    {
        if self.is_stream(rt) {
            return self.write_stream(rt, bytes);
        }
        let file = StateFile::wait_telling(rt, self.path, advice)?;
        let done = self.write_held(rt, &file, Replaced::Delta, bytes, advice);
        file.release(rt);
        done
    }

    /// Writes the bytes in place of what may be replaced, while no other command changes the file. Its faults are those
    /// of `write_delta`.
    pub fn write_held<R, E>(
        &self,
        rt: &R,
        file: &StateFile,
        replaced: Replaced<'_>,
        bytes: &[u8],
        advice: &mut Advice<'_, E>,
    ) -> Result<(), Failure>
    where
        R: Files<File = File> + AllocGlobal,
        E: Write,
    {
        check_length(rt.alloc(), bytes, self.path)?;
        if !self.is_forced {
            check_free(rt, file.path(), replaced)?;
        }
        file.replace_telling(rt, bytes, advice)
    }

    /// Writes the bytes into the pipe or device that stands there. The fault is `TooLong` before anything is written,
    /// and `File`.
    pub fn write_stream<R>(&self, rt: &R, bytes: &[u8]) -> Result<(), Failure>
    where
        R: Files + AllocGlobal,
    {
        check_length(rt.alloc(), bytes, self.path)?;
        match self.stream_out(rt, bytes) {
            Ok(()) => Ok(()),
            Err(error) => Err(Failure::of(rt.alloc(), Fault::File, self.path).because(error)),
        }
    }

    // Writes the bytes into what stands there.
    fn stream_out<R: Files>(&self, rt: &R, bytes: &[u8]) -> io::Result<()> {
        fs::create(rt, self.path)?.write_all(bytes)
    }
}

// Refuses a path where something would be lost. The fault is `Occupied`, and `File` where that can't be seen.
fn check_free<R: Files + AllocGlobal>(
    rt: &R,
    path: &str,
    replaced: Replaced<'_>,
) -> Result<(), Failure> {
    let alloc = rt.alloc();
    check_apart(rt, path)?;
    match standing(rt, path) {
        Ok(None) => Ok(()),
        Ok(Some(there)) if !there.is_file() => Err(no_file(alloc, path, &there)),
        Ok(Some(there)) if there.len() == 0 => Ok(()),
        Ok(Some(_)) if may_replace(rt, path, replaced)? => Ok(()),
        Ok(Some(_)) => Err(occupied(alloc, path, replaced)),
        Err(error) => Err(Failure::of(alloc, Fault::File, path).because(error)),
    }
}

/// Refuses the name of a lock or of a new text of another file. The fault is `Occupied`, and `File` where it can't be seen
/// whether there is one.
pub fn check_apart<R: Files + AllocGlobal>(rt: &R, path: &str) -> Result<(), Failure> {
    if is_beside_a_file(rt, path)? {
        let alloc = rt.alloc();
        let failure = Failure::of(alloc, Fault::Occupied, path).found(beside_text(alloc, path));
        return Err(failure.advise(String::from_str(alloc, "give the file another name")));
    }
    Ok(())
}

// The failure of a place where something else stands.
fn occupied(alloc: Global, path: &str, replaced: Replaced<'_>) -> Failure {
    let what = match replaced {
        Replaced::Delta => "holds something that is no delta",
        Replaced::OneOf(_) => "is none of the files that are read",
    };
    Failure::of(alloc, Fault::Occupied, path).found(occupied_text(alloc, path, what))
}

fn occupied_text(alloc: Global, path: &str, what: &str) -> Result<String, AllocError> {
    let path = shown(alloc, path)?;
    format!(in alloc; "{path} {what}, and stays as it is")
}

fn beside_text(alloc: Global, path: &str) -> Result<String, AllocError> {
    let path = shown(alloc, path)?;
    format!(in alloc; "{path} would be the lock or the new text of another file")
}

// Whether the name is that of a lock or of a new text of a file that stands beside it.
fn is_beside_a_file<R: Files + AllocGlobal>(rt: &R, path: &str) -> Result<bool, Failure> {
    let Some(other) = path.strip_suffix(".lock").or(path.strip_suffix(".new")) else {
        return Ok(false);
    };
    match standing(rt, other) {
        Ok(Some(there)) => Ok(!there.is_dir()),
        Ok(None) => Ok(false),
        Err(error) => Err(Failure::of(rt.alloc(), Fault::File, other).because(error)),
    }
}

// Whether the file that stands at the path is one that may be replaced.
fn may_replace<R: Files + AllocGlobal>(
    rt: &R,
    path: &str,
    replaced: Replaced<'_>,
) -> Result<bool, Failure> {
    match replaced {
        Replaced::Delta => is_delta(rt, path),
        Replaced::OneOf(files) => {
            for file in files {
                if !is_standard(file) && is_same_file(rt, path, file)? {
                    return Ok(true);
                }
            }
            Ok(false)
        }
    }
}

// Whether the file is a delta.
fn is_delta<R: Files + AllocGlobal>(rt: &R, path: &str) -> Result<bool, Failure> {
    match read_file(rt, path) {
        Ok(bytes) => Ok(read_ops(&bytes).is_ok()),
        Err(failure) if failure.fault == Fault::TooLong => Ok(false),
        Err(failure) => Err(failure),
    }
}
