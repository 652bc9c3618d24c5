//! The files of a command.

use census_failure::{Failure, quoted, shown};
use census_state::{Fault, INPUT_LIMIT, read_whole};
use std::alloc::{AllocError, Global};
use std::fs::{self, Metadata};
use std::io::{self, ErrorKind, Read};
use std::os::unix::fs::MetadataExt;
use std::path::Path;
use std::rt::Files;

// How many links in a row are followed.
const LINKS: u32 = 40;

/// All the bytes of a file. The fault is `File` where it can't be read, `TooLong` where it has more than `INPUT_LIMIT`
/// bytes, and `OutOfMemory`.
pub fn read_file<R: Files + AllocGlobal>(rt: &R, path: &str) -> Result<Vec<u8>, Failure> {
    let mut file = open_file(rt, path)?;
    read_open(rt.alloc(), &mut file, path)
}

/// All the bytes of a state, with the faults of `read_file`.
pub fn read_state<R: Files + AllocGlobal>(rt: &R, path: &str) -> Result<Vec<u8>, Failure> {
    match read_file(rt, path) {
        Err(failure) => Err(stateless(rt.alloc(), failure, path)),
        done => done,
    }
}

/// The failure of a state that was to be read, with how one is made where there is none.
pub fn stateless(alloc: Global, failure: Failure, path: &str) -> Failure {
    if failure.is_missing() {
        return failure.advise(made_text(alloc, path));
    }
    failure
}

fn made_text(alloc: Global, path: &str) -> Result<String, AllocError> {
    let path = quoted(alloc, path)?;
    format!(in alloc; "make one: census init --draw {path}")
}

/// All the bytes of a delta, with the faults of `read_file`.
pub fn read_delta<R: Files + AllocGlobal>(rt: &R, path: &str) -> Result<Vec<u8>, Failure> {
    match read_file(rt, path) {
        Ok(bytes) => Ok(bytes),
        Err(failure) => Err(deltaless(rt.alloc(), failure, path)),
    }
}

// The failure of a delta that was to be read, with how one is written where there is none.
fn deltaless(alloc: Global, failure: Failure, path: &str) -> Failure {
    if failure.is_missing() {
        return failure.advise(written_text(alloc, path));
    }
    failure
}

fn written_text(alloc: Global, path: &str) -> Result<String, AllocError> {
    let path = quoted(alloc, path)?;
    format!(in alloc; "write one from a state: census delta STATE {path}")
}

/// Opens a file to be read. Nothing is waited for: the fault is `File` also where a folder, a pipe, a socket or a
/// device stands there, unless it is a stream that the program was started with, as `/dev/stdin`.
pub fn open_file<R: Files + AllocGlobal>(rt: &R, path: &str) -> Result<R::File, Failure> {
    match fs::metadata(rt, path) {
        Ok(there) if there.is_file() || is_own_stream(path) => {}
        Ok(there) => return Err(no_file(rt.alloc(), path, &there)),
        Err(error) => return Err(unread(rt.alloc(), path, error)),
    }
    match fs::open(rt, path) {
        Ok(file) => Ok(file),
        Err(error) => Err(unread(rt.alloc(), path, error)),
    }
}

// The failure of a file that can't be read, or can't be seen.
fn unread(alloc: Global, path: &str, error: io::Error) -> Failure {
    Failure::of(alloc, Fault::File, path).because(error)
}

/// The failure of what stands in the place of a file and is none.
pub(crate) fn no_file(alloc: Global, path: &str, there: &Metadata) -> Failure {
    let failure = Failure::of(alloc, Fault::File, path);
    if there.is_dir() {
        return failure.because(io::Error::from(ErrorKind::IsADirectory));
    }
    failure.found(no_file_text(alloc, path))
}

/// What is said of a path where no plain file stands.
pub(crate) fn no_file_text(alloc: Global, path: &str) -> Result<String, AllocError> {
    let path = shown(alloc, path)?;
    format!(in alloc; "{path}: it is a folder, a pipe, a link or a device, and no plain file")
}

// Whether the path names a stream that the program was started with.
fn is_own_stream(path: &str) -> bool {
    path == "/dev/stdin" || path.starts_with("/dev/fd/") || path.starts_with("/proc/self/fd/")
}

/// All the bytes of an open file.
pub fn read_open<F: Read>(alloc: Global, file: &mut F, path: &str) -> Result<Vec<u8>, Failure> {
    match read_whole(alloc, file, INPUT_LIMIT) {
        Ok(bytes) => Ok(bytes),
        Err(Fault::Read) => Err(Failure::of(alloc, Fault::File, path)),
        Err(fault) => Err(Failure::of(alloc, fault, path)),
    }
}

/// Whether anything stands at the path, be it a folder or a link that leads nowhere.
pub fn exists<R: Files + AllocGlobal>(rt: &R, path: &str) -> Result<bool, Failure> {
    match standing(rt, path) {
        Ok(there) => Ok(there.is_some()),
        Err(error) => Err(unread(rt.alloc(), path, error)),
    }
}

/// What stands at the path, where anything does. A link is not followed.
pub(crate) fn standing<R: Files>(rt: &R, path: &str) -> io::Result<Option<Metadata>> {
    unless_missing(fs::symlink_metadata(rt, path))
}

/// What a call gave, unless nothing stands at its path.
pub(crate) fn unless_missing<T>(given: io::Result<T>) -> io::Result<Option<T>> {
    match given {
        Ok(there) => Ok(Some(there)),
        Err(e) if e.kind() == ErrorKind::NotFound => Ok(None),
        Err(e) => Err(e),
    }
}

/// Whether both paths lead to one file; the first one leads to a file. The fault is `File` where that can't be seen.
pub fn is_same_file<R: Files + AllocGlobal>(
    rt: &R,
    left: &str,
    right: &str,
) -> Result<bool, Failure> {
    match (
        fs::metadata(rt, left),
        unless_missing(fs::metadata(rt, right)),
    ) {
        (Ok(one), Ok(Some(other))) => Ok(are_same(&one, &other)),
        (Ok(_), Ok(None)) => Ok(false),
        (Err(error), _) => Err(unread(rt.alloc(), left, error)),
        (_, Err(error)) => Err(unread(rt.alloc(), right, error)),
    }
}

/// Whether both are of one file.
pub(crate) fn are_same(one: &Metadata, other: &Metadata) -> bool {
    one.dev() == other.dev() && one.ino() == other.ino()
}

/// The path without links at its end: that of the file to which it leads, or of where that would stand. None where it
/// is not known. The folders stay as they are written, so that neither their names nor their depth matter.
pub(crate) fn real_path<R: Files + AllocGlobal>(
    rt: &R,
    path: &str,
) -> Result<Option<String>, AllocError> {
    let mut real = format!(in rt.alloc(); "{path}")?;
    for _ in 0..LINKS {
        match standing(rt, real.as_str()) {
            Ok(Some(there)) if there.is_symlink() => {}
            // What stands at the path itself may be replaced between two looks.
            Ok(_) if real.as_str() == path => return Ok(Some(real)),
            Ok(there) if leads_to(rt, path, there.as_ref()) => return Ok(Some(real)),
            _ => return Ok(None),
        }
        match fs::read_link(rt, real.as_str()) {
            Ok(target) => real = beside_link(rt.alloc(), real.as_str(), target.as_path())?,
            Err(_) => return Ok(None),
        }
    }
    Ok(None)
}

// Whether the path leads to this file, or to none where there is none.
fn leads_to<R: Files>(rt: &R, path: &str, file: Option<&Metadata>) -> bool {
    match (unless_missing(fs::metadata(rt, path)), file) {
        (Ok(Some(end)), Some(file)) => are_same(&end, file),
        (Ok(None), None) => true,
        _ => false,
    }
}

// Where a link leads that has this text: what is relative begins at the folder of the link.
fn beside_link(alloc: Global, link: &str, target: Path<'_>) -> Result<String, AllocError> {
    let folder = Path::new(link).parent().unwrap_or(Path::new(""));
    let joined = folder.join(alloc, target)?;
    let text = joined.as_path().as_str();
    format!(in alloc; "{text}")
}

/// Refuses what no file may hold. The fault is `TooLong`.
pub fn check_length(alloc: Global, bytes: &[u8], path: &str) -> Result<(), Failure> {
    if bytes.len() as u64 > INPUT_LIMIT {
        return Err(Failure::of(alloc, Fault::TooLong, path));
    }
    Ok(())
}

/// The name of a file beside another: that name, with an end.
pub(crate) fn beside(alloc: Global, path: &str, end: &str) -> Result<String, AllocError> {
    format!(in alloc; "{path}{end}")
}
