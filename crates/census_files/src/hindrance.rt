//! What keeps a command from replacing a file.

use crate::files::no_file_text;
use census_failure::{Failure, shown};
use census_state::Fault;
use std::alloc::{AllocError, Global};
use std::io::{self, ErrorKind};

/// What keeps a command from replacing a file.
#[derive(Clone, Copy)]
pub(crate) enum Hindrance {
    /// The system does, and this is what it said.
    System(io::Error),
    /// Somebody's file stands where the lock or the new text is to be.
    Occupied,
    /// The lock, or the new text, was taken away meanwhile.
    Lost,
}

impl From<io::Error> for Hindrance {
    fn from(error: io::Error) -> Hindrance {
        Hindrance::System(error)
    }
}

/// The failure to lock a file. The fault is `Occupied` where the lock is somebody's file, and else `File`.
pub(crate) fn unlocked(alloc: Global, path: &str, lock_path: &str, why: Hindrance) -> Failure {
    match why {
        Hindrance::Occupied => occupied(alloc, lock_path, "the lock", path),
        Hindrance::Lost => lost(alloc, path, lock_path),
        Hindrance::System(error) if error.kind() == ErrorKind::NotFound => {
            unwritten(alloc, path, error)
        }
        Hindrance::System(error) => unlockable(alloc, lock_path, error),
    }
}

// The failure of a lock at a path where something stands that is no plain file, or that can't be used.
fn unlockable(alloc: Global, lock_path: &str, error: io::Error) -> Failure {
    let failure = Failure::of(alloc, Fault::File, lock_path);
    if error.kind() == ErrorKind::InvalidInput {
        return failure.found(no_file_text(alloc, lock_path));
    }
    failure.because(error)
}

/// The failure to write the new text of a file. The fault is `Occupied` where somebody's file stands there, and else
/// `File`.
pub(crate) fn unreplaced(
    alloc: Global,
    path: &str,
    lock_path: &str,
    new_path: &str,
    why: Hindrance,
) -> Failure {
    match why {
        Hindrance::Occupied => occupied(alloc, new_path, "the new text", path),
        Hindrance::Lost => lost(alloc, path, lock_path),
        Hindrance::System(error) => unwritten(alloc, path, error),
    }
}

/// The failure of a file that can't be written.
pub(crate) fn unwritten(alloc: Global, path: &str, error: io::Error) -> Failure {
    let failure = Failure::of(alloc, Fault::File, path);
    if error.kind() == ErrorKind::NotFound {
        return failure.found(folder_text(alloc, path));
    }
    failure.because(error)
}

fn folder_text(alloc: Global, path: &str) -> Result<String, AllocError> {
    let path = shown(alloc, path)?;
    format!(in alloc; "{path}: the folder for it is not there")
}

// The failure of a place beside a file where somebody's file stands.
fn occupied(alloc: Global, place: &str, what: &str, path: &str) -> Failure {
    Failure::of(alloc, Fault::Occupied, place)
        .found(occupied_text(alloc, place, what, path))
        .advise(apart_text(alloc))
}

fn occupied_text(alloc: Global, place: &str, what: &str, path: &str) -> Result<String, AllocError> {
    let place = shown(alloc, place)?;
    let path = shown(alloc, path)?;
    format!(in alloc; "{place} stands where {what} of {path} is to be, and stays as it is")
}

fn apart_text(alloc: Global) -> Result<String, AllocError> {
    format!(in alloc; "give one of the two another name")
}

// The failure of a file whose lock was taken away.
fn lost(alloc: Global, path: &str, lock_path: &str) -> Failure {
    Failure::of(alloc, Fault::File, lock_path)
        .found(lost_text(alloc, path, lock_path))
        .advise(again_text(alloc))
}

fn lost_text(alloc: Global, path: &str, lock_path: &str) -> Result<String, AllocError> {
    let path = shown(alloc, path)?;
    let lock_path = shown(alloc, lock_path)?;
    format!(in alloc;
        "{lock_path} was removed meanwhile, so that others may have changed {path}, which stays as it is"
    )
}

fn again_text(alloc: Global) -> Result<String, AllocError> {
    format!(in alloc; "run the command again, and let no one remove a lock that is held")
}
