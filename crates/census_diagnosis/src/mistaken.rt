//! Files that are not what they were taken for: a state, a delta or a saved search.

use crate::damage::damage_text;
use crate::given::Given;
use crate::kind::{Kind, kind_of};
use census_failure::{Failure, INPUT_NAME, quoted, shown};
use census_state::{Fault, SavedError};
use oct_record::{LoadError, TakeError};
use std::alloc::{AllocError, Global};

/// The failure of a state.
pub fn of_state(alloc: Global, cause: LoadError, state: Given<'_>) -> Failure {
    let failure = Failure::of(alloc, Fault::from(cause), state.name);
    match (cause, kind_of(state.bytes)) {
        (LoadError::Version, kind) => advised_state(alloc, failure, kind, state.name),
        (LoadError::Refused, _) => {
            let author = state.bytes.get(4..8).unwrap_or(b"");
            if author.len() < 4 || author == b"\0\0\0\0".as_slice() {
                return failure.found(authorless_text(alloc, state.name));
            }
            failure.found(damage_text(alloc, state.name, state.bytes, 8))
        }
        _ => failure,
    }
}

// What is said of a state without an author.
fn authorless_text(alloc: Global, name: &str) -> Result<String, AllocError> {
    let name = shown(alloc, name)?;
    format!(in alloc; "{name} is damaged: bytes 4 to 7 are the number of its author, 1 or more")
}

// What is said of a file that is no state, but another one.
fn advised_state(alloc: Global, failure: Failure, kind: Kind, name: &str) -> Failure {
    match kind {
        Kind::Empty => failure
            .found(named(alloc, name, "has no bytes, and is no state"))
            .advise(advised(
                alloc,
                "make one where nothing stands: census init --draw ",
                name,
            )),
        Kind::Delta => failure
            .found(named(alloc, name, "is a delta, and no state"))
            .advise(advised(alloc, "to take it in: census merge STATE ", name)),
        Kind::Hexadecimal => failure
            .found(named(alloc, name, "is hexadecimal text, and no state"))
            .advise(advised(alloc, "to see what it says: census fold < ", name)),
        Kind::Search => failure.found(named(alloc, name, "is a saved search, and no state")),
        Kind::Bfile => failure
            .found(named(alloc, name, "is no state; it looks like a b-file"))
            .advise(advised(alloc, "to claim its values: census claim STATE CODE ", name)),
        Kind::Json => failure
            .found(named(alloc, name, "is no state; it looks like JSON"))
            .advise(advised(alloc, "to issue its block: census import STATE ", name)),
        Kind::State | Kind::Other => failure,
    }
}

/// The failure of a file that is to be a state or a delta.
pub fn of_either(alloc: Global, fault: Fault, file: Given<'_>) -> Failure {
    match fault {
        Fault::Load(cause) => of_state(alloc, cause, file),
        Fault::Merge(cause) => of_delta(alloc, fault, cause, file),
        _ => Failure::of(alloc, fault, file.name),
    }
}

/// The failure of a file that is to be a delta.
pub fn of_delta(alloc: Global, fault: Fault, cause: TakeError, file: Given<'_>) -> Failure {
    let failure = Failure::of(alloc, fault, file.name);
    match cause {
        TakeError::Version => advised_delta(alloc, failure, kind_of(file.bytes), file.name),
        TakeError::Refused => failure.found(damage_text(alloc, file.name, file.bytes, 0)),
        TakeError::OutOfMemory { .. } => failure,
    }
}

// What is said of a file that is no delta, but another one.
fn advised_delta(alloc: Global, failure: Failure, kind: Kind, name: &str) -> Failure {
    match kind {
        Kind::Empty => failure.found(named(alloc, name, "has no bytes, and is no delta")),
        Kind::State => failure
            .found(named(alloc, name, "is a state, and no delta"))
            .advise(sent(alloc, name)),
        Kind::Hexadecimal => failure
            .found(named(alloc, name, "is hexadecimal text, and no delta"))
            .advise(advised(alloc, "to see what it says: census fold < ", name)),
        Kind::Search => failure.found(named(alloc, name, "is a saved search, and no delta")),
        Kind::Bfile => failure
            .found(named(alloc, name, "is no delta; it looks like a b-file"))
            .advise(advised(alloc, "to claim its values: census claim STATE CODE ", name)),
        Kind::Json => failure
            .found(named(alloc, name, "is no delta; it looks like JSON"))
            .advise(advised(alloc, "to issue its block: census import STATE ", name)),
        Kind::Delta | Kind::Other => failure,
    }
}

// How a state is sent.
fn sent(alloc: Global, name: &str) -> Result<String, AllocError> {
    if name == INPUT_NAME {
        return String::from_str(alloc, "to send it: census delta STATE DELTA");
    }
    let state = quoted(alloc, name)?;
    let delta = format!(in alloc; "{}.delta", name.strip_suffix(".state").unwrap_or(name))?;
    let delta = quoted(alloc, &delta)?;
    format!(in alloc; "to send it: census delta {state} {delta}")
}

// A name, and what is said of it.
fn named(alloc: Global, name: &str, text: &str) -> Result<String, AllocError> {
    let name = shown(alloc, name)?;
    format!(in alloc; "{name} {text}")
}

// What to do, and the name that stands behind it.
fn advised(alloc: Global, text: &str, name: &str) -> Result<String, AllocError> {
    if name == INPUT_NAME {
        return format!(in alloc; "{text}FILE");
    }
    let name = quoted(alloc, name)?;
    format!(in alloc; "{text}{name}")
}

/// The failure of a file that is to be a saved search.
pub fn of_saved(alloc: Global, cause: SavedError, file: Given<'_>) -> Failure {
    let failure = Failure::of(alloc, Fault::Saved(cause), file.name);
    let text = match (cause, kind_of(file.bytes)) {
        (SavedError::Version, Kind::State) => "is a state, and no saved search",
        (SavedError::Version, Kind::Delta) => "is a delta, and no saved search",
        _ => return failure,
    };
    failure.found(named(alloc, file.name, text))
}
