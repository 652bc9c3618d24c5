//! What was wrong with a request, found again from its words and files after its fault.

use crate::bfile_lines::of_bfile;
use crate::codes::{of_code, of_codes};
use crate::given::Given;
use crate::mistaken::{of_delta, of_state};
use crate::notes::of_note;
use census_failure::{Failure, shown, shown_bytes};
use census_state::{Fault, Request};
use oct_code::LIMIT;
use serde_json::Value;
use std::alloc::{AllocError, Global};

/// The failure of a request over a state and the file beside it.
pub fn of_request(
    alloc: Global,
    fault: Fault,
    request: &Request,
    state: Given<'_>,
    file: Given<'_>,
) -> Failure {
    match fault {
        Fault::Load(cause) => of_state(alloc, cause, state),
        Fault::Merge(cause) => of_delta(alloc, fault, cause, file),
        Fault::Json => of_json(alloc, file),
        Fault::Import(_) => Failure::of(alloc, fault, file.name),
        Fault::Bfile(cause) => of_bfile(alloc, cause, file),
        Fault::Issue(_) | Fault::TooMany | Fault::Held => Failure::of(alloc, fault, state.name),
        _ => of_words(alloc, fault, request),
    }
}

/// The failure of what was asked of some games of a state.
pub fn of_games(alloc: Global, fault: Fault, codes: &[Vec<u8>], state: Given<'_>) -> Failure {
    match fault {
        Fault::Load(cause) => of_state(alloc, cause, state),
        Fault::Code(_) => of_codes(alloc, fault, codes),
        _ => Failure::of(alloc, fault, state.name),
    }
}

// The failure of the words of a command.
fn of_words(alloc: Global, fault: Fault, request: &Request) -> Failure {
    match request {
        Request::Claim { code } | Request::Bfile { code } | Request::Plot { code } => {
            of_code(alloc, fault, code)
        }
        Request::Value { code, .. } | Request::Move { code, .. } => of_code(alloc, fault, code),
        Request::Extend { codes, .. }
        | Request::Find { codes, .. }
        | Request::DeltaOf { codes }
        | Request::Survey { codes, .. } => of_codes(alloc, fault, codes),
        Request::Compute { code, count } => of_compute(alloc, fault, code, *count),
        Request::Period { code, e, p } => of_period(alloc, fault, code, *e, *p),
        Request::Note { name, text } => of_note(alloc, fault, name, text),
        Request::Unnote { name } => of_name(alloc, fault, name),
        Request::Page { number } => of_page(alloc, fault, *number),
        _ => Failure::from(fault),
    }
}

// The failure of a file that is no JSON text.
fn of_json(alloc: Global, file: Given<'_>) -> Failure {
    let failure = Failure::of(alloc, Fault::Json, file.name);
    match Value::from_slice(alloc, file.bytes) {
        Err(error) if !error.is_memory() => failure.found(json_text(alloc, file.name, &error)),
        _ => failure,
    }
}

fn json_text(alloc: Global, name: &str, error: &serde_json::Error) -> Result<String, AllocError> {
    let name = shown(alloc, name)?;
    format!(in alloc; "{name} is no JSON text: {error}")
}

// The failure of the words of `compute`.
fn of_compute(alloc: Global, fault: Fault, code: &[u8], count: u32) -> Failure {
    match fault {
        Fault::Compute(_) if count == 0 || count > 1024 => {
            let text = format!(in alloc; "COUNT must be 1 to 1024, and is {count}");
            Failure::from(fault).found(text)
        }
        Fault::Compute(_) => Failure::from(fault).found(at_limit_text(alloc, code)),
        _ => of_code(alloc, fault, code),
    }
}

fn at_limit_text(alloc: Global, code: &[u8]) -> Result<String, AllocError> {
    let code = shown_bytes(alloc, code)?;
    format!(in alloc; "{code}: all values up to heap 65535 are known")
}

// The failure of the words of `period`.
fn of_period(alloc: Global, fault: Fault, code: &[u8], start: u32, period: u32) -> Failure {
    match fault {
        Fault::Period(_) => {
            let is_start = start == 0 || start as usize > LIMIT;
            let (name, number) = if is_start {
                ("E", start)
            } else {
                ("P", period)
            };
            let text = format!(in alloc; "{name} must be 1 to {LIMIT}, and is {number}");
            Failure::from(fault).found(text)
        }
        _ => of_code(alloc, fault, code),
    }
}

// The failure of the name of `unnote`.
fn of_name(alloc: Global, fault: Fault, name: &[u8]) -> Failure {
    Failure::about(fault, shown_bytes(alloc, name))
}

// The failure of the number of `page`.
fn of_page(alloc: Global, fault: Fault, number: u32) -> Failure {
    match fault {
        Fault::NoPage => {
            Failure::from(fault).found(format!(in alloc; "the catalogue has no page {number}"))
        }
        _ => Failure::from(fault),
    }
}
