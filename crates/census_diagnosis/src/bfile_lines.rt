//! Which line of a b-file is none.

use crate::given::Given;
use census_failure::{Failure, shown, shown_bytes};
use census_state::Fault;
use oct_bfile::BfileError;
use std::alloc::{AllocError, Global};

/// The failure of a b-file.
pub fn of_bfile(alloc: Global, cause: BfileError, file: Given<'_>) -> Failure {
    let failure = Failure::of(alloc, Fault::Bfile(cause), file.name);
    match cause {
        BfileError::Form { line } => {
            let why = "is no number and value, both below 4294967296";
            failure.found(line_text(alloc, file, line, why))
        }
        BfileError::Order { line } => {
            let why = "does not go on by one from the line before";
            failure.found(line_text(alloc, file, line, why))
        }
        BfileError::PastLimit { line } => {
            failure.found(line_text(alloc, file, line, "is of a heap above 65535"))
        }
        BfileError::Empty | BfileError::OutOfMemory => failure,
    }
}

// What is said of a line.
fn line_text(alloc: Global, file: Given<'_>, line: usize, why: &str) -> Result<String, AllocError> {
    let name = shown(alloc, file.name)?;
    let text = shown_bytes(alloc, line_of(file.bytes, line))?;
    format!(in alloc; "{name}, line {line}: `{text}` {why}")
}

// The line of this number, counted from 1, without its end: LF, CR LF or CR.
fn line_of(bytes: &[u8], number: usize) -> &[u8] {
    let mut rest = bytes;
    for _ in 1..number {
        rest = after_line(rest);
    }
    rest.get(..line_len(rest)).unwrap_or(rest)
}

// What stands behind the first line and its end.
fn after_line(bytes: &[u8]) -> &[u8] {
    let rest = bytes.get(line_len(bytes)..).unwrap_or(b"");
    let end = if rest.starts_with(b"\r\n") { 2 } else { 1 };
    rest.get(end..).unwrap_or(b"")
}

// How many bytes the first line has, without its end.
fn line_len(bytes: &[u8]) -> usize {
    let end = bytes
        .iter()
        .position(|byte| *byte == b'\n' || *byte == b'\r');
    end.unwrap_or(bytes.len())
}
