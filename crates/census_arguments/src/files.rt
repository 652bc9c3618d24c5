//! The files that a command is given by their names: a file or standard input, and several files of operations.

use census_diagnosis::{Given, of_either};
use census_failure::{Failure, INPUT_NAME};
use census_files::{is_standard, read_file, read_standard};
use census_state::Fault;
use oct_delta::read_ops;
use oct_record::parse_state;
use std::alloc::Global;
use std::io::Read;
use std::rt::Files;

/// The name of a file that is read, and its bytes. The word `-` is standard input.
pub fn read_input<'a, R, I>(
    rt: &R,
    path: &'a str,
    input: &mut I,
) -> Result<(&'a str, Vec<u8>), Failure>
where
    R: Files + AllocGlobal,
    I: Read,
{
    if is_standard(path) {
        return Ok((INPUT_NAME, read_standard(rt.alloc(), input)?));
    }
    Ok((path, read_file(rt, path)?))
}

/// All the bytes of each file.
pub fn read_files<R>(rt: &R, paths: &[&str]) -> Result<Vec<Vec<u8>>, Failure>
where
    R: Files + AllocGlobal,
{
    let mut files = Vec::new(rt.alloc());
    for path in paths {
        let bytes = read_file(rt, path)?;
        files.push(bytes).or(Err(Fault::OutOfMemory))?;
    }
    Ok(files)
}

/// The failure of the first of these files that is neither a state nor a delta.
pub fn of_files(alloc: Global, fault: Fault, paths: &[&str], files: &[Vec<u8>]) -> Failure {
    for (path, bytes) in paths.iter().zip(files) {
        if is_refused(bytes) {
            return of_either(alloc, fault, Given::new(path, bytes));
        }
    }
    Failure::from(fault)
}

/// Whether the bytes of a file are neither a state nor a delta.
pub fn is_refused(bytes: &[u8]) -> bool {
    if bytes.starts_with(b"OGS1") {
        parse_state(bytes).is_err()
    } else {
        read_ops(bytes).is_err()
    }
}
