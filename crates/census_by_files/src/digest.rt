//! `census digest`: names of what files hold.

use crate::watched;
use census_arguments::{form, repeated, with_order};
use census_core::{Fault, Form, digest};
use census_diagnosis::{Given, of_either};
use census_failure::{Audience, Failure, escaped};
use census_files::read_file;
use census_progress::ProgressLine;
use census_requests::System;
use census_words::{CommandRow, words};
use clap::ArgMatches;
use serde_json::json;
use std::alloc::Global;
use std::io::Write;
use std::rt::Files;
use std::str;
use std::time::Clock;
use written::write_out;

/// Its row in the table.
pub const ROW: CommandRow = CommandRow {
    name: "digest",
    words: &[words::FILES],
    options: &[words::EACH_JSON],
    line: "64 digits for the operations of each file, to be compared",
    about: "Prints the digest of the operations of each file, and its name",
    after: "\
A line for each file has 64 hexadecimal digits, two spaces and the name. Files have the same digits
where they hold the same operations, be they states, whoever their authors are, or deltas. The digits
are the SHA-256 of the file that `census delta` writes. With --json a line is an object of `digest` and
`file`. The first file that is refused ends it; the lines before it stand. On a terminal a line on
standard error says after a second which file it is, where what is printed goes elsewhere.

Exit status: 0 done, 1 refused: Load (a state), Merge (a file is neither), TooMany; 2 command line,
3 file, 4 memory

Example:
  census digest anna.state ben.delta",
};

/// What is asked: the digest of each file, in this form.
#[derive(Drop)]
pub(crate) struct Digest<'a> {
    files: Vec<&'a str>,
    form: Form,
}

/// Reads the words of the command, does it, and gives the exit status.
pub fn command<R, O, E>(
    rt: &R,
    found: &ArgMatches<'_>,
    output: &mut O,
    errors: &mut E,
    audience: Audience,
) -> Result<u8, Failure>
where
    R: System,
    O: Write,
    E: Write,
{
    let asked = with_order(rt.alloc(), &ROW, task(rt.alloc(), found))?;
    watched::digest(rt, &asked, output, errors, audience)?;
    Ok(0)
}

// What its words ask for.
fn task<'a>(alloc: Global, found: &ArgMatches<'a>) -> Result<Digest<'a>, Failure> {
    Ok(Digest {
        files: repeated(alloc, found, words::FILES)?,
        form: form(found),
    })
}

/// Prints the digest of each file before it goes on to the next. The fault is that of the first file that is refused, and
/// `Write`.
pub(crate) fn run<R, O, E>(
    rt: &R,
    asked: &Digest<'_>,
    output: &mut O,
    progress: &mut ProgressLine<'_, R, E>,
) -> Result<(), Failure>
where
    R: Files + AllocGlobal + Clock,
    O: Write,
    E: Write,
{
    for (index, path) in asked.files.iter().enumerate() {
        progress.tell_file(index + 1, asked.files.len());
        match digested(rt, path, asked.form) {
            Ok(line) => write_out(output, &line)?,
            Err(failure) => {
                progress.clear();
                return Err(failure);
            }
        }
    }
    progress.clear();
    Ok(())
}

// The line of a file's digest.
fn digested<R: Files + AllocGlobal>(rt: &R, path: &str, form: Form) -> Result<Vec<u8>, Failure> {
    let bytes = read_file(rt, path)?;
    match digest(rt.alloc(), &bytes) {
        Ok(digits) => told(rt.alloc(), &digits, path, form),
        Err(fault) => Err(of_either(rt.alloc(), fault, Given::new(path, &bytes))),
    }
}

// The line of a file's digest and its name.
fn told(alloc: Global, digits: &[u8], path: &str, form: Form) -> Result<Vec<u8>, Failure> {
    match form {
        Form::Lines => line(alloc, digits, path),
        Form::Json => object(alloc, digits, path),
    }
}

// The digits, two spaces and the name, in which signs that show nothing are escaped, as `sha256sum` prints them.
fn line(alloc: Global, digits: &[u8], path: &str) -> Result<Vec<u8>, Failure> {
    let mut line = Vec::from_slice(alloc, digits)?;
    line.extend_from_slice(b"  ")?;
    line.extend_from_slice(escaped(alloc, path)?.as_bytes())?;
    line.extend_from_slice(b"\n")?;
    Ok(line)
}

// The same as an object of JSON.
fn object(alloc: Global, digits: &[u8], path: &str) -> Result<Vec<u8>, Failure> {
    let digits = match str::from_utf8(digits) {
        Ok(digits) => digits,
        Err(_) => return Err(Failure::from(Fault::File)),
    };
    let mut line = json!(in alloc; { "digest": digits, "file": path })?.to_vec(alloc)?;
    line.extend_from_slice(b"\n")?;
    Ok(line)
}
