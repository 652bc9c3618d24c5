//! `census read`: what files hold together.

use crate::watched;
use census_arguments::{of_files, read_files, repeated, with_order};
use census_core::{Fault, read_together};
use census_failure::{Audience, Failure};
use census_progress::ProgressLine;
use census_requests::System;
use census_requests::viewing::flushed;
use census_words::{CommandRow, words};
use clap::ArgMatches;
use std::alloc::Global;
use std::io::Write;
use std::rt::Files;
use std::time::Clock;

/// Its row in the table.
pub const ROW: CommandRow = CommandRow {
    name: "read",
    words: &[words::FILES],
    options: &[],
    line: "What follows from states and deltas together",
    about: "Prints the catalogue of what some files hold together, each a state or a delta",
    after: "\
No state of one's own is needed, and no file is changed. The first file that is neither a state nor a
delta ends it, and nothing is printed.

Exit status: 0 done, 1 refused: Load (a state), Merge (a file is neither); 2 command line, 3 file,
4 memory

Example:
  census read anna.state ben.delta",
};

/// Reads the words of the command, does it, and gives the exit status.
pub fn command<R, O, E>(
    rt: &R,
    found: &ArgMatches<'_>,
    output: &mut O,
    errors: &mut E,
    audience: Audience,
) -> Result<u8, Failure>
where
    R: System,
    O: Write,
    E: Write,
{
    let files = with_order(rt.alloc(), &ROW, task(rt.alloc(), found))?;
    watched::read(rt, &files, output, errors, audience)?;
    Ok(0)
}

// What its words ask for: the files.
fn task<'a>(alloc: Global, found: &ArgMatches<'a>) -> Result<Vec<&'a str>, Failure> {
    repeated(alloc, found, words::FILES)
}

/// Prints the catalogue of what files hold together.
pub(crate) fn run<R, O, E>(
    rt: &R,
    paths: &[&str],
    output: &mut O,
    progress: &mut ProgressLine<'_, R, E>,
) -> Result<(), Failure>
where
    R: Files + AllocGlobal + Clock,
    O: Write,
    E: Write,
{
    let files = read_files(rt, paths)?;
    let done = read_together(rt.alloc(), &files, progress, output);
    progress.clear();
    match done {
        Ok(()) => flushed(output),
        Err(fault @ (Fault::Write | Fault::OutOfMemory)) => Err(Failure::from(fault)),
        Err(fault) => Err(of_files(rt.alloc(), fault, paths, &files)),
    }
}
