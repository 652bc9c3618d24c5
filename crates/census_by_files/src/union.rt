//! `census union`: one delta of several.

use crate::watched;
use census_arguments::{out, repeated, with_order};
use census_core::{Fault, Reply, unite};
use census_diagnosis::{Given, of_delta};
use census_failure::{Audience, Failure, INPUT_NAME};
use census_files::{Out, Replaced, StateFile, is_standard, read_delta, read_standard};
use census_progress::ProgressLine;
use census_requests::{System, print_file};
use census_words::CommandRow;
use census_words::words::{self, Times, Word};
use clap::ArgMatches;
use std::alloc::Global;
use std::fs::File;
use std::io::{Read, Write};
use std::rt::Files;
use std::time::Clock;
use written::write_out;

// The deltas of a union.
const DELTAS: Word = Word {
    name: "DELTA",
    meaning: "One or more delta files, or -",
    times: Times::OneOrMore,
};

// The delta that a union is written to.
const UNION: Word = Word {
    name: "OUT",
    meaning: "The delta file that is written, or -; it may be one of the others",
    times: Times::One,
};

/// Its row in the table.
pub const ROW: CommandRow = CommandRow {
    name: "union",
    words: &[UNION, DELTAS],
    options: &[words::REPLACE],
    line: "Writes the union of such files as one; needs no state",
    about: "Writes the union of delta files as one, and prints how many operations it has",
    after: "\
All files are read before OUT is written, and OUT is replaced as a whole, so it may be one of them.
Where OUT is -, the delta goes to standard output, and nothing else is printed. A file that is no
delta is named by its place among them, counted from 1; then nothing is written. Where OUT has bytes
and is none of them, or is the name of another file with .lock or .new behind it, nothing is written
either: that is the fault Occupied, unless --replace is said. On a terminal a line on standard error says
after a second which file is read.

Exit status: 0 done, 1 refused: Union (a file is no delta), TooMany; 2 command line, 3 file, 4 memory

Example, as a merge driver of git (docs/GROUP.md):
  git config merge.census.driver 'census union %A %A %B'",
};

/// What is asked: the union of delta files, and the file that it is written to.
#[derive(Drop)]
pub(crate) struct Union<'a> {
    out: Out<'a>,
    deltas: Vec<&'a str>,
}

/// Reads the words of the command, does it, and gives the exit status.
pub fn command<R, I, O, E>(
    rt: &R,
    found: &ArgMatches<'_>,
    input: &mut I,
    output: &mut O,
    errors: &mut E,
    audience: Audience,
) -> Result<u8, Failure>
where
    R: System,
    I: Read,
    O: Write,
    E: Write,
{
    let asked = with_order(rt.alloc(), &ROW, task(rt.alloc(), found))?;
    watched::union(rt, &asked, input, output, errors, audience)?;
    Ok(0)
}

// What its words ask for.
fn task<'a>(alloc: Global, found: &ArgMatches<'a>) -> Result<Union<'a>, Failure> {
    Ok(Union {
        out: out(found, UNION)?,
        deltas: repeated(alloc, found, DELTAS)?,
    })
}

/// Writes the union of some delta files, which are all read before, to a file that is one of them, or in whose place none
/// stands.
pub(crate) fn run<R, I, O, E>(
    rt: &R,
    asked: &Union<'_>,
    input: &mut I,
    output: &mut O,
    progress: &mut ProgressLine<'_, R, E>,
) -> Result<(), Failure>
where
    R: Files<File = File> + AllocGlobal + Clock,
    I: Read,
    O: Write,
    E: Write,
{
    let (out, deltas) = (asked.out, asked.deltas.as_slice());
    let piped = if deltas.iter().any(|path| is_standard(path)) {
        read_standard(rt.alloc(), input)?
    } else {
        Vec::new(rt.alloc())
    };
    if is_standard(out.path) {
        let reply = united(rt, deltas, &piped, progress)?;
        return print_file(rt.alloc(), &reply, output);
    }
    let done = if out.is_stream(rt) {
        union_streamed(rt, out, deltas, &piped, progress)
    } else {
        let file = StateFile::wait_telling(rt, out.path, progress.advice())?;
        let done = union_held(rt, &file, out, deltas, &piped, progress);
        file.release(rt);
        done
    };
    Ok(write_out(output, &done?.text)?)
}

// The same into a pipe or a device.
fn union_streamed<R, E>(
    rt: &R,
    out: Out<'_>,
    deltas: &[&str],
    piped: &[u8],
    progress: &mut ProgressLine<'_, R, E>,
) -> Result<Reply, Failure>
where
    R: Files<File = File> + AllocGlobal + Clock,
    E: Write,
{
    let reply = united(rt, deltas, piped, progress)?;
    if let Some(bytes) = &reply.file {
        out.write_stream(rt, bytes)?;
    }
    Ok(reply)
}

// The same, while no other command changes the file.
fn union_held<R, E>(
    rt: &R,
    file: &StateFile,
    out: Out<'_>,
    deltas: &[&str],
    piped: &[u8],
    progress: &mut ProgressLine<'_, R, E>,
) -> Result<Reply, Failure>
where
    R: Files<File = File> + AllocGlobal + Clock,
    E: Write,
{
    let reply = united(rt, deltas, piped, progress)?;
    if let Some(bytes) = &reply.file {
        let replaced = Replaced::OneOf(deltas);
        out.write_held(rt, file, replaced, bytes, progress.advice())?;
    }
    Ok(reply)
}

// The union of delta files, of which `-` stands for these bytes. The line says which of them is read, and goes when it is made.
fn united<R, E>(
    rt: &R,
    deltas: &[&str],
    piped: &[u8],
    progress: &mut ProgressLine<'_, R, E>,
) -> Result<Reply, Failure>
where
    R: Files + AllocGlobal + Clock,
    E: Write,
{
    let done = read_and_united(rt, deltas, piped, progress);
    progress.clear();
    done
}

// The same, while the line stands.
fn read_and_united<R, E>(
    rt: &R,
    deltas: &[&str],
    piped: &[u8],
    progress: &mut ProgressLine<'_, R, E>,
) -> Result<Reply, Failure>
where
    R: Files + AllocGlobal + Clock,
    E: Write,
{
    let mut files = Vec::new(rt.alloc());
    for (index, path) in deltas.iter().enumerate() {
        progress.tell_file(index + 1, deltas.len());
        let bytes = if is_standard(path) {
            Vec::from_slice(rt.alloc(), piped)?
        } else {
            read_delta(rt, path)?
        };
        files.push(bytes).or(Err(Fault::OutOfMemory))?;
    }
    match unite(rt.alloc(), &files) {
        Ok(reply) => Ok(reply),
        Err(fault) => Err(of_union(rt.alloc(), fault, deltas, &files)),
    }
}

// The failure of a union of these files.
fn of_union(alloc: Global, fault: Fault, deltas: &[&str], files: &[Vec<u8>]) -> Failure {
    let Fault::Union { place, cause } = fault else {
        return Failure::from(fault);
    };
    let at = usize::try_from(place).unwrap_or(0).saturating_sub(1);
    match (deltas.get(at), files.get(at)) {
        (Some(name), Some(bytes)) => of_delta(alloc, fault, cause, Given::new(named(name), bytes)),
        _ => Failure::from(fault),
    }
}

// What a file that is read is called.
fn named(path: &str) -> &str {
    if is_standard(path) { INPUT_NAME } else { path }
}
