//! `census explain`: what faults mean.

use census_arguments::{repeated_or_none, with_order};
use census_core::Fault;
use census_failure::{Failure, faults_text, shown};
use census_words::{CommandRow, words};
use clap::ArgMatches;
use std::alloc::{AllocError, Global};
use std::io::Write;
use written::write_out;

/// Its row in the table.
pub(crate) const ROW: CommandRow = CommandRow {
    name: "explain",
    words: &[words::FAULT],
    options: &[],
    line: "What a fault means, and what to do",
    about: "Says what a fault and its causes mean, and what to do; without a word, of all faults",
    after: "\
A fault is the line `census: NAME CAUSE` on standard error. Where that is a terminal, and with
--explain, its words stand behind it, with the file, word or address that it is about.

Exit status: 0 done, 2 command line (no fault is called so), 3 output, 4 memory

Example:
  census explain Load",
};

/// Reads the words of the command, does it, and gives the exit status.
pub(crate) fn command<R, O>(rt: &R, found: &ArgMatches<'_>, output: &mut O) -> Result<u8, Failure>
where
    R: AllocGlobal,
    O: Write,
{
    let names = with_order(rt.alloc(), &ROW, task(rt.alloc(), found))?;
    run(rt.alloc(), &names, output)?;
    Ok(0)
}

// What its words ask for: what the faults are called.
fn task<'a>(alloc: Global, found: &ArgMatches<'a>) -> Result<Vec<&'a str>, Failure> {
    repeated_or_none(alloc, found, words::FAULT)
}

// Says what faults mean that are called so.
fn run<O: Write>(alloc: Global, words: &[&str], output: &mut O) -> Result<(), Failure> {
    match faults_text(alloc, words)? {
        Some(text) => Ok(write_out(output, text.as_bytes())?),
        None => Err(unnamed(alloc, words)),
    }
}

// The failure of words that name no fault.
fn unnamed(alloc: Global, words: &[&str]) -> Failure {
    let text = "census explain, without a word, lists all faults";
    Failure::from(Fault::Words)
        .found(unnamed_text(alloc, words))
        .advise(String::from_str(alloc, text))
}

fn unnamed_text(alloc: Global, words: &[&str]) -> Result<String, AllocError> {
    let mut text = String::from_str(alloc, "no fault is called")?;
    for word in words {
        text.push(' ')?;
        text.push_str(&shown(alloc, word)?)?;
    }
    Ok(text)
}
