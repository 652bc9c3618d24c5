//! `census manual`: the page of the manual.

use crate::commands::chapters;
use census_core::Fault;
use census_failure::{Failure, FaultWords, faults, name_of, words_of};
use census_words::{CommandRow, Entry, manual_page};
use std::alloc::{AllocError, Global};
use std::io::Write;
use written::write_out;

/// Its row in the table.
pub(crate) const ROW: CommandRow = CommandRow {
    name: "manual",
    words: &[],
    options: &[],
    line: "The page of the manual, as roff",
    about: "Prints the page of the manual",
    after: "\
It has the help of all commands, and says what stands in which file.

Exit status: 0 done, 2 command line, 3 output, 4 memory

Example:
  census manual | man -l -",
};

/// Does the command, which takes no words, and gives the exit status.
pub(crate) fn command<R, O>(rt: &R, output: &mut O) -> Result<u8, Failure>
where
    R: AllocGlobal,
    O: Write,
{
    run(rt.alloc(), output)?;
    Ok(0)
}

// Prints the page of the manual.
fn run<O: Write>(alloc: Global, output: &mut O) -> Result<(), Failure> {
    let page = manual_page(alloc, &chapters(), &entries(alloc)?)?;
    Ok(write_out(output, page.as_bytes())?)
}

// What the manual says of each fault.
fn entries(alloc: Global) -> Result<Vec<Entry>, AllocError> {
    let mut entries = Vec::new(alloc);
    for group in &faults() {
        for fault in *group {
            let entry = entry_of(alloc, *fault)?;
            entries.push(entry).or(Err(AllocError))?;
        }
    }
    Ok(entries)
}

// What it says of a fault.
fn entry_of(alloc: Global, fault: Fault) -> Result<Entry, AllocError> {
    let FaultWords {
        subject,
        meaning,
        remedy,
    } = words_of(fault);
    Ok(Entry {
        name: name_of(alloc, fault)?,
        status: fault.status(),
        meaning: format!(in alloc; "{subject} {meaning}")?,
        remedy,
    })
}
