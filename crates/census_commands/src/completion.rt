//! `census completion`: how a shell completes words.

use crate::commands::chapters;
use census_arguments::{with_order, word};
use census_core::Fault;
use census_failure::{Failure, fault_names, shown};
use census_words::{CommandRow, Shell, append_completions, words};
use clap::ArgMatches;
use std::alloc::{AllocError, Global};
use std::io::Write;
use written::write_out;

/// Its row in the table.
pub(crate) const ROW: CommandRow = CommandRow {
    name: "completion",
    words: &[words::SHELL],
    options: &[],
    line: "How a shell completes commands and options",
    about: "Prints how a shell completes the commands and options of census",
    after: "\
`make install` puts what it prints where the shells look.

Exit status: 0 done, 2 command line, 3 output, 4 memory

Example:
  source <(census completion bash)",
};

/// Reads the words of the command, does it, and gives the exit status.
pub(crate) fn command<R, O>(rt: &R, found: &ArgMatches<'_>, output: &mut O) -> Result<u8, Failure>
where
    R: AllocGlobal,
    O: Write,
{
    let shell = with_order(rt.alloc(), &ROW, task(rt.alloc(), found))?;
    run(rt.alloc(), shell, output)?;
    Ok(0)
}

// What its words ask for: the shell.
fn task(alloc: Global, found: &ArgMatches<'_>) -> Result<Shell, Failure> {
    let name = word(found, words::SHELL)?;
    match Shell::named(name) {
        Some(shell) => Ok(shell),
        None => Err(Failure::from(Fault::Words).found(shell_text(alloc, name))),
    }
}

fn shell_text(alloc: Global, name: &str) -> Result<String, AllocError> {
    let name = shown(alloc, name)?;
    format!(in alloc; "SHELL must be bash, zsh or fish, and is {name}")
}

// Prints the completions for a shell.
fn run<O: Write>(alloc: Global, shell: Shell, output: &mut O) -> Result<(), Failure> {
    let mut text = String::new(alloc);
    let faults = fault_names(alloc)?;
    append_completions(&mut text, shell, &chapters(), &faults)?;
    Ok(write_out(output, text.as_bytes())?)
}
