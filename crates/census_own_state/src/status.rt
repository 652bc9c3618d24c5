//! `census status`: what a state file holds, on one screen.

use census_arguments::{with_order, word};
use census_core::{Fault, outcome, status};
use census_diagnosis::{Given, of_games};
use census_failure::Failure;
use census_files::{StateFile, read_state};
use census_words::CommandRow;
use census_words::words::{self, Choice, Takes};
use clap::ArgMatches;
use std::alloc::Global;
use std::fs::File;
use std::io::Write;
use std::rt::Files;
use written::write_out;

// Whether the nim-values are computed too.
const FULL: Choice = Choice {
    name: "full",
    takes: Takes::Nothing,
    meaning: "Says also how many blocks and claims are proved, refuted and pending, which takes nim-values",
    default: None,
};

/// Its row in the table.
pub const ROW: CommandRow = CommandRow {
    name: "status",
    words: &[words::STATE],
    options: &[FULL],
    line: "Whose a state is, and what it holds, on one screen",
    about: "Says in a few lines whose a state is and what it holds, with no nim-value computed",
    after: "\
The lines are: the author and its name; how many operations there are, and by whom; how many games,
notes that nobody took back, and numbers that were used twice; the digest, as census digest has it; the
size in bytes; and the lock: `free`, `held` by another command just now, or `unknown`.

With --full three more say how many blocks and periods are proved, refuted and pending, and where some
are refuted, how many of these are your own. That takes the nim-values of each game; census games
--refuted says which are refuted.

Exit status: 0 done, 1 refused: Load (the state); 2 command line, 3 file, 4 memory

Examples:
  census status anna.state
  census status anna.state --full",
};

// What is asked: what a state file holds, and whether also what became of its claims.
#[derive(Clone, Copy)]
struct Status<'a> {
    state: &'a str,
    is_full: bool,
}

/// Reads the words of the command, does it, and gives the exit status.
pub fn command<R, O>(rt: &R, found: &ArgMatches<'_>, output: &mut O) -> Result<u8, Failure>
where
    R: Files<File = File> + AllocGlobal,
    O: Write,
{
    let asked = with_order(rt.alloc(), &ROW, task(found))?;
    run(rt, &asked, output)?;
    Ok(0)
}

// What its words ask for.
fn task<'a>(found: &ArgMatches<'a>) -> Result<Status<'a>, Failure> {
    Ok(Status {
        state: word(found, words::STATE)?,
        is_full: found.get_flag(FULL.name),
    })
}

// Prints what a state file holds, and whether it is locked; where all is asked for also what became of its claims.
fn run<R, O>(rt: &R, asked: &Status<'_>, output: &mut O) -> Result<(), Failure>
where
    R: Files<File = File> + AllocGlobal,
    O: Write,
{
    let Status { state, is_full } = *asked;
    let bytes = read_state(rt, state)?;
    let mut text = part_of(rt.alloc(), status(rt.alloc(), &bytes), state, &bytes)?;
    text.extend_from_slice(lock_line(StateFile::is_locked(rt, state)?))?;
    if is_full {
        let more = part_of(rt.alloc(), outcome(rt.alloc(), &bytes), state, &bytes)?;
        text.extend_from_slice(&more)?;
    }
    Ok(write_out(output, &text)?)
}

// A part of the text, or the failure of the state.
fn part_of(
    alloc: Global,
    made: Result<Vec<u8>, Fault>,
    state: &str,
    bytes: &[u8],
) -> Result<Vec<u8>, Failure> {
    match made {
        Ok(text) => Ok(text),
        Err(fault) => Err(of_games(alloc, fault, &[], Given::new(state, bytes))),
    }
}

// The line of the lock.
fn lock_line(locked: Option<bool>) -> &'static [u8] {
    match locked {
        Some(true) => b"lock held\n",
        Some(false) => b"lock free\n",
        None => b"lock unknown\n",
    }
}
