//! `census delta`: all operations of a state, or those of some games, as a file.

use census_arguments::{is_listed, listed, with_order};
use census_core::Request;
use census_failure::{Audience, Failure};
use census_requests::ask::{Ask, asking};
use census_requests::{System, watched};
use census_words::CommandRow;
use census_words::words::{self, Choice, Takes, Times, Word};
use clap::ArgMatches;
use std::io::{Read, Write};
use std::rt::Files;

// The delta that is written.
const OUT: Word = Word {
    name: "OUT",
    meaning: "The delta file that is written, or -; not the state file",
    times: Times::One,
};

// The games whose operations alone are written.
const OF_GAMES: Choice = Choice {
    name: "only",
    takes: Takes::Many("CODE"),
    meaning: "Writes the blocks and claims of this game alone; may stand several times",
    default: None,
};

/// Its row in the table.
pub const ROW: CommandRow = CommandRow {
    name: "delta",
    words: &[words::STATE, OUT],
    options: &[OF_GAMES, words::LIST, words::PART, words::REPLACE],
    line: "Writes all operations as a file",
    about: "Writes all operations as one delta file, and prints how many there are",
    after: "\
With --only or --codes these are the blocks and claims of the games that are named alone: no notes,
which are of no game, and nothing that takes notes back. With --part I/N they are of every N-th of
these games. So a table is written in parts, of which `union` makes it again, and a base is handed
out for some games.

OUT is replaced as a whole; where it is -, the delta goes to standard output, and nothing else is
printed. The state itself is not written over: that is the fault Same. Nor is a file that is no
delta and has bytes, or the name of another file with .lock or .new behind it: that is the fault
Occupied, unless --replace is said.

Exit status: 0 done, 1 refused: Load (the state), Code, TooMany; 2 command line, 3 file, 4 memory

Examples:
  census delta ben.state ben.delta
  census delta all.state part3.delta --codes codes.txt --part 3/64",
};

/// Reads the words of the command, does it, and gives the exit status.
pub fn command<R, I, O, E>(
    rt: &R,
    found: &ArgMatches<'_>,
    input: &mut I,
    output: &mut O,
    errors: &mut E,
    audience: Audience,
) -> Result<u8, Failure>
where
    R: System,
    I: Read,
    O: Write,
    E: Write,
{
    let asked = with_order(rt.alloc(), &ROW, task(rt, found, input))?;
    watched::ask(rt, &asked, output, errors, audience)?;
    Ok(0)
}

// What its words ask for.
fn task<'a, R, I>(rt: &R, found: &ArgMatches<'a>, input: &mut I) -> Result<Ask<'a>, Failure>
where
    R: Files + AllocGlobal,
    I: Read,
{
    let codes = listed(rt, found, OF_GAMES.name, input)?;
    let request = if codes.is_empty() && !is_listed(found) {
        Request::Delta
    } else {
        Request::DeltaOf { codes }
    };
    asking(found, Some(OUT), request)
}
