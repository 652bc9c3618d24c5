//! `census extend`: values of games, up to as many as are wanted.

use census_arguments::{heap_count, listed, with_order};
use census_core::Request;
use census_failure::{Audience, Failure};
use census_requests::change::{Change, changing};
use census_requests::{System, watched};
use census_words::{CommandRow, words};
use clap::ArgMatches;
use std::io::{Read, Write};
use std::rt::Files;

/// Its row in the table.
pub const ROW: CommandRow = CommandRow {
    name: "extend",
    words: &[words::STATE, words::HEAPS, words::CODES],
    options: &[words::LIST, words::PART, words::SKIP_DONE],
    line: "Does so until the first COUNT values of each game are known",
    about: "Computes and issues values of each game until the first COUNT of them are known",
    after: "\
COUNT is how many values of a game are to be known in all; what is known already counts. For each
game in turn blocks of at most 1024 values are issued, as compute does it. A line for each game says
how many values are known then, and how many blocks were issued: none where COUNT values were known.
On a terminal a line on standard error says how far it is, which of several games has its turn, and how
long all may take.

The games are those of the words CODE, and then those of --codes FILE, which has one or more codes a
line, with spaces or tabs between, or none; what stands behind a # is passed over. With --part I/N
they are of all these the I-th, the I+N-th, and so on: none where there are not so many.

With --skip-done a game is left out where each of the heaps 1 to COUNT - 1 lies in a block that the
author of the state issued, be it true or not; no value is computed to know that. The first line says
how many are left out: `left out 2`. So the same line goes on after a stop, and what is done costs
nothing again.

The state is written at the end of a game that took five seconds, or where fifteen have passed since
the last time, and at the end. A line is printed once the state that has its game is written. So a
fault, or a command that is stopped, loses at most the games since then, and the same command goes on
from there.

Exit status: 0 done, 1 refused: Load (the state), Code, Issue, TooMany; 2 command line, 3 file,
4 memory

Examples:
  census extend anna.state 65536 0.77 0.6
  census extend part3.state 65536 --codes codes.txt --part 3/64",
};

/// Reads the words of the command, does it, and gives the exit status.
pub fn command<R, I, O, E>(
    rt: &R,
    found: &ArgMatches<'_>,
    input: &mut I,
    output: &mut O,
    errors: &mut E,
    audience: Audience,
) -> Result<u8, Failure>
where
    R: System,
    I: Read,
    O: Write,
    E: Write,
{
    let asked = with_order(rt.alloc(), &ROW, task(rt, found, input))?;
    watched::change(rt, &asked, input, output, errors, audience)?;
    Ok(0)
}

// What its words ask for.
fn task<'a, R, I>(rt: &R, found: &ArgMatches<'a>, input: &mut I) -> Result<Change<'a>, Failure>
where
    R: Files + AllocGlobal,
    I: Read,
{
    let request = Request::Extend {
        count: heap_count(rt.alloc(), found)?,
        codes: listed(rt, found, words::CODES.name, input)?,
    };
    changing(found, None, request)
}
