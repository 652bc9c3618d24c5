//! `census compute`: the next values of a game.

use census_arguments::{BLOCK, bytes, number_of, with_order};
use census_core::Request;
use census_failure::{Audience, Failure};
use census_requests::change::{Change, changing};
use census_requests::{System, watched};
use census_words::CommandRow;
use census_words::words::{self, Times, Word};
use clap::ArgMatches;
use std::alloc::Global;
use std::io::{Read, Write};

// How many values are computed as one block.
const COUNT: Word = Word {
    name: "COUNT",
    meaning: "How many values more than are known, 1 to 1024; fewer where heap 65535 comes first",
    times: Times::One,
};

/// Its row in the table.
pub const ROW: CommandRow = CommandRow {
    name: "compute",
    words: &[words::STATE, words::CODE, COUNT],
    options: &[words::QUIET],
    line: "Computes the next values of a game, and issues them",
    about: "Computes the next values of a game and issues them, and prints author and number",
    after: "\
The values begin where those known of the game end, so COUNT is how many more; `census extend` takes
how many there are to be in all, and several games.

Exit status: 0 done, 1 refused: Load (the state), Code, Compute, Issue, TooMany; 2 command line,
3 file, 4 memory

Example:
  census compute anna.state 0.77 168",
};

/// Reads the words of the command, does it, and gives the exit status.
pub fn command<R, I, O, E>(
    rt: &R,
    found: &ArgMatches<'_>,
    input: &mut I,
    output: &mut O,
    errors: &mut E,
    audience: Audience,
) -> Result<u8, Failure>
where
    R: System,
    I: Read,
    O: Write,
    E: Write,
{
    let asked = with_order(rt.alloc(), &ROW, task(rt.alloc(), found))?;
    watched::change(rt, &asked, input, output, errors, audience)?;
    Ok(0)
}

// What its words ask for.
fn task<'a>(alloc: Global, found: &ArgMatches<'a>) -> Result<Change<'a>, Failure> {
    let request = Request::Compute {
        count: number_of(alloc, found, COUNT, BLOCK)?,
        code: bytes(alloc, found, words::CODE)?,
    };
    changing(found, None, request)
}
