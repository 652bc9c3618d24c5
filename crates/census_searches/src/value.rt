//! `census value`: the nim-value of a position.

use crate::position::{Position, Question, asking_of};
use crate::watched;
use census_arguments::with_order;
use census_failure::{Audience, Failure};
use census_requests::System;
use census_words::{CommandRow, words};
use clap::ArgMatches;
use std::alloc::Global;
use std::io::Write;

/// Its row in the table.
pub const ROW: CommandRow = CommandRow {
    name: "value",
    words: &[words::STATE, words::CODE, words::HEAP],
    options: &[words::SEARCHED, words::EACH_JSON],
    line: "The nim-value of a position, and who wins",
    about: "Prints the nim-value of a position, and who wins it in normal play",
    after: "\
The nim-value is the exclusive or of the heaps' values. Where one is not known, `unknown at` names
the first such heap, counted from 0. With --json it is {\"value\":3,\"next_player\":\"wins\"}, or
{\"unknown\":0}.
With --search COUNT, a game of which some heap is not known is searched as by census search: by a period
that COUNT values prove, also one that no claim proves, each heap has a value. The state stays as it is.

Exit status: 0 done (also where it is unknown), 1 refused: Load (the state), Code, PastValue (a value is
above 65535); 2 command line, 3 file, 4 memory

Examples:
  census value anna.state 0.77 5 6
  census value anna.state 0.16 10000000000 --search 1000000",
};

/// Reads the words of the command, does it, and gives the exit status.
pub fn command<R, O, E>(
    rt: &R,
    found: &ArgMatches<'_>,
    output: &mut O,
    errors: &mut E,
    audience: Audience,
) -> Result<u8, Failure>
where
    R: System,
    O: Write,
    E: Write,
{
    let asked = with_order(rt.alloc(), &ROW, task(rt.alloc(), found))?;
    watched::position(rt, &asked, output, errors, audience)?;
    Ok(0)
}

// What its words ask for.
fn task<'a>(alloc: Global, found: &ArgMatches<'a>) -> Result<Position<'a>, Failure> {
    asking_of(alloc, found, Question::Value)
}
