//! `census merge`: a delta is taken in.

use census_arguments::with_order;
use census_core::Request;
use census_failure::{Audience, Failure};
use census_requests::change::{Change, changing};
use census_requests::{System, watched};
use census_words::CommandRow;
use census_words::words::{self, Times, Word};
use clap::ArgMatches;
use std::io::{Read, Write};

// The delta that is taken in.
const DELTA: Word = Word {
    name: "DELTA",
    meaning: "A delta file, as `census delta` writes it; or -",
    times: Times::One,
};

/// Its row in the table.
pub const ROW: CommandRow = CommandRow {
    name: "merge",
    words: &[words::STATE, DELTA],
    options: &[],
    line: "Takes such a file in",
    about: "Takes a delta file in, and prints how many of its operations are new",
    after: "\
Exit status: 0 done (also where nothing is new), 1 refused: Load (the state), Merge (the delta),
TooMany; 2 command line, 3 file, 4 memory

Example:
  census merge anna.state ben.delta",
};

/// Reads the words of the command, does it, and gives the exit status.
pub fn command<R, I, O, E>(
    rt: &R,
    found: &ArgMatches<'_>,
    input: &mut I,
    output: &mut O,
    errors: &mut E,
    audience: Audience,
) -> Result<u8, Failure>
where
    R: System,
    I: Read,
    O: Write,
    E: Write,
{
    let asked = with_order(rt.alloc(), &ROW, task(found))?;
    watched::change(rt, &asked, input, output, errors, audience)?;
    Ok(0)
}

// What its words ask for.
fn task<'a>(found: &ArgMatches<'a>) -> Result<Change<'a>, Failure> {
    changing(found, Some(DELTA), Request::Merge)
}
