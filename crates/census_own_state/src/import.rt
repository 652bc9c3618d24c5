//! `census import`: the block of values of a JSON file.

use census_arguments::with_order;
use census_core::Request;
use census_failure::{Audience, Failure};
use census_requests::change::{Change, changing};
use census_requests::{System, watched};
use census_words::CommandRow;
use census_words::words::{self, Times, Word};
use clap::ArgMatches;
use std::io::{Read, Write};

// The file of a block.
const FILE: Word = Word {
    name: "FILE",
    meaning: "A JSON file such as {\"code\":\"0.07\",\"start\":0,\"values\":[0,0,1,1,2,0,3]}, or -",
    times: Times::One,
};

/// Its row in the table.
pub const ROW: CommandRow = CommandRow {
    name: "import",
    words: &[words::STATE, FILE],
    options: &[words::QUIET],
    line: "Issues a block of values from a JSON file",
    about: "Issues the block of values of a JSON file, and prints its author and number",
    after: "\
The object has exactly the keys code, start (the heap of the first value) and values, 1 to 1024 of
them. The values may be wrong: the catalogue says at which heap.

Exit status: 0 done, 1 refused: Load (the state), Json or Import (the block), Issue, TooMany;
2 command line, 3 file, 4 memory

Example:
  census import anna.state examples/dawson.json",
};

/// Reads the words of the command, does it, and gives the exit status.
pub fn command<R, I, O, E>(
    rt: &R,
    found: &ArgMatches<'_>,
    input: &mut I,
    output: &mut O,
    errors: &mut E,
    audience: Audience,
) -> Result<u8, Failure>
where
    R: System,
    I: Read,
    O: Write,
    E: Write,
{
    let asked = with_order(rt.alloc(), &ROW, task(found))?;
    watched::change(rt, &asked, input, output, errors, audience)?;
    Ok(0)
}

// What its words ask for.
fn task<'a>(found: &ArgMatches<'a>) -> Result<Change<'a>, Failure> {
    changing(found, Some(FILE), Request::Import)
}
