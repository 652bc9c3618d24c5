//! `census json`: all that is known, for scripts.

use census_arguments::with_order;
use census_core::View;
use census_failure::{Audience, Failure};
use census_requests::viewing::{Viewed, viewing};
use census_requests::{System, watched};
use census_words::{CommandRow, words};
use clap::ArgMatches;
use std::io::{Read, Write};
use std::rt::Files;

/// Its row in the table.
pub const ROW: CommandRow = CommandRow {
    name: "json",
    words: &[words::STATE],
    options: &[words::ONLY, words::LIST, words::PART],
    line: "All that is known, for scripts",
    about: "Prints all that is known as one JSON document",
    after: "\
It has the keys authors, census (the edition of the catalogue), forks, games and notes;
docs/FORMATS.md says what stands under each. With --only or --codes it has the blocks and claims of
the games that are named, and the authors of the whole state; the notes are left out.

Exit status: 0 done, 1 refused: Load (the state), Code; 2 command line, 3 file, 4 memory

Example:
  census json anna.state > anna.json",
};

/// Reads the words of the command, does it, and gives the exit status.
pub fn command<R, I, O, E>(
    rt: &R,
    found: &ArgMatches<'_>,
    input: &mut I,
    output: &mut O,
    errors: &mut E,
    audience: Audience,
) -> Result<u8, Failure>
where
    R: System,
    I: Read,
    O: Write,
    E: Write,
{
    let asked = with_order(rt.alloc(), &ROW, task(rt, found, input))?;
    watched::view(rt, &asked, output, errors, audience)?;
    Ok(0)
}

// What its words ask for.
fn task<'a, R, I>(rt: &R, found: &ArgMatches<'a>, input: &mut I) -> Result<Viewed<'a>, Failure>
where
    R: Files + AllocGlobal,
    I: Read,
{
    viewing(rt, found, View::Json, input)
}
