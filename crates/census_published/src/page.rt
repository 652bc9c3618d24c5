//! `census page`: a page of the catalogue.

use census_arguments::{FROM_0, number_of, with_order};
use census_core::Request;
use census_failure::{Audience, Failure};
use census_requests::ask::{Ask, asking};
use census_requests::{System, watched};
use census_words::CommandRow;
use census_words::words::{self, Times, Word};
use clap::ArgMatches;
use std::alloc::Global;
use std::io::Write;

// The number of a page of the catalogue.
const NUMBER: Word = Word {
    name: "NUMBER",
    meaning: "The page's number, 0 and up; a page has 64 lines",
    times: Times::One,
};

/// Its row in the table.
pub const ROW: CommandRow = CommandRow {
    name: "page",
    words: &[words::STATE, NUMBER],
    options: &[],
    line: "64 lines of it",
    about: "Prints one page of the catalogue",
    after: "\
Exit status: 0 done, 1 refused: Load (the state), NoPage; 2 command line, 3 file, 4 memory

Example:
  census page anna.state 0",
};

/// Reads the words of the command, does it, and gives the exit status.
pub fn command<R, O, E>(
    rt: &R,
    found: &ArgMatches<'_>,
    output: &mut O,
    errors: &mut E,
    audience: Audience,
) -> Result<u8, Failure>
where
    R: System,
    O: Write,
    E: Write,
{
    let asked = with_order(rt.alloc(), &ROW, task(rt.alloc(), found))?;
    watched::ask(rt, &asked, output, errors, audience)?;
    Ok(0)
}

// What its words ask for.
fn task<'a>(alloc: Global, found: &ArgMatches<'a>) -> Result<Ask<'a>, Failure> {
    let request = Request::Page {
        number: number_of(alloc, found, NUMBER, FROM_0)?,
    };
    asking(found, None, request)
}
