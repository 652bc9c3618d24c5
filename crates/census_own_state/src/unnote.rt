//! `census unnote`: notes are taken back.

use census_arguments::{bytes, with_order};
use census_core::Request;
use census_failure::{Audience, Failure};
use census_requests::change::{Change, changing};
use census_requests::{System, watched};
use census_words::{CommandRow, words};
use clap::ArgMatches;
use std::alloc::Global;
use std::io::{Read, Write};

/// Its row in the table.
pub const ROW: CommandRow = CommandRow {
    name: "unnote",
    words: &[words::STATE, words::NAME],
    options: &[words::QUIET],
    line: "Takes back the notes of a name that this state shows",
    about: "Takes back the notes of a name, and prints the author and number of this operation",
    after: "\
Those that the state shows are taken back. Others of the name, which come later, stay.

Exit status: 0 done, 1 refused: Load (the state), Removal (there is no such note), Issue, TooMany;
2 command line, 3 file, 4 memory

Example:
  census unnote anna.state kayles",
};

/// Reads the words of the command, does it, and gives the exit status.
pub fn command<R, I, O, E>(
    rt: &R,
    found: &ArgMatches<'_>,
    input: &mut I,
    output: &mut O,
    errors: &mut E,
    audience: Audience,
) -> Result<u8, Failure>
where
    R: System,
    I: Read,
    O: Write,
    E: Write,
{
    let asked = with_order(rt.alloc(), &ROW, task(rt.alloc(), found))?;
    watched::change(rt, &asked, input, output, errors, audience)?;
    Ok(0)
}

// What its words ask for.
fn task<'a>(alloc: Global, found: &ArgMatches<'a>) -> Result<Change<'a>, Failure> {
    let request = Request::Unnote {
        name: bytes(alloc, found, words::NAME)?,
    };
    changing(found, None, request)
}
