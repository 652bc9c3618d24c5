//! `census renumber`: a state goes on under another number.

use census_arguments::{author, with_order};
use census_core::Request;
use census_failure::{Audience, Failure};
use census_requests::change::{Change, changing};
use census_requests::{System, watched};
use census_words::CommandRow;
use census_words::words::{self, Times, Word};
use clap::ArgMatches;
use std::io::{Read, Write};
use std::random::RandomSource;

// The author that a state goes on under.
const OTHER_ID: Word = Word {
    name: "ID",
    meaning: "The new number, 1 to 4294967295; it is drawn where it is left out",
    times: Times::OneOrNone,
};

/// Its row in the table.
pub const ROW: CommandRow = CommandRow {
    name: "renumber",
    words: &[words::STATE, OTHER_ID],
    options: &[],
    line: "Goes on under another number, drawn where none is given",
    about: "Has a state go on under another number, and prints the old one and the new one",
    after: "\
What was issued stays under the old number. What is issued from then on is under the new one, of which
the state may hold no operation. It is for a state that is put back from a copy, since what was issued
after the copy may still come back from others, and for one whose number somebody else has too.

Exit status: 0 done, 1 refused: Load (the state), Zero (the number is 0), Held (the state holds
operations by this number), TooMany; 2 command line, 3 file, 4 memory

Example:
  census renumber anna.state",
};

/// Reads the words of the command, does it, and gives the exit status.
pub fn command<R, I, O, E>(
    rt: &R,
    found: &ArgMatches<'_>,
    input: &mut I,
    output: &mut O,
    errors: &mut E,
    audience: Audience,
) -> Result<u8, Failure>
where
    R: System + RandomSource,
    I: Read,
    O: Write,
    E: Write,
{
    let asked = with_order(rt.alloc(), &ROW, task(rt, found))?;
    watched::change(rt, &asked, input, output, errors, audience)?;
    Ok(0)
}

// What its words ask for.
fn task<'a, R: AllocGlobal + RandomSource>(
    rt: &R,
    found: &ArgMatches<'a>,
) -> Result<Change<'a>, Failure> {
    let request = Request::Renumber {
        id: author(rt, found)?,
    };
    changing(found, None, request)
}
