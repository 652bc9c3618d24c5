//! `census note`: a note.

use census_arguments::{bytes, with_order};
use census_core::Request;
use census_failure::{Audience, Failure};
use census_requests::change::{Change, changing};
use census_requests::{System, watched};
use census_words::CommandRow;
use census_words::words::{self, Times, Word};
use clap::ArgMatches;
use std::alloc::Global;
use std::io::{Read, Write};

// The text of a note.
const TEXT: Word = Word {
    name: "TEXT",
    meaning: "The note's text, at most 200 bytes of printable ASCII",
    times: Times::One,
};

/// Its row in the table.
pub const ROW: CommandRow = CommandRow {
    name: "note",
    words: &[words::STATE, words::NAME, TEXT],
    options: &[words::QUIET],
    line: "Issues a note",
    about: "Issues a note, and prints its author and number",
    after: "\
A note of the name author-name is the name of its author, and one of the name withdrawn whose text is
the number of a block or claim of the same author, as 2.1, marks this as withdrawn.

Exit status: 0 done, 1 refused: Load (the state), Note, Issue, TooMany; 2 command line, 3 file,
4 memory

Examples:
  census note anna.state kayles 'period 12 from heap 71'
  census note ben.state withdrawn 2.1",
};

/// Reads the words of the command, does it, and gives the exit status.
pub fn command<R, I, O, E>(
    rt: &R,
    found: &ArgMatches<'_>,
    input: &mut I,
    output: &mut O,
    errors: &mut E,
    audience: Audience,
) -> Result<u8, Failure>
where
    R: System,
    I: Read,
    O: Write,
    E: Write,
{
    let asked = with_order(rt.alloc(), &ROW, task(rt.alloc(), found))?;
    watched::change(rt, &asked, input, output, errors, audience)?;
    Ok(0)
}

// What its words ask for.
fn task<'a>(alloc: Global, found: &ArgMatches<'a>) -> Result<Change<'a>, Failure> {
    let request = Request::Note {
        name: bytes(alloc, found, words::NAME)?,
        text: bytes(alloc, found, TEXT)?,
    };
    changing(found, None, request)
}
