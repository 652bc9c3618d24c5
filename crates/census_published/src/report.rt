//! `census report`: all that is known, as one page of HTML.

use census_arguments::with_order;
use census_core::{Fault, View};
use census_failure::{Audience, Failure};
use census_requests::viewing::{Viewed, viewing};
use census_requests::{System, watched};
use census_words::CommandRow;
use census_words::words::{self, Choice, Takes};
use clap::ArgMatches;
use oct_text::Shown;
use std::io::{Read, Write};
use std::rt::Files;

// How many values of a game a report shows.
const SHOWN: Choice = Choice {
    name: "values",
    takes: Takes::One("SHOWN"),
    meaning: "How many values of a game are shown: brief or all",
    default: Some("brief"),
};

/// Its row in the table.
pub const ROW: CommandRow = CommandRow {
    name: "report",
    words: &[words::STATE],
    options: &[SHOWN, words::ONLY, words::LIST, words::PART],
    line: "All that is known, as one page of HTML",
    about: "Prints all that is known as one page of HTML",
    after: "\
Tables of all games come first, then notes, forks and authors, then each game with its values and a
picture of the first of them, its blocks and its period claims. Where a period is proved, the values
up to the end of its second run are shown, which go on so for ever; else the first 1,000 and the last
100, unless all are asked for. The page has no script, and names nothing outside it. With --only or
--codes it has the blocks and claims of the games that are named, and the authors of the whole
state; the notes are left out.

Exit status: 0 done, 1 refused: Load (the state), Code; 2 command line, 3 file, 4 memory

Example:
  census report anna.state > anna.html",
};

/// Reads the words of the command, does it, and gives the exit status.
pub fn command<R, I, O, E>(
    rt: &R,
    found: &ArgMatches<'_>,
    input: &mut I,
    output: &mut O,
    errors: &mut E,
    audience: Audience,
) -> Result<u8, Failure>
where
    R: System,
    I: Read,
    O: Write,
    E: Write,
{
    let asked = with_order(rt.alloc(), &ROW, task(rt, found, input))?;
    watched::view(rt, &asked, output, errors, audience)?;
    Ok(0)
}

// What its words ask for.
fn task<'a, R, I>(rt: &R, found: &ArgMatches<'a>, input: &mut I) -> Result<Viewed<'a>, Failure>
where
    R: Files + AllocGlobal,
    I: Read,
{
    let shown = match found.get_str(SHOWN.name) {
        Some("brief") => Shown::Brief,
        Some("all") => Shown::All,
        _ => return Err(Failure::from(Fault::Words)),
    };
    viewing(rt, found, View::Report(shown), input)
}
