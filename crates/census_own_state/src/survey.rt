//! `census survey`: the same, and the period of each game.

use census_arguments::{form, heap_count, listed, with_order};
use census_core::Request;
use census_failure::{Audience, Failure};
use census_requests::change::{Change, changing};
use census_requests::{System, watched};
use census_words::{CommandRow, words};
use clap::ArgMatches;
use std::io::{Read, Write};
use std::rt::Files;

/// Its row in the table.
pub const ROW: CommandRow = CommandRow {
    name: "survey",
    words: &[words::STATE, words::HEAPS, words::CODES],
    options: &[words::LIST, words::PART, words::SKIP_DONE, words::EACH_JSON],
    line: "Does that, finds the period of each game, and claims it",
    about: "Makes the first COUNT values of each game known, and finds and claims its period",
    after: "\
It does for each game in turn what extend does, and says what find says. A period that is found is
claimed, unless the state has that claim. With --json it says it as `find --json` does. On a terminal
a line on standard error says how far it is, which of several games has its turn, and how long all may
take.
The state is written on the way, as extend writes it. The games are named and left out as for extend;
of one that is left out nothing is looked for and nothing is claimed. With --json the line that says
how many these are is an object with the key left_out.

Exit status: 0 done (also where there is no period), 1 refused: Load (the state), Code, Issue,
TooMany; 2 command line, 3 file, 4 memory

Examples, the first with the braces of the shell (the three-digit games of Winning Ways, chapter 4):
  census survey ww.state 4096 0.{0..7}{0..7}{1..7}
  census survey part3.state 4096 --codes codes.txt --part 3/64",
};

/// Reads the words of the command, does it, and gives the exit status.
pub fn command<R, I, O, E>(
    rt: &R,
    found: &ArgMatches<'_>,
    input: &mut I,
    output: &mut O,
    errors: &mut E,
    audience: Audience,
) -> Result<u8, Failure>
where
    R: System,
    I: Read,
    O: Write,
    E: Write,
{
    let asked = with_order(rt.alloc(), &ROW, task(rt, found, input))?;
    watched::change(rt, &asked, input, output, errors, audience)?;
    Ok(0)
}

// What its words ask for.
fn task<'a, R, I>(rt: &R, found: &ArgMatches<'a>, input: &mut I) -> Result<Change<'a>, Failure>
where
    R: Files + AllocGlobal,
    I: Read,
{
    let request = Request::Survey {
        count: heap_count(rt.alloc(), found)?,
        codes: listed(rt, found, words::CODES.name, input)?,
        form: form(found),
    };
    changing(found, None, request)
}
