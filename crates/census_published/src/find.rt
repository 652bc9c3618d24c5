//! `census find`: the period that known values prove.

use census_arguments::{form, listed, with_order};
use census_core::Request;
use census_failure::{Audience, Failure};
use census_requests::ask::{Ask, asking};
use census_requests::{System, watched};
use census_words::{CommandRow, words};
use clap::ArgMatches;
use std::io::{Read, Write};
use std::rt::Files;

/// Its row in the table.
pub const ROW: CommandRow = CommandRow {
    name: "find",
    words: &[words::STATE, words::CODES],
    options: &[words::LIST, words::PART, words::EACH_JSON],
    line: "The period that the known values of each game prove",
    about: "Says which period the known values of each game prove",
    after: "\
A line for each game names the least period P that its known values prove, the least heap E from
which on it holds, and how many values prove it: 2E + 2P + k, k the number of digits of the code. Or
it says `no period in N values`, as many as are known. A period that is named holds for all heaps.
The state stays as it is. With --json a line is an object, whose `period` is null where there is none.
The games are named as for extend.

Exit status: 0 done (also where there is no period), 1 refused: Load (the state), Code;
2 command line, 3 file, 4 memory

Example:
  census find anna.state 0.77",
};

/// Reads the words of the command, does it, and gives the exit status.
pub fn command<R, I, O, E>(
    rt: &R,
    found: &ArgMatches<'_>,
    input: &mut I,
    output: &mut O,
    errors: &mut E,
    audience: Audience,
) -> Result<u8, Failure>
where
    R: System,
    I: Read,
    O: Write,
    E: Write,
{
    let asked = with_order(rt.alloc(), &ROW, task(rt, found, input))?;
    watched::ask(rt, &asked, output, errors, audience)?;
    Ok(0)
}

// What its words ask for.
fn task<'a, R, I>(rt: &R, found: &ArgMatches<'a>, input: &mut I) -> Result<Ask<'a>, Failure>
where
    R: Files + AllocGlobal,
    I: Read,
{
    let request = Request::Find {
        codes: listed(rt, found, words::CODES.name, input)?,
        form: form(found),
    };
    asking(found, None, request)
}
