//! `census bfile`: the known values of a game.

use census_arguments::{bytes, with_order};
use census_core::Request;
use census_failure::{Audience, Failure};
use census_requests::ask::{Ask, asking};
use census_requests::{System, watched};
use census_words::{CommandRow, words};
use clap::ArgMatches;
use std::alloc::Global;
use std::io::Write;

/// Its row in the table.
pub const ROW: CommandRow = CommandRow {
    name: "bfile",
    words: &[words::STATE, words::CODE],
    options: &[],
    line: "The known values as a b-file",
    about: "Prints the known values of a game as a b-file, as the OEIS takes it",
    after: "\
A line for each heap from 0 on, with the heap, a space and its nim-value.

Exit status: 0 done, 1 refused: Load (the state), Code; 2 command line, 3 file, 4 memory

Example:
  census bfile anna.state 0.77 > b002186.txt",
};

/// Reads the words of the command, does it, and gives the exit status.
pub fn command<R, O, E>(
    rt: &R,
    found: &ArgMatches<'_>,
    output: &mut O,
    errors: &mut E,
    audience: Audience,
) -> Result<u8, Failure>
where
    R: System,
    O: Write,
    E: Write,
{
    let asked = with_order(rt.alloc(), &ROW, task(rt.alloc(), found))?;
    watched::ask(rt, &asked, output, errors, audience)?;
    Ok(0)
}

// What its words ask for.
fn task<'a>(alloc: Global, found: &ArgMatches<'a>) -> Result<Ask<'a>, Failure> {
    let request = Request::Bfile {
        code: bytes(alloc, found, words::CODE)?,
    };
    asking(found, None, request)
}
