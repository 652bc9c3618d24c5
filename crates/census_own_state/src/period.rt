//! `census period`: the claim of a period.

use census_arguments::{HEAPS, bytes, number_of, with_order};
use census_core::Request;
use census_failure::{Audience, Failure};
use census_requests::change::{Change, changing};
use census_requests::{System, watched};
use census_words::CommandRow;
use census_words::words::{self, Times, Word};
use clap::ArgMatches;
use std::alloc::Global;
use std::io::{Read, Write};

// The heap from which on a claimed period holds.
const E: Word = Word {
    name: "E",
    meaning: "The heap from which on the values repeat, 1 to 65536",
    times: Times::One,
};

// A claimed period.
const P: Word = Word {
    name: "P",
    meaning: "The period, 1 to 65536",
    times: Times::One,
};

/// Its row in the table.
pub const ROW: CommandRow = CommandRow {
    name: "period",
    words: &[words::STATE, words::CODE, E, P],
    options: &[words::QUIET],
    line: "Claims that a game's values repeat by P from heap E on",
    about: "Issues the claim that a game's values repeat, and prints its author and number",
    after: "\
The claim says that each heap from E on has the value of the heap that is P larger. It is proved
once the first 2E + 2P + k values are known, k the number of digits of the code, and then holds for
all heaps. A state keeps 65,536 values, so a claim that needs more of them is never proved:
for such a period there are notes, as census search --note issues them.

Exit status: 0 done, 1 refused: Load (the state), Code, Period, Issue, TooMany; 2 command line,
3 file, 4 memory

Example:
  census period anna.state 0.77 71 12",
};

/// Reads the words of the command, does it, and gives the exit status.
pub fn command<R, I, O, E>(
    rt: &R,
    found: &ArgMatches<'_>,
    input: &mut I,
    output: &mut O,
    errors: &mut E,
    audience: Audience,
) -> Result<u8, Failure>
where
    R: System,
    I: Read,
    O: Write,
    E: Write,
{
    let asked = with_order(rt.alloc(), &ROW, task(rt.alloc(), found))?;
    watched::change(rt, &asked, input, output, errors, audience)?;
    Ok(0)
}

// What its words ask for.
fn task<'a>(alloc: Global, found: &ArgMatches<'a>) -> Result<Change<'a>, Failure> {
    let request = Request::Period {
        e: number_of(alloc, found, E, HEAPS)?,
        p: number_of(alloc, found, P, HEAPS)?,
        code: bytes(alloc, found, words::CODE)?,
    };
    changing(found, None, request)
}
